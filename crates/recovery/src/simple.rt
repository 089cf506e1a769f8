// Recover of records without a back pointer, which have no twins.

ghost use Rattle.std.specs.Prelude.{◌≡◌};
ghost use Rattle.bounded.specs.Limits.{two_widths};
ghost use Rattle.outcome.specs.Result.{outcome_by};
ghost use Rattle.rules.specs.SimpleCalls.{simple_recover_outcome};

use super::recover_sound;
use outcome::Refusal;
use sizes::{Layout, Sizes};
use table::SoundTable;

// Kept: beside the other recover, from which its tests of size and of equal versions differ; what both do then is `recover_sound`.
// Recover; "two records of equal page and version always give 3".
pub fn recover(sizes: Sizes, words: &[u32], state: &mut [u32]) -> Result<u32, Refusal>
    ensures { outcome_by 0 result state.new ≡ simple_recover_outcome two_widths sizes words.now state.old }
{
    if !sizes::table_ok(Layout::FourWords, sizes, words, state) {
        return Err(Refusal::WrongSize);
    }
    if !table::table_sound(Layout::FourWords, sizes, words) {
        return Err(Refusal::SlotUnsound);
    }
    let mut chains = [0; 2048];
    if conflict::some_clash(Layout::FourWords, sizes.slots, words, &mut chains) {
        return Err(Refusal::RecordsClash);
    }
    let table = SoundTable {
        layout: Layout::FourWords,
        sizes,
        words,
    };
    recover_sound(&table, &mut chains, state)
}
