// Every page read and held against what is kept of it, the volume judged once for all of them.

ghost use Rattle.std.specs.Prelude.{◌≡◌, ◌==◌, ◌≤◌, ◌<◌, length};
ghost use Rattle.std.specs.List.{list_all};
ghost use Rattle.bounded.specs.Limits.{two_widths};
ghost use Rattle.bounded.specs.Below.{all_below};
ghost use Rattle.rules.specs.Volume.{volume, volume_fits};
ghost use Rattle.rules.specs.laws.Chains.{judged};
ghost use Rattle.atomicity.specs.Family.{back_pointer};
ghost use Rattle.everywhere.specs.Cuts.{are_reads_kept};
ghost use Rattle.ledger.specs.Ledger.{filled};

use record::flash;
use sizes::{Layout, Sizes};
use volume::Volume;

// Every byte is the fill.
fn all_are(bytes: &[u8], fill: u32) -> bool
    ensures { result ≡ list_all (λ b. b == fill) bytes.now }
{
    bytes.iter().all(|&byte| u32::from(byte) == fill)
}

// Of a volume that is judged and passes: read of the page answers 0 and copies bytes that are all its fill. They are compared where they lie.
fn is_kept(
    sizes: Sizes,
    words: &[u32],
    contents: &[u8],
    state: &[u32],
    fills: &[u32],
    page: u32,
) -> bool
    requires state_value { judged (volume_fits two_widths sizes (volume words.now contents.now state.now)) sizes.pages sizes.slots words.now state.now ≡ 0 }
    requires page_lt_pages { page < sizes.pages }
    requires pages_in_bounds { sizes.pages ≤ length fills.now }
    ensures { result ≡ are_reads_kept back_pointer two_widths sizes (volume words.now contents.now state.now) (filled sizes.width fills.now) page }
{
    let Some(slot) = reader::committed_slot(Layout::FiveWords, sizes.slots, words, state, page)
    else {
        return false;
    };
    all_are(
        flash::bytes_of(contents, sizes.width as usize, slot),
        fills[page as usize],
    )
}

// Read of every page answers 0 and copies bytes that are all its fill.
pub fn all_kept(sizes: Sizes, words: &[u32], contents: &[u8], state: &[u32], fills: &[u32]) -> bool
    requires le_pages { 1 ≤ sizes.pages }
    requires pages_in_bounds { sizes.pages ≤ length fills.now }
    ensures { result ≡ all_below sizes.pages (are_reads_kept back_pointer two_widths sizes (volume words.now contents.now state.now) (filled sizes.width fills.now)) }
{
    let volume = Volume::new(Layout::FiveWords, sizes, words, contents, state);
    if volume.judged().is_err() {
        return false;
    }
    for page in 0..sizes.pages {
        if !is_kept(sizes, words, contents, state, fills, page) {
            return false;
        }
    }
    true
}
