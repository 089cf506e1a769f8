// What a call tests before a filling is tried.

ghost use Rattle.std.specs.Prelude.{◌≡◌, ◌*◌, ◌≤◌, length};
ghost use Rattle.bounded.specs.Limits.{two_widths};
ghost use Rattle.outcome.specs.Result.{answer_of};
ghost use Rattle.record.specs.Flash.{flash};
ghost use Rattle.upkeep.specs.Doubtful.{doubtful_fits, doubtful_list_ok};
ghost use Rattle.doubtful.specs.Tested.{doubtful_tested};

use outcome::Refusal;
use sizes::{Layout, Sizes};

// "more than 8 doubtful slots"
const MAX_DOUBTFUL: usize = 8;

// P, S, the width and the lengths are right.
#[tactic(auto, unfolding(upkeep::specs::Doubtful::doubtful_fits))]
fn fits(sizes: Sizes, words: &[u32], contents: &[u8], out: &[u32]) -> bool
    ensures { result ≡ doubtful_fits two_widths sizes (flash words.now contents.now) out.now }
{
    sizes.are_ok()
        && sizes::words_fit(Layout::FiveWords, sizes.slots, words)
        && sizes::contents_fit(sizes.width, sizes.slots, contents)
        && out.len() == 2 * (sizes.pages as usize)
}

// "6 (whose empty-list rule does not apply here)"; "a listed blank slot is 6"
fn list_ok(slots: u32, words: &[u32], list: &[u32]) -> bool
    requires slots_bound { slots ≤ 1024 }
    requires slots_in_bounds { 5 * slots ≤ length words.now }
    ensures { result ≡ doubtful_list_ok slots words.now list.now }
{
    if list.is_empty() {
        return true;
    }
    sizes::list_ok(slots, list)
        && list
            .iter()
            .all(|&slot| record::slot_at(words, slot).is_some())
}

// A call is refused by the first condition that is met before a filling is tried.
// Kept: apart, so that what a list is tested by is off the stack where fillings are recovered.
#[inline(never)]
#[tactic(auto, unfolding(crate::specs::Tested::doubtful_tested))]
pub fn judged(
    sizes: Sizes,
    words: &[u32],
    contents: &[u8],
    list: &[u32],
    out: &[u32],
) -> Result<(), Refusal>
    ensures { answer_of result ≡ doubtful_tested two_widths sizes (flash words.now contents.now) list.now out.now }
{
    if !fits(sizes, words, contents, out) {
        return Err(Refusal::WrongSize);
    }
    if !table::table_sound(Layout::FiveWords, sizes, words) {
        return Err(Refusal::SlotUnsound);
    }
    if !list_ok(sizes.slots, words, list) {
        return Err(Refusal::WrongList);
    }
    if list.len() > MAX_DOUBTFUL {
        return Err(Refusal::TooManyDoubtful);
    }
    Ok(())
}
