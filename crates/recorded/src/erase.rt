// An erase, our own or the trial one, with all its cuts.

ghost use Rattle.std.specs.Prelude.{◌≡◌, ℕ, ◌+◌, ◌≤◌, List, length};
ghost use Rattle.bounded.specs.Limits.{two_widths};
ghost use Rattle.outcome.specs.Result.{ends};
ghost use Rattle.sizes.specs.declared.Layout.TheVariants.{FiveWords};
ghost use Rattle.record.specs.Flash.{flash};
ghost use Rattle.rules.specs.Volume.{volume};
ghost use Rattle.rules.specs.laws.Volume.{FitsIn};
ghost use Rattle.collect.specs.EraseLaws.{ListedIn};
ghost use Rattle.everywhere.specs.Cuts.{wiped_state, erase_outcome_by};
ghost use Rattle.ledger.specs.Ledger.{filled};
ghost use Rattle.cutpoint.specs.Judged.{tallied, erase_cuts};
ghost use Rattle.recorded.specs.Desk.{desk, erase_desk, cuts_of_erase};

use super::Desk;
use cutpoint::Tally;
use cutpoint::erase::Before;
use outcome::Refusal;
use sizes::{Layout, Sizes};

// "A trial erase that never answers 12": what erase refuses so is then done.
fn erase(
    trial: bool,
    sizes: Sizes,
    words: &mut [u32],
    contents: &mut [u8],
    state: &[u32],
    list: &[u32],
) -> Result<(), Refusal>
    ensures { ends result (flash words.new contents.new)
        ≡ erase_outcome_by trial two_widths sizes (volume words.old contents.old state.now) list.now }
{
    let erased = collect::erase(Layout::FiveWords, sizes, words, contents, state, list);
    if trial && erased == Err(Refusal::MayNotErase) {
        collect::blank_listed(Layout::FiveWords, sizes.width, words, contents, list);
        return Ok(());
    }
    erased
}

// All cuts in an erase of these slots, each made in a copy of the flash before it, on a state as long as this one.
// Kept: what is before it part by part, since the proof knows of a field lent to a `Before` only how long it is afterwards.
fn cut_copies(
    tally: Tally,
    sizes: Sizes,
    words: &[u32],
    contents: &[u8],
    fills: &[u32],
    list: &[u32],
    state: &[u32],
) -> Tally
    requires fits_in { FitsIn FiveWords two_widths sizes (volume words.now contents.now state.now) }
    requires pages_in_bounds { sizes.pages ≤ length fills.now }
    requires listed_in { ListedIn FiveWords sizes.width words.now contents.now list.now }
    requires list_bound { tally.same + tally.differ + length list.now ≤ 4294967295 }
    ensures { result ≡ tallied tally
        (erase_cuts two_widths sizes (flash words.now contents.now) (wiped_state sizes) (filled sizes.width fills.now) list.now) }
{
    let mut cut_words = [0u32; 5120];
    let mut cut_contents = [0u8; 65536];
    let mut lost = [0u32; 1024];
    let w = words.len();
    let b = contents.len();
    let s = state.len();
    let before = Before {
        sizes,
        words,
        contents,
        fills,
    };
    before.cut_each_slot(
        tally,
        list,
        &mut cut_words[0..w],
        &mut cut_contents[0..b],
        &mut lost[0..s],
    )
}

// An erase, and the cuts in it where it is accepted: the flash before it is kept in buffers of its own.
pub fn erase_line(
    trial: bool,
    tally: Tally,
    sizes: Sizes,
    list: &[u32],
    words: &mut [u32],
    contents: &mut [u8],
    state: &[u32],
    kept: &[u32],
) -> Tally
    requires fits_in { FitsIn FiveWords two_widths sizes (volume words.old contents.old state.now) }
    requires pages_in_bounds { sizes.pages ≤ length kept.now }
    requires list_bound { tally.same + tally.differ + length list.now ≤ 4294967295 }
    ensures leaves { flash words.new contents.new
        ≡ (erase_outcome_by trial two_widths sizes (volume words.old contents.old state.now) list.now).left }
    ensures counts { (entered : List ℕ) → result ≡ tallied tally
        (cuts_of_erase two_widths sizes trial (desk (volume words.old contents.old state.now) entered kept.now) list.now) }
{
    let mut from_words = [0u32; 5120];
    let mut from_contents = [0u8; 65536];
    let w = words.len();
    let b = contents.len();
    cutpoint::copy::copy_flash(
        words,
        contents,
        &mut from_words[0..w],
        &mut from_contents[0..b],
    );
    if erase(trial, sizes, words, contents, state, list).is_err() {
        return tally;
    }
    cut_copies(
        tally,
        sizes,
        &from_words[0..w],
        &from_contents[0..b],
        kept,
        list,
        state,
    )
}

impl Desk<'_> {
    ghost use Rattle.recorded.specs.Held.{desk_of, SameBuffers};
    ghost use Rattle.recorded.specs.Bytes.{InBytes};

    // An erase, and the cuts in it where it is accepted: the flash before it is kept in buffers of its own.
    pub fn erase_line(&mut self, tally: Tally, list: &[u32]) -> Tally
        requires { tally.same + tally.differ + length list.now ≤ 4294967295 }
        ensures leaves { desk_of self.new ≡ erase_desk two_widths self.old.sizes self.old.trial (desk_of self.old) list.now }
        ensures counts { result ≡ tallied tally (cuts_of_erase two_widths self.old.sizes self.old.trial (desk_of self.old) list.now) }
        ensures same_sizes { self.new.sizes ≡ self.old.sizes }
        ensures same_trial { self.new.trial ≡ self.old.trial }
        ensures same_buffers { SameBuffers self.old self.new }
        ensures bytes { InBytes (desk_of self.old) → InBytes (desk_of self.new) }
    {
        let words = &mut *self.words;
        let contents = &mut *self.contents;
        let state = &mut *self.state;
        let kept = &mut *self.kept;
        erase_line(
            self.trial, tally, self.sizes, list, words, contents, state, kept,
        )
    }
}
