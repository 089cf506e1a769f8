// A cut judged: a flash that a cut left is recovered and every page read; and all cuts in an erase.

#![tactic(auto)]

pub mod copy; // copy.rt: the flash copied
pub mod page; // page.rt: every page read and held against what is kept of it
pub mod erase; // erase.rt: the cuts in an erase

ghost use Rattle.std.specs.Prelude.{◌≡◌, ◌∷◌, [], ◌+◌, ◌≤◌, length};
ghost use Rattle.bounded.specs.Limits.{two_widths};
ghost use Rattle.rules.specs.Volume.{volume};
ghost use Rattle.dispatch.specs.Dispatch.{lost};
ghost use Rattle.atomicity.specs.Family.{back_pointer};
ghost use Rattle.everywhere.specs.Cuts.{comes_back};
ghost use Rattle.ledger.specs.Ledger.{filled};
ghost use Rattle.cutpoint.specs.Judged.{tallied};

use sizes::Sizes;

// How many cuts came back the same, and how many did not.
#[derive(Clone, Copy, Default)]
pub struct Tally {
    pub same: u32,
    pub differ: u32,
}

impl Tally {
    // One cut more.
    pub fn count(self, same: bool) -> Tally
        requires { self.same + self.differ + 1 ≤ 4294967295 }
        ensures { result ≡ tallied self (same ∷ []) }
    {
        if same {
            Tally {
                same: self.same + 1,
                ..self
            }
        } else {
            Tally {
                differ: self.differ + 1,
                ..self
            }
        }
    }
}

// A flash that a cut left, recovered on a state that is lost: recover answers 0, and read of every page answers 0 and copies what is kept of it, bytes all of
// which are the page's fill.
pub fn comes_back(
    sizes: Sizes,
    words: &[u32],
    contents: &[u8],
    state: &mut [u32],
    fills: &[u32],
) -> bool
    requires { sizes.pages ≤ length fills.now }
    ensures { result ≡ comes_back back_pointer two_widths sizes (volume words.now contents.now (lost state.old)) (filled sizes.width fills.now) }
{
    dispatch::lose(state);
    recovery::recover(sizes, words, contents, state).is_ok()
        && page::all_kept(sizes, words, contents, state, fills)
}
