// The cuts in an erase, "in rising slot order": the flash before it, kept in buffers of its own, with the listed slots up to one blanked.

ghost use Rattle.std.specs.Prelude.{◌≡◌, ◌+◌, ◌≤◌, length};
ghost use Rattle.bounded.specs.Limits.{two_widths};
ghost use Rattle.sizes.specs.declared.Layout.TheVariants.{FiveWords};
ghost use Rattle.record.specs.Flash.{flash, apply_all};
ghost use Rattle.rules.specs.Erase.{erase_steps};
ghost use Rattle.collect.specs.EraseLaws.{ListedIn};
ghost use Rattle.dispatch.specs.Dispatch.{lost};
ghost use Rattle.atomicity.specs.Run.{done_of};
ghost use Rattle.everywhere.specs.Cuts.{up_to};
ghost use Rattle.ledger.specs.Ledger.{filled};
ghost use Rattle.cutpoint.specs.Judged.{tallied, erase_cuts};

use super::Tally;
use super::copy::copy_flash;
use sizes::{Layout, Sizes};

// The listed slots up to `last` are blanked; all of them where `last` is NO_NUMBER.
pub fn blank_up_to(width: u32, words: &mut [u32], contents: &mut [u8], list: &[u32], last: u32)
    requires listed_in { ListedIn FiveWords width words.old contents.old list.now }
    requires width_bound { width ≤ 64 }
    ensures { flash words.new contents.new ≡ apply_all width (flash words.old contents.old) (done_of (up_to list.now last) 0 (erase_steps list.now)) }
{
    for &slot in list {
        if slot <= last {
            collect::blank_slot(Layout::FiveWords, width, words, contents, slot);
        }
    }
}

// What an erase is cut in: the flash before it, and each page's kept fill, which every cut is held against.
#[derive(Clone, Copy)]
pub struct Before<'a> {
    pub sizes: Sizes,
    pub words: &'a [u32],
    pub contents: &'a [u8],
    pub fills: &'a [u32],
    pub ghost narrow: { sizes.width ≤ 64 },
    pub ghost filled_all: { sizes.pages ≤ length fills.now },
}

impl Before<'_> {
    // All cuts in an erase of these slots, each of a copy of the flash before it.
    pub fn cut_each_slot(
        &self,
        tally: Tally,
        list: &[u32],
        words: &mut [u32],
        contents: &mut [u8],
        state: &mut [u32],
    ) -> Tally
        requires words_len { length words.old ≡ length self.now.words.now }
        requires contents_len { length contents.old ≡ length self.now.contents.now }
        requires listed_in { ListedIn FiveWords self.now.sizes.width self.now.words.now self.now.contents.now list.now }
        requires list_bound { tally.same + tally.differ + length list.now ≤ 4294967295 }
        ensures { result ≡ tallied tally
            (erase_cuts two_widths self.now.sizes (flash self.now.words.now self.now.contents.now) (lost state.old) (filled self.now.sizes.width self.now.fills.now) list.now) }
    {
        let mut so_far = tally;
        for &slot in list {
            copy_flash(self.words, self.contents, words, contents);
            blank_up_to(self.sizes.width, words, contents, list, slot);
            so_far = so_far.count(super::comes_back(
                self.sizes, words, contents, state, self.fills,
            ));
        }
        so_far
    }
}
