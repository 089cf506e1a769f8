// Records of equal page and version: whether the table has two, and two that are no twins. Each record is looked up among those before it, which are
// chained by page and version in lent tables. The definitions are in crates table and twins.
#![tactic(auto)]

ghost use Rattle.std.specs.Prelude.{◌≡◌, false, not, ◌&&◌, ◌+◌, ◌*◌, ◌≤◌, ◌<◌, length};
ghost use Rattle.bounded.specs.Below.{some_below};
ghost use Rattle.sizes.specs.Sizes.{stride_of};
ghost use Rattle.record.specs.Slot.{slot_in, slot_at};
ghost use Rattle.record.specs.Flash.{flash};
ghost use Rattle.table.specs.Table.{clash, some_clash};
ghost use Rattle.twins.specs.Twins.{twins, some_conflict};
ghost use Rattle.chain.specs.declared.Key.TheVariants.{Version};
ghost use Rattle.chain.specs.Chain.{Chained};

use chain::Key;
use sizes::{Layout, Sizes};

// "two records with equal page and version": two slots of the table hold such.
pub fn some_clash(layout: Layout, slots: u32, words: &[u32], chains: &mut [u16; 2048]) -> bool
    requires slots_in_bounds { stride_of layout * slots ≤ length words.now }
    requires slots_bound { slots ≤ 1024 }
    ensures { result ≡ some_clash slots (slot_in layout words.now) }
{
    *chains = [0; 2048];
    for k in 0..slots {
        if chain::version::find_clash(layout, words, chains, k).is_some() {
            return true;
        }
        chain::link_slot(layout, Key::Version, words, k, chains);
    }
    false
}

// Some slot below k conflicts with slot k, where no two below k do: then "equal page and version" below k are twins, so one such slot tells for all.
fn conflicts_below(width: u32, words: &[u32], contents: &[u8], chains: &[u16; 2048], k: u32) -> bool
    requires k_in_bounds { 5 * k + 5 ≤ length words.now }
    requires width_in_bounds { width * k + width ≤ length contents.now }
    requires k_bound { k < 1024 }
    requires contents_value { some_conflict k (slot_at words.now) (twins width (flash words.now contents.now)) ≡ false }
    requires chained { Chained Version k (slot_at words.now) chains.now }
    ensures { result ≡ some_below k (λ j. clash (slot_at words.now j) (slot_at words.now k) && not (twins width (flash words.now contents.now) j k)) }
{
    let Some(other) = chain::version::find_clash(Layout::FiveWords, words, chains, k) else {
        return false;
    };
    !twins::are_twins(width, words, contents, other, k)
}

// "for equal page and version recovery gives 3 only if the two are no twins": two slots of the table are so.
pub fn some_conflict(sizes: Sizes, words: &[u32], contents: &[u8], chains: &mut [u16; 2048]) -> bool
    requires slots_in_bounds { 5 * sizes.slots ≤ length words.now }
    requires slots_in_bounds_2 { sizes.width * sizes.slots ≤ length contents.now }
    requires slots_bound { sizes.slots ≤ 1024 }
    ensures { result ≡ some_conflict sizes.slots (slot_at words.now) (twins sizes.width (flash words.now contents.now)) }
{
    *chains = [0; 2048];
    for k in 0..sizes.slots {
        let Some(_) = record::slot_at(words, k) else {
            continue;
        };
        if conflicts_below(sizes.width, words, contents, chains, k) {
            return true;
        }
        chain::link_slot(Layout::FiveWords, Key::Version, words, k, chains);
    }
    false
}
