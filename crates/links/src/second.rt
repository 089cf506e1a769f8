// The highest version of a page below a version: with no back pointer, the committed version where the highest record is uncommitted.

ghost use Rattle.std.specs.Prelude.{◌≡◌, ◌*◌, ◌≤◌, length};
ghost use Rattle.sizes.specs.declared.Layout.TheVariants.{FourWords};
ghost use Rattle.record.specs.Slot.{slot_in};
ghost use Rattle.table.specs.Table.{highest};
ghost use Rattle.rules.specs.Simple.{under};
ghost use Rattle.chain.specs.declared.Key.TheVariants.{Page};
ghost use Rattle.chain.specs.Chain.{Chained};
ghost use Rattle.links.specs.Committed.{held_version, mark, mark_under};

use record::Slot;
use sizes::Layout;

// The version of a record of the page below the version, if the slot holds one.
#[tactic(auto, unfolding(crate::specs::Committed::mark_under))]
fn version_under(slot: Slot, page: u32, version: u32) -> Option<u32>
    ensures { mark result ≡ mark_under page version slot }
{
    let Some(record) = slot else {
        return None;
    };
    if record.p != page || record.v >= version {
        return None;
    }
    Some(record.v)
}

// Along the page's chain, if the page has one below this version.
pub fn version_below(
    slots: u32,
    words: &[u32],
    chains: &[u16; 2048],
    page: u32,
    version: u32,
) -> Option<u32>
    requires slots_in_bounds { 4 * slots ≤ length words.now }
    requires slots_bound { slots ≤ 1024 }
    requires chained { Chained Page slots (slot_in FourWords words.now) chains.now }
    ensures { result ≡ held_version (highest slots (under version (slot_in FourWords words.now)) page) }
{
    let mut best = None;
    let mut at = chain::last_of_page(chains, page);
    while let Some(slot) = at {
        let slot_held = record::slot_in(Layout::FourWords, words, slot);
        best = best.max(version_under(slot_held, page, version));
        at = chain::before(chains, slot);
    }
    best
}
