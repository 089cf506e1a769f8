// The slots of one page and version, searched for along a chain.

ghost use Rattle.std.specs.Prelude.{◌≡◌, true, ◌+◌, ◌*◌, ◌≤◌, length};
ghost use Rattle.sizes.specs.Sizes.{stride_of};
ghost use Rattle.record.specs.Slot.{slot_in, holds};
ghost use Rattle.table.specs.Table.{of_version, clash};
ghost use Rattle.chain.specs.declared.Key.TheVariants.{Version};
ghost use Rattle.chain.specs.Chain.{by_version, end_of, Chained, ChainedTo, Found};

use super::{Key, before, last_of};
use record::Record;
use sizes::Layout;

// The search goes along so many slots of a chain. Of a longer one it looks at all slots of the table, one after the other: so it takes little longer than
// a search without chains on any table.
const LONG: u32 = 32;

// A slot below n of the page and version, by a look at all slots below n. Few searches come to it, so it stands apart from their loop.
#[cold]
#[inline(never)]
fn scan_version(layout: Layout, n: u32, words: &[u32], page: u32, version: u32) -> Option<u32>
    requires n_in_bounds { stride_of layout * n ≤ length words.now }
    requires n_bound { n ≤ 1024 }
    ensures { Found n (λ j. holds (of_version page version) (slot_in layout words.now j)) (end_of result) }
{
    table::lowest_slot(layout, n, words, page, version)
}

// The same along the chain that records of the page and version are in, from its last slot down, where the chain has one.
pub fn find_version_from(
    layout: Layout,
    n: u32,
    words: &[u32],
    chains: &[u16; 2048],
    last: Option<u32>,
    page: u32,
    version: u32,
) -> Option<u32>
    requires n_in_bounds { stride_of layout * n ≤ length words.now }
    requires n_bound { n ≤ 1024 }
    requires chained_to { ChainedTo n (slot_in layout words.now) chains.now (end_of last) page version }
    ensures { Found n (λ j. holds (of_version page version) (slot_in layout words.now j)) (end_of result) }
{
    let mut slot = last?;
    for _ in 0..LONG {
        if table::holds_version(record::slot_in(layout, words, slot), page, version) {
            return Some(slot);
        }
        slot = before(chains, slot)?;
    }
    scan_version(layout, n, words, page, version)
}

// The same along the record's chain.
pub fn find_version(
    layout: Layout,
    key: Key,
    n: u32,
    words: &[u32],
    chains: &[u16; 2048],
    record: Record,
) -> Option<u32>
    requires n_in_bounds { stride_of layout * n ≤ length words.now }
    requires n_bound { n ≤ 1024 }
    requires key_value { by_version key ≡ true }
    requires chained { Chained key n (slot_in layout words.now) chains.now }
    ensures { Found n (λ j. holds (of_version «record».p «record».v) (slot_in layout words.now j)) (end_of result) }
{
    let last = last_of(chains, key, record);
    find_version_from(layout, n, words, chains, last, record.p, record.v)
}

// A slot below k that holds a record of "equal page and version" with slot k's. The slots below k are chained.
pub fn find_clash(layout: Layout, words: &[u32], chains: &[u16; 2048], k: u32) -> Option<u32>
    requires layout_in_bounds { stride_of layout * k + stride_of layout ≤ length words.now }
    requires k_bound { k ≤ 1024 }
    requires chained { Chained Version k (slot_in layout words.now) chains.now }
    ensures { Found k (λ j. clash (slot_in layout words.now j) (slot_in layout words.now k)) (end_of result) }
{
    let Some(record) = record::slot_in(layout, words, k) else {
        return None;
    };
    find_version(layout, Key::Version, k, words, chains, record)
}
