// The slots as chains, made in one pass over the slots: then those of one chain are searched without looking at any other. The chains
// are a table of 1,024 numbers, one for each chain, and 1,024 for the slots. The definitions are in specs/.
#![tactic(auto)]

pub mod version; // version.rt: the slots of one page and version

ghost use Rattle.std.specs.Prelude.{None, ℕ, ◌≡◌, true, cond, ◌+◌, ◌*◌, ◌-◌, ◌%◌, ◌≤◌, ◌<◌, length, get_or};
ghost use Rattle.sizes.specs.Sizes.{stride_of};
ghost use Rattle.record.specs.Slot.{slot_in};
ghost use Rattle.table.specs.Table.{table_sound};
ghost use Rattle.chain.specs.Chain.{may_straddle, chain_of, end_of, Chained};

use record::Record;
use sizes::{Layout, Sizes};

// What the records of one chain share.
#[derive(Clone, Copy)]
pub enum Key {
    Page,
    // The page, of records that may straddle a link.
    Straddler,
    // The page, and the back pointer modulo 4.
    Pointer,
    // One number made of page and version.
    Version,
}

// The slot in front of an end, which the table keeps in place of it: 1 more than the slot, and 0 where there is none, so that an entry has 16 bits.
fn slot_before(end: u16) -> Option<u32>
    ensures { end_of result ≡ end }
{
    (end as u32).checked_sub(1)
}

// The page where the record may straddle a link; else a chain that is no page's.
fn straddler_chain(page: u32, record: Record) -> u32
    ensures { result ≡ cond (may_straddle «record») page 256 }
{
    if record.v.saturating_sub(record.c) > 1 {
        page
    } else {
        256
    }
}

// The record's chain.
fn chain_of(key: Key, record: Record) -> u32
    ensures { result ≡ chain_of key «record» }
{
    let page = record.p % 256;
    match key {
        Key::Page => page,
        Key::Straddler => straddler_chain(page, record),
        Key::Pointer => 4 * page + record.c % 4,
        Key::Version => (4 * (181 * page % 256) + record.v % 1024) % 1024,
    }
}

// The last slot of the record's chain.
pub fn last_of(chains: &[u16; 2048], key: Key, record: Record) -> Option<u32>
    ensures { end_of result ≡ get_or chains.now (chain_of key «record») 0 }
{
    let chain = chain_of(key, record);
    slot_before(chains[chain as usize])
}

// The last slot of a page, chained by page or, of those that may straddle a link, by straddler.
pub fn last_of_page(chains: &[u16; 2048], page: u32) -> Option<u32>
    ensures { end_of result ≡ get_or chains.now (page % 256) 0 }
{
    slot_before(chains[(page % 256) as usize])
}

// The slot before this one in its chain.
pub fn before(chains: &[u16; 2048], slot: u32) -> Option<u32>
    requires { slot < 1024 }
    ensures { end_of result ≡ get_or chains.now (1024 + slot) 0 }
{
    slot_before(chains[1024 + slot as usize])
}

// Slot k's record becomes the last of its chain.
pub fn link_slot(layout: Layout, key: Key, words: &[u32], k: u32, chains: &mut [u16; 2048])
    requires layout_in_bounds { stride_of layout * k + stride_of layout ≤ length words.now }
    requires k_bound { k < 1024 }
    requires chained { Chained key k (slot_in layout words.now) chains.old }
    ensures { Chained key (k + 1) (slot_in layout words.now) chains.new }
{
    let Some(record) = record::slot_in(layout, words, k) else {
        return;
    };
    let chain = chain_of(key, record) as usize;
    let at = 1024 + k as usize;
    chains[at] = chains[chain];
    chains[chain] = (k + 1) as u16;
}

// The chains of all slots but those passed by, which are blank, in one pass over them.
fn link_all_but<F: Fn(u32) -> bool>(
    layout: Layout,
    key: Key,
    slots: u32,
    words: &[u32],
    chains: &mut [u16; 2048],
    passes: F,
)
    requires slots_in_bounds { stride_of layout * slots ≤ length words.now }
    requires slots_bound { slots ≤ 1024 }
    requires callable { (k : ℕ) → k < slots → F.pre passes k }
    requires blank { (k : ℕ) → k < slots → F.post passes k true → slot_in layout words.now k ≡ None }
    ensures { Chained key slots (slot_in layout words.now) chains.new }
{
    *chains = [0; 2048];
    for k in 0..slots {
        if !passes(k) {
            link_slot(layout, key, words, k, chains);
        }
    }
}

// The chains of all slots.
pub fn link_slots(layout: Layout, key: Key, slots: u32, words: &[u32], chains: &mut [u16; 2048])
    requires slots_in_bounds { stride_of layout * slots ≤ length words.now }
    requires slots_bound { slots ≤ 1024 }
    ensures { Chained key slots (slot_in layout words.now) chains.new }
{
    link_all_but(layout, key, slots, words, chains, |_| false);
}

// The chains of all slots of a sound table, where a blank slot is told by its first word.
pub fn link_sound_slots(
    layout: Layout,
    key: Key,
    sizes: Sizes,
    words: &[u32],
    chains: &mut [u16; 2048],
)
    requires slots_in_bounds { stride_of layout * sizes.slots ≤ length words.now }
    requires slots_bound { sizes.slots ≤ 1024 }
    requires words_value { table_sound sizes.pages sizes.slots (slot_in layout words.now) ≡ true }
    ensures { Chained key sizes.slots (slot_in layout words.now) chains.new }
{
    link_all_but(layout, key, sizes.slots, words, chains, |k| {
        table::names_no_page(layout, words, k)
    });
}
