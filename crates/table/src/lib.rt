// The slot table: soundness, the lowest slot of a version, each page's highest record and used version.
// The definitions are in specs/.
#![tactic(auto)]

pub mod used; // used.rt: the used versions of all pages

ghost use Rattle.std.specs.Prelude.{◌≡◌, ℕ, ◌+◌, ◌*◌, ◌≤◌, ◌<◌, length, true, false, SomeIff};
ghost use Rattle.bounded.specs.Limits.{no_number};
ghost use Rattle.record.specs.declared.Record.{Record};
ghost use Rattle.std.specs.Prelude.{Some};
ghost use Rattle.record.specs.Slot.{slot_in, holds};
ghost use Rattle.sizes.specs.Sizes.{stride_of};
ghost use Rattle.table.specs.Table.{table_sound, of_version, lowest_slot, above};
ghost use Rattle.table.specs.HighestSlot.{named, entry_of, HighestBelow};

use record::{Record, Slot};
use sizes::{Layout, Sizes};

// No "slot neither blank nor sound".
pub fn table_sound(layout: Layout, sizes: Sizes, words: &[u32]) -> bool
    requires { stride_of layout * sizes.slots ≤ length words.now }
    ensures { result ≡ table_sound sizes.pages sizes.slots (slot_in layout words.now) }
{
    for k in 0..sizes.slots {
        if !record::slot_sound(record::slot_in(layout, words, k), sizes.pages) {
            return false;
        }
    }
    true
}

// The slot holds a record of the page at the version.
pub fn holds_version(slot: Slot, page: u32, version: u32) -> bool
    ensures { result ≡ holds (of_version page version) slot }
{
    let Some(record) = slot else {
        return false;
    };
    record.p == page && record.v == version
}

// The slot's first two words are the page and the version: where they are not, it holds no record of the two.
fn names_version(layout: Layout, words: &[u32], slot: u32, page: u32, version: u32) -> bool
    requires { stride_of layout * slot + stride_of layout ≤ length words.now }
    ensures { result ≡ false → holds (of_version page version) (slot_in layout words.now slot) ≡ false }
{
    let at = layout.stride() * (slot as usize);
    words[at] == page && words[at + 1] == version
}

// "the lowest slot holding the page at" a version, where there is one.
pub fn lowest_slot(
    layout: Layout,
    slots: u32,
    words: &[u32],
    page: u32,
    version: u32,
) -> Option<u32>
    requires { stride_of layout * slots ≤ length words.now }
    ensures { SomeIff result (lowest_slot slots (slot_in layout words.now) page version < slots) (lowest_slot slots (slot_in layout words.now) page version) }
{
    for k in 0..slots {
        if names_version(layout, words, k, page, version)
            && holds_version(record::slot_in(layout, words, k), page, version)
        {
            return Some(k);
        }
    }
    None
}

// The record's version is above what stands in `best`.
pub fn is_above(best: Slot, record: Record) -> bool
    ensures { result ≡ above best «record» }
{
    let Some(held) = best else {
        return true;
    };
    held.v < record.v
}

// The slot's first word, where a record has its page, is that of a blank slot: then it holds no sound record.
pub fn names_no_page(layout: Layout, words: &[u32], slot: u32) -> bool
    requires { stride_of layout * slot + stride_of layout ≤ length words.now }
    ensures { result ≡ true → (r : Record) → slot_in layout words.now slot ≡ Some r → r.p ≡ no_number }
{
    let at = layout.stride() * (slot as usize);
    words[at] == sizes::NO_NUMBER
}

// A sound table of slots, with no more pages and slots than the library takes.
#[derive(Clone, Copy)]
pub struct SoundTable<'a> {
    pub layout: Layout,
    pub sizes: Sizes,
    pub words: &'a [u32],
    pub ghost spans: { stride_of layout * sizes.slots ≤ length words.now },
    pub ghost pages_few: { sizes.pages ≤ 256 },
    pub ghost slots_few: { sizes.slots ≤ 1024 },
    pub ghost sound: { table_sound sizes.pages sizes.slots (slot_in layout words.now) ≡ true },
}

impl SoundTable<'_> {
    // What an entry names: a slot of the table, or blank where it is none.
    pub fn named_slot(&self, entry: Option<u16>) -> Slot
        ensures { result ≡ named self.now.sizes.slots (slot_in self.now.layout self.now.words.now) (entry_of self.now.sizes.slots entry) }
    {
        let slot = u32::from(entry?);
        if slot >= self.sizes.slots {
            return None;
        }
        record::slot_in(self.layout, self.words, slot)
    }

    // What slot k holds; that it is blank is told by its first word.
    fn held_slot(&self, k: u32) -> Slot
        requires { k < self.now.sizes.slots }
        ensures { result ≡ slot_in self.now.layout self.now.words.now k }
    {
        if names_no_page(self.layout, self.words, k) {
            return None;
        }
        record::slot_in(self.layout, self.words, k)
    }

    // Slot k's record, where it is above its page's highest so far, becomes its page's highest.
    fn raise_highest(&self, k: u32, top: &mut [Option<u16>; 256])
        requires k_lt_slots { k < self.now.sizes.slots }
        requires top_before { HighestBelow self.now.sizes.slots k (slot_in self.now.layout self.now.words.now) top.old }
        ensures { HighestBelow self.now.sizes.slots (k + 1) (slot_in self.now.layout self.now.words.now) top.new }
    {
        let Some(record) = self.held_slot(k) else {
            return;
        };
        let p = record.p as usize;
        if is_above(self.named_slot(top[p]), record) {
            top[p] = Some(k as u16);
        }
    }

    // Each page's slot with its highest record, in one pass over the slots: entry p is page p's, none where p has no record.
    // Kept beside `used_versions`: what the two passes share is `held_slot` and a `for` of one line; one pass with the step as a closure would say in its
    // contract what states the closure goes through.
    pub fn highest_slots(&self, top: &mut [Option<u16>; 256])
        ensures { HighestBelow self.now.sizes.slots self.now.sizes.slots (slot_in self.now.layout self.now.words.now) top.new }
    {
        *top = [None; 256];
        for k in 0..self.sizes.slots {
            self.raise_highest(k, top);
        }
    }
}
