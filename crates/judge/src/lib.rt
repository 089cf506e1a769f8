// The permission to erase listed slots: crate permit's for one slot, and a twin that is not in the list. A mark stands for each listed slot. The
// definitions are in crate rules.

#![tactic(auto)]

pub mod choose; // choose.rt: slots that a call chooses itself

ghost use Rattle.std.specs.Prelude.{◌≡◌, not, ◌&&◌, ℕ, ◌*◌, ◌≤◌, ◌<◌, length, get_or, SomeIff};
ghost use Rattle.bounded.specs.Below.{first_below};
ghost use Rattle.sizes.specs.Sizes.{listed};
ghost use Rattle.sizes.specs.Lists.{Listed};
ghost use Rattle.record.specs.Flash.{flash};
ghost use Rattle.chain.specs.Chain.{Linkable};
ghost use Rattle.twins.specs.Twins.{twins};
ghost use Rattle.rules.specs.Volume.{volume};
ghost use Rattle.rules.specs.Permission.{twin_outside, scene_of, may_erase_from, may_erase_all, may_erase_alone};
ghost use Rattle.rules.specs.Suggest.{suggested_slot};
ghost use Rattle.judge.specs.Marked.{marked, NoMarks};

use chain::Key;
use noted::Slots;
use permit::Table;
use sizes::Sizes;

// The listed slots marked, and no other.
fn mark_listed(list: &[u32], marks: &mut [bool; 1024])
    requires { (i : ℕ) → i < length list.now → get_or list.now i 0 < 1024 }
    ensures { marked marks.new ≡ listed list.now }
{
    *marks = [false; 1024];
    for &slot in list {
        marks[slot as usize] = true;
    }
}

// What slots are judged by: a table, and the bytes of its slots.
#[derive(Clone, Copy)]
pub struct Evidence<'a> {
    pub table: Table<'a>,
    pub contents: &'a [u8],
    pub ghost linkable: { Linkable table.sizes.pages table.sizes.slots table.words.now },
    pub ghost bytes_in: { table.sizes.width * table.sizes.slots ≤ length contents.now },
}

impl Evidence<'_> {
    ghost use Rattle.judge.specs.Evidence.{shown};

    // Slot `other` is a twin of slot `slot` and is not marked.
    fn is_twin_outside(&self, marks: &[bool; 1024], other: u32, slot: u32) -> bool
        requires other_lt_slots { other < self.now.table.sizes.slots }
        requires slot_lt_slots { slot < self.now.table.sizes.slots }
        ensures { result ≡ (twins self.now.table.sizes.width (flash self.now.table.words.now self.now.contents.now) other slot && not (marked marks.now other)) }
    {
        let listed = marks[other as usize];
        !listed
            && twins::are_twins(
                self.table.sizes.width,
                self.table.words,
                self.contents,
                other,
                slot,
            )
    }

    // The slot has a "twin … outside the erase list", whose slots are marked: searched for along the chain that both are in.
    fn twin_outside(&self, marks: &[bool; 1024], slot: u32) -> bool
        requires { slot < self.now.table.sizes.slots }
        ensures { result ≡ twin_outside (shown self.now) (marked marks.now) slot }
    {
        let Some(record) = record::slot_at(self.table.words, slot) else {
            return false;
        };
        // Kept: a while along a chain, which no range or slice has.
        let mut at = chain::last_of(self.table.chains, Key::Pointer, record);
        while let Some(other) = at {
            if self.is_twin_outside(marks, other, slot) {
                return true;
            }
            at = chain::before(self.table.chains, other);
        }
        false
    }

    // "A slot whose twin is outside the erase list may always be erased, and if all twins are listed the old rule judges them": the old rule first, which
    // looks at no bytes.
    // Kept: apart from its callers, as `may_erase` is.
    #[inline(never)]
    pub fn may_erase_from(&self, marks: &[bool; 1024], slot: u32) -> bool
        requires { slot < self.now.table.sizes.slots }
        ensures { result ≡ may_erase_from (shown self.now) (marked marks.now) slot }
    {
        self.table.may_erase(slot) || self.twin_outside(marks, slot)
    }

    // Each listed slot may be erased.
    fn all_permitted(&self, marks: &[bool; 1024], list: &[u32]) -> bool
        requires listed { Listed self.now.table.sizes.slots list.now }
        requires marks_value { marked marks.now ≡ listed list.now }
        ensures { result ≡ may_erase_all (shown self.now) list.now }
    {
        for &slot in list {
            if !self.may_erase_from(marks, slot) {
                return false;
            }
        }
        true
    }

    // The slot may be erased, "a list of one": its mark alone stands while it is judged.
    pub fn may_erase_alone(&self, marks: &mut [bool; 1024], slot: u32) -> bool
        requires slot_lt_slots { slot < self.now.table.sizes.slots }
        requires no_marks { NoMarks marks.old }
        ensures value { result ≡ may_erase_alone (shown self.now) slot }
        ensures no_marks_2 { NoMarks marks.new }
    {
        marks[slot as usize] = true;
        let may = self.may_erase_from(marks, slot);
        marks[slot as usize] = false;
        may
    }

    // The lowest slot that may be erased, "a list of one".
    fn first_permitted(&self) -> Option<u32>
        ensures { SomeIff result
            (first_below self.now.table.sizes.slots (may_erase_alone (shown self.now)) < self.now.table.sizes.slots)
            (first_below self.now.table.sizes.slots (may_erase_alone (shown self.now))) }
    {
        let mut marks = [false; 1024];
        for slot in 0..self.table.sizes.slots {
            if self.may_erase_alone(&mut marks, slot) {
                return Some(slot);
            }
        }
        None
    }
}

// "The permission is judged for every slot on the table before the call": each listed slot may be erased. "find the exposed records once for the call,
// before any listed slot is judged".
pub fn may_erase_all<'a>(
    sizes: Sizes,
    words: &'a [u32],
    contents: &'a [u8],
    state: &'a [u32],
    list: &[u32],
) -> bool
    requires linkable { Linkable sizes.pages sizes.slots words.now }
    requires pages_in_bounds { 4 * sizes.pages ≤ length state.now }
    requires slots_in_bounds { sizes.width * sizes.slots ≤ length contents.now }
    requires listed { Listed sizes.slots list.now }
    ensures { result ≡ may_erase_all (scene_of sizes (volume words.now contents.now state.now)) list.now }
{
    let mut chains = [0u16; 2048];
    let mut found = Slots::new();
    let table = Table::prepare(sizes, words, state, &mut chains, &mut found);
    let mut marks = [false; 1024];
    mark_listed(list, &mut marks);
    let evidence = Evidence { table, contents };
    evidence.all_permitted(&marks, list)
}

// The lowest slot that may be erased.
pub fn first_erasable<'a>(
    sizes: Sizes,
    words: &'a [u32],
    contents: &'a [u8],
    state: &'a [u32],
) -> Option<u32>
    requires linkable { Linkable sizes.pages sizes.slots words.now }
    requires pages_in_bounds { 4 * sizes.pages ≤ length state.now }
    requires slots_in_bounds { sizes.width * sizes.slots ≤ length contents.now }
    ensures { SomeIff result
        (suggested_slot sizes (volume words.now contents.now state.now) < sizes.slots)
        (suggested_slot sizes (volume words.now contents.now state.now)) }
{
    let mut chains = [0u16; 2048];
    let mut found = Slots::new();
    let table = Table::prepare(sizes, words, state, &mut chains, &mut found);
    let evidence = Evidence { table, contents };
    evidence.first_permitted()
}
