// The permission to erase one slot: the exposed records are found once, and the slot is judged by what was found. The definitions are in crate rules.

#![tactic(auto)]

pub mod simple; // simple.rt: records without a back pointer

ghost use Rattle.std.specs.Prelude.{◌≡◌, true, not, ◌&&◌, ◌+◌, ◌*◌, ◌≤◌, ◌<◌, length};
ghost use Rattle.bounded.specs.Below.{some_below};
ghost use Rattle.noted.specs.Noted.{noted};
ghost use Rattle.record.specs.Slot.{holds, straddles, slot_at};
ghost use Rattle.state.specs.State.{state_at};
ghost use Rattle.chain.specs.Chain.{Linkable};
ghost use Rattle.rules.specs.Permission.{is_obsolete, is_exposed, outdone_by, is_current, is_needed, may_erase_record, may_erase};
ghost use Rattle.rules.specs.Found.{exposed_slots};
ghost use Rattle.permit.specs.Prepared.{exposed_at, Within, Searchable};

use chain::Key;
use noted::Slots;
use record::Record;
use sizes::{Layout, Sizes};

// "A record is obsolete if v is below its page's committed version"
pub fn is_obsolete(state: &[u32], record: Record) -> bool
    requires { 4 * «record».p + 4 ≤ length state.now }
    ensures { result ≡ is_obsolete (state_at state.now) «record» }
{
    let page = state::page_at(state, record.p);
    record.v < page.committed
}

// "exposed if above"
pub fn is_exposed(state: &[u32], record: Record) -> bool
    requires { 4 * «record».p + 4 ≤ length state.now }
    ensures { result ≡ is_exposed (state_at state.now) «record» }
{
    let page = state::page_at(state, record.p);
    page.committed < record.v
}

// "one whose page is in flight with v = used"
pub fn is_current(state: &[u32], record: Record) -> bool
    requires { 4 * «record».p + 4 ≤ length state.now }
    ensures { result ≡ is_current (state_at state.now) «record» }
{
    let page = state::page_at(state, record.p);
    page.in_flight() && record.v == page.used
}

// "an exposed record other than one whose page is in flight with v = used"
pub fn is_spare_exposed(state: &[u32], record: Record) -> bool
    requires { 4 * «record».p + 4 ≤ length state.now }
    ensures { result ≡ (is_exposed (state_at state.now) «record» && not (is_current (state_at state.now) «record»)) }
{
    is_exposed(state, record) && !is_current(state, record)
}

// The other record has "the same page and c with a higher v".
fn is_outdone(straddler: Record, other: Record) -> bool
    ensures { result ≡ outdone_by straddler other }
{
    other.p == straddler.p && other.c == straddler.c && straddler.v < other.v
}

// Kept: as elsewhere, what is said of a record is said of its slot by let else, the form that document 01 names.
// The slot holds a record that outdoes the straddler.
fn slot_outdoes(words: &[u32], slot: u32, straddler: Record) -> bool
    requires { 5 * slot + 5 ≤ length words.now }
    ensures { result ≡ holds (outdone_by straddler) (slot_at words.now slot) }
{
    let Some(other) = record::slot_at(words, slot) else {
        return false;
    };
    is_outdone(straddler, other)
}

// The slot holds a record whose link is straddled.
fn slot_straddled(words: &[u32], slot: u32, straddler: Record) -> bool
    requires { 5 * slot + 5 ≤ length words.now }
    ensures { result ≡ holds (straddles straddler) (slot_at words.now slot) }
{
    let Some(record) = record::slot_at(words, slot) else {
        return false;
    };
    straddler.straddles(record)
}

// What one slot is judged by: the slots of a sound table, chained by page and back pointer, the state of its pages, and the exposed records found.
#[derive(Clone, Copy)]
pub struct Table<'a> {
    pub sizes: Sizes,
    pub words: &'a [u32],
    pub state: &'a [u32],
    pub chains: &'a [u16; 2048],
    pub found: &'a [u16],
    pub ghost within: { Within sizes.slots words.now state.now },
    pub ghost searchable: { Searchable sizes.slots words.now chains.now found.now },
}

impl<'a> Table<'a> {
    ghost use Rattle.permit.specs.Shown.{shown, AllFound};

    // The slots are chained, and the exposed records found once, in the buffers that are lent.
    pub fn prepare(
        sizes: Sizes,
        words: &'a [u32],
        state: &'a [u32],
        chains: &'a mut [u16; 2048],
        found: &'a mut Slots,
    ) -> Table<'a>
        requires linkable { Linkable sizes.pages sizes.slots words.now }
        requires pages_in_bounds { 4 * sizes.pages ≤ length state.now }
        ensures same_sizes { result.sizes ≡ sizes }
        ensures same_words { result.words.now ≡ words.now }
        ensures same_state { result.state.now ≡ state.now }
        ensures all_found { AllFound result }
    {
        chain::link_sound_slots(Layout::FiveWords, Key::Pointer, sizes, words, chains);
        find_exposed(sizes.slots, words, state, found);
        Table {
            sizes,
            words,
            state,
            chains,
            found: found.as_slice(),
        }
    }

    // The slot before this one in its chain outdoes the straddler, so that some slot does.
    fn earlier_outdoes(&self, slot: u32, straddler: Record) -> bool
        requires { slot < self.now.sizes.slots }
        ensures { result ≡ true → some_below self.now.sizes.slots (λ k. holds (outdone_by straddler) (slot_at self.now.words.now k)) ≡ true }
    {
        let Some(other) = chain::before(self.chains, slot) else {
            return false;
        };
        other < self.sizes.slots && slot_outdoes(self.words, other, straddler)
    }

    // "An obsolete K is needed if no record has the same page and c with a higher v, and some exposed record's link is straddled by K.": at the first
    // exposed link found that the straddler, in slot `slot`, straddles, a better straddler is searched for along its chain, the slot before it first.
    fn is_needed(&self, slot: u32, straddler: Record) -> bool
        requires { slot < self.now.sizes.slots }
        ensures { result ≡ is_needed (shown self.now) straddler }
    {
        let mut needed = false;
        'search: for &exposed in self.found {
            if slot_straddled(self.words, exposed as u32, straddler) {
                if self.earlier_outdoes(slot, straddler) {
                    break 'search;
                }
                // Kept: a while along a chain, which no range or slice has.
                let mut at = chain::last_of(self.chains, Key::Pointer, straddler);
                while let Some(other) = at {
                    let better = slot_outdoes(self.words, other, straddler);
                    if better {
                        break 'search;
                    }
                    at = chain::before(self.chains, other);
                }
                needed = true;
                break 'search;
            }
        }
        needed
    }

    // "an obsolete record that is no needed straddler, or an exposed record other than one whose page is in flight with v = used": the record in slot `slot`.
    fn may_erase_record(&self, slot: u32, record: Record) -> bool
        requires slot_lt_slots { slot < self.now.sizes.slots }
        requires record_in_bounds { 4 * «record».p + 4 ≤ length self.now.state.now }
        ensures { result ≡ may_erase_record (shown self.now) «record» }
    {
        if is_obsolete(self.state, record) {
            return !self.is_needed(slot, record);
        }
        is_spare_exposed(self.state, record)
    }

    // The slot may be erased.
    // Kept: apart from its callers, whose work would leave its loops too few registers.
    #[inline(never)]
    pub fn may_erase(&self, slot: u32) -> bool
        requires { slot < self.now.sizes.slots }
        ensures { result ≡ may_erase (shown self.now) slot }
    {
        let Some(record) = record::slot_at(self.words, slot) else {
            return false;
        };
        self.may_erase_record(slot, record)
    }
}

// The slot holds an exposed record.
fn holds_exposed(slots: u32, words: &[u32], state: &[u32], slot: u32) -> bool
    requires within { Within slots words.now state.now }
    requires slot_lt_slots { slot < slots }
    ensures { result ≡ exposed_at words.now state.now slot }
{
    let Some(record) = record::slot_at(words, slot) else {
        return false;
    };
    is_exposed(state, record)
}

// The exposed records: their slots, rising, found in one pass.
pub fn find_exposed(slots: u32, words: &[u32], state: &[u32], found: &mut Slots)
    requires { Within slots words.now state.now }
    ensures { noted found.new ≡ exposed_slots slots (slot_at words.now) (state_at state.now) }
{
    found.note_passing(0, slots, |k| holds_exposed(slots, words, state, k));
}
