// The slots that each of the three erasures takes, rising.

ghost use Rattle.std.specs.Prelude.{◌≡◌, ◌&&◌, ◌*◌, ◌≤◌, ◌<◌, length};
ghost use Rattle.bounded.specs.Below.{list_below};
ghost use Rattle.noted.specs.Noted.{noted};
ghost use Rattle.record.specs.Slot.{slot_at};
ghost use Rattle.record.specs.Flash.{flash};
ghost use Rattle.state.specs.State.{state_at};
ghost use Rattle.twins.specs.Twins.{twins};
ghost use Rattle.chain.specs.Chain.{Linkable};
ghost use Rattle.rules.specs.Permission.{may_erase, untwinned};
ghost use Rattle.upkeep.specs.Sweep.{is_spare_exposed, is_obsolete_at, is_higher_twin};
ghost use Rattle.permit.specs.Prepared.{Within};
ghost use Rattle.permit.specs.Shown.{shown};
ghost use Rattle.judge.specs.Judgeable.{Comparable};

use chain::Key;
use judge::choose;
use noted::Slots;
use permit::Table;
use sizes::{Block, Layout, Sizes};

// The slot holds an exposed record "other than one whose page is in flight with v = used".
fn is_spare_exposed(slots: u32, words: &[u32], state: &[u32], slot: u32) -> bool
    requires within { Within slots words.now state.now }
    requires slot_lt_slots { slot < slots }
    ensures { result ≡ is_spare_exposed (slot_at words.now) (state_at state.now) slot }
{
    let Some(record) = record::slot_at(words, slot) else {
        return false;
    };
    permit::is_spare_exposed(state, record)
}

// "each exposed record other than one whose page is in flight with v = used": their slots.
pub fn find_spare_exposed(slots: u32, words: &[u32], state: &[u32], spare: &mut Slots)
    requires { Within slots words.now state.now }
    ensures { noted spare.new ≡ list_below slots (is_spare_exposed (slot_at words.now) (state_at state.now)) }
{
    spare.note_passing(0, slots, |k| is_spare_exposed(slots, words, state, k));
}

// The slot holds an obsolete record that may be erased, judged by what was found. Its twins are obsolete and listed with it, so the old rule judges it: no
// bytes are looked at.
fn is_erasable_obsolete(table: &Table, slot: u32) -> bool
    requires { slot < table.now.sizes.slots }
    ensures { result ≡ (is_obsolete_at (slot_at table.now.words.now) (state_at table.now.state.now) slot && may_erase (shown table.now) slot) }
{
    let Some(record) = record::slot_at(table.words, slot) else {
        return false;
    };
    permit::is_obsolete(table.state, record) && table.may_erase(slot)
}

// "each obsolete one that may then be erased, all judged as one list": their slots, judged on the table as it is.
pub fn find_obsolete<'a>(sizes: Sizes, words: &'a [u32], state: &'a [u32], obsolete: &mut Slots)
    requires linkable { Linkable sizes.pages sizes.slots words.now }
    requires pages_in_bounds { 4 * sizes.pages ≤ length state.now }
    ensures { noted obsolete.new
        ≡ list_below sizes.slots (λ k. is_obsolete_at (slot_at words.now) (state_at state.now) k
        && may_erase (untwinned sizes.slots (slot_at words.now) (state_at state.now)) k) }
{
    let mut chains = [0u16; 2048];
    let mut found = Slots::new();
    let table = Table::prepare(sizes, words, state, &mut chains, &mut found);
    obsolete.note_passing(0, table.sizes.slots, |k| {
        is_erasable_obsolete(&table, k)
    });
}

// The slot has a twin in a lower slot.
fn is_higher_twin(
    sizes: Sizes,
    words: &[u32],
    contents: &[u8],
    chains: &[u16; 2048],
    slot: u32,
) -> bool
    requires comparable { Comparable sizes.pages sizes.slots sizes.width words.now contents.now chains.now }
    requires slot_lt_slots { slot < sizes.slots }
    ensures { result ≡ is_higher_twin (twins sizes.width (flash words.now contents.now)) slot }
{
    let all = Block {
        first: 0,
        end: sizes.slots,
    };
    record::slot_at(words, slot).is_some()
        && choose::has_lower_twin(sizes, words, contents, chains, all, slot)
}

// Kept: the slots are chained here and not by a `Table`, which takes the state and finds the exposed records, and neither is looked at.
// "of other twins keeps the lowest": the slots of those above it, searched for on the table as it is.
pub fn find_twins(sizes: Sizes, words: &[u32], contents: &[u8], higher: &mut Slots)
    requires linkable { Linkable sizes.pages sizes.slots words.now }
    requires slots_in_bounds { sizes.width * sizes.slots ≤ length contents.now }
    ensures { noted higher.new ≡ list_below sizes.slots (is_higher_twin (twins sizes.width (flash words.now contents.now))) }
{
    let mut chains = [0u16; 2048];
    chain::link_sound_slots(Layout::FiveWords, Key::Pointer, sizes, words, &mut chains);
    higher.note_passing(0, sizes.slots, |k| {
        is_higher_twin(sizes, words, contents, &chains, k)
    });
}
