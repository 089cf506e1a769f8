// Records without a back pointer: what may be erased, and what a write would bury. The definitions are in crate rules.

ghost use Rattle.std.specs.Prelude.{◌≡◌, ◌+◌, ◌*◌, ◌≤◌, ◌<◌, length};
ghost use Rattle.sizes.specs.declared.Layout.TheVariants.{FourWords};
ghost use Rattle.sizes.specs.Lists.{Listed};
ghost use Rattle.record.specs.Slot.{holds, slot_in};
ghost use Rattle.state.specs.State.{state_at};
ghost use Rattle.rules.specs.Simple.{simple_may_erase_record, simple_may_erase, simple_may_erase_all, buried_by, would_bury};
ghost use Rattle.permit.specs.Readable.{Readable};

use super::{is_exposed, is_obsolete, is_spare_exposed};
use record::Record;
use sizes::{Layout, Sizes};

// "any obsolete record may be erased", and an exposed one as with a back pointer
fn may_erase_record(state: &[u32], record: Record) -> bool
    requires { 4 * «record».p + 4 ≤ length state.now }
    ensures { result ≡ simple_may_erase_record (state_at state.now) «record» }
{
    is_obsolete(state, record) || is_spare_exposed(state, record)
}

// The slot may be erased.
fn may_erase(sizes: Sizes, words: &[u32], state: &[u32], slot: u32) -> bool
    requires readable { Readable sizes.pages sizes.slots words.now state.now }
    requires slot_lt_slots { slot < sizes.slots }
    ensures { result ≡ simple_may_erase (slot_in FourWords words.now) (state_at state.now) slot }
{
    let Some(record) = record::slot_in(Layout::FourWords, words, slot) else {
        return false;
    };
    may_erase_record(state, record)
}

// Each listed slot may be erased.
pub fn may_erase_all(sizes: Sizes, words: &[u32], state: &[u32], list: &[u32]) -> bool
    requires readable { Readable sizes.pages sizes.slots words.now state.now }
    requires listed { Listed sizes.slots list.now }
    ensures { result ≡ simple_may_erase_all (slot_in FourWords words.now) (state_at state.now) list.now }
{
    for &slot in list {
        if !may_erase(sizes, words, state, slot) {
            return false;
        }
    }
    true
}

// "an exposed record with J.p = p and J.v < v, or J.np = p and J.nv < v"
fn is_buried(state: &[u32], record: Record, page: u32, version: u32) -> bool
    requires { 4 * «record».p + 4 ≤ length state.now }
    ensures { result ≡ buried_by (state_at state.now) page version «record» }
{
    is_exposed(state, record)
        && (record.p == page && record.v < version || record.np == page && record.nv < version)
}

// The slot holds a record that a write of the page at the version buries.
fn buries_slot(
    sizes: Sizes,
    words: &[u32],
    state: &[u32],
    slot: u32,
    page: u32,
    version: u32,
) -> bool
    requires readable { Readable sizes.pages sizes.slots words.now state.now }
    requires slot_lt_slots { slot < sizes.slots }
    ensures { result ≡ holds (buried_by (state_at state.now) page version) (slot_in FourWords words.now slot) }
{
    let Some(record) = record::slot_in(Layout::FourWords, words, slot) else {
        return false;
    };
    is_buried(state, record, page, version)
}

// "a record would be buried" by a write of the page
pub fn would_bury(sizes: Sizes, words: &[u32], state: &[u32], page: u32) -> bool
    requires readable { Readable sizes.pages sizes.slots words.now state.now }
    requires page_lt_pages { page < sizes.pages }
    ensures { result ≡ would_bury sizes.slots (slot_in FourWords words.now) (state_at state.now) page }
{
    let version = state::page_at(state, page).used;
    for k in 0..sizes.slots {
        if buries_slot(sizes, words, state, k, page, version) {
            return true;
        }
    }
    false
}
