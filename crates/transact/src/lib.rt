// Writing the records of a transaction ("ring"). The definitions are in crate rules.
#![tactic(auto)]

ghost use Rattle.std.specs.Prelude.{◌≡◌, true, ◌<◌};
ghost use Rattle.bounded.specs.Limits.{two_widths};
ghost use Rattle.outcome.specs.Result.{answer_of, outcome_by};
ghost use Rattle.state.specs.State.{state_at};
ghost use Rattle.state.specs.Walk.{pages_in, Walkable};
ghost use Rattle.rules.specs.Volume.{volume};
ghost use Rattle.rules.specs.laws.Families.{plan_in, would_bury_in, write_answer_in, write_outcome_in};
ghost use Rattle.rules.specs.laws.Chains.{page_answer, write_own};
ghost use Rattle.volume.specs.Held.{held, slots, pages, Passed};

use outcome::Refusal;
use record::Record;
use sizes::{Layout, Sizes};
use state::PageState;
use volume::Volume;

// Conditions 9, 10 and 11, by the page's state and whether the slot is blank.
#[tactic(auto, unfolding(rules::specs::laws::Chains::page_answer))]
fn may_go(page: PageState, blank: bool) -> Result<(), Refusal>
    ensures { answer_of result ≡ page_answer page blank }
{
    if !page.in_flight() {
        return Err(Refusal::PageNotInFlight);
    }
    if page.is_written() {
        return Err(Refusal::PageWritten);
    }
    if !blank {
        return Err(Refusal::SlotNotBlank);
    }
    Ok(())
}

// "a record would be buried": never one with a back pointer.
fn would_bury(volume: &Volume, page: u32) -> bool
    requires passed { Passed volume.now }
    requires page_lt_pages { page < volume.now.sizes.pages }
    ensures { result ≡ would_bury_in volume.now.layout volume.now.sizes.slots (slots volume.now) (pages volume.now) page }
{
    match volume.layout {
        Layout::FiveWords => false,
        Layout::FourWords => permit::simple::would_bury(
            volume.sizes,
            volume.words,
            volume.state,
            page,
        ),
    }
}

// A write's own conditions, behind those that it shares: 6, 9, 10, 11 and 16.
fn may_store(volume: &Volume, page: u32, slot: u32) -> Result<(), Refusal>
    requires { Passed volume.now }
    ensures { answer_of result
        ≡ write_own volume.now.layout volume.now.sizes.pages volume.now.sizes.slots volume.now.words.now volume.now.state.now page slot }
{
    if page >= volume.sizes.pages || slot >= volume.sizes.slots {
        return Err(Refusal::WrongList);
    }
    may_go(
        state::page_at(volume.state, page),
        record::slot_in(volume.layout, volume.words, slot).is_none(),
    )?;
    if would_bury(volume, page) {
        return Err(Refusal::WouldBury);
    }
    Ok(())
}

// A write is refused by the first condition that holds.
fn may_write(volume: &Volume, page: u32, slot: u32, bytes: &[u8]) -> Result<(), Refusal>
    ensures { answer_of result
        ≡ write_answer_in volume.now.layout two_widths volume.now.sizes (held volume.now) page slot bytes.now }
{
    volume.slice_judged(bytes.len())?;
    may_store(volume, page, slot)
}

// "the planned record has v = used of p, c = committed of p, np = next, nv = used of np"; without a back pointer c is 0
fn plan_of(layout: Layout, state: &[u32], page: u32) -> Record
    requires { Walkable (pages_in state.now) state.now page }
    ensures { result ≡ plan_in layout (state_at state.now) page }
{
    let s = state::page_at(state, page);
    let next = state::page_at(state, s.next);
    match layout {
        Layout::FiveWords => Record::planned(page, s.used, s.committed, s.next, next.used),
        Layout::FourWords => Record::planned(page, s.used, 0, s.next, next.used),
    }
}

// Write a page of a cycle in flight into a blank slot: the planned record and the bytes. The last write of a cycle
// commits all its pages, and the second number is then 1.
// Kept: a number for done, for it is C's second number: bpcc's calls and a script's line all give it on as it is.
pub fn write(
    layout: Layout,
    sizes: Sizes,
    words: &mut [u32],
    contents: &mut [u8],
    state: &mut [u32],
    page: u32,
    slot: u32,
    bytes: &[u8],
) -> Result<u32, Refusal>
    ensures { outcome_by 0 result (volume words.new contents.new state.new)
        ≡ write_outcome_in layout two_widths sizes (volume words.old contents.old state.old) page slot bytes.now }
{
    let volume = Volume::new(layout, sizes, words, contents, state);
    may_write(&volume, page, slot, bytes)?;
    record::flash::put_slot(
        layout,
        words,
        contents,
        slot,
        plan_of(layout, state, page),
        bytes,
    );
    let done = state::cycle::write_page(state, page);
    Ok(u32::from(done))
}
