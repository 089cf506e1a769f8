// Garbage collection: erase and suggest. The definitions are in crate rules; what may go is judged in crate judge, and of records without a back pointer in crate permit.
#![tactic(auto)]

ghost use Rattle.std.specs.Prelude.{◌≡◌, ◌+◌, ◌*◌, ◌≤◌, ℕ, List, length, true};
ghost use Rattle.bounded.specs.Limits.{two_widths, no_number};
ghost use Rattle.outcome.specs.Result.{answer_of, outcome_by, ends};
ghost use Rattle.sizes.specs.Lists.{Listed};
ghost use Rattle.sizes.specs.Sizes.{stride_of};
ghost use Rattle.record.specs.Slot.{slot_in};
ghost use Rattle.record.specs.Flash.{flash, Step, apply_in, apply_all_in};
ghost use Rattle.state.specs.State.{state_at};
ghost use Rattle.table.specs.Table.{table_sound};
ghost use Rattle.twins.specs.Twins.{twins};
ghost use Rattle.rules.specs.Permission.{scene};
ghost use Rattle.rules.specs.Volume.{volume};
ghost use Rattle.rules.specs.Erase.{erase_steps};
ghost use Rattle.rules.specs.laws.Families.{may_erase_all_in, erase_answer_in, erase_outcome_in};
ghost use Rattle.volume.specs.Held.{held, slots, pages, Passed};
ghost use Rattle.rules.specs.Suggest.{suggest_outcome};
ghost use Rattle.collect.specs.EraseLaws.{ListedIn, Converts};

use outcome::Refusal;
use record::Record;
use sizes::{Layout, Sizes};
use volume::Volume;

// One slot becomes "blank with bytes 255".
pub fn blank_slot(layout: Layout, width: u32, words: &mut [u32], contents: &mut [u8], slot: u32)
    requires layout_in_bounds { stride_of layout * slot + stride_of layout ≤ length words.old }
    requires width_in_bounds { width * slot + width ≤ length contents.old }
    requires width_bound { width ≤ 64 }
    ensures { flash words.new contents.new ≡ apply_in layout width (flash words.old contents.old) (Step.Blank slot) }
{
    record::flash::fill_slot(layout, width, words, contents, slot, Record::BLANK, 255);
}

// "Erase a list of slots: all become blank with bytes 255; nothing else changes." The slots are those that the list's entries convert to.
pub fn blank_listed<T: Copy + Into<u32>>(
    layout: Layout,
    width: u32,
    words: &mut [u32],
    contents: &mut [u8],
    list: &[T],
)
    requires listed_in { (slots : List ℕ) × Converts T.converts list.now slots × ListedIn layout width words.old contents.old slots }
    requires width_bound { width ≤ 64 }
    ensures { (slots : List ℕ)
        → Converts T.converts list.now slots
        → flash words.new contents.new ≡ apply_all_in layout width (flash words.old contents.old) (erase_steps slots) }
{
    for &slot in list {
        blank_slot(layout, width, words, contents, slot.into());
    }
}

// Each listed slot may be erased, as the records' layout has it.
fn may_erase_all(volume: &Volume, list: &[u32]) -> bool
    requires passed { Passed volume.now }
    requires listed { Listed volume.now.sizes.slots list.now }
    ensures { result
        ≡ may_erase_all_in volume.now.layout (scene volume.now.sizes.slots (slots volume.now) (pages volume.now) (twins volume.now.sizes.width (held volume.now).flash)) list.now }
{
    match volume.layout {
        Layout::FiveWords => judge::may_erase_all(
            volume.sizes,
            volume.words,
            volume.contents,
            volume.state,
            list,
        ),
        Layout::FourWords => {
            permit::simple::may_erase_all(volume.sizes, volume.words, volume.state, list)
        }
    }
}

// An erase is refused by the first condition that holds.
fn may_erase(volume: &Volume, list: &[u32]) -> Result<(), Refusal>
    ensures { answer_of result
        ≡ erase_answer_in volume.now.layout two_widths volume.now.sizes (held volume.now) list.now }
{
    volume.judged()?;
    if !sizes::list_ok(volume.sizes.slots, list) {
        return Err(Refusal::WrongList);
    }
    if !may_erase_all(volume, list) {
        return Err(Refusal::MayNotErase);
    }
    Ok(())
}

// Erase a list of slots.
pub fn erase(
    layout: Layout,
    sizes: Sizes,
    words: &mut [u32],
    contents: &mut [u8],
    state: &[u32],
    list: &[u32],
) -> Result<(), Refusal>
    ensures { ends result (flash words.new contents.new)
        ≡ erase_outcome_in layout two_widths sizes (volume words.old contents.old state.now) list.now }
{
    let volume = Volume::new(layout, sizes, words, contents, state);
    may_erase(&volume, list)?;
    blank_listed(layout, sizes.width, words, contents, list);
    Ok(())
}

// Suggest the lowest slot that may be erased.
pub fn suggest(sizes: Sizes, words: &[u32], contents: &[u8], state: &[u32]) -> Result<u32, Refusal>
    ensures { outcome_by no_number result tt ≡ suggest_outcome two_widths sizes (volume words.now contents.now state.now) }
{
    let volume = Volume::new(Layout::FiveWords, sizes, words, contents, state);
    volume.judged()?;
    let Some(slot) = judge::first_erasable(sizes, words, contents, state) else {
        return Err(Refusal::NothingToErase);
    };
    Ok(slot)
}
