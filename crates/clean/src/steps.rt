// The single steps: the copies, then the blankings. Each stores or blanks one slot.

ghost use Rattle.std.specs.Prelude.{◌≡◌, ◌+◌, ◌*◌, ◌≤◌, length};
ghost use Rattle.bounded.specs.Below.{list_below};
ghost use Rattle.sizes.specs.Blocks.{in_block};
ghost use Rattle.sizes.specs.BlocksLaws.{BlockIn};
ghost use Rattle.record.specs.Flash.{flash, apply, apply_all};
ghost use Rattle.rules.specs.Erase.{erase_steps};
ghost use Rattle.upkeep.specs.Clean.{record_in, copy_step, copy_steps};
ghost use Rattle.clean.specs.Copying.{Copying};

use record::{Record, Slot};
use sizes::{Block, Layout, Sizes};

// The record in a slot; the words of a blank one.
fn record_in(slot: Slot) -> Record
    ensures { result ≡ record_in slot }
{
    slot.unwrap_or(Record::BLANK)
}

// One copy: a slot's record "with contents", its bytes through a buffer of as many, stored in another slot.
fn copy_through(words: &mut [u32], contents: &mut [u8], from: u32, to: u32, buffer: &mut [u8])
    requires from_in_bounds { 5 * from + 5 ≤ length words.old }
    requires to_in_bounds { 5 * to + 5 ≤ length words.old }
    requires buffer_in_bounds { length buffer.old * from + length buffer.old ≤ length contents.old }
    requires buffer_in_bounds_2 { length buffer.old * to + length buffer.old ≤ length contents.old }
    ensures { flash words.new contents.new
        ≡ apply (length buffer.old) (flash words.old contents.old)
        (copy_step (length buffer.old) (flash words.old contents.old) from to) }
{
    let record = record_in(record::slot_at(words, from));
    record::flash::read_slot(contents, from, buffer);
    record::flash::put_slot(Layout::FiveWords, words, contents, to, record, buffer);
}

// … of `width` bytes.
fn copy_slot(width: u32, words: &mut [u32], contents: &mut [u8], from: u32, to: u32)
    requires from_in_bounds { 5 * from + 5 ≤ length words.old }
    requires to_in_bounds { 5 * to + 5 ≤ length words.old }
    requires width_in_bounds { width * from + width ≤ length contents.old }
    requires width_in_bounds_2 { width * to + width ≤ length contents.old }
    requires width_bound { width ≤ 64 }
    ensures { flash words.new contents.new
        ≡ apply width (flash words.old contents.old) (copy_step width (flash words.old contents.old) from to) }
{
    let mut bytes = [0u8; sizes::MAX_WIDTH];
    copy_through(words, contents, from, to, &mut bytes[0..width as usize]);
}

// "the copies in their order": the first slot to the first, and so on.
pub fn copy_slots(sizes: Sizes, words: &mut [u32], contents: &mut [u8], from: &[u16], to: &[u16])
    requires copying { Copying sizes.width sizes.slots (flash words.old contents.old) from.now to.now (flash words.old contents.old) from.now to.now }
    requires width_bound { sizes.width ≤ 64 }
    ensures { flash words.new contents.new
        ≡ apply_all sizes.width (flash words.old contents.old)
        (copy_steps sizes.width (flash words.old contents.old) from.now to.now) }
{
    for (&source, &target) in from.iter().zip(to) {
        copy_slot(
            sizes.width,
            words,
            contents,
            u32::from(source),
            u32::from(target),
        );
    }
}

// "and then the block's slots are blanked", every one.
pub fn blank_block(sizes: Sizes, words: &mut [u32], contents: &mut [u8], block: Block)
    requires block_in { BlockIn sizes.slots block }
    requires slots_in_bounds { 5 * sizes.slots ≤ length words.old }
    requires slots_in_bounds_2 { sizes.width * sizes.slots ≤ length contents.old }
    requires width_bound { sizes.width ≤ 64 }
    ensures { flash words.new contents.new
        ≡ apply_all sizes.width (flash words.old contents.old) (erase_steps (list_below sizes.slots (in_block block))) }
{
    for k in block.first..block.end {
        collect::blank_slot(Layout::FiveWords, sizes.width, words, contents, k);
    }
}
