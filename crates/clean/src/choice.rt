// The choice, made on the table before the first step: the slots whose records are copied, and the blank slots to copy to.

ghost use Rattle.std.specs.Prelude.{◌≡◌, not, ◌&&◌, ◌+◌, ◌*◌, ◌≤◌, ◌<◌, length};
ghost use Rattle.noted.specs.Noted.{noted};
ghost use Rattle.sizes.specs.Blocks.{in_block};
ghost use Rattle.record.specs.Slot.{slot_at, is_blank};
ghost use Rattle.rules.specs.Permission.{scene_of};
ghost use Rattle.rules.specs.Volume.{volume};
ghost use Rattle.upkeep.specs.Clean.{is_copied, blank_outside, clean_from};
ghost use Rattle.judge.specs.Evidence.{volume_of};
ghost use Rattle.clean.specs.Choosing.{Chosen};
ghost use Rattle.clean.specs.CleanLaws.{Cleanable};

use super::blocks;
use judge::{Evidence, choose};
use noted::Slots;
use permit::Table;
use sizes::{Block, Sizes};

// "Every record there that may not be erased, the whole block being listed, is copied once (of twins within the block only the lowest)": the one in slot
// `slot` is.
fn is_copied(evidence: &Evidence, marks: &[bool; 1024], block: Block, slot: u32) -> bool
    requires chosen { Chosen evidence.now marks.now block }
    requires block_first_le_slot { block.first ≤ slot }
    requires slot_lt_block_end { slot < block.end }
    ensures { result ≡ is_copied (scene_of evidence.now.table.sizes (volume_of evidence.now)) (in_block block) slot }
{
    let table = &evidence.table;
    record::slot_at(table.words, slot).is_some()
        && !evidence.may_erase_from(marks, slot)
        && !choose::has_lower_twin(
            table.sizes,
            table.words,
            evidence.contents,
            table.chains,
            block,
            slot,
        )
}

// Kept: a function of its own, for one that makes an `Evidence` and hands a closure that has it is not covered by the borrow checker yet.
// The block's slots whose records are copied, rising.
fn note_copied(evidence: &Evidence, marks: &[bool; 1024], block: Block, copied: &mut Slots)
    requires { Chosen evidence.now marks.now block }
    ensures { noted copied.new ≡ clean_from evidence.now.table.sizes (volume_of evidence.now) block }
{
    copied.note_passing(block.first, block.end, |k| {
        is_copied(evidence, marks, block, k)
    });
}

// The slots to copy, rising, judged on the table as it is.
pub fn find_copied<'a>(
    sizes: Sizes,
    words: &'a [u32],
    contents: &'a [u8],
    state: &'a [u32],
    block: Block,
    copied: &mut Slots,
)
    requires { Cleanable sizes words.now contents.now state.now block }
    ensures { noted copied.new ≡ clean_from sizes (volume words.now contents.now state.now) block }
{
    let mut chains = [0u16; 2048];
    let mut found = Slots::new();
    let table = Table::prepare(sizes, words, state, &mut chains, &mut found);
    let evidence = Evidence { table, contents };
    let mut marks = [false; 1024];
    blocks::mark_block(block, &mut marks);
    note_copied(&evidence, &marks, block, copied);
}

// The slot is blank, and not in the block.
fn is_free(words: &[u32], block: Block, slot: u32) -> bool
    requires { 5 * slot + 5 ≤ length words.now }
    ensures { result ≡ (is_blank (slot_at words.now slot) && not (in_block block slot)) }
{
    record::slot_at(words, slot).is_none() && !blocks::in_block(block, slot)
}

// The "blank slots outside", the lowest first.
pub fn find_blank(slots: u32, words: &[u32], block: Block, blank: &mut Slots)
    requires slots_bound { slots ≤ 1024 }
    requires slots_in_bounds { 5 * slots ≤ length words.now }
    ensures { noted blank.new ≡ blank_outside slots (slot_at words.now) (in_block block) }
{
    blank.note_passing(0, slots, |k| is_free(words, block, k));
}
