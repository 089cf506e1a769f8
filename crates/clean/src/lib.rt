// Cleaning one block of slots, document 02, wish 1: what may not be erased is copied to blank slots outside it, and the block is blanked. The single steps are
// fixed before the first is done. The definitions are in crate upkeep; what may be erased is judged in crate judge.

#![tactic(auto)]

mod blocks; // blocks.rt: a block's slots
mod choice; // choice.rt: what is copied, and where to
mod steps; // steps.rt: the copies and the blankings

ghost use Rattle.std.specs.Prelude.{◌≡◌};
ghost use Rattle.bounded.specs.Limits.{two_widths};
ghost use Rattle.outcome.specs.Outcome.{settled};
ghost use Rattle.outcome.specs.Result.{ends};
ghost use Rattle.sizes.specs.Blocks.{named};
ghost use Rattle.record.specs.Flash.{flash, apply_all};
ghost use Rattle.rules.specs.Volume.{volume};
ghost use Rattle.upkeep.specs.Clean.{clean_steps, clean_outcome};
ghost use Rattle.clean.specs.CleanLaws.{Cleanable, room_answer};

use noted::Slots;
use outcome::Refusal;
use sizes::{Block, Sizes};

// The block's records copied and its slots blanked, where the blank slots outside are enough; where they are not it says so and alters nothing.
fn clean_block(
    sizes: Sizes,
    words: &mut [u32],
    contents: &mut [u8],
    state: &[u32],
    block: Block,
) -> Result<(), Refusal>
    requires { Cleanable sizes words.old contents.old state.now block }
    ensures { ends result (flash words.new contents.new)
        ≡ settled (room_answer sizes (volume words.old contents.old state.now) block) 0 0 (flash words.old contents.old)
        (apply_all sizes.width (flash words.old contents.old) (clean_steps sizes (volume words.old contents.old state.now) block)) }
{
    let mut copied = Slots::new();
    choice::find_copied(sizes, words, contents, state, block, &mut copied);
    let mut blank = Slots::new();
    choice::find_blank(sizes.slots, words, block, &mut blank);
    let from = copied.as_slice();
    let to = blank.as_slice();
    if to.len() < from.len() {
        return Err(Refusal::TooFewBlank);
    }
    steps::copy_slots(sizes, words, contents, from, to);
    steps::blank_block(sizes, words, contents, block);
    Ok(())
}

// Clean one flash block.
pub fn clean(
    sizes: Sizes,
    words: &mut [u32],
    contents: &mut [u8],
    state: &[u32],
    starts: &[u32],
    block: u32,
) -> Result<(), Refusal>
    ensures { ends result (flash words.new contents.new)
        ≡ clean_outcome two_widths sizes (volume words.old contents.old state.now) (named starts.now block) }
{
    volume::blocks::judged(sizes, words, contents, state, starts, block)?;
    let slots = sizes::blocks::block_at(sizes.slots, starts, block);
    clean_block(sizes, words, contents, state, slots)
}
