// A block is picked while the organist waits, document 02, wish 9: of some blocks, going round from one, that which frees most. The definitions are in crate upkeep;
// what may be erased is judged in crate judge.

#![tactic(auto)]

mod look; // look.rt: what the blocks that are looked at free
mod round; // round.rt: the table of blocks, gone round

ghost use Rattle.std.specs.Prelude.{◌≡◌};
ghost use Rattle.bounded.specs.Limits.{two_widths};
ghost use Rattle.outcome.specs.Result.{ends};
ghost use Rattle.sizes.specs.Blocks.{named};
ghost use Rattle.rules.specs.Volume.{volume};
ghost use Rattle.upkeep.specs.Pick.{pick_outcome};

use outcome::Refusal;
use sizes::Sizes;

// "in four lent words"
const WORDS: usize = 4;

// Kept: a struct, for a pair would not say which number is which.
// A block, and what it frees.
#[derive(Clone, Copy)]
pub struct Freed {
    pub block: u32,
    pub frees: u32,
}

// Pick a block.
pub fn pick(
    sizes: Sizes,
    words: &[u32],
    contents: &[u8],
    state: &[u32],
    starts: &[u32],
    block: u32,
    n: u32,
    out: &mut [u32],
) -> Result<(), Refusal>
    ensures { ends result out.new
        ≡ pick_outcome two_widths sizes (volume words.now contents.now state.now) (named starts.now block) n out.old }
{
    if out.len() != WORDS {
        return Err(Refusal::WrongSize);
    }
    volume::blocks::judged(sizes, words, contents, state, starts, block)?;
    if n == 0 {
        return Err(Refusal::NothingToLookAt);
    }
    let looked = round::looked_at(starts, n);
    let best = look::best(sizes, words, contents, state, starts, block, looked);
    let largest = round::largest_unseen(sizes.slots, starts, block, looked);
    let lead = round::lead(largest, best.frees);
    out.copy_from_slice(&[best.block, best.frees, looked, lead]);
    Ok(())
}
