// A block of a volume, by the lent table: its conditions as the calls that take one check them, and the table's own check.

ghost use Rattle.std.specs.Prelude.{◌≡◌};
ghost use Rattle.bounded.specs.Limits.{two_widths};
ghost use Rattle.outcome.specs.Result.{answer_of, ends};
ghost use Rattle.sizes.specs.Blocks.{named};
ghost use Rattle.rules.specs.Volume.{volume};
ghost use Rattle.rules.specs.CheckBlocks.{check_blocks_outcome};
ghost use Rattle.rules.specs.laws.Chains.{block_judged};

use super::Volume;
use outcome::Refusal;
use sizes::{Layout, Sizes, blocks};

// Kept: parameters, for this is of five words alone, and its two callers have the parts.
// Conditions 1, 17, 2, 5 and 6, which the calls on a block share: refused by the first that holds.
#[tactic(auto, unfolding(rules::specs::laws::Chains::block_judged))]
pub fn judged(
    sizes: Sizes,
    words: &[u32],
    contents: &[u8],
    state: &[u32],
    starts: &[u32],
    block: u32,
) -> Result<(), Refusal>
    ensures { answer_of result ≡ block_judged two_widths sizes (volume words.now contents.now state.now) (named starts.now block) }
{
    let volume = Volume::new(Layout::FiveWords, sizes, words, contents, state);
    if !volume.fits() {
        return Err(Refusal::WrongSize);
    }
    if !blocks::starts_ok(sizes.slots, starts) {
        return Err(Refusal::WrongBlocks);
    }
    super::judged(Layout::FiveWords, true, sizes, words, state)?;
    if !blocks::block_ok(starts, block) {
        return Err(Refusal::WrongList);
    }
    Ok(())
}

// Check a table of blocks, for loading.
#[tactic(auto, unfolding(rules::specs::CheckBlocks::check_blocks_answer, rules::specs::CheckBlocks::check_blocks_outcome, outcome::specs::Outcome::settled))]
pub fn check(sizes: Sizes, starts: &[u32]) -> Result<(), Refusal>
    ensures { ends result tt ≡ check_blocks_outcome two_widths sizes starts.now }
{
    if !sizes.are_ok() {
        return Err(Refusal::WrongSize);
    }
    if !blocks::starts_ok(sizes.slots, starts) {
        return Err(Refusal::WrongBlocks);
    }
    Ok(())
}
