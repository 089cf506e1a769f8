// A block's slots: which they are, and their marks.

ghost use Rattle.std.specs.Prelude.{◌≡◌};
ghost use Rattle.sizes.specs.Blocks.{in_block};
ghost use Rattle.sizes.specs.BlocksLaws.{BlockIn};
ghost use Rattle.judge.specs.Marked.{marked};

use sizes::Block;

// The slot is in the block.
pub fn in_block(block: Block, slot: u32) -> bool
    ensures { result ≡ in_block block slot }
{
    (block.first..block.end).contains(&slot)
}

// The block's slots marked, and no other.
pub fn mark_block(block: Block, marks: &mut [bool; 1024])
    requires { BlockIn 1024 block }
    ensures { marked marks.new ≡ in_block block }
{
    *marks = [false; 1024];
    marks[block.first as usize..block.end as usize].fill(true);
}
