// The table of blocks, gone round from one of them.

ghost use Rattle.std.specs.Prelude.{◌≡◌, true, ℕ, ◌-◌, ◌≤◌, ◌<◌, length};
ghost use Rattle.bounded.specs.Below.{max_below};
ghost use Rattle.sizes.specs.Blocks.{named, starts_ok};
ghost use Rattle.upkeep.specs.Pick.{seen_at, looked_at};
ghost use Rattle.pick.specs.Picking.{unseen_by};

use sizes::blocks;

// "Starting from a named block and going round": the block that is seen when i others have been.
pub fn seen_at(starts: &[u32], block: u32, i: u32) -> u32
    requires starts_len_bound { length starts.now ≤ 16 }
    requires block_in_bounds { block < length starts.now }
    requires i_in_bounds { i < length starts.now }
    ensures { result ≡ (seen_at (named starts.now block) i).number }
{
    (block + i) % (starts.len() as u32)
}

// "the blocks looked at (the smaller of n and the table's length)"
pub fn looked_at(starts: &[u32], n: u32) -> u32
    requires { length starts.now ≤ 16 }
    ensures { (block : ℕ) → result ≡ looked_at (named starts.now block) n }
{
    n.min(starts.len() as u32)
}

// "the largest unseen block's size"; 0 where every block is seen
pub fn largest_unseen(slots: u32, starts: &[u32], block: u32, looked: u32) -> u32
    requires starts_value { starts_ok slots starts.now ≡ true }
    requires block_in_bounds { block < length starts.now }
    requires looked_in_bounds { looked ≤ length starts.now }
    ensures { result ≡ max_below (length starts.now) (unseen_by slots (named starts.now block) looked) }
{
    let mut largest = 0;
    for i in looked..starts.len() as u32 {
        let unseen = blocks::block_at(slots, starts, seen_at(starts, block, i));
        largest = largest.max(unseen.end - unseen.first);
    }
    largest
}

// "how much an unseen block could beat it: the largest unseen block's size less the number, or 0"
pub fn lead(largest: u32, number: u32) -> u32
    ensures { result ≡ largest - number }
{
    largest.saturating_sub(number)
}
