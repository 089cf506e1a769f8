// The lent table of blocks, document 02, wish 8: its check, and the slots of a block that it names.

ghost use Rattle.std.specs.Prelude.{◌≡◌, suc, ◌<◌, length, get_or};
ghost use Rattle.sizes.specs.Blocks.{named, starts_ok, block_ok, block_at};

use super::Block;

// "1 to 16 starts"
const MAX_BLOCKS: usize = 16;

// A block of the table: "Block numbers then run below its length".
pub fn block_ok(starts: &[u32], block: u32) -> bool
    ensures { result ≡ block_ok (named starts.now block) }
{
    (block as usize) < starts.len()
}

// The slots of a block: from its start to before the next block's, of the last to before S.
pub fn block_at(slots: u32, starts: &[u32], block: u32) -> Block
    requires { block < length starts.now }
    ensures { result ≡ block_at slots (named starts.now block) }
{
    let place = block as usize;
    Block {
        first: starts[place],
        end: starts.get(place + 1).copied().unwrap_or(slots),
    }
}

// No "table that breaks these rules, its length included": "the first is 0", and every block has a slot, which is that "they rise strictly, all are below S".
pub fn starts_ok(slots: u32, starts: &[u32]) -> bool
    ensures { result ≡ starts_ok slots starts.now }
{
    if starts.is_empty() || starts.len() > MAX_BLOCKS || starts[0] != 0 {
        return false;
    }
    for i in 0..starts.len() as u32 {
        let block = block_at(slots, starts, i);
        if block.first >= block.end {
            return false;
        }
    }
    true
}
