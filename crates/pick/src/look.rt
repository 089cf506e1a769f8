// What the blocks that are looked at free. The slots are chained and the exposed records found once, then the slots of these blocks are judged, and no others.

ghost use Rattle.std.specs.Prelude.{◌≡◌, true, ◌*◌, ◌≤◌, ◌<◌, length};
ghost use Rattle.sizes.specs.Blocks.{named, starts_ok, block_at};
ghost use Rattle.sizes.specs.BlocksLaws.{BlockIn};
ghost use Rattle.chain.specs.Chain.{Linkable};
ghost use Rattle.rules.specs.Volume.{volume};
ghost use Rattle.upkeep.specs.Pick.{frees};
ghost use Rattle.judge.specs.Evidence.{volume_of};
ghost use Rattle.judge.specs.Marked.{NoMarks};
ghost use Rattle.pick.specs.Picking.{frees_by, best_by};

use super::Freed;
use judge::Evidence;
use noted::Slots;
use permit::Table;
use sizes::{Block, Sizes, blocks};

// "Frees means its records that may be erased, judged one by one", by what was found.
fn frees(evidence: &Evidence, marks: &mut [bool; 1024], block: Block) -> u32
    requires block_in { BlockIn evidence.now.table.sizes.slots block }
    requires no_marks { NoMarks marks.old }
    ensures value { result ≡ frees_by evidence.now.table.sizes (volume_of evidence.now) evidence.now.table.found.now block }
    ensures no_marks_2 { NoMarks marks.new }
{
    let mut count = 0;
    for slot in block.first..block.end {
        if evidence.may_erase_alone(marks, slot) {
            count += 1;
        }
    }
    count
}

// "the one that frees most, the earliest seen on ties", of the first `looked` that going round shows, by what was found.
fn best_found(evidence: &Evidence, starts: &[u32], block: u32, looked: u32) -> Freed
    requires starts_value { starts_ok evidence.now.table.sizes.slots starts.now ≡ true }
    requires block_in_bounds { block < length starts.now }
    requires looked_in_bounds { looked ≤ length starts.now }
    ensures { result ≡ best_by (named starts.now block) looked
        (λ b. frees_by evidence.now.table.sizes (volume_of evidence.now) evidence.now.table.found.now (block_at evidence.now.table.sizes.slots b)) }
{
    let mut marks = [false; 1024];
    let mut best = Freed { block, frees: 0 };
    for i in 0..looked {
        let seen = super::round::seen_at(starts, block, i);
        let slots = blocks::block_at(evidence.table.sizes.slots, starts, seen);
        let freed = frees(evidence, &mut marks, slots);
        if freed > best.frees {
            best = Freed {
                block: seen,
                frees: freed,
            };
        }
    }
    best
}

// … of the blocks that are looked at. "find the exposed records once for the call".
pub fn best<'a>(
    sizes: Sizes,
    words: &'a [u32],
    contents: &'a [u8],
    state: &'a [u32],
    starts: &[u32],
    block: u32,
    looked: u32,
) -> Freed
    requires linkable { Linkable sizes.pages sizes.slots words.now }
    requires pages_in_bounds { 4 * sizes.pages ≤ length state.now }
    requires slots_in_bounds { sizes.width * sizes.slots ≤ length contents.now }
    requires starts_value { starts_ok sizes.slots starts.now ≡ true }
    requires block_in_bounds { block < length starts.now }
    requires looked_in_bounds { looked ≤ length starts.now }
    ensures { result ≡ best_by (named starts.now block) looked (frees sizes (volume words.now contents.now state.now)) }
{
    let mut chains = [0u16; 2048];
    let mut found = Slots::new();
    let table = Table::prepare(sizes, words, state, &mut chains, &mut found);
    let evidence = Evidence { table, contents };
    best_found(&evidence, starts, block, looked)
}
