// Slots that a call chooses itself, as cleaning and a sweep do: whether a lower slot holds a twin.

ghost use Rattle.std.specs.Prelude.{◌≡◌, true, false, ◌&&◌, ◌<◌};
ghost use Rattle.bounded.specs.Below.{some_below};
ghost use Rattle.sizes.specs.Blocks.{in_block};
ghost use Rattle.record.specs.Slot.{slot_at, is_blank};
ghost use Rattle.record.specs.Flash.{flash};
ghost use Rattle.twins.specs.Twins.{twins};
ghost use Rattle.judge.specs.Judgeable.{Comparable};

use sizes::{Block, Sizes};

// Kept: parameters, for a sweep searches for twins without the state and the exposed records that an `Evidence` has.
// A slot of the block below this one is its twin: searched for along the chain that both are in, from this slot down to the block's first.
pub fn has_lower_twin(
    sizes: Sizes,
    words: &[u32],
    contents: &[u8],
    chains: &[u16; 2048],
    block: Block,
    slot: u32,
) -> bool
    requires comparable { Comparable sizes.pages sizes.slots sizes.width words.now contents.now chains.now }
    requires slot_lt_slots { slot < sizes.slots }
    requires slot_value { in_block block slot ≡ true }
    requires slot_value_2 { is_blank (slot_at words.now slot) ≡ false }
    ensures { result ≡ some_below slot (λ j. in_block block j && twins sizes.width (flash words.now contents.now) j slot) }
{
    // Kept: a while along a chain, which no range or slice has.
    let mut at = chain::before(chains, slot);
    while let Some(other) = at {
        if other < block.first {
            return false;
        }
        if twins::are_twins(sizes.width, words, contents, other, slot) {
            return true;
        }
        at = chain::before(chains, other);
    }
    false
}
