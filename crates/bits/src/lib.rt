// Bits of a slot's contents, and the call count. The definitions are in specs/.
#![tactic(auto)]

ghost use Rattle.std.specs.Prelude.{◌≡◌, ◌*◌, ◌≤◌, ◌<◌, length};
ghost use Rattle.bounded.specs.Limits.{two_widths};
ghost use Rattle.outcome.specs.Result.{outcome_by};
ghost use Rattle.bits.specs.Bits.{bit_at, set_bits, count_outcome};

use outcome::Refusal;

// "Stop s … is bit s mod 8 of byte s div 8, lowest bit first; 1 means drawn."
// Kept: a shift and a mask that give a number, for document 01 has the bit by its place in the byte, and `count_bits` sums them.
pub fn bit(bytes: &[u8], s: u32) -> u32
    requires { s < 8 * length bytes.now }
    ensures { result ≡ bit_at bytes.now s }
{
    let byte = bytes[(s / 8) as usize];
    ((byte >> (s % 8)) & 1) as u32
}

// How many bits are set.
pub fn count_bits(bytes: &[u8]) -> u32
    requires { length bytes.now ≤ 536870911 }
    ensures { result ≡ set_bits bytes.now }
{
    let bits = 8 * (bytes.len() as u32);
    let mut set: u32 = 0;
    for s in 0..bits {
        set += bit(bytes, s);
    }
    set
}

// "Count 32 bytes: how many stops are drawn"; "a slice of 32 or 64 bytes". Any other length answers 1.
pub fn count(bytes: &[u8]) -> Result<u32, Refusal>
    ensures { outcome_by 0 result tt ≡ count_outcome two_widths bytes.now }
{
    if !sizes::width_ok(bytes.len()) {
        return Err(Refusal::WrongSize);
    }
    Ok(count_bits(bytes))
}
