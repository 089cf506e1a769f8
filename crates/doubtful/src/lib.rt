// What a failing chip may lose, document 02, wish 11: each filling of a volume some of whose slots are in doubt is recovered, and each page's lowest and highest version kept. The definitions are in crate
// upkeep; recovery is crate recovery's.

#![tactic(auto)]

mod filling; // filling.rt: one filling of the slot table
mod tests; // tests.rt: what a call tests before a filling is tried
mod versions; // versions.rt: the lowest and highest versions so far

ghost use Rattle.std.specs.Prelude.{◌≡◌, ◌*◌, length};
ghost use Rattle.bounded.specs.Limits.{two_widths};
ghost use Rattle.outcome.specs.Result.{outcome_by};
ghost use Rattle.record.specs.Flash.{flash};
ghost use Rattle.upkeep.specs.Doubtful.{recovers, recovering, doubtful_words, doubtful_outcome};
ghost use Rattle.doubtful.specs.Fillable.{Fillable};
ghost use Rattle.doubtful.specs.Versions.{filling_noted};

use outcome::Refusal;
use sizes::Sizes;

// A flash some of whose slots are in doubt: what every filling is made of.
#[derive(Clone, Copy)]
struct Doubted<'a> {
    sizes: Sizes,
    words: &'a [u32],
    contents: &'a [u8],
    list: &'a [u32],
    ghost fillable: { Fillable sizes words.now contents.now list.now },
}

// Kept: `filled`, `state` and `out` are parameters, for tools/shape reads no struct that holds what can be altered.
impl Doubted<'_> {
    ghost use Rattle.doubtful.specs.Held.{held};

    // Filling m is recovered, and its versions noted where that succeeds; says whether it does. `filled` and `state` are for this filling.
    fn recover_filling(
        &self,
        m: u32,
        first: bool,
        filled: &mut [u32],
        state: &mut [u32],
        out: &mut [u32],
    ) -> bool
        requires filled_len { length filled.old ≡ length self.now.words.now }
        requires state_len { length state.old ≡ 4 * self.now.sizes.pages }
        requires out_len { length out.old ≡ 2 * self.now.sizes.pages }
        ensures value { result ≡ recovers two_widths self.now.sizes (held self.now) self.now.list.now m }
        ensures out_after { out.new ≡ filling_noted two_widths self.now.sizes (held self.now) self.now.list.now m first out.old }
    {
        filling::fill(self.words, self.list, m, filled);
        if recovery::recover(self.sizes, filled, self.contents, state).is_err() {
            return false;
        }
        versions::note(self.sizes.pages, first, state, out);
        true
    }

    // The fillings whose recovery succeeds: how many there are, and, where there is one, each page's lowest and highest version. `filled` and `state` are for each filling in turn.
    fn recover_fillings(&self, filled: &mut [u32], state: &mut [u32], out: &mut [u32]) -> u32
        requires filled_len { length filled.old ≡ length self.now.words.now }
        requires state_len { length state.old ≡ 4 * self.now.sizes.pages }
        requires out_len { length out.old ≡ 2 * self.now.sizes.pages }
        ensures value { result ≡ recovering two_widths self.now.sizes (held self.now) self.now.list.now }
        ensures out_unchanged { result ≡ 0 → out.new ≡ out.old }
        ensures out_after { ¬ (result ≡ 0) → out.new ≡ doubtful_words two_widths self.now.sizes (held self.now) self.now.list.now }
    {
        let total = filling::count_fillings(self.list);
        let mut count = 0;
        for m in 0..total {
            let first = count == 0;
            if self.recover_filling(m, first, filled, state, out) {
                count += 1;
            }
        }
        count
    }
}

// The versions that each page may have, some slots being in doubt.
pub fn doubtful(
    sizes: Sizes,
    words: &[u32],
    contents: &[u8],
    list: &[u32],
    out: &mut [u32],
) -> Result<u32, Refusal>
    ensures { outcome_by 0 result out.new ≡ doubtful_outcome two_widths sizes (flash words.now contents.now) list.now out.old }
{
    tests::judged(sizes, words, contents, list, out)?;
    let flash = Doubted {
        sizes,
        words,
        contents,
        list,
    };
    let mut filled = [0u32; 5120];
    let mut state = [0u32; 1024];
    let count = flash.recover_fillings(
        &mut filled[..words.len()],
        &mut state[..4 * (sizes.pages as usize)],
        out,
    );
    if count == 0 {
        return Err(Refusal::NoFillingRecovers);
    }
    Ok(count)
}
