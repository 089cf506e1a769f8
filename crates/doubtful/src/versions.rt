// The lowest and highest versions so far.

ghost use Rattle.std.specs.Prelude.{◌≡◌, ◌*◌, length};
ghost use Rattle.doubtful.specs.Versions.{lowest_noted, highest_noted, versions_noted};

// Kept: two functions of one line each; one would take `min` or `max` as a closure.
// Kept: `first` beside a word: the words are lent, to be written whether or not they hold versions yet, so that an Option would be made of both for each word, and matched at once.

// The lowest version, this one being the first that is found or one more.
fn lowest(first: bool, so_far: u32, version: u32) -> u32
    ensures { result ≡ lowest_noted first so_far version }
{
    if first { version } else { so_far.min(version) }
}

// … and the highest.
fn highest(first: bool, so_far: u32, version: u32) -> u32
    ensures { result ≡ highest_noted first so_far version }
{
    if first { version } else { so_far.max(version) }
}

// Each page's committed version by the state, noted.
// Kept: `2 * page`; tried by `chunks_exact_mut(2)`, whose loop's invariant has what is left of the iterator and not the words that are written, and the proof did not close.
pub fn note(pages: u32, first: bool, state: &[u32], out: &mut [u32])
    requires state_len { length state.now ≡ 4 * pages }
    requires out_len { length out.old ≡ 2 * pages }
    ensures { out.new ≡ versions_noted pages first state.now out.old }
{
    for page in 0..pages {
        let version = state::page_at(state, page).committed;
        let low = 2 * (page as usize);
        out[low] = lowest(first, out[low], version);
        out[low + 1] = highest(first, out[low + 1], version);
    }
}
