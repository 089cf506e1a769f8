// Launching a list of pages.

ghost use Rattle.std.specs.Prelude.{◌≡◌, ◌*◌, ◌<◌, length};
ghost use Rattle.state.specs.State.{state_at, state_words};
ghost use Rattle.state.specs.Change.{following, launched};
ghost use Rattle.state.specs.Walk.{pages_in, Launchable};

use super::{page_at, put_page};

// "the following page in the list (the last points to the first)"
fn following(pages: &[u32], i: usize) -> u32
    requires { i < length pages.now }
    ensures { result ≡ following pages.now i }
{
    pages.get(i + 1).copied().unwrap_or(pages[0])
}

// "each page's used rises by 1, its next is the following page in the list (the last points to the first), written is 0"
pub fn launch_pages(state: &mut [u32], pages: &[u32])
    requires { (length state.old ≡ 4 * pages_in state.old) × Launchable (pages_in state.old) (state_at state.old) pages.now }
    ensures { state.new ≡ state_words (pages_in state.old) (launched pages.now (state_at state.old)) }
{
    for (i, &page) in pages.iter().enumerate() {
        let s = page_at(state, page);
        let next = following(pages, i);
        put_page(state, page, s.launched(next));
    }
}
