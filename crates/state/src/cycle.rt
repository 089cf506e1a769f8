// The cycle ("ring") through a page in flight: one walk along next, which ends where it is back at the page.

ghost use Rattle.std.specs.Prelude.{◌≡◌};
ghost use Rattle.state.specs.State.{state_at, state_words};
ghost use Rattle.state.specs.Change.{completes, withdrawn, after_write};
ghost use Rattle.state.specs.Walk.{pages_in, Walkable, cycle_ended};

use super::{page_at, put_page};

// Kept: both walks go along the pages' links, which no range or slice has.

// Every other page of the cycle is written: a write of the page completes it.
pub fn completes(state: &[u32], page: u32) -> bool
    requires { Walkable (pages_in state.now) state.now page }
    ensures { result ≡ completes (pages_in state.now) (state_at state.now) page }
{
    let mut at = page_at(state, page).next;
    while at != page {
        let s = page_at(state, at);
        if !s.is_written() {
            return false;
        }
        at = s.next;
    }
    true
}

// Every page of the cycle leaves flight, committed or not.
fn end_cycle(state: &mut [u32], page: u32, commits: bool)
    requires { Walkable (pages_in state.old) state.old page }
    ensures { state.new ≡ state_words (pages_in state.old) (cycle_ended commits (pages_in state.old) (state_at state.old) page) }
{
    let mut at = page;
    loop {
        let s = page_at(state, at);
        put_page(state, at, s.ended(commits));
        at = s.next;
        if at == page {
            return;
        }
    }
}

// "every page of the ring leaves flight, written 0; nothing else changes"
pub fn withdraw_cycle(state: &mut [u32], page: u32)
    requires { Walkable (pages_in state.old) state.old page }
    ensures { state.new ≡ state_words (pages_in state.old) (withdrawn (pages_in state.old) (state_at state.old) page) }
{
    end_cycle(state, page, false)
}

// "The page becomes written. If its whole ring is then written, each of its pages gets committed = used and leaves flight,
// written 0": whether it is.
pub fn write_page(state: &mut [u32], page: u32) -> bool
    requires { Walkable (pages_in state.old) state.old page }
    ensures { (result ≡ completes (pages_in state.old) (state_at state.old) page)
        × (state.new ≡ state_words (pages_in state.old) (after_write (pages_in state.old) (state_at state.old) page)) }
{
    if completes(state, page) {
        end_cycle(state, page, true);
        return true;
    }
    let s = page_at(state, page);
    put_page(state, page, s.written_page());
    false
}
