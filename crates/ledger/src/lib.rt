// What a recorded run's ledger says of each page: the fill entered for it in an open ring, if any, and the fill that is kept. A ring is closed exactly where its pages have left
// flight, so whether what was entered still stands is read off the state behind each call. A fill is a byte here.

#![tactic(auto, unfolding(crate::specs::Ledger::entered_then, crate::specs::Ledger::kept_then))]

pub mod numbers; // numbers.rt: the same ledger, where what is entered and kept are 32-bit numbers

ghost use Rattle.std.specs.Prelude.{◌≡◌, ◌*◌, ◌≤◌, length, set};
ghost use Rattle.state.specs.State.{state_at};
ghost use Rattle.ledger.specs.Ledger.{entered_then, kept_then, settled_entered, settled_kept};
ghost use Rattle.ledger.specs.Fills.{fill_of, fills_of};

use state::PageState;

// A fill entered for a page.
pub fn enter(entered: &mut [Option<u8>], page: u32, fill: u8)
    ensures { fills_of entered.new ≡ set (fills_of entered.old) page fill }
{
    if (page as usize) < entered.len() {
        entered[page as usize] = Some(fill);
    }
}

// What is entered for a page: it stays while the page is in flight.
fn entered_then(s: PageState, entered: Option<u8>) -> Option<u8>
    ensures { fill_of result ≡ entered_then s (fill_of entered) }
{
    if s.in_flight() { entered } else { None }
}

// What is kept of a page: what is entered for it, where its ring was completed.
fn kept_then(done: bool, s: PageState, entered: Option<u8>, kept: u8) -> u8
    ensures { result ≡ kept_then done s (fill_of entered) kept }
{
    if done && !s.in_flight() {
        entered.unwrap_or(kept)
    } else {
        kept
    }
}

// The ledger behind a call that left this state; `done` says that it completed a ring.
pub fn settle(pages: u32, done: bool, state: &[u32], entered: &mut [Option<u8>], kept: &mut [u8])
    requires pages_in_bounds { 4 * pages ≤ length state.now }
    requires pages_in_bounds_2 { pages ≤ length entered.old }
    requires pages_in_bounds_3 { pages ≤ length kept.old }
    ensures entered { fills_of entered.new ≡ settled_entered pages (state_at state.now) (fills_of entered.old) }
    ensures kept { kept.new ≡ settled_kept pages done (state_at state.now) (fills_of entered.old) kept.old }
{
    for page in 0..pages {
        let s = state::page_at(state, page);
        let i = page as usize;
        let fill = entered[i];
        kept[i] = kept_then(done, s, fill, kept[i]);
        entered[i] = entered_then(s, fill);
    }
}

#[cfg(test)]
mod tests {
    use super::*;
    use sizes::NO_NUMBER;

    // The state of two pages: page 0 in a ring of its own, page 1 at rest.
    const STATE: [u32; 8] = [0, 1, 0, 0, 1, 1, NO_NUMBER, 0];

    #[test]
    fn keeps_the_byte_that_is_entered(rt: HostRuntime) {
        let mut entered = [None; 2];
        let mut kept = [3u8, 4];
        enter(&mut entered, 0, 9);
        enter(&mut entered, 1, 5);
        // Page 2 has no entry.
        enter(&mut entered, 2, 6);
        assert_eq!(rt; entered, [Some(9), Some(5)]);
        // No ring is completed: nothing is kept, and of the page at rest nothing is entered then.
        settle(2, false, &STATE, &mut entered, &mut kept);
        assert_eq!(rt; entered, [Some(9), None]);
        assert_eq!(rt; kept, [3, 4]);
        // A ring is completed: the fill of the page at rest is kept.
        enter(&mut entered, 1, 255);
        settle(2, true, &STATE, &mut entered, &mut kept);
        assert_eq!(rt; entered, [Some(9), None]);
        assert_eq!(rt; kept, [3, 255]);
    }

    #[test]
    fn keeps_a_number_that_is_no_byte(rt: HostRuntime) {
        let mut entered = [Some(256u32); 2];
        let mut kept = [3u32, 4];
        // A ring is completed: the number of the page at rest is kept whole.
        numbers::settle_numbers(2, true, &STATE, &mut entered, &mut kept);
        assert_eq!(rt; entered, [Some(256), None]);
        assert_eq!(rt; kept, [3, 256]);
        // The number for none is not kept.
        entered[1] = Some(NO_NUMBER);
        numbers::settle_numbers(2, true, &STATE, &mut entered, &mut kept);
        assert_eq!(rt; entered, [Some(256), None]);
        assert_eq!(rt; kept, [3, 256]);
        numbers::enter_number(&mut entered, 1, 255);
        numbers::settle_numbers(2, true, &STATE, &mut entered, &mut kept);
        assert_eq!(rt; kept, [3, 255]);
    }
}
