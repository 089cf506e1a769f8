// The ledger of lib.rt where what is entered and kept are 32-bit numbers. A line's fill is a byte: other numbers come from what is lent alone, and the number
// for none counts as nothing entered.
// Kept: beside lib.rt's of bytes, for one of the two would ask more of a caller, or promise less, than the other.

ghost use Rattle.std.specs.Prelude.{◌≡◌, ◌*◌, ◌≤◌, length, set};
ghost use Rattle.state.specs.State.{state_at};
ghost use Rattle.ledger.specs.Ledger.{entered_then, kept_then, settled_entered, settled_kept};
ghost use Rattle.ledger.specs.Fills.{fill_of, fills_of};

use sizes::NO_NUMBER;
use state::PageState;

// A fill entered for a page.
pub fn enter_number(entered: &mut [Option<u32>], page: u32, fill: u8)
    ensures { fills_of entered.new ≡ set (fills_of entered.old) page fill }
{
    if (page as usize) < entered.len() {
        entered[page as usize] = Some(u32::from(fill));
    }
}

// What is entered for a page: it stays while the page is in flight.
fn entered_then(s: PageState, entered: Option<u32>) -> Option<u32>
    ensures { fill_of result ≡ entered_then s (fill_of entered) }
{
    if s.in_flight() { entered } else { None }
}

// What is kept of a page: what is entered for it, where its ring was completed. The number for none is no fill.
fn kept_then(done: bool, s: PageState, entered: Option<u32>, kept: u32) -> u32
    ensures { result ≡ kept_then done s (fill_of entered) kept }
{
    let Some(fill) = entered else {
        return kept;
    };
    if done && !s.in_flight() && fill != NO_NUMBER {
        fill
    } else {
        kept
    }
}

// The ledger behind a call that left this state; `done` says that it completed a ring.
pub fn settle_numbers(
    pages: u32,
    done: bool,
    state: &[u32],
    entered: &mut [Option<u32>],
    kept: &mut [u32],
)
    requires pages_in_bounds { 4 * pages ≤ length state.now }
    requires pages_in_bounds_2 { pages ≤ length entered.old }
    requires pages_in_bounds_3 { pages ≤ length kept.old }
    ensures entered { fills_of entered.new ≡ settled_entered pages (state_at state.now) (fills_of entered.old) }
    ensures kept { kept.new ≡ settled_kept pages done (state_at state.now) (fills_of entered.old) kept.old }
{
    for page in 0..pages {
        let s = state::page_at(state, page);
        let i = page as usize;
        let fill = entered[i];
        kept[i] = kept_then(done, s, fill, kept[i]);
        entered[i] = entered_then(s, fill);
    }
}
