// Transactions ("rings") launched and withdrawn: they see the state alone, so that every family of records shares them. The definitions are in crate rules.
#![tactic(auto)]

ghost use Rattle.std.specs.Prelude.{◌≡◌, Bool};
ghost use Rattle.bounded.specs.Limits.{two_widths};
ghost use Rattle.outcome.specs.Result.{answer_of, ends};
ghost use Rattle.sizes.specs.Lists.{Listed};
ghost use Rattle.state.specs.declared.PageState.{PageState};
ghost use Rattle.state.specs.State.{state_at};
ghost use Rattle.state.specs.Walk.{pages_in};
ghost use Rattle.rules.specs.Launch.{some_page, launch_outcome, launch_answer};
ghost use Rattle.rules.specs.Withdraw.{withdraw_answer, withdraw_outcome};
ghost use Rattle.rules.specs.laws.Chains.{state_judged, list_answer};

use outcome::Refusal;
use sizes::Sizes;
use state::PageState;

// Conditions 1 and 5, which the calls on the state alone share.
#[tactic(auto, unfolding(rules::specs::laws::Chains::state_judged))]
fn judged(sizes: Sizes, state: &[u32]) -> Result<(), Refusal>
    ensures { answer_of result ≡ state_judged two_widths sizes state.now }
{
    if !sizes::state_ok(sizes, state) {
        return Err(Refusal::WrongSize);
    }
    if !state::state_sound(sizes.pages, state) {
        return Err(Refusal::StateUnsound);
    }
    Ok(())
}

// "a listed page" that passes
fn some_page<F: Fn(PageState) -> bool>(state: &[u32], list: &[u32], passes: F) -> bool
    requires listed { Listed (pages_in state.now) list.now }
    requires callable { F.IsAlwaysCallable passes }
    ensures { (f : PageState → Bool)
        → ((page : PageState) (b : Bool) → F.post passes page b → b ≡ f page)
        → result ≡ some_page list.now (state_at state.now) f }
{
    list.iter()
        .map(|&page| state::page_at(state, page))
        .any(passes)
}

// Conditions 7 and 8 of a launch: "a listed page is in flight"; "a listed page's used is 4,294,967,294".
fn may_fly(state: &[u32], list: &[u32]) -> Result<(), Refusal>
    requires { Listed (pages_in state.now) list.now }
    ensures { answer_of result ≡ list_answer state.now list.now }
{
    if some_page(state, list, |page| page.in_flight()) {
        return Err(Refusal::PageInFlight);
    }
    if some_page(state, list, |page| page.used == sizes::HIGHEST_VERSION) {
        return Err(Refusal::VersionsExhausted);
    }
    Ok(())
}

// A launch is refused by the first condition that holds.
fn may_launch(sizes: Sizes, state: &[u32], list: &[u32]) -> Result<(), Refusal>
    ensures { answer_of result ≡ launch_answer two_widths sizes state.now list.now }
{
    judged(sizes, state)?;
    if !sizes::list_ok(sizes.pages, list) {
        return Err(Refusal::WrongList);
    }
    may_fly(state, list)
}

// Launch a list of pages: they form a cycle in flight, each at a new version.
pub fn launch(sizes: Sizes, state: &mut [u32], list: &[u32]) -> Result<(), Refusal>
    ensures { ends result state.new ≡ launch_outcome two_widths sizes state.old list.now }
{
    may_launch(sizes, state, list)?;
    state::launch::launch_pages(state, list);
    Ok(())
}

// A withdraw is refused by the first condition that holds.
fn may_withdraw(sizes: Sizes, state: &[u32], page: u32) -> Result<(), Refusal>
    ensures { answer_of result ≡ withdraw_answer two_widths sizes state.now page }
{
    judged(sizes, state)?;
    if page >= sizes.pages {
        return Err(Refusal::WrongList);
    }
    if !state::page_at(state, page).in_flight() {
        return Err(Refusal::PageNotInFlight);
    }
    Ok(())
}

// Withdraw the cycle of a page: "every page of the ring leaves flight, written 0; nothing else changes".
pub fn withdraw(sizes: Sizes, state: &mut [u32], page: u32) -> Result<(), Refusal>
    ensures { ends result state.new ≡ withdraw_outcome two_widths sizes state.old page }
{
    may_withdraw(sizes, state, page)?;
    state::cycle::withdraw_cycle(state, page);
    Ok(())
}
