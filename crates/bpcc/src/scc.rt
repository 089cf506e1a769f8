// The C interface of the second family, records without a back pointer: every call, exported. The functions `scc_promise_3`, `scc_slowest_start` and `scc_cases`
// pin theorems in their contracts.
ghost use Rattle.std.specs.Prelude.{◌≡◌};
ghost use Rattle.bounded.specs.Limits.{two_widths};
ghost use Rattle.outcome.specs.Outcome.{returned};
ghost use Rattle.outcome.specs.Row.{RowsHold};
ghost use Rattle.sizes.specs.declared.Layout.TheVariants.{FourWords};
ghost use Rattle.sizes.specs.Sizes.{sizes_of};
ghost use Rattle.record.specs.Flash.{flash};
ghost use Rattle.rules.specs.Volume.{volume};
ghost use Rattle.rules.specs.Format.{format_outcome_in};
ghost use Rattle.rules.specs.Read.{read_outcome_in};
ghost use Rattle.rules.specs.Launch.{launch_outcome};
ghost use Rattle.rules.specs.Withdraw.{withdraw_outcome};
ghost use Rattle.rules.specs.SimpleCalls.{simple_write_outcome, simple_erase_outcome, simple_recover_outcome};
ghost use Rattle.rules.specs.Links.{simply, LinksAtMost, OneRingReaches, LinksAreSteps, LinksApart};
ghost use Rattle.cases.specs.Simple.{simple_rows};
ghost use Rattle.atomicity.specs.Family.{simple};
ghost use Rattle.atomicity.specs.Promise.{PromiseOf, PromiseAt, OwnState};
ghost use Rattle.atomicity.specs.Companions.{StatesAgree, PremisesMet, StagesInOrder};
ghost use Rattle.atomicity.specs.Runs.{SimpleRunsComputed};
ghost use Rattle.atomicity.specs.Burial.{Unburied};

use super::sizes_of;
use sizes::Layout;
use volume::Volume;

// Format a volume.
#[unsafe(no_mangle)]
pub extern "C" fn scc_format(
    pages: u32,
    slots: u32,
    width: u32,
    words: &mut [u32],
    contents: &mut [u8],
    state: &mut [u32],
) -> u64
    ensures { returned result (volume words.new contents.new state.new)
        ≡ format_outcome_in FourWords two_widths (sizes_of pages slots width) (volume words.old contents.old state.old) }
{
    outcome::reply_done(volume::format(
        Layout::FourWords,
        sizes_of(pages, slots, width),
        words,
        contents,
        state,
    ))
}

// Launch a list of pages as one transaction.
#[unsafe(no_mangle)]
pub extern "C" fn scc_launch(
    pages: u32,
    slots: u32,
    width: u32,
    state: &mut [u32],
    list: &[u32],
) -> u64
    ensures { returned result state.new ≡ launch_outcome two_widths (sizes_of pages slots width) state.old list.now }
{
    outcome::reply_done(flight::launch(sizes_of(pages, slots, width), state, list))
}

// Write a page of a launched transaction into a blank slot, where that buries no record.
#[unsafe(no_mangle)]
pub extern "C" fn scc_write(
    pages: u32,
    slots: u32,
    width: u32,
    words: &mut [u32],
    contents: &mut [u8],
    state: &mut [u32],
    page: u32,
    slot: u32,
    bytes: &[u8],
) -> u64
    ensures { returned result (volume words.new contents.new state.new)
        ≡ simple_write_outcome two_widths (sizes_of pages slots width) (volume words.old contents.old state.old) page slot bytes.now }
{
    outcome::reply_of(
        transact::write(
            Layout::FourWords,
            sizes_of(pages, slots, width),
            words,
            contents,
            state,
            page,
            slot,
            bytes,
        ),
        0,
    )
}

// Withdraw the transaction that a page is in.
#[unsafe(no_mangle)]
pub extern "C" fn scc_withdraw(
    pages: u32,
    slots: u32,
    width: u32,
    state: &mut [u32],
    page: u32,
) -> u64
    ensures { returned result state.new ≡ withdraw_outcome two_widths (sizes_of pages slots width) state.old page }
{
    outcome::reply_done(flight::withdraw(sizes_of(pages, slots, width), state, page))
}

// Erase a list of slots.
#[unsafe(no_mangle)]
pub extern "C" fn scc_erase(
    pages: u32,
    slots: u32,
    width: u32,
    words: &mut [u32],
    contents: &mut [u8],
    state: &[u32],
    list: &[u32],
) -> u64
    ensures { returned result (flash words.new contents.new)
        ≡ simple_erase_outcome two_widths (sizes_of pages slots width) (volume words.old contents.old state.now) list.now }
{
    outcome::reply_done(collect::erase(
        Layout::FourWords,
        sizes_of(pages, slots, width),
        words,
        contents,
        state,
        list,
    ))
}

// Recover the state from the slot table, and count the links followed.
#[unsafe(no_mangle)]
pub extern "C" fn scc_recover(
    pages: u32,
    slots: u32,
    width: u32,
    words: &[u32],
    state: &mut [u32],
) -> u64
    ensures { returned result state.new ≡ simple_recover_outcome two_widths (sizes_of pages slots width) words.now state.old }
{
    outcome::reply_of(
        recovery::simple::recover(sizes_of(pages, slots, width), words, state),
        0,
    )
}

// Read a page's committed contents.
#[unsafe(no_mangle)]
pub extern "C" fn scc_read(
    pages: u32,
    slots: u32,
    width: u32,
    words: &[u32],
    contents: &[u8],
    state: &[u32],
    page: u32,
    out: &mut [u8],
) -> u64
    ensures { returned result out.new
        ≡ read_outcome_in FourWords two_widths (sizes_of pages slots width) (volume words.now contents.now state.now) page out.old }
{
    let volume = Volume::new(
        Layout::FourWords,
        sizes_of(pages, slots, width),
        words,
        contents,
        state,
    );
    outcome::reply_done(reader::copy_page(&volume, page, out))
}

// Promise 3 of this family, whole: one theorem over all lists of calls and crashes, for any widths, and at the two that the calls take; that it holds of the volume's
// own state; the two invariants; that its premises are met; what ties a call's stages to what it leaves and to a crash in it; five runs, computed; and how a write
// that is refused by 16 comes to be done.
pub fn scc_promise_3()
    ensures whole { PromiseOf simple }
    ensures widths { PromiseAt simple two_widths }
    ensures own { OwnState simple }
    ensures invariants { StatesAgree simple }
    ensures premises { PremisesMet simple }
    ensures stages { StagesInOrder simple }
    ensures runs { SimpleRunsComputed }
    ensures unburied { Unburied }
{}

// Document 02, wish 6, of this family: the links that recover returns.
pub fn scc_slowest_start()
    ensures most { LinksAtMost simply }
    ensures reached { OneRingReaches simply }
    ensures steps { LinksAreSteps simply }
    ensures apart { LinksApart simply }
{}

// Document 02, wish 5: what the calls give and leave in its cases, computed.
pub fn scc_cases()
    ensures cases { RowsHold simple_rows }
{}
