// The call that a line of a script names, carried out on a volume.
#![tactic(auto)]

ghost use Rattle.std.specs.Prelude.{◌≡◌, replicate};
ghost use Rattle.bounded.specs.Limits.{two_widths};
ghost use Rattle.outcome.specs.Result.{outcome_by};
ghost use Rattle.line.specs.Line.{said};
ghost use Rattle.rules.specs.Volume.{volume};
ghost use Rattle.rules.specs.Write.{write_outcome};
ghost use Rattle.dispatch.specs.Dispatch.{lost, line_outcome};

use line::Line;
use outcome::Refusal;
use sizes::{Layout, Sizes};

// "cut sets every sheet word to 4,294,967,295"
pub fn lose(state: &mut [u32])
    ensures { state.new ≡ lost state.old }
{
    state.fill(sizes::NO_NUMBER);
}

// Kept, here and in `call`: the three buffers one by one, as each call below takes them and as a recorded run holds them.

// A write whose bytes are all `fill`, as many as the width says. A width above the largest has fewer, and the write refuses it whatever they are.
fn write_filled(
    sizes: Sizes,
    words: &mut [u32],
    contents: &mut [u8],
    state: &mut [u32],
    page: u32,
    slot: u32,
    fill: u8,
) -> Result<u32, Refusal>
    ensures { outcome_by 0 result (volume words.new contents.new state.new)
        ≡ write_outcome two_widths sizes (volume words.old contents.old state.old) page slot (replicate sizes.width fill) }
{
    let bytes = [fill; sizes::MAX_WIDTH];
    let n = (sizes.width as usize).min(sizes::MAX_WIDTH);
    transact::write(
        Layout::FiveWords,
        sizes,
        words,
        contents,
        state,
        page,
        slot,
        &bytes[0..n],
    )
}

// What a line's call on a volume gives back: its second number, 0 for a line that is no call.
pub fn call(
    sizes: Sizes,
    line: Line,
    list: &[u32],
    words: &mut [u32],
    contents: &mut [u8],
    state: &mut [u32],
) -> Result<u32, Refusal>
    ensures { outcome_by 0 result (volume words.new contents.new state.new)
        ≡ line_outcome two_widths sizes (volume words.old contents.old state.old) (said line list.now) }
{
    match line {
        Line::Format { .. } => {
            volume::format(Layout::FiveWords, sizes, words, contents, state).and(Ok(0))
        }
        Line::Launch { count } => {
            let n = count.min(list.len());
            flight::launch(sizes, state, &list[0..n]).and(Ok(0))
        }
        Line::Write { page, slot, fill } => {
            write_filled(sizes, words, contents, state, page, slot, fill)
        }
        Line::Withdraw { page } => flight::withdraw(sizes, state, page).and(Ok(0)),
        Line::Erase { count } => {
            let n = count.min(list.len());
            collect::erase(
                Layout::FiveWords,
                sizes,
                words,
                contents,
                state,
                &list[0..n],
            )
            .and(Ok(0))
        }
        Line::Recover => recovery::recover(sizes, words, contents, state),
        Line::Cut => {
            lose(state);
            Ok(0)
        }
        Line::List => Ok(0),
    }
}
