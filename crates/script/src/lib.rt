// One line of a script carried out on a volume, and what it prints.
#![tactic(auto)]

ghost use Rattle.std.specs.Prelude.{ℕ, ◌≡◌, List};
ghost use Rattle.bounded.specs.Limits.{two_widths};
ghost use Rattle.text.specs.Puts.{Puts};
ghost use Rattle.line.specs.Line.{said, said_of};
ghost use Rattle.rules.specs.Volume.{Volume, volume};
ghost use Rattle.report.specs.Report.{standing};
ghost use Rattle.script.specs.Script.{volume_turn, sizes_for, turn};
ghost use Rattle.script.specs.StepLaws.{in_time};
ghost use Rattle.script.specs.Held.{memory_of, SameBuffers};

use line::Line;
use report::Run;
use sizes::Sizes;
use text::print::Printout;

// A line carried out on a volume of its sizes.
// Kept: its buffers one by one, since `step` with a `Memory` of the fronts of another one's buffers is not covered by the borrow checker yet.
fn volume_step(
    run: Run,
    sizes: Sizes,
    line: Line,
    list: &[u32],
    words: &mut [u32],
    contents: &mut [u8],
    state: &mut [u32],
    out: &mut Printout,
) -> Run
    ensures stands { standing result (volume words.new contents.new state.new)
        ≡ (volume_turn two_widths sizes (standing run (volume words.old contents.old state.old)) (said line list.now)).leaves }
    ensures prints { Puts out.old out.new
        (volume_turn two_widths sizes (standing run (volume words.old contents.old state.old)) (said line list.now)).prints }
{
    let given = dispatch::call(sizes, line, list, words, contents, state);
    report::tell(run, line, words, contents, state, out, given)
}

// "a line other than format before a format has answered 0" is as a malformed one.
fn in_time(pages: u32, line: Option<Line>) -> Option<Line>
    ensures { (list : List ℕ) → said_of result list ≡ in_time pages (said_of line list) }
{
    let line = line?;
    (pages > 0 || matches!(line, Line::Format { .. })).then_some(line)
}

// The sizes of the volume that a line works on: a format's own, else the run's.
fn sizes_for(run: Run, line: Line) -> Sizes
    ensures { (memory : Volume) (list : List ℕ) → result ≡ sizes_for (standing run memory) (said line list) }
{
    match line {
        Line::Format { sizes } => sizes,
        _ => run.sizes,
    }
}

// The memory that a script's volumes are in front of: slot words, contents and state words.
#[derive(Drop)]
pub struct Memory<'a> {
    pub words: &'a mut [u32],
    pub contents: &'a mut [u8],
    pub state: &'a mut [u32],
}

// One line carried out, unless the run is over: it works on the front of memory that a volume of its sizes has. A buffer that lacks it has the wrong
// length, which the call refuses.
pub fn step(
    run: Run,
    line: Option<Line>,
    list: &[u32],
    memory: &mut Memory,
    out: &mut Printout,
) -> Run
    ensures stands { standing result (memory_of memory.new)
        ≡ (turn two_widths (standing run (memory_of memory.old)) (said_of line list.now)).leaves }
    ensures prints { Puts out.old out.new
        (turn two_widths (standing run (memory_of memory.old)) (said_of line list.now)).prints }
    ensures same_buffers { SameBuffers memory.old memory.new }
{
    if run.over {
        return run;
    }
    let Some(says) = in_time(run.sizes.pages, line) else {
        return report::refuse(run, out);
    };
    let sizes = sizes_for(run, says);
    let w = (5 * (sizes.slots as usize)).min(memory.words.len());
    let b = ((sizes.width as usize) * (sizes.slots as usize)).min(memory.contents.len());
    let s = (4 * (sizes.pages as usize)).min(memory.state.len());
    volume_step(
        run,
        sizes,
        says,
        list,
        &mut memory.words[0..w],
        &mut memory.contents[0..b],
        &mut memory.state[0..s],
        out,
    )
}
