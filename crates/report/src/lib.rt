// Where a script's run stands, and what is said of a line whose call is made.
#![tactic(auto)]

ghost use Rattle.std.specs.Prelude.{ℕ, ◌≡◌, List, true};
ghost use Rattle.std.specs.Result.{result_unwrap_or};
ghost use Rattle.outcome.specs.Result.{answer_of};
ghost use Rattle.bounded.specs.Limits.{two_widths};
ghost use Rattle.text.specs.Puts.{Puts};
ghost use Rattle.line.specs.Line.{said};
ghost use Rattle.rules.specs.Volume.{Volume, volume};
ghost use Rattle.report.specs.Report.{standing, start_run, refused_turn, done_text, formatted, told};

use line::Line;
use outcome::Refusal;
use sizes::Sizes;
use text::print::Printout;

// Where a run stands: the volume's sizes, all 0 before a format has answered 0, and whether the run has ended.
#[derive(Clone, Copy)]
pub struct Run {
    pub sizes: Sizes,
    pub over: bool,
}

impl Run {
    // The run before its first byte.
    pub fn start() -> Run
        ensures { result ≡ start_run }
    {
        let sizes = Sizes {
            pages: 0,
            slots: 0,
            width: 0,
        };
        Run { sizes, over: false }
    }

    // The run ended.
    pub fn ended(self) -> Run
        ensures { result ≡ record { sizes = self.sizes; over = true } }
    {
        Run { over: true, ..self }
    }

    // The run on a volume of these sizes.
    pub fn on(self, sizes: Sizes) -> Run
        ensures { result ≡ record { sizes = sizes; over = self.over } }
    {
        Run { sizes, ..self }
    }
}

// The number of a call's answer: 0 where it is done.
fn answer(given: Result<u32, Refusal>) -> u32
    ensures { result ≡ answer_of given }
{
    match given {
        Ok(_) => 0,
        Err(refusal) => refusal.number(),
    }
}

// "Any other line … prints answer=line and ends the run."
pub fn refuse(run: Run, out: &mut Printout) -> Run
    ensures stands { (memory : Volume) → standing result memory ≡ (refused_turn (standing run memory)).leaves }
    ensures prints { (memory : Volume) → Puts out.old out.new (refused_turn (standing run memory)).prints }
{
    out.put_text(b"answer=line\n");
    run.ended()
}

// A format's answer. "A refused later format leaves the volume as it was": the run goes on with the sizes of one that is accepted.
fn say_format(run: Run, sizes: Sizes, out: &mut Printout, given: Result<u32, Refusal>) -> Run
    ensures stands { (memory : Volume) → standing result memory ≡ (formatted (standing run memory) sizes (answer_of given)).leaves }
    ensures prints { (memory : Volume) → Puts out.old out.new (formatted (standing run memory) sizes (answer_of given)).prints }
{
    listing::put_answer(out, answer(given));
    match given {
        Ok(_) => run.on(sizes),
        Err(_) => run,
    }
}

// A write's answer, "with its done after it".
fn say_done(out: &mut Printout, given: Result<u32, Refusal>)
    ensures { Puts out.old out.new (done_text (answer_of given) (result_unwrap_or given 0)) }
{
    out.put_field(b"answer=", answer(given));
    out.put_field(b" done=", given.unwrap_or(0));
    out.put_text(b"\n");
}

// What is said of a line whose call left this volume and gave this back.
// Kept: the buffers one by one, as `volume_step` of crate script has them.
pub fn tell(
    run: Run,
    line: Line,
    words: &[u32],
    contents: &[u8],
    state: &[u32],
    out: &mut Printout,
    given: Result<u32, Refusal>,
) -> Run
    ensures stands { (list : List ℕ) → standing result (volume words.now contents.now state.now)
        ≡ (told two_widths (standing run (volume words.now contents.now state.now)) (said line list) (answer_of given) (result_unwrap_or given 0)).leaves }
    ensures prints { (list : List ℕ) → Puts out.old out.new
        (told two_widths (standing run (volume words.now contents.now state.now)) (said line list) (answer_of given) (result_unwrap_or given 0)).prints }
{
    match line {
        Line::Format { sizes } => say_format(run, sizes, out, given),
        Line::Write { .. } => {
            say_done(out, given);
            run
        }
        Line::List => {
            listing::list(run.sizes, words, contents, state, out);
            run
        }
        _ => {
            listing::put_answer(out, answer(given));
            run
        }
    }
}
