// A recorded script run with a cut at every point, each followed by recovery: from its text to the line that is printed.

#![tactic(auto)]

pub mod lines; // lines.rt: the lines of a text
pub mod run; // run.rt: the lines carried out, one after the other

ghost use Rattle.std.specs.Prelude.{◌≡◌, true, ◌+◌, ◌≤◌, length, drop, option_map};
ghost use Rattle.bounded.specs.Limits.{Widths, two_widths};
ghost use Rattle.sizes.specs.Sizes.{sizes_ok};
ghost use Rattle.text.specs.Print.{shown, added};
ghost use Rattle.text.specs.Scan.{bytes};
ghost use Rattle.everywhere.specs.Shown.{CutEverywhere};
ghost use Rattle.everywhere.specs.Cases.{CutsComputed};
ghost use Rattle.cutpoint.specs.Judged.{tallied};
ghost use Rattle.cuts.specs.Recording.{counts_text, report_text};
ghost use Rattle.cuts.specs.Ran.{none_yet, said_in, AtMost, most_cuts};
ghost use Rattle.cuts.specs.Run.{formatted_desk, run_from};
ghost use Rattle.cuts.specs.Shown.{ReportShown, AllLinesRun, EnoughRead, RoomEnough};
ghost use Rattle.cuts.specs.Cases.{TextsComputed};

use cutpoint::Tally;
use line::Line;
use recorded::Desk;
use sizes::{Layout, Sizes};
use text::print::Printout;

// The lines from `from` on, carried out on a volume that is formatted.
fn counted(trial: bool, sizes: Sizes, text: &[u8], from: usize) -> Option<Tally>
    requires sizes_value { sizes_ok two_widths sizes ≡ true }
    requires from_in_bounds { from ≤ length text.now }
    ensures finds { result ≡ option_map (tallied none_yet) (run_from two_widths sizes trial (formatted_desk sizes) 1 (said_in (drop from text.now))) }
    ensures few { AtMost most_cuts result }
{
    let w = 5 * (sizes.slots as usize);
    let b = (sizes.width as usize) * (sizes.slots as usize);
    let s = 4 * (sizes.pages as usize);
    // Room for every volume: 1,024 slots of 64 bytes, more than a line can name.
    let mut words = [0u32; 5120];
    let mut contents = [0u8; 65536];
    let mut state = [0u32; 1024];
    let mut entered = [None; 256];
    let mut kept = [0u32; 256];
    // It answers 0: the sizes are right, and so are the buffers.
    let _ = volume::format(
        Layout::FiveWords,
        sizes,
        &mut words[0..w],
        &mut contents[0..b],
        &mut state[0..s],
    );
    let mut desk = Desk {
        trial,
        sizes,
        words: &mut words[0..w],
        contents: &mut contents[0..b],
        state: &mut state[0..s],
        entered: &mut entered,
        kept: &mut kept,
    };
    run::run(&mut desk, text, from)
}

// "and only answer=line is printed"
fn refuse(out: &mut [u8]) -> usize
    ensures { shown out.new result ≡ added out.old 0 (bytes "answer=line\n") }
{
    let mut print = Printout::new(out, 0);
    print.put_text(b"answer=line\n");
    print.at
}

// "Print only one line, cuts= same= differ= each with its number"
fn put_counts(out: &mut [u8], tally: Tally) -> usize
    requires { tally.same + tally.differ ≤ 4294967295 }
    ensures { shown out.new result ≡ added out.old 0 (counts_text (tally.same + tally.differ) tally.same tally.differ) }
{
    let mut print = Printout::new(out, 0);
    print.put_field(b"cuts=", tally.same + tally.differ);
    print.put_field(b" same=", tally.same);
    print.put_field(b" differ=", tally.differ);
    print.put_text(b"\n");
    print.at
}

// What is printed for a script.
pub fn report(trial: bool, text: &[u8], out: &mut [u8]) -> usize
    ensures { shown out.new result ≡ added out.old 0 (report_text two_widths trial text.now) }
{
    let mut list = [0u32; 64];
    let end = lines::line_end(text, 0);
    let Some(line) = line::line_of(&text[0..end], &mut list) else {
        return refuse(out);
    };
    let Line::Format { sizes } = line else {
        return refuse(out);
    };
    // "refused first format line": its buffers have the right lengths, so that its sizes alone can be wrong.
    if !sizes.are_ok() {
        return refuse(out);
    }
    let Some(tally) = counted(trial, sizes, text, lines::next_line(text, end)) else {
        return refuse(out);
    };
    put_counts(out, tally)
}

// Document 02, wish 12, what is shown, for any widths: that the cuts are as many as the slots that accepted calls store or blank, and that for our own calls none differs, of every run and of the line that
// is printed; that all lines of a script are run, each as the script program does it; that the first 131,329 bytes of a text decide what is printed, and that it has its room; and runs and texts, case 6's
// script and its trial among them, computed.
pub fn cut_everywhere()
    ensures everywhere { (widths : Widths) → CutEverywhere widths }
    ensures printed { (widths : Widths) → ReportShown widths }
    ensures lines { (widths : Widths) → AllLinesRun widths }
    ensures enough { (widths : Widths) → EnoughRead widths }
    ensures room { (widths : Widths) → RoomEnough widths }
    ensures runs { CutsComputed }
    ensures texts { TextsComputed }
{}
