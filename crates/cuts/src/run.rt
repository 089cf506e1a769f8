// The lines of a script carried out, one after the other.

ghost use Rattle.std.specs.Prelude.{◌≡◌, ◌+◌, ◌≤◌, length, drop, option_map};
ghost use Rattle.bounded.specs.Limits.{two_widths};
ghost use Rattle.line.specs.Line.{max_entries, line_means};
ghost use Rattle.cutpoint.specs.Judged.{tallied};
ghost use Rattle.recorded.specs.Held.{desk_of, SameBuffers};
ghost use Rattle.recorded.specs.Bytes.{InBytes};
ghost use Rattle.cuts.specs.Run.{run_from};
ghost use Rattle.cuts.specs.Ran.{none_yet, said_in, turn_desk, turn_cuts, AtMost, most_cuts};

use super::lines;
use cutpoint::Tally;
use line::Line;
use recorded::Desk;

// One line: the tally behind it, or none where it may not stand.
fn turn(desk: &mut Desk, tally: Tally, line: &[u8]) -> Option<Tally>
    requires { tally.same + tally.differ + 64 ≤ 4294967295 }
    ensures leaves { desk_of desk.new ≡ turn_desk two_widths desk.old.sizes desk.old.trial (desk_of desk.old) (line_means max_entries line.now) }
    ensures counts { result ≡ option_map (tallied tally) (turn_cuts two_widths desk.old.sizes desk.old.trial (desk_of desk.old) (line_means max_entries line.now)) }
    ensures few { AtMost (tally.same + tally.differ + 64) result }
    ensures same_sizes { desk.new.sizes ≡ desk.old.sizes }
    ensures same_trial { desk.new.trial ≡ desk.old.trial }
    ensures same_buffers { SameBuffers desk.old desk.new }
    ensures bytes { InBytes (desk_of desk.old) → InBytes (desk_of desk.new) }
{
    let mut list = [0u32; 64];
    let says = line::line_of(line, &mut list)?;
    if let Line::Format { .. } = says {
        return None;
    }
    Some(desk.step(tally, says, &list))
}

// The lines behind the format line, which begin at `from`: their tally, or none where one refuses the script.
pub fn run(desk: &mut Desk, text: &[u8], from: usize) -> Option<Tally>
    requires { from ≤ length text.now }
    ensures finds { result ≡ option_map (tallied none_yet) (run_from two_widths desk.old.sizes desk.old.trial (desk_of desk.old) 1 (said_in (drop from text.now))) }
    ensures few { AtMost most_cuts result }
    ensures same_sizes { desk.new.sizes ≡ desk.old.sizes }
    ensures same_trial { desk.new.trial ≡ desk.old.trial }
    ensures same_buffers { SameBuffers desk.old desk.new }
    ensures bytes { InBytes (desk_of desk.old) → InBytes (desk_of desk.new) }
{
    let mut tally = Tally { same: 0, differ: 0 };
    let mut at = from;
    let mut lines_done: u32 = 1;
    // Kept: a while, since a line says where the next begins.
    while at < text.len() {
        if lines_done >= 256 {
            return None;
        }
        let end = lines::line_end(text, at);
        tally = turn(desk, tally, &text[at..end])?;
        at = lines::next_line(text, end);
        lines_done += 1;
    }
    Some(tally)
}

#[cfg(test)]
mod tests {
    use super::*;
    use sizes::{NO_NUMBER, Sizes};

    // One page in two slots, formatted. From the place of "?" the script is refused; from the line behind it both lines are carried out, the write's cut comes
    // back the same, and its byte is kept.
    #[test]
    fn keeps_the_byte_of_a_script(rt: HostRuntime) {
        let mut words = [
            0, 0, 0, 0, 0, NO_NUMBER, NO_NUMBER, NO_NUMBER, NO_NUMBER, NO_NUMBER,
        ];
        let mut contents = [0u8; 64];
        let mut state = [0, 0, NO_NUMBER, 0];
        let mut entered = [None; 1];
        let mut kept = [0u32; 1];
        let mut desk = Desk {
            trial: false,
            sizes: Sizes {
                pages: 1,
                slots: 2,
                width: 32,
            },
            words: &mut words,
            contents: &mut contents,
            state: &mut state,
            entered: &mut entered,
            kept: &mut kept,
        };
        let text = b"?\nop=launch pages=0\nop=write page=0 slot=1 fill=255\n";
        assert!(rt; run(&mut desk, text, 0).is_none());
        let tally = run(&mut desk, text, 2);
        assert!(rt; matches!(tally, Some(Tally { same: 1, differ: 0 })));
        assert_eq!(rt; entered, [None]);
        assert_eq!(rt; kept, [255]);
    }
}
