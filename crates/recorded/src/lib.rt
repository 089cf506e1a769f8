// One line of a recorded script carried out, with a cut at every point of it.

#![tactic(auto)]

pub mod erase; // erase.rt: an erase, our own or the trial one, with all its cuts

ghost use Rattle.std.specs.Prelude.{◌≡◌, ◌+◌, ◌≤◌, length};
ghost use Rattle.bounded.specs.Limits.{two_widths};
ghost use Rattle.line.specs.Line.{said};
ghost use Rattle.rules.specs.Volume.{volume};
ghost use Rattle.ledger.specs.Fills.{fills_of};
ghost use Rattle.cutpoint.specs.Judged.{tallied};
ghost use Rattle.recorded.specs.Desk.{desk, Ready, write_desk, write_cuts, other_desk, desk_after, desk_cuts};

use cutpoint::Tally;
use line::Line;
use sizes::Sizes;

// What a script is carried out on: a volume's buffers, and what the ledger says of its pages. Where `trial`, its erase never answers 12.
#[derive(Drop)]
pub struct Desk<'a> {
    pub trial: bool,
    pub sizes: Sizes,
    pub words: &'a mut [u32],
    pub contents: &'a mut [u8],
    pub state: &'a mut [u32],
    pub entered: &'a mut [Option<u32>],
    pub kept: &'a mut [u32],
    pub ghost ready: { Ready two_widths sizes (desk (volume words.now contents.now state.now) (fills_of entered.now) kept.now) },
}

impl Desk<'_> {
    ghost use Rattle.recorded.specs.Held.{desk_of, SameBuffers};
    ghost use Rattle.recorded.specs.Bytes.{InBytes};

    // A line that is neither a write nor an erase: one that may stand in a script alters no flash.
    fn other_line(&mut self, line: Line, list: &[u32])
        ensures leaves { desk_of self.new ≡ other_desk two_widths self.old.sizes (desk_of self.old) (said line list.now) }
        ensures same_sizes { self.new.sizes ≡ self.old.sizes }
        ensures same_trial { self.new.trial ≡ self.old.trial }
        ensures same_buffers { SameBuffers self.old self.new }
        ensures bytes { InBytes (desk_of self.old) → InBytes (desk_of self.new) }
    {
        let state = &mut *self.state;
        let _ = dispatch::call(self.sizes, line, list, self.words, self.contents, state);
        ledger::numbers::settle_numbers(self.sizes.pages, false, state, self.entered, self.kept);
    }

    // A write, and the cut behind it: recovery alters no flash, so that the flash itself is judged.
    fn write_line(&mut self, tally: Tally, page: u32, slot: u32, fill: u8) -> Tally
        requires { tally.same + tally.differ + 1 ≤ 4294967295 }
        ensures leaves { desk_of self.new ≡ write_desk two_widths self.old.sizes (desk_of self.old) page slot fill }
        ensures counts { result ≡ tallied tally (write_cuts two_widths self.old.sizes (desk_of self.old) page slot fill) }
        ensures same_sizes { self.new.sizes ≡ self.old.sizes }
        ensures same_trial { self.new.trial ≡ self.old.trial }
        ensures same_buffers { SameBuffers self.old self.new }
        ensures bytes { InBytes (desk_of self.old) → InBytes (desk_of self.new) }
    {
        let words = &mut *self.words;
        let contents = &mut *self.contents;
        let state = &mut *self.state;
        let kept = &mut *self.kept;
        let no_list = [0u32; 1];
        let line = Line::Write { page, slot, fill };
        let Ok(done) = dispatch::call(self.sizes, line, &no_list, words, contents, state) else {
            return tally;
        };
        ledger::numbers::enter_number(self.entered, page, fill);
        ledger::numbers::settle_numbers(self.sizes.pages, done == 1, state, self.entered, kept);
        let mut cut_state = [0u32; 1024];
        let s = state.len();
        tally.count(cutpoint::comes_back(self.sizes, words, contents, &mut cut_state[0..s], kept))
    }

    // A line, with its cuts.
    pub fn step(&mut self, tally: Tally, line: Line, list: &[u32]) -> Tally
        requires list_len { length list.now ≡ 64 }
        requires differ_bound { tally.same + tally.differ + 64 ≤ 4294967295 }
        ensures leaves { desk_of self.new ≡ desk_after two_widths self.old.sizes self.old.trial (desk_of self.old) (said line list.now) }
        ensures counts { result ≡ tallied tally (desk_cuts two_widths self.old.sizes self.old.trial (desk_of self.old) (said line list.now)) }
        ensures same_sizes { self.new.sizes ≡ self.old.sizes }
        ensures same_trial { self.new.trial ≡ self.old.trial }
        ensures same_buffers { SameBuffers self.old self.new }
        ensures bytes { InBytes (desk_of self.old) → InBytes (desk_of self.new) }
    {
        match line {
            Line::Write { page, slot, fill } => self.write_line(tally, page, slot, fill),
            Line::Erase { count } => {
                let n = count.min(list.len());
                self.erase_line(tally, &list[0..n])
            }
            _ => {
                self.other_line(line, list);
                tally
            }
        }
    }
}

#[cfg(test)]
mod tests {
    use super::*;
    use sizes::NO_NUMBER;

    // One page in two slots, formatted: a ring keeps its byte, and its cut and the one in an erase of the record below come back the same.
    #[test]
    fn keeps_the_byte_of_a_ring(rt: HostRuntime) {
        let mut words = [
            0, 0, 0, 0, 0, NO_NUMBER, NO_NUMBER, NO_NUMBER, NO_NUMBER, NO_NUMBER,
        ];
        let mut contents = [0u8; 64];
        let mut state = [0, 0, NO_NUMBER, 0];
        let mut entered = [None; 1];
        let mut kept = [0u32; 1];
        let mut desk = Desk {
            trial: false,
            sizes: Sizes {
                pages: 1,
                slots: 2,
                width: 32,
            },
            words: &mut words,
            contents: &mut contents,
            state: &mut state,
            entered: &mut entered,
            kept: &mut kept,
        };
        let list = [0u32; 64];
        let launched = desk.step(Tally::default(), Line::Launch { count: 1 }, &list);
        let line = Line::Write {
            page: 0,
            slot: 1,
            fill: 255,
        };
        let written = desk.step(Tally::default(), line, &list);
        let erased = desk.erase_line(Tally::default(), &[0]);
        assert_eq!(rt; (launched.same, launched.differ), (0, 0));
        assert_eq!(rt; (written.same, written.differ), (1, 0));
        assert_eq!(rt; (erased.same, erased.differ), (1, 0));
        assert_eq!(rt; (words[0], words[5], contents[32]), (NO_NUMBER, 0, 255));
        assert_eq!(rt; state, [1, 1, NO_NUMBER, 0]);
        assert_eq!(rt; entered, [None]);
        assert_eq!(rt; kept, [255]);
    }
}
