// One page for the service van: from the bytes of the volumes to the page that is printed of them.

#![tactic(auto)]

pub mod input; // input.rt: the volumes in the input
pub mod lines; // lines.rt: the lines of the page
pub mod tally; // tally.rt: what is added up

ghost use Rattle.std.specs.Prelude.{◌≡◌, ℕ};
ghost use Rattle.bounded.specs.Limits.{Widths, two_widths};
ghost use Rattle.text.specs.Print.{shown, added};
ghost use Rattle.record.specs.Slot.{Slot};
ghost use Rattle.state.specs.declared.PageState.{PageState};
ghost use Rattle.fleet.specs.Entry.{comes_to, comes_to_number};
ghost use Rattle.fleet.specs.Page.{van_page};
ghost use Rattle.fleet.specs.Shown.{FiguresShown, EntriesShown, ReadingShown, PagesShown, EnoughRead, RoomEnough};
ghost use Rattle.fleet.specs.Cases.{PagesComputed};

use fleet::Figures;
use outcome::Refusal;
use tally::Tally;
use text::print::Printout;

// What a volume comes to, a refusal by its number.
fn numbered(entry: Result<Figures, Refusal>) -> Result<Figures, u32>
    ensures { comes_to_number result ≡ comes_to entry }
{
    match entry {
        Ok(figures) => Ok(figures),
        Err(refusal) => Err(refusal.number()),
    }
}

// What is printed for an input.
pub fn page(input: &[u8], out: &mut [u8]) -> usize
    ensures { shown out.new result ≡ added out.old 0 (van_page two_widths input.now) }
{
    let mut tally = Tally::default();
    let mut printed = Printout::new(out, 0);
    let mut rest = input;
    // "a 33rd is not read"
    for number in 1..33 {
        if rest.is_empty() {
            break;
        }
        let first = input::first_of(rest);
        let entry = numbered(first.entry);
        lines::put_volume(&mut printed, number, entry);
        tally = tally.with(entry);
        rest = &rest[first.length..];
    }
    lines::put_end(&mut printed, tally);
    printed.at
}

// Document 02, wish 13, what is shown: of every table and state, that the figures tell each page and record once; of every volume, that it is counted by the state that recovery gives, or refused by its
// answer; how input is read, case by case; of every page, "every line's width and each total exactly", and the mean; that the bytes that are read decide what is printed, at most 1,704,320, and that it has its
// room; and pages computed.
pub fn one_page()
    ensures figures { (P S : ℕ) (t : ℕ → Slot) (st : ℕ → PageState) → FiguresShown P S t st }
    ensures entries { (widths : Widths) → EntriesShown widths }
    ensures reading { (widths : Widths) → ReadingShown widths }
    ensures pages { (widths : Widths) → PagesShown widths }
    ensures enough { EnoughRead }
    ensures room { (widths : Widths) → RoomEnough widths }
    ensures computed { PagesComputed }
{}
