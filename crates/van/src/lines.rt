// The lines of the page, "72 columns wide". What does not fit is left out.

ghost use Rattle.std.specs.Prelude.{◌≡◌, ◌++◌, ◌∷◌, []};
ghost use Rattle.text.specs.Puts.{Puts};
ghost use Rattle.fleet.specs.Entry.{comes_to_number};
ghost use Rattle.fleet.specs.Page.{mean_whole, mean_remainder, blanks, column, figures_text, entry_text, volume_line, totals_line, mean_line};
ghost use Rattle.van.specs.Tally.{end_text};

use super::tally::Tally;
use fleet::Figures;
use text::print::Printout;

// "all other columns are blank"
fn put_blanks(out: &mut Printout, n: usize)
    ensures { Puts out.old out.new (blanks n) }
{
    for _ in 0..n {
        out.put(b' ');
    }
}

// A number in so many columns, "right-aligned".
fn put_column(out: &mut Printout, columns: usize, n: u32)
    ensures { Puts out.old out.new (column columns n) }
{
    // Its digits, at most ten, are put twice: once to see how many there are.
    let mut digits = [0u8; 11];
    let mut alone = Printout::new(&mut digits, 0);
    alone.put_number(n);
    put_blanks(out, columns.saturating_sub(alone.at));
    out.put_number(n);
}

// "in 16 each, right-aligned"
fn put_figures(out: &mut Printout, figures: Figures)
    ensures { Puts out.old out.new (figures_text figures) }
{
    put_column(out, 16, figures.pages);
    put_column(out, 16, figures.obsolete);
    put_column(out, 16, figures.exposed);
    put_column(out, 16, figures.needed);
}

// The figures of a volume that is counted; else "its refusal", or "1 in the pages column".
fn put_entry(out: &mut Printout, entry: Result<Figures, u32>)
    ensures { Puts out.old out.new (entry_text (comes_to_number entry)) }
{
    match entry {
        Ok(figures) => put_figures(out, figures),
        Err(answer) => {
            put_column(out, 16, answer);
            put_blanks(out, 48);
        }
    }
}

// "per volume its number from 1 in 8 columns", and what it comes to.
pub fn put_volume(out: &mut Printout, number: u32, entry: Result<Figures, u32>)
    ensures { Puts out.old out.new (volume_line number (comes_to_number entry) ++ (10 ∷ [])) }
{
    put_column(out, 8, number);
    put_entry(out, entry);
    out.put(b'\n');
}

// "then a line of the four totals in the same columns"
fn put_totals(out: &mut Printout, totals: Figures)
    ensures { Puts out.old out.new (totals_line totals ++ (10 ∷ [])) }
{
    put_blanks(out, 8);
    put_figures(out, totals);
    out.put(b'\n');
}

// "the mean of pages set, as a whole number …; with none it is 0 and 0"
fn mean_whole(total: u32, volumes: u32) -> u32
    ensures { result ≡ mean_whole total volumes }
{
    total.checked_div(volumes).unwrap_or(0)
}

// "… and a remainder over the volumes"
fn mean_remainder(total: u32, volumes: u32) -> u32
    ensures { result ≡ mean_remainder total volumes }
{
    total.checked_rem(volumes).unwrap_or(0)
}

// "then a line with the mean of pages set, … right-aligned in the first two of them"
fn put_mean(out: &mut Printout, total: u32, volumes: u32)
    ensures { Puts out.old out.new (mean_line total volumes ++ (10 ∷ [])) }
{
    put_blanks(out, 8);
    put_column(out, 16, mean_whole(total, volumes));
    put_column(out, 16, mean_remainder(total, volumes));
    put_blanks(out, 32);
    out.put(b'\n');
}

// The two lines behind those of the volumes.
pub fn put_end(out: &mut Printout, tally: Tally)
    ensures { Puts out.old out.new (end_text tally) }
{
    put_totals(out, tally.totals);
    put_mean(out, tally.totals.pages, tally.volumes);
}
