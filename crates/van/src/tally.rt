// What is added up over the volumes that are counted.

ghost use Rattle.std.specs.Prelude.{◌≡◌};
ghost use Rattle.fleet.specs.Entry.{comes_to_number};
ghost use Rattle.fleet.specs.PageLaws.{Within, SmallEntry};
ghost use Rattle.van.specs.Tally.{together, tallied_with, TallyFew};

use fleet::Figures;

// The totals, and how many volumes they are of.
#[derive(Clone, Copy, Default)]
pub struct Tally {
    pub totals: Figures,
    pub volumes: u32,
}

// The figures of a volume, added to the totals of at most 32.
fn together(a: Figures, b: Figures) -> Figures
    requires within { Within 32768 a }
    requires within_2 { Within 1024 b }
    ensures { result ≡ together a b }
{
    Figures {
        pages: a.pages + b.pages,
        obsolete: a.obsolete + b.obsolete,
        exposed: a.exposed + b.exposed,
        needed: a.needed + b.needed,
    }
}

impl Tally {
    // One volume more: "neither kind adds anything, and the mean counts only the others".
    pub fn with(self, entry: Result<Figures, u32>) -> Tally
        requires tally_few { TallyFew 32 self }
        requires small_entry { SmallEntry (comes_to_number entry) }
        ensures { result ≡ tallied_with self (comes_to_number entry) }
    {
        match entry {
            Ok(figures) => Tally {
                totals: together(self.totals, figures),
                volumes: self.volumes + 1,
            },
            Err(_) => self,
        }
    }
}
