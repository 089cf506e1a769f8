// Following links over a table of verdicts, every page's walk found once: no record is mentioned. The definitions are in specs/.
#![tactic(auto)]

ghost use Rattle.std.specs.Prelude.{◌≡◌, ◌≤◌, ◌<◌, IfErr, OnOk};
ghost use Rattle.bounded.specs.Below.{some_below};
ghost use Rattle.outcome.specs.Outcome.{◌⇒◌otherwise◌};
ghost use Rattle.outcome.specs.Result.{answer_of};
ghost use Rattle.follow.specs.Follow.{follow, is_astray, StaysInside};
ghost use Rattle.follow.specs.Verdicts.{listed};
ghost use Rattle.follow.specs.Walks.{walk_told, Followed, links_found, found_on, Tells, Known, Given, GoesAstray, WalkFound};

use outcome::Refusal;

// What one link says: the start is committed, it is uncommitted, or go on at a page's highest record. A page fits a byte, so that a table of verdicts takes 512
// bytes of the stack that a call may use.
#[derive(Clone, Copy)]
pub enum Verdict {
    Committed,
    Uncommitted,
    On(u8),
}

// Where following the links from a page ends.
#[derive(Clone, Copy)]
pub enum End {
    Committed,
    Uncommitted,
    // The links run into a ring that lacks the start.
    Astray,
}

// The end, and how many links were compared on the way.
#[derive(Clone, Copy)]
pub struct Walk {
    pub end: End,
    pub links: u32,
}

// What is found of a page: nothing yet, or so many links, 256 at the most, lead to a verdict that ends its walk, or it is in a ring of so many pages.
// Kept without an Option, which takes six bytes for each page and not four: recovery of one ring then takes 2 % more instructions.
#[derive(Clone, Copy)]
pub enum Found {
    Nothing,
    Committed(u16),
    Uncommitted(u16),
    Ring(u16),
}

impl Found {
    // What is found of the page that a page's link leads to, by its own: one link less to the same end, or the same ring.
    fn on(self) -> Found
        requires { 1 ≤ links_found self }
        ensures { result ≡ found_on self }
    {
        match self {
            Found::Committed(links) => Found::Committed(links - 1),
            Found::Uncommitted(links) => Found::Uncommitted(links - 1),
            Found::Ring(_) | Found::Nothing => self,
        }
    }

    // The walk that it tells.
    pub fn walk(self) -> Walk
        ensures { result ≡ walk_told self }
    {
        let (end, links) = match self {
            Found::Committed(links) | Found::Ring(links) => (End::Committed, links),
            Found::Uncommitted(links) => (End::Uncommitted, links),
            Found::Nothing => (End::Uncommitted, 0),
        };
        Walk {
            end,
            links: links as u32,
        }
    }
}

// What is found of the start, where its links do not run astray: they are followed up to a verdict that is not an on, a page whose end is known, or back
// to the start. A known ring met on the way lacks the start, and going round it uses up the links.
fn find_walk(
    verdicts: &[Verdict; 256],
    pages: u32,
    walks: &[Found; 256],
    start: u32,
) -> Result<Found, Refusal>
    requires pages_bound { pages ≤ 256 }
    requires start_lt_pages { start < pages }
    requires stays_inside { StaysInside pages (listed verdicts.now) }
    requires known { Known pages (listed verdicts.now) walks.now }
    ensures { WalkFound pages (listed verdicts.now) start result }
{
    let start = start as usize;
    let mut page = start;
    for before in 0..pages {
        let links = before as u16 + 1;
        let next = match verdicts[page] {
            Verdict::Committed => return Ok(Found::Committed(links)),
            Verdict::Uncommitted => return Ok(Found::Uncommitted(links)),
            Verdict::On(next) => next as usize,
        };
        if next == start {
            return Ok(Found::Ring(links));
        }
        let known = walks[next];
        match known {
            Found::Committed(rest) => return Ok(Found::Committed(links + rest)),
            Found::Uncommitted(rest) => return Ok(Found::Uncommitted(links + rest)),
            Found::Ring(_) | Found::Nothing => page = next,
        }
    }
    Err(Refusal::LinksAstray)
}

// Stores what is found of the start, and of the pages that its links lead to, up to one that has its entry.
fn give_walks(
    verdicts: &[Verdict; 256],
    pages: u32,
    walks: &mut [Found; 256],
    start: u32,
    found: Found,
)
    requires pages_bound { pages ≤ 256 }
    requires start_lt_pages { start < pages }
    requires stays_inside { StaysInside pages (listed verdicts.now) }
    requires known { Known pages (listed verdicts.now) walks.old }
    requires tells { Tells pages (listed verdicts.now) start found }
    ensures { Given pages (listed verdicts.now) start walks.old walks.new }
{
    let mut page = start as usize;
    let mut own = found;
    walks[page] = own;
    for _ in 1..pages {
        let Verdict::On(next) = verdicts[page] else {
            return;
        };
        page = next as usize;
        let Found::Nothing = walks[page] else {
            return;
        };
        own = own.on();
        walks[page] = own;
    }
}

// The page has its walk in the table, and so have the pages found on the way, where its links do not run astray.
fn follow_page(
    verdicts: &[Verdict; 256],
    pages: u32,
    walks: &mut [Found; 256],
    page: u32,
) -> Result<(), Refusal>
    requires pages_bound { pages ≤ 256 }
    requires page_lt_pages { page < pages }
    requires stays_inside { StaysInside pages (listed verdicts.now) }
    requires known { Known pages (listed verdicts.now) walks.old }
    ensures astray { IfErr result (GoesAstray pages (listed verdicts.now) page) }
    ensures given { OnOk result (Given pages (listed verdicts.now) page walks.old walks.new) }
{
    let Found::Nothing = walks[page as usize] else {
        return Ok(());
    };
    let found = find_walk(verdicts, pages, walks, page)?;
    give_walks(verdicts, pages, walks, page, found);
    Ok(())
}

// Every page's walk, where none runs astray: each page is walked at most twice. Refused where some page's links run astray.
pub fn follow_all(
    verdicts: &[Verdict; 256],
    pages: u32,
    walks: &mut [Found; 256],
) -> Result<(), Refusal>
    requires pages_bound { pages ≤ 256 }
    requires stays_inside { StaysInside pages (listed verdicts.now) }
    ensures astray { answer_of result ≡ some_below pages (λ p. is_astray (follow pages (listed verdicts.now) p).end) ⇒ 4 otherwise 0 }
    ensures followed { OnOk result (Followed pages (listed verdicts.now) walks.new) }
{
    *walks = [Found::Nothing; 256];
    for page in 0..pages {
        follow_page(verdicts, pages, walks, page)?;
    }
    Ok(())
}
