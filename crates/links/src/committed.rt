// Committed versions: following verdicts from each page, how many links that takes, and whether the versions found are there.

ghost use Rattle.std.specs.Prelude.{◌≡◌, ◌<◌, not, get_or, set, IfOk, OnOk};
ghost use Rattle.bounded.specs.Below.{all_below};
ghost use Rattle.bounded.specs.Tabulate.{tabulate};
ghost use Rattle.outcome.specs.Outcome.{◌⇒◌otherwise◌};
ghost use Rattle.outcome.specs.Result.{answer_of};
ghost use Rattle.table.specs.Table.{has_version};
ghost use Rattle.chain.specs.declared.Key.TheVariants.{Page};
ghost use Rattle.chain.specs.Chain.{Chained};
ghost use Rattle.follow.specs.Walks.{Followed};
ghost use Rattle.links.specs.Committed.{earlier_in, committed_by_in};
ghost use Rattle.links.specs.Shown.{slots_shown, verdict_shown, walk_shown, links_shown, committed_shown};
ghost use Rattle.links.specs.Answer.{links_answer};

use super::link::{link_straddlers, store_verdicts};
use super::second;
use super::survey::Survey;
use chain::Key;
use follow::{End, Found, Verdict};
use outcome::Refusal;
use record::{Record, Slot};
use sizes::Layout;

// What committed versions are read by: the survey, with the slots chained by page.
#[derive(Clone, Copy)]
struct PageChains<'a> {
    survey: Survey<'a>,
    chains: &'a [u16; 2048],
    ghost chained: { Chained Page survey.table.sizes.slots (slots_shown survey.table) chains.now },
}

impl PageChains<'_> {
    // The committed version where the highest record is uncommitted: "the c of p's highest record", or without one the second highest version, if there is one.
    #[tactic(auto, unfolding(crate::specs::Committed::earlier_in))]
    fn version_before(&self, record: Record) -> Option<u32>
        ensures { result ≡ earlier_in self.now.survey.table.layout self.now.survey.table.sizes.slots (slots_shown self.now.survey.table) «record» }
    {
        let table = &self.survey.table;
        match table.layout {
            Layout::FiveWords => Some(record.c),
            Layout::FourWords => {
                second::version_below(
                    table.sizes.slots,
                    table.words,
                    self.chains,
                    record.p,
                    record.v,
                )
            }
        }
    }

    // "Committed = hv(p), or else" the version before, and a number that is no version where there is none: of a page's highest slot, and 0 where that is blank.
    #[tactic(auto, unfolding(crate::specs::Committed::committed_by_in), using(crate::specs::Committed::earlier_or_none))]
    fn committed_by(&self, end: End, top: Slot) -> u32
        ensures { result ≡ committed_by_in self.now.survey.table.layout self.now.survey.table.sizes.slots (slots_shown self.now.survey.table) end top }
    {
        let Some(highest) = top else {
            return 0;
        };
        match end {
            End::Committed => highest.v,
            End::Uncommitted | End::Astray => {
                self.version_before(highest).unwrap_or(sizes::NO_NUMBER)
            }
        }
    }

    // Stores a page's committed version, 0 where it has no record; gives how many links are followed from it.
    #[tactic(auto, unfolding(crate::specs::Committed::committed_by_in, crate::specs::Committed::committed_in, crate::specs::Committed::walk_in))]
    fn commit_page(&self, walks: &[Found; 256], page: u32, committed: &mut [u32; 256]) -> u32
        requires followed { Followed self.now.survey.table.sizes.pages (verdict_shown self.now.survey.table) walks.now }
        requires page_lt_pages { page < self.now.survey.table.sizes.pages }
        ensures value { result ≡ (walk_shown self.now.survey.table page).links }
        ensures committed_after { committed.new ≡ set committed.old page (committed_shown self.now.survey.table page) }
    {
        let walk = walks[page as usize].walk();
        let highest = self.survey.highest_of(page);
        committed[page as usize] = self.committed_by(walk.end, highest);
        walk.links
    }

    // Each page's committed version; gives how many links are followed from all pages.
    fn committed_versions(&self, walks: &[Found; 256], committed: &mut [u32; 256]) -> u32
        requires { Followed self.now.survey.table.sizes.pages (verdict_shown self.now.survey.table) walks.now }
        ensures value { result ≡ links_shown self.now.survey.table }
        ensures committed_after { committed.new ≡ tabulate 256 (committed_shown self.now.survey.table) }
    {
        *committed = [0; 256];
        let mut links = 0;
        for page in 0..self.survey.table.sizes.pages {
            links += self.commit_page(walks, page, committed);
        }
        links
    }

    // The page has a record of the version: a search along the page's chain finds it.
    fn version_present(&self, page: u32, version: u32) -> bool
        ensures { result ≡ has_version self.now.survey.table.sizes.slots (slots_shown self.now.survey.table) page version }
    {
        let last = chain::last_of_page(self.chains, page);
        let table = &self.survey.table;
        let slots = table.sizes.slots;
        chain::version::find_version_from(
            table.layout,
            slots,
            table.words,
            self.chains,
            last,
            page,
            version,
        )
        .is_some()
    }

    // Each page has a record with the version in the table.
    fn versions_present(&self, versions: &[u32; 256]) -> bool
        ensures { result ≡ all_below self.now.survey.table.sizes.pages (λ p. has_version self.now.survey.table.sizes.slots (slots_shown self.now.survey.table) p (get_or versions.now p 0)) }
    {
        for page in 0..self.survey.table.sizes.pages {
            if !self.version_present(page, versions[page as usize]) {
                return false;
            }
        }
        true
    }
}

// The committed versions filled in: the links followed, or a refusal where a page has no record of its version.
fn commit_pages(
    survey: &Survey,
    chains: &[u16; 2048],
    walks: &[Found; 256],
    committed: &mut [u32; 256],
) -> Result<u32, Refusal>
    requires chained { Chained Page survey.now.table.sizes.slots (slots_shown survey.now.table) chains.now }
    requires followed { Followed survey.now.table.sizes.pages (verdict_shown survey.now.table) walks.now }
    ensures answer { answer_of result ≡ not (all_below survey.now.table.sizes.pages (λ p. has_version survey.now.table.sizes.slots (slots_shown survey.now.table) p (committed_shown survey.now.table p))) ⇒ 14 otherwise 0 }
    ensures links { IfOk result (λ links. links ≡ links_shown survey.now.table) }
    ensures committed_after { committed.new ≡ tabulate 256 (committed_shown survey.now.table) }
{
    let pages = PageChains {
        survey: *survey,
        chains,
    };
    let links = pages.committed_versions(walks, committed);
    if !pages.versions_present(committed) {
        return Err(Refusal::NoCommittedRecord);
    }
    Ok(links)
}

// By the links, where each page has a record: why the table is refused, or the links followed, with its committed versions filled in.
pub fn links_answer(
    survey: &Survey,
    chains: &mut [u16; 2048],
    committed: &mut [u32; 256],
) -> Result<u32, Refusal>
    ensures answer { answer_of result ≡ links_answer survey.now.table.layout survey.now.table.sizes.pages survey.now.table.sizes.slots (slots_shown survey.now.table) }
    ensures links { IfOk result (λ links. links ≡ links_shown survey.now.table) }
    ensures committed_after { OnOk result (committed.new ≡ tabulate 256 (committed_shown survey.now.table)) }
{
    let table = &survey.table;
    link_straddlers(table, chains);
    let mut verdicts = [Verdict::Uncommitted; 256];
    store_verdicts(survey, chains, &mut verdicts);
    let mut walks = [Found::Nothing; 256];
    follow::follow_all(&verdicts, table.sizes.pages, &mut walks)?;
    chain::link_sound_slots(table.layout, Key::Page, table.sizes, table.words, chains);
    commit_pages(survey, chains, &walks, committed)
}
