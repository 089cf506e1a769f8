// One link's verdict: the highest record of a page, the search for a straddler, and the table of verdicts.

ghost use Rattle.std.specs.Prelude.{◌≡◌, ◌*◌, ◌≤◌, ◌<◌, length};
ghost use Rattle.record.specs.Slot.{slot_at, holds, straddles};
ghost use Rattle.chain.specs.declared.Key.TheVariants.{Straddler};
ghost use Rattle.chain.specs.Chain.{Chained};
ghost use Rattle.table.specs.Table.{version_in};
ghost use Rattle.rules.specs.Verdict.{is_straddled};
ghost use Rattle.rules.specs.laws.Families.{link_verdict_in};
ghost use Rattle.links.specs.Committed.{passed_in};
ghost use Rattle.links.specs.Tables.{StraddlersChained, Judged};

use super::survey::Survey;
use chain::Key;
use follow::Verdict;
use record::{Record, Slot};
use sizes::Layout;
use table::SoundTable;

// The search for a straddler goes along so many slots of a chain. Of a longer one it looks at all slots of the table, one after the other.
const LONG: u32 = 128;

// The version in a slot; 0 where it is blank.
fn version_in(slot: Slot) -> u32
    ensures { result ≡ version_in slot }
{
    let Some(record) = slot else {
        return 0;
    };
    record.v
}

// The slot holds a record that straddles the link.
fn slot_straddles(slot: Slot, link: Record) -> bool
    ensures { result ≡ holds (λ K. straddles K link) slot }
{
    let Some(record) = slot else {
        return false;
    };
    record.straddles(link)
}

// "any record straddles J's link": a look at all slots, up to the first that does.
fn scan_straddled(slots: u32, words: &[u32], link: Record) -> bool
    requires { 5 * slots ≤ length words.now }
    ensures { result ≡ is_straddled slots (slot_at words.now) link }
{
    for k in 0..slots {
        if slot_straddles(record::slot_at(words, k), link) {
            return true;
        }
    }
    false
}

// "any record straddles J's link": the search goes along the link's next page's chain of such records and ends at the first that does.
fn is_straddled(slots: u32, words: &[u32], chains: &[u16; 2048], link: Record) -> bool
    requires slots_in_bounds { 5 * slots ≤ length words.now }
    requires slots_bound { slots ≤ 1024 }
    requires chained { Chained Straddler slots (slot_at words.now) chains.now }
    ensures { result ≡ is_straddled slots (slot_at words.now) link }
{
    let mut at = chain::last_of_page(chains, link.np);
    for _ in 0..LONG {
        let Some(slot) = at else {
            return false;
        };
        if slot_straddles(record::slot_at(words, slot), link) {
            return true;
        }
        at = chain::before(chains, slot);
    }
    at.is_some() && scan_straddled(slots, words, link)
}

// The records that may straddle a link, chained, where records have a back pointer.
pub fn link_straddlers(table: &SoundTable, chains: &mut [u16; 2048])
    ensures { StraddlersChained table.now chains.new }
{
    match table.layout {
        Layout::FiveWords => {
            chain::link_sound_slots(
                table.layout,
                Key::Straddler,
                table.sizes,
                table.words,
                chains,
            )
        }
        Layout::FourWords => {}
    }
}

// What a link is judged by: the survey, with the records that may straddle a link chained, where records have a back pointer.
#[derive(Clone, Copy)]
struct StraddlerChains<'a> {
    survey: Survey<'a>,
    chains: &'a [u16; 2048],
    ghost chained: { StraddlersChained survey.table chains.now },
}

impl StraddlerChains<'_> {
    ghost use Rattle.links.specs.Shown.{slots_shown, verdict_shown};

    // What a link to a version below the next page's highest says: "case 1 of recovery means committed" where no record has a back pointer.
    #[tactic(auto, unfolding(crate::specs::Committed::passed_in))]
    fn passed_verdict(&self, link: Record) -> Verdict
        ensures { result ≡ passed_in self.now.survey.table.layout self.now.survey.table.sizes.slots (slots_shown self.now.survey.table) link }
    {
        let table = &self.survey.table;
        match table.layout {
            Layout::FiveWords => {
                if is_straddled(table.sizes.slots, table.words, self.chains, link) {
                    return Verdict::Uncommitted;
                }
                Verdict::Committed
            }
            Layout::FourWords => Verdict::Committed,
        }
    }

    // What the link of a record says.
    fn link_verdict(&self, link: Record) -> Verdict
        requires { link.np < 256 }
        ensures { result ≡ link_verdict_in self.now.survey.table.layout self.now.survey.table.sizes.slots (slots_shown self.now.survey.table) link }
    {
        let hv = version_in(self.survey.highest_of(link.np));
        if link.nv < hv {
            return self.passed_verdict(link);
        }
        if hv < link.nv {
            return Verdict::Uncommitted;
        }
        Verdict::On(link.np as u8)
    }

    // What the link of a page's highest record says.
    fn verdict_of(&self, page: u32) -> Verdict
        requires { page < 256 }
        ensures { result ≡ verdict_shown self.now.survey.table page }
    {
        let Some(link) = self.survey.highest_of(page) else {
            return Verdict::Uncommitted;
        };
        self.link_verdict(link)
    }

    // Each page's verdict, computed once.
    fn store_verdicts(&self, verdicts: &mut [Verdict; 256])
        ensures { Judged self.now.survey.table verdicts.new }
    {
        *verdicts = [Verdict::Uncommitted; 256];
        for page in 0..self.survey.table.sizes.pages {
            verdicts[page as usize] = self.verdict_of(page);
        }
    }
}

// The same, by a survey and its chains.
pub fn store_verdicts(survey: &Survey, chains: &[u16; 2048], verdicts: &mut [Verdict; 256])
    requires { StraddlersChained survey.now.table chains.now }
    ensures { Judged survey.now.table verdicts.new }
{
    let straddlers = StraddlerChains {
        survey: *survey,
        chains,
    };
    straddlers.store_verdicts(verdicts);
}
