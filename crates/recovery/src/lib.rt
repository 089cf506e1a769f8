// Recovery: the answer by records and links, the state filled in, recover. The definitions are in crate rules.

#![tactic(auto)]

mod fill; // fill.rt: the state filled in
pub mod simple; // simple.rt: recover of records without a back pointer

ghost use Rattle.std.specs.Prelude.{◌≡◌, ◌*◌, length, IfOk, OnOk};
ghost use Rattle.bounded.specs.Limits.{two_widths};
ghost use Rattle.bounded.specs.Tabulate.{tabulate};
ghost use Rattle.outcome.specs.Result.{answer_of, outcome_by};
ghost use Rattle.rules.specs.Volume.{volume};
ghost use Rattle.rules.specs.Recover.{recover_outcome};
ghost use Rattle.links.specs.Shown.{slots_shown, links_shown, committed_shown};
ghost use Rattle.recovery.specs.Answers.{records_answer, recovered_outcome};

use links::survey::Survey;
use outcome::Refusal;
use sizes::{Layout, Sizes};
use table::SoundTable;
use volume::Volume;

// By the records of a sound table in which no two conflict: why it is refused, or the links followed, with its committed versions filled in.
fn records_answer(
    table: &SoundTable,
    chains: &mut [u16; 2048],
    committed: &mut [u32; 256],
) -> Result<u32, Refusal>
    ensures answer { answer_of result ≡ records_answer table.now.layout table.now.sizes.pages table.now.sizes.slots (slots_shown table.now) }
    ensures links { IfOk result (λ links. links ≡ links_shown table.now) }
    ensures committed_after { OnOk result (committed.new ≡ tabulate 256 (committed_shown table.now)) }
{
    let mut top = [None; 256];
    table.highest_slots(&mut top);
    let survey = Survey {
        table: *table,
        top: &top,
    };
    if !survey.records_present() {
        return Err(Refusal::RecordsClash);
    }
    links::committed::links_answer(&survey, chains, committed)
}

// "Recover: fills the sheet from the slot table; the old sheet may hold anything", and the links followed are counted: of a sound table in which no two records
// conflict, in either layout. Nothing is stored before every refusal is tried.
#[tactic(auto, using(outcome::specs::Result::refused, outcome::specs::Result::done, outcome::specs::Result::given_back))]
fn recover_sound(
    table: &SoundTable,
    chains: &mut [u16; 2048],
    state: &mut [u32],
) -> Result<u32, Refusal>
    requires { length state.old ≡ 4 * table.now.sizes.pages }
    ensures { outcome_by 0 result state.new ≡ recovered_outcome table.now.layout table.now.sizes.pages table.now.sizes.slots (slots_shown table.now) state.old }
{
    let mut committed = [0; 256];
    let links = records_answer(table, chains, &mut committed)?;
    fill::fill_state(table, &committed, state);
    Ok(links)
}

// Recover, where "a record may now have twins": the contents tell whether records of equal page and version are.
pub fn recover(
    sizes: Sizes,
    words: &[u32],
    contents: &[u8],
    state: &mut [u32],
) -> Result<u32, Refusal>
    ensures { outcome_by 0 result state.new ≡ recover_outcome two_widths sizes (volume words.now contents.now state.old) }
{
    let volume = Volume::new(Layout::FiveWords, sizes, words, contents, state);
    if !volume.fits() {
        return Err(Refusal::WrongSize);
    }
    if !table::table_sound(Layout::FiveWords, sizes, words) {
        return Err(Refusal::SlotUnsound);
    }
    let mut chains = [0; 2048];
    if conflict::some_conflict(sizes, words, contents, &mut chains) {
        return Err(Refusal::RecordsClash);
    }
    let table = SoundTable {
        layout: Layout::FiveWords,
        sizes,
        words,
    };
    recover_sound(&table, &mut chains, state)
}
