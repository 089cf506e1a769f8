// What an accepted recover fills in: each page at rest, with its committed and used version.

ghost use Rattle.std.specs.Prelude.{◌≡◌, ◌*◌, ◌≤◌, length, get_or};
ghost use Rattle.bounded.specs.Tabulate.{tabulate};
ghost use Rattle.state.specs.Change.{at_rest};
ghost use Rattle.state.specs.State.{state_words};
ghost use Rattle.rules.specs.laws.Families.{recovered_in};
ghost use Rattle.links.specs.Shown.{slots_shown, committed_shown};
ghost use Rattle.recovery.specs.Answers.{records_answer};

use state::PageState;
use table::SoundTable;

// Each page at rest, with its versions by the tables.
fn store_pages(pages: u32, committed: &[u32; 256], used: &[u32; 256], state: &mut [u32])
    requires pages_bound { pages ≤ 256 }
    requires state_len { length state.old ≡ 4 * pages }
    ensures { state.new ≡ state_words pages (λ p. at_rest (get_or committed.now p 0) (get_or used.now p 0)) }
{
    for page in 0..pages {
        let p = page as usize;
        state::put_page(state, page, PageState::at_rest(committed[p], used[p]));
    }
}

// Fills the state from an accepted table.
pub fn fill_state(table: &SoundTable, committed: &[u32; 256], state: &mut [u32])
    requires accepted { records_answer table.now.layout table.now.sizes.pages table.now.sizes.slots (slots_shown table.now) ≡ 0 }
    requires committed_value { committed.now ≡ tabulate 256 (committed_shown table.now) }
    requires state_len { length state.old ≡ 4 * table.now.sizes.pages }
    ensures { state.new ≡ state_words table.now.sizes.pages (recovered_in table.now.layout table.now.sizes.pages table.now.sizes.slots (slots_shown table.now)) }
{
    let mut used = [0; 256];
    table.used_versions(&mut used);
    store_pages(table.sizes.pages, committed, &used, state);
}
