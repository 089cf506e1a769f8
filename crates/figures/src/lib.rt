// What a volume comes to, document 02, wish 13: it is recovered, and "pages set, obsolete, exposed and needed-straddler records" are counted by the state that
// this gives. The definitions are in crate fleet; recovery is crate recovery's, and what may be erased is judged in crate permit.

#![tactic(auto)]

ghost use Rattle.std.specs.Prelude.{◌≡◌, true, ◌+◌, ◌*◌, ◌≤◌, ◌<◌, length, replicate};
ghost use Rattle.bounded.specs.Limits.{two_widths};
ghost use Rattle.sizes.specs.Sizes.{sizes_ok};
ghost use Rattle.record.specs.Slot.{slot_at};
ghost use Rattle.record.specs.Flash.{flash};
ghost use Rattle.state.specs.State.{state_at};
ghost use Rattle.chain.specs.Chain.{Linkable};
ghost use Rattle.fleet.specs.Entry.{comes_to};
ghost use Rattle.fleet.specs.Figures.{set_pages, figures_of, entry_of};
ghost use Rattle.permit.specs.Shown.{AllFound};
ghost use Rattle.figures.specs.Counting.{obsolete_below};

use fleet::Figures;
use noted::Slots;
use outcome::Refusal;
use permit::Table;
use sizes::Sizes;

// How many records are obsolete, and how many of these are needed straddlers.
#[derive(Clone, Copy)]
struct Obsolete {
    all: u32,
    needed: u32,
}

// How many pages are set.
fn set_pages(pages: u32, state: &[u32]) -> u32
    requires { 4 * pages ≤ length state.now }
    ensures { result ≡ length (set_pages pages (state_at state.now)) }
{
    let mut count = 0;
    for page in 0..pages {
        if state::page_at(state, page).is_set() {
            count += 1;
        }
    }
    count
}

// Slot k, where it holds an obsolete record, counted with those before it: such a record is a needed straddler exactly where document 01, which knows no twins, does not let it go.
fn count_slot(table: &Table, k: u32, before: Obsolete) -> Obsolete
    requires all_found { AllFound table.now }
    requires k_lt_slots { k < table.now.sizes.slots }
    requires before_value { before ≡ obsolete_below table.now.sizes.slots (slot_at table.now.words.now) (state_at table.now.state.now) k }
    ensures { result ≡ obsolete_below table.now.sizes.slots (slot_at table.now.words.now) (state_at table.now.state.now) (k + 1) }
{
    let Some(record) = record::slot_at(table.words, k) else {
        return before;
    };
    if !permit::is_obsolete(table.state, record) {
        return before;
    }
    let all = before.all + 1;
    if table.may_erase(k) {
        Obsolete { all, ..before }
    } else {
        Obsolete {
            all,
            needed: before.needed + 1,
        }
    }
}

// How many records are obsolete, and how many of these are needed straddlers, in one pass over the slots.
fn obsolete_records(table: &Table) -> Obsolete
    requires { AllFound table.now }
    ensures { result ≡ obsolete_below table.now.sizes.slots (slot_at table.now.words.now) (state_at table.now.state.now) table.now.sizes.slots }
{
    let mut count = Obsolete { all: 0, needed: 0 };
    for k in 0..table.sizes.slots {
        count = count_slot(table, k, count);
    }
    count
}

// What is counted of a volume with a sound table. The exposed records are found once, and every slot is judged by them.
fn figures_of<'a>(sizes: Sizes, words: &'a [u32], state: &'a [u32]) -> Figures
    requires linkable { Linkable sizes.pages sizes.slots words.now }
    requires pages_in_bounds { 4 * sizes.pages ≤ length state.now }
    ensures { result ≡ figures_of sizes.pages sizes.slots (slot_at words.now) (state_at state.now) }
{
    let pages = set_pages(sizes.pages, state);
    let mut chains = [0u16; 2048];
    let mut found = Slots::new();
    let table = Table::prepare(sizes, words, state, &mut chains, &mut found);
    let obsolete = obsolete_records(&table);
    Figures {
        pages,
        obsolete: obsolete.all,
        exposed: table.found.len() as u32,
        needed: obsolete.needed,
    }
}

// The volume recovered on a state of zeros, and counted. "A volume that doesn't recover prints its refusal".
fn recovered_entry(
    sizes: Sizes,
    words: &[u32],
    contents: &[u8],
    state: &mut [u32],
) -> Result<Figures, Refusal>
    requires { state.old ≡ replicate (4 * sizes.pages) 0 }
    ensures { comes_to result ≡ entry_of two_widths sizes (flash words.now contents.now) }
{
    recovery::recover(sizes, words, contents, state)?;
    Ok(figures_of(sizes, words, state))
}

// What a volume comes to: recovered, and counted by the state that this gives, or refused.
pub fn entry_of(sizes: Sizes, words: &[u32], contents: &[u8]) -> Result<Figures, Refusal>
    requires { sizes_ok two_widths sizes ≡ true }
    ensures { comes_to result ≡ entry_of two_widths sizes (flash words.now contents.now) }
{
    let mut state = [0u32; 1024];
    let s = 4 * (sizes.pages as usize);
    recovered_entry(sizes, words, contents, &mut state[0..s])
}
