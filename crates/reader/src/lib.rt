// The reader: the slot words by reference and the page count, and what is read through it. It is thin: the work is in
// `copy_page`, for either layout.
#![tactic(auto)]

ghost use Rattle.std.specs.Prelude.{◌≡◌, ◌+◌, ◌*◌, ◌≤◌, ◌<◌, length, SomeIff};
ghost use Rattle.bounded.specs.Limits.{two_widths};
ghost use Rattle.outcome.specs.Result.{ends};
ghost use Rattle.sizes.specs.Sizes.{stride_of, sizes_of};
ghost use Rattle.record.specs.Slot.{slot_in};
ghost use Rattle.state.specs.State.{state_at};
ghost use Rattle.table.specs.Table.{lowest_slot};
ghost use Rattle.rules.specs.Volume.{volume};
ghost use Rattle.rules.specs.Read.{read_outcome_in, read_outcome};
ghost use Rattle.volume.specs.Held.{held};

use outcome::Refusal;
use sizes::{Layout, Sizes};
use volume::Volume;

#[derive(Clone, Copy)]
pub struct Reader<'a> {
    pub words: &'a [u32],
    pub pages: u32,
}

impl<'a> Reader<'a> {
    // A reader of the slot words of a volume of `pages` pages.
    pub fn new(words: &'a [u32], pages: u32) -> Reader<'a>
        ensures { (result.words ≡ words.entry) × (result.pages ≡ pages) }
    {
        Reader { words, pages }
    }

    // A page's committed contents, read into a slice as long as the width says.
    pub fn read_page(
        self,
        slots: u32,
        width: u32,
        contents: &[u8],
        state: &[u32],
        page: u32,
        out: &mut [u8],
    ) -> Result<(), Refusal>
        ensures { ends result out.new
            ≡ read_outcome two_widths (sizes_of self.entry.pages slots width) (volume self.entry.words.now contents.now state.now) page out.old }
    {
        let sizes = Sizes {
            pages: self.pages,
            slots,
            width,
        };
        let volume = Volume::new(Layout::FiveWords, sizes, self.words, contents, state);
        copy_page(&volume, page, out)
    }
}

// "the lowest slot holding the page at its committed version", where there is one
// Kept: apart from its callers, whose work would leave its loop too few registers.
#[inline(never)]
pub fn committed_slot(
    layout: Layout,
    slots: u32,
    words: &[u32],
    state: &[u32],
    page: u32,
) -> Option<u32>
    requires slots_in_bounds { stride_of layout * slots ≤ length words.now }
    requires page_in_bounds { 4 * page + 4 ≤ length state.now }
    ensures { SomeIff result
        (lowest_slot slots (slot_in layout words.now) page (state_at state.now page).committed < slots)
        (lowest_slot slots (slot_in layout words.now) page (state_at state.now page).committed) }
{
    let s = state::page_at(state, page);
    table::lowest_slot(layout, slots, words, page, s.committed)
}

// The bytes of the page's committed version, copied to `out`.
pub fn copy_page(volume: &Volume, page: u32, out: &mut [u8]) -> Result<(), Refusal>
    ensures { ends result out.new
        ≡ read_outcome_in volume.now.layout two_widths volume.now.sizes (held volume.now) page out.old }
{
    volume.slice_judged(out.len())?;
    let sizes = volume.sizes;
    if page >= sizes.pages {
        return Err(Refusal::WrongList);
    }
    let Some(slot) = committed_slot(volume.layout, sizes.slots, volume.words, volume.state, page)
    else {
        return Err(Refusal::NoCommittedRecord);
    };
    record::flash::read_slot(volume.contents, slot, out);
    Ok(())
}

// Read: whoever calls this needs no reader.
pub fn read(
    pages: u32,
    slots: u32,
    width: u32,
    words: &[u32],
    contents: &[u8],
    state: &[u32],
    page: u32,
    out: &mut [u8],
) -> Result<(), Refusal>
    ensures { ends result out.new
        ≡ read_outcome two_widths (sizes_of pages slots width) (volume words.now contents.now state.now) page out.old }
{
    Reader::new(words, pages).read_page(slots, width, contents, state, page, out)
}
