// What the script line op=list prints of a volume.
#![tactic(auto)]

ghost use Rattle.std.specs.Prelude.{◌≡◌, ◌+◌, ◌*◌, ◌≤◌, ◌<◌, length};
ghost use Rattle.bounded.specs.Limits.{two_widths};
ghost use Rattle.bounded.specs.Parts.{join_parts};
ghost use Rattle.outcome.specs.Result.{answer_of};
ghost use Rattle.text.specs.Puts.{Puts};
ghost use Rattle.record.specs.Slot.{bytes_at};
ghost use Rattle.bits.specs.Bits.{count_outcome};
ghost use Rattle.sizes.specs.declared.Layout.TheVariants.{FiveWords};
ghost use Rattle.rules.specs.Volume.{volume};
ghost use Rattle.rules.specs.laws.Chains.{SpansIn, read_own};
ghost use Rattle.listing.specs.Listing.{answer_text, page_read, state_text, fields_text, page_text, list_answer, list_text};

use outcome::Refusal;
use record::flash;
use sizes::{Layout, Sizes};
use text::print::Printout;
use volume::Volume;

// "answer=" and the number back.
pub fn put_answer(out: &mut Printout, answer: u32)
    ensures { Puts out.old out.new (answer_text answer) }
{
    out.put_field(b"answer=", answer);
    out.put_text(b"\n");
}

// Whether a page is set or empty.
fn put_state(out: &mut Printout, set: bool)
    ensures { Puts out.old out.new (state_text set) }
{
    if set {
        out.put_text(b" state=set\n");
    } else {
        out.put_text(b" state=empty\n");
    }
}

fn put_fields(out: &mut Printout, page: u32, version: u32, slot: u32, drawn: u32, set: bool)
    ensures { Puts out.old out.new (fields_text page version slot drawn set) }
{
    out.put_field(b"page=", page);
    out.put_field(b" version=", version);
    out.put_field(b" slot=", slot);
    out.put_field(b" drawn=", drawn);
    put_state(out, set);
}

// A page's own condition: its committed version has a record. Conditions 1, 2 and 5 are the volume's, of all pages.
fn read_own(sizes: Sizes, words: &[u32], state: &[u32], page: u32) -> Result<(), Refusal>
    requires spans_in { SpansIn FiveWords sizes.pages sizes.slots words.now state.now }
    requires page_lt_pages { page < sizes.pages }
    ensures { answer_of result ≡ read_own FiveWords sizes.pages sizes.slots words.now state.now page }
{
    match reader::committed_slot(Layout::FiveWords, sizes.slots, words, state, page) {
        Some(_) => Ok(()),
        None => Err(Refusal::NoCommittedRecord),
    }
}

// The refusal of the first page whose read is refused. The volume is judged once, for all pages.
fn list_answer(sizes: Sizes, words: &[u32], contents: &[u8], state: &[u32]) -> Result<(), Refusal>
    ensures { answer_of result ≡ list_answer two_widths sizes (volume words.now contents.now state.now) }
{
    let volume = Volume::new(Layout::FiveWords, sizes, words, contents, state);
    let first = volume.judged();
    for page in 0..sizes.pages {
        first?;
        read_own(sizes, words, state, page)?;
    }
    Ok(())
}

// "drawn is what Count gives for its bytes": those of a slot.
fn drawn_in(width: u32, contents: &[u8], slot: u32) -> u32
    requires { width * slot + width ≤ length contents.now }
    ensures { result ≡ (count_outcome two_widths (bytes_at width contents.now slot)).second }
{
    bits::count(flash::bytes_of(contents, width as usize, slot)).unwrap_or(0)
}

// The line of a page whose read is accepted.
fn put_page(
    sizes: Sizes,
    words: &[u32],
    contents: &[u8],
    state: &[u32],
    page: u32,
    out: &mut Printout,
)
    requires { (page_read two_widths sizes (volume words.now contents.now state.now) page).answer ≡ 0 }
    ensures { Puts out.old out.new (page_text two_widths sizes (volume words.now contents.now state.now) page) }
{
    let s = state::page_at(state, page);
    let Some(slot) = reader::committed_slot(Layout::FiveWords, sizes.slots, words, state, page)
    else {
        return;
    };
    let drawn = drawn_in(sizes.width, contents, slot);
    put_fields(out, page, s.committed, slot, drawn, s.is_set());
}

// The lines of all pages.
fn put_pages(sizes: Sizes, words: &[u32], contents: &[u8], state: &[u32], out: &mut Printout)
    requires { list_answer two_widths sizes (volume words.now contents.now state.now) ≡ 0 }
    ensures { Puts out.old out.new
        (join_parts sizes.pages (page_text two_widths sizes (volume words.now contents.now state.now))) }
{
    for page in 0..sizes.pages {
        put_page(sizes, words, contents, state, page, out);
    }
}

// "If a read is refused, list prints only one line, answer= and the first such number."
pub fn list(sizes: Sizes, words: &[u32], contents: &[u8], state: &[u32], out: &mut Printout)
    ensures { Puts out.old out.new (list_text two_widths sizes (volume words.now contents.now state.now)) }
{
    match list_answer(sizes, words, contents, state) {
        Ok(()) => {
            put_pages(sizes, words, contents, state, out);
            put_answer(out, 0);
        }
        Err(refusal) => put_answer(out, refusal.number()),
    }
}
