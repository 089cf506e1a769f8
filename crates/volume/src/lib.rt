// The volume: its sizes, lengths and soundness as the calls on it check them, and format. The definitions are in crate rules.

#![tactic(auto)]

pub mod blocks; // blocks.rt: a block of it, by the lent table

ghost use Rattle.std.specs.Prelude.{◌≡◌, true, ◌&&◌, ◌+◌, ◌*◌, ◌≤◌, eqb, length};
ghost use Rattle.bounded.specs.Limits.{two_widths};
ghost use Rattle.bounded.specs.Parts.{put_part};
ghost use Rattle.outcome.specs.Result.{answer_of, ends};
ghost use Rattle.state.specs.State.{state_words};
ghost use Rattle.state.specs.Change.{fresh_state};
ghost use Rattle.sizes.specs.Sizes.{stride_of};
ghost use Rattle.rules.specs.Volume.{volume};
ghost use Rattle.rules.specs.Format.{formatted_words, formatted_contents, format_outcome_in};
ghost use Rattle.rules.specs.laws.Chains.{judged_in, SpansIn};
ghost use Rattle.volume.specs.FormatLaws.{fresh_words, fresh_bytes};

use outcome::Refusal;
use record::{Record, flash};
use sizes::{Layout, Sizes};

// A volume as a call's tests read it: the layout of its records, its sizes and its three buffers.
// Kept: a call that alters some of them has them as parameters, and its tests have this.
#[derive(Clone, Copy)]
pub struct Volume<'a> {
    pub layout: Layout,
    pub sizes: Sizes,
    pub words: &'a [u32],
    pub contents: &'a [u8],
    pub state: &'a [u32],
}

impl<'a> Volume<'a> {
    ghost use Rattle.volume.specs.Held.{lent, fits, slice_fits, judged_by};

    // The volume of what a call is lent.
    pub fn new(
        layout: Layout,
        sizes: Sizes,
        words: &'a [u32],
        contents: &'a [u8],
        state: &'a [u32],
    ) -> Volume<'a>
        ensures { result ≡ lent layout sizes words.entry contents.entry state.entry }
    {
        Volume {
            layout,
            sizes,
            words,
            contents,
            state,
        }
    }

    // P, S, the width and the lengths of its buffers are right.
    #[tactic(auto, unfolding(rules::specs::Volume::volume_fits_in))]
    pub fn fits(&self) -> bool
        ensures { result ≡ fits self.now }
    {
        self.sizes.are_ok()
            && sizes::words_fit(self.layout, self.sizes.slots, self.words)
            && sizes::contents_fit(self.sizes.width, self.sizes.slots, self.contents)
            && sizes::state_fits(self.sizes.pages, self.state)
    }

    // … and so is the length of a slice for one slot's bytes.
    pub fn slice_fits(&self, length: usize) -> bool
        ensures { result ≡ slice_fits self.now length }
    {
        self.fits() && length == self.sizes.width as usize
    }

    // Conditions 1, 2 and 5, which the calls on a whole volume share: the lengths, then every slot, then the state.
    pub fn judged(&self) -> Result<(), Refusal>
        ensures { answer_of result ≡ judged_by (fits self.now) self.now }
    {
        judged(self.layout, self.fits(), self.sizes, self.words, self.state)
    }

    // … with the length of a slice for one slot's bytes.
    pub fn slice_judged(&self, length: usize) -> Result<(), Refusal>
        ensures { answer_of result ≡ judged_by (slice_fits self.now length) self.now }
    {
        judged(
            self.layout,
            self.slice_fits(length),
            self.sizes,
            self.words,
            self.state,
        )
    }
}

// Conditions 1, 2 and 5, which the calls on a whole volume share: the lengths, as `fits` says, then every slot, then the state.
#[tactic(auto, unfolding(rules::specs::laws::Chains::judged_in))]
pub fn judged(
    layout: Layout,
    fits: bool,
    sizes: Sizes,
    words: &[u32],
    state: &[u32],
) -> Result<(), Refusal>
    requires { fits ≡ true → SpansIn layout sizes.pages sizes.slots words.now state.now }
    ensures { answer_of result ≡ judged_in layout fits sizes.pages sizes.slots words.now state.now }
{
    if !fits {
        return Err(Refusal::WrongSize);
    }
    if !table::table_sound(layout, sizes, words) {
        return Err(Refusal::SlotUnsound);
    }
    if !state::state_sound(sizes.pages, state) {
        return Err(Refusal::StateUnsound);
    }
    Ok(())
}

// One slot as format leaves it: a page's record with zero bytes, or blank with bytes 255.
fn format_slot(layout: Layout, sizes: Sizes, words: &mut [u32], contents: &mut [u8], slot: u32)
    requires layout_in_bounds { stride_of layout * slot + stride_of layout ≤ length words.old }
    requires width_in_bounds { sizes.width * slot + sizes.width ≤ length contents.old }
    requires width_bound { sizes.width ≤ 64 }
    ensures words_after { words.new ≡ put_part (stride_of layout) slot (fresh_words layout sizes.pages slot) words.old }
    ensures contents_after { contents.new ≡ put_part sizes.width slot (fresh_bytes sizes.width sizes.pages slot) contents.old }
{
    let (record, byte) = if slot < sizes.pages {
        (Record::formatted(slot), 0)
    } else {
        (Record::BLANK, 255)
    };
    flash::fill_slot(layout, sizes.width, words, contents, slot, record, byte);
}

// Every slot as format leaves it.
fn format_flash(layout: Layout, sizes: Sizes, words: &mut [u32], contents: &mut [u8])
    requires words_len { length words.old ≡ stride_of layout * sizes.slots }
    requires contents_len { length contents.old ≡ sizes.width * sizes.slots }
    requires width_bound { sizes.width ≤ 64 }
    ensures words_after { words.new ≡ formatted_words layout sizes }
    ensures contents_after { contents.new ≡ formatted_contents sizes }
{
    for k in 0..sizes.slots {
        format_slot(layout, sizes, words, contents, k);
    }
}

// "the sheet says 0, 0, not in flight, 0 for each page"
fn format_state(pages: u32, state: &mut [u32])
    requires { length state.old ≡ 4 * pages }
    ensures { state.new ≡ state_words pages fresh_state }
{
    for p in 0..pages {
        state::put_page(state, p, state::PageState::at_rest(0, 0));
    }
}

// Format: the flash and the state of an empty volume, whatever the buffers held.
pub fn format(
    layout: Layout,
    sizes: Sizes,
    words: &mut [u32],
    contents: &mut [u8],
    state: &mut [u32],
) -> Result<(), Refusal>
    ensures { ends result (volume words.new contents.new state.new)
        ≡ format_outcome_in layout two_widths sizes (volume words.old contents.old state.old) }
{
    let volume = Volume::new(layout, sizes, words, contents, state);
    if !volume.fits() {
        return Err(Refusal::WrongSize);
    }
    format_flash(layout, sizes, words, contents);
    format_state(sizes.pages, state);
    Ok(())
}
