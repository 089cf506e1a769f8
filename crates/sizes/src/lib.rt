// The sizes of a volume, the lengths of its buffers, and lists of pages or slots, as every call checks them. The definitions are in specs/.

#![tactic(auto)]

pub mod blocks; // blocks.rt: the lent table of blocks

ghost use Rattle.std.specs.Prelude.{◌≡◌, ◌&&◌, ◌≤◌};
ghost use Rattle.bounded.specs.Limits.{two_widths};
ghost use Rattle.sizes.specs.Sizes.{sizes_ok, stride_of, words_fit_in, contents_fit, state_fits, list_ok};

// The most pages, and the most slots, that a volume has.
pub const MAX_PAGES: u32 = 256;

pub const MAX_SLOTS: u32 = 1024;

// The largest width: the most bytes of contents that a slot has.
pub const MAX_WIDTH: usize = 64;

// The lengths of the largest volume's buffers: words, contents and state.
pub const MAX_WORDS: usize = 5120;

pub const MAX_CONTENTS: usize = 65536;

pub const MAX_STATE: usize = 1024;

// "4,294,967,295": a word of a blank slot, not in flight, no slot.
pub const NO_NUMBER: u32 = 4294967295;

// "at most 4,294,967,294"
pub const HIGHEST_VERSION: u32 = 4294967294;

// "P pages (pistons) …. S slots …"; the width is the bytes of contents that a slot has.
#[derive(Clone, Copy)]
pub struct Sizes {
    pub pages: u32,
    pub slots: u32,
    pub width: u32,
}

// The slots that a flash chip erases together: those from `first` to before `end`.
#[derive(Clone, Copy)]
pub struct Block {
    pub first: u32,
    pub end: u32,
}

// How a slot's words lie: the five of a record, or four where it has no back pointer.
#[derive(Clone, Copy)]
pub enum Layout {
    FiveWords,
    FourWords,
}

impl Layout {
    // How many words a slot has.
    pub fn stride(self) -> usize
        ensures { result ≡ stride_of self }
    {
        match self {
            Layout::FiveWords => 5,
            Layout::FourWords => 4,
        }
    }
}

// "32 or 64 bytes per slot"
pub fn width_ok(width: usize) -> bool
    ensures { result ≡ two_widths width }
{
    width == 32 || width == 64
}

impl Sizes {
    // "P pages (pistons), 1 to 256 … S slots, P to 1,024"; the width 32 or 64
    pub fn are_ok(self) -> bool
        ensures { result ≡ sizes_ok two_widths self }
    {
        1 <= self.pages
            && self.pages <= MAX_PAGES
            && self.pages <= self.slots
            && self.slots <= MAX_SLOTS
            && width_ok(self.width as usize)
    }
}

// Kept: three tests of a length, each of a definition of its own: one with a factor would not say which buffer it is.

// "The slot table has 5×S unsigned 32-bit words", or as many as the layout says
pub fn words_fit(layout: Layout, slots: u32, words: &[u32]) -> bool
    ensures { result ≡ words_fit_in layout slots words.now }
{
    words.len() == layout.stride() * (slots as usize)
}

// "the contents 32×S bytes", for `width` bytes a slot
pub fn contents_fit(width: u32, slots: u32, contents: &[u8]) -> bool
    ensures { result ≡ contents_fit width slots contents.now }
{
    contents.len() == (width as usize) * (slots as usize)
}

// "The sheet is … 4×P 32-bit words"
pub fn state_fits(pages: u32, state: &[u32]) -> bool
    ensures { result ≡ state_fits pages state.now }
{
    state.len() == 4 * (pages as usize)
}

// Kept: apart from the three, for each is what a call tests that is lent no contents, so that it has no whole volume to judge.

// P, S, the width and the length of the state are right.
pub fn state_ok(sizes: Sizes, state: &[u32]) -> bool
    ensures { result ≡ (sizes_ok two_widths sizes && state_fits sizes.pages state.now) }
{
    sizes.are_ok() && state_fits(sizes.pages, state)
}

// P, S, the width and the lengths of the words and the state are right.
pub fn table_ok(layout: Layout, sizes: Sizes, words: &[u32], state: &[u32]) -> bool
    ensures { result ≡ (sizes_ok two_widths sizes && (words_fit_in layout sizes.slots words.now && state_fits sizes.pages state.now)) }
{
    sizes.are_ok() && words_fit(layout, sizes.slots, words) && state_fits(sizes.pages, state)
}

// No "empty list, repeated entry, or a page or slot out of range", which is `bound` or above, in one pass: a mark stands for each
// number listed so far. Each entry is tried for both before the next, so that at most bound + 1 are.
pub fn list_ok(bound: u32, list: &[u32]) -> bool
    requires { bound ≤ 1024 }
    ensures { result ≡ list_ok bound list.now }
{
    if list.is_empty() {
        return false;
    }
    let mut marks = [0u8; MAX_SLOTS as usize];
    for &entry in list {
        if entry >= bound || marks[entry as usize] != 0 {
            return false;
        }
        marks[entry as usize] = 1;
    }
    true
}
