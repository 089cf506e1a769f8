// Records and slots: the words of a slot, five or four, and what stands in one. The definitions are in specs/.

#![tactic(auto)]

pub mod flash; // flash.rt: the one function that alters a slot

ghost use Rattle.std.specs.Prelude.{◌≡◌, ◌+◌, ◌*◌, ◌≤◌, length, cond, None, Some};
ghost use Rattle.record.specs.SlotLaws.{c_before_v};
ghost use Rattle.sizes.specs.Sizes.{stride_of};
ghost use Rattle.record.specs.Slot.{words_of, all_blank, slot_from, slot_in, slot_at, formatted_record, planned_record, record_sound, slot_sound, straddles};

use sizes::Layout;

// "The five words are the page p, its version v, its back pointer c (the page's last committed version at launch), the
// next page np and its version nv."
#[derive(Clone, Copy, PartialEq, Eq)]
pub struct Record {
    pub p: u32,
    pub v: u32,
    pub c: u32,
    pub np: u32,
    pub nv: u32,
}

// What stands in a slot: a record, or none where the slot is blank. "Any other slot is a record."
pub type Slot = Option<Record>;

// "c is below v (or both are 0)"
fn c_before_v(c: u32, v: u32) -> bool
    ensures { result ≡ c_before_v c v }
{
    c < v || (c == 0 && v == 0)
}

impl Record {
    // "A blank slot has 4,294,967,295 in all five words."
    pub const BLANK: Record = Record {
        p: sizes::NO_NUMBER,
        v: sizes::NO_NUMBER,
        c: sizes::NO_NUMBER,
        np: sizes::NO_NUMBER,
        nv: sizes::NO_NUMBER,
    };

    // The record of a page at format.
    pub fn formatted(page: u32) -> Record
        ensures { result ≡ formatted_record page }
    {
        Record {
            p: page,
            v: 0,
            c: 0,
            np: page,
            nv: 0,
        }
    }

    // The record that a write stores: v is used, c committed, nv the next page's used.
    pub fn planned(page: u32, used: u32, committed: u32, next: u32, next_used: u32) -> Record
        ensures { result ≡ planned_record page used committed next next_used }
    {
        Record {
            p: page,
            v: used,
            c: committed,
            np: next,
            nv: next_used,
        }
    }

    pub fn is_sound(self, pages: u32) -> bool
        ensures { result ≡ record_sound pages self }
    {
        self.p < pages
            && self.np < pages
            && self.v <= sizes::HIGHEST_VERSION
            && self.c <= sizes::HIGHEST_VERSION
            && self.nv <= sizes::HIGHEST_VERSION
            && c_before_v(self.c, self.v)
            && (self.np != self.p || self.nv == self.v)
    }

    // This record straddles the other's link.
    pub fn straddles(self, other: Record) -> bool
        ensures { result ≡ straddles self other }
    {
        self.p == other.np && self.c < other.nv && other.nv < self.v
    }
}

// The record, or none where its five words are a blank slot's.
// Kept: the first word apart, and all are read before they are compared: a search along a chain then looks at a word or two of a slot.
fn unless_blank(record: Record) -> Slot
    ensures { result ≡ cond (all_blank (words_of «record»)) None (Some «record») }
{
    if record.p != Record::BLANK.p {
        return Some(record);
    }
    if record == Record::BLANK {
        return None;
    }
    Some(record)
}

// A slot's words, decoded, as many as the layout says; of four, the back pointer is 0, and a blank slot's until they are told from its.
// Kept: by places, for a slice's pattern needs an arm for other lengths, which never runs.
fn decode_slot(layout: Layout, words: &[u32]) -> Slot
    requires { length words.now ≡ stride_of layout }
    ensures { result ≡ slot_from layout words.now }
{
    match layout {
        Layout::FiveWords => {
            unless_blank(Record {
                p: words[0],
                v: words[1],
                c: words[2],
                np: words[3],
                nv: words[4],
            })
        }
        Layout::FourWords => {
            let record = unless_blank(Record {
                p: words[0],
                v: words[1],
                c: sizes::NO_NUMBER,
                np: words[2],
                nv: words[3],
            })?;
            Some(Record { c: 0, ..record })
        }
    }
}

// The slot is blank or holds a sound record.
pub fn slot_sound(slot: Slot, pages: u32) -> bool
    ensures { result ≡ slot_sound pages slot }
{
    let Some(record) = slot else {
        return true;
    };
    record.is_sound(pages)
}

// What stands in a slot of the table: "Slot k has words 5k to 5k+4", or as many as the layout says.
pub fn slot_in(layout: Layout, words: &[u32], slot: u32) -> Slot
    requires { stride_of layout * slot + stride_of layout ≤ length words.now }
    ensures { result ≡ slot_in layout words.now slot }
{
    let n = layout.stride();
    let a = n * (slot as usize);
    decode_slot(layout, &words[a..a + n])
}

// The same of five words.
// Kept: beside `slot_in`, for the contracts on records of five words name it.
pub fn slot_at(words: &[u32], slot: u32) -> Slot
    requires { 5 * slot + 5 ≤ length words.now }
    ensures { result ≡ slot_at words.now slot }
{
    slot_in(Layout::FiveWords, words, slot)
}
