// What a line of a script says.
#![tactic(auto)]

ghost use Rattle.std.specs.Prelude.{◌≡◌, List, ℕ, length};
ghost use Rattle.text.specs.Scan.{number, scanned_of};
ghost use Rattle.line.specs.Line.{number_then, said_of, listed_of, line_means, said, sizes_means, format_means, fill_means, write_means, withdraw_means, plain_means, at_end, numbers};

use sizes::Sizes;
use text::scan::number;

// A line: a call with its numbers. A list of pages or slots stands beside it, in a lent slice; `count` says how many.
// Kept: a count, not the list, as a line is Copy and has no lifetime; the list lives in the caller's buffer.
#[derive(Clone, Copy)]
pub enum Line {
    Format { sizes: Sizes },
    Launch { count: usize },
    Write { page: u32, slot: u32, fill: u8 },
    Withdraw { page: u32 },
    Erase { count: usize },
    Recover,
    Cut,
    List,
}

// How many numbers make up the text with one comma between, put into `list`; none where the text is not so or the list has no room for them.
pub fn list_of(text: &[u8], list: &mut [u32]) -> Option<usize>
    ensures { listed_of result list.new ≡ numbers (length list.old) text.now }
{
    let mut rest = text;
    for k in 0..list.len() {
        let (value, behind) = number(rest)?;
        list[k] = value;
        if behind.is_empty() {
            return Some(k + 1);
        }
        rest = behind.strip_prefix(b",")?;
    }
    None
}

// A line that says this, where nothing follows.
fn ended(rest: &[u8], says: Line) -> Option<Line>
    ensures { (l : List ℕ) → said_of result l ≡ at_end rest.now (said says l) }
{
    rest.is_empty().then_some(says)
}

// The number at the front with the next field's name behind it: its value, and what is behind both.
fn number_then<'a>(text: &'a [u8], name: &[u8]) -> Option<(u32, &'a [u8])>
    ensures { scanned_of result ≡ number_then name.now (number text.now) }
{
    let (value, behind) = number(text)?;
    let rest = behind.strip_prefix(name)?;
    Some((value, rest))
}

// What follows the number of slots. Document 02: "The script's format line may end in width=64, then with at most 512 slots (more prints answer=line);
// without it the width is 32."
fn sizes_of(text: &[u8], pages: u32, slots: u32) -> Option<Line>
    ensures { (l : List ℕ) → said_of result l ≡ sizes_means pages slots text.now }
{
    let Some(rest) = text.strip_prefix(b" width=64") else {
        let sizes = Sizes {
            pages,
            slots,
            width: 32,
        };
        return ended(text, Line::Format { sizes });
    };
    if slots > 512 {
        return None;
    }
    let sizes = Sizes {
        pages,
        slots,
        width: 64,
    };
    ended(rest, Line::Format { sizes })
}

// "op=format pages=2 slots=4", from the first number on
fn format_of(text: &[u8]) -> Option<Line>
    ensures { (l : List ℕ) → said_of result l ≡ format_means text.now }
{
    let (pages, rest) = number_then(text, b" slots=")?;
    let (slots, last) = number(rest)?;
    sizes_of(last, pages, slots)
}

// The fill at the end of a write line, with the numbers before it.
fn fill_of(text: &[u8], page: u32, slot: u32) -> Option<Line>
    ensures { (l : List ℕ) → said_of result l ≡ fill_means page slot text.now }
{
    let (value, rest) = number(text)?;
    let fill = u8::try_from(value).ok()?;
    ended(rest, Line::Write { page, slot, fill })
}

// "op=write page=0 slot=2 fill=3", from the first number on
fn write_of(text: &[u8]) -> Option<Line>
    ensures { (l : List ℕ) → said_of result l ≡ write_means text.now }
{
    let (page, rest) = number_then(text, b" slot=")?;
    let (slot, last) = number_then(rest, b" fill=")?;
    fill_of(last, page, slot)
}

// "op=withdraw page=", from the number on
fn withdraw_of(text: &[u8]) -> Option<Line>
    ensures { (l : List ℕ) → said_of result l ≡ withdraw_means text.now }
{
    let (page, rest) = number(text)?;
    ended(rest, Line::Withdraw { page })
}

// A line without numbers.
fn plain(line: &[u8]) -> Option<Line>
    ensures { (l : List ℕ) → said_of result l ≡ plain_means line.now }
{
    if let Some(rest) = line.strip_prefix(b"op=recover") {
        return ended(rest, Line::Recover);
    }
    if let Some(rest) = line.strip_prefix(b"op=cut") {
        return ended(rest, Line::Cut);
    }
    ended(line.strip_prefix(b"op=list")?, Line::List)
}

// What a line says; the numbers of its list are put into `list`, which has room for 64 in a script.
pub fn line_of(line: &[u8], list: &mut [u32]) -> Option<Line>
    ensures { said_of result list.new ≡ line_means (length list.old) line.now }
{
    if line.len() > 512 {
        return None;
    }
    if let Some(rest) = line.strip_prefix(b"op=format pages=") {
        return format_of(rest);
    }
    if let Some(rest) = line.strip_prefix(b"op=launch pages=") {
        let count = list_of(rest, list)?;
        return Some(Line::Launch { count });
    }
    if let Some(rest) = line.strip_prefix(b"op=write page=") {
        return write_of(rest);
    }
    if let Some(rest) = line.strip_prefix(b"op=withdraw page=") {
        return withdraw_of(rest);
    }
    if let Some(rest) = line.strip_prefix(b"op=erase slots=") {
        let count = list_of(rest, list)?;
        return Some(Line::Erase { count });
    }
    plain(line)
}
