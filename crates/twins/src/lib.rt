// Twins: records in two slots, equal in all words and bytes. The definitions are in specs/, and those of records of equal page and version that are none.
#![tactic(auto)]

ghost use Rattle.std.specs.Prelude.{◌≡◌, ◌↔◌, ◌+◌, ◌*◌, ◌≤◌, length, slice_index, IsTrue, EachIndex};
ghost use Rattle.record.specs.Slot.{bytes_at};
ghost use Rattle.record.specs.Flash.{flash};
ghost use Rattle.twins.specs.Twins.{same_words, same_record, has_same_bytes, twins};

use record::{Record, Slot, flash};

// The records are equal in all words.
// Kept: word by word, for with the derived `==`, tried with and without the pages first, a search along a chain takes 1.5 times as long.
fn same_words(a: Record, b: Record) -> bool
    ensures { result ≡ same_words a b }
{
    if a.p != b.p {
        return false;
    }
    if a.v != b.v {
        return false;
    }
    if a.c != b.c {
        return false;
    }
    if a.np != b.np {
        return false;
    }
    a.nv == b.nv
}

// Both slots hold records, equal in all words.
fn same_record(a: Slot, b: Slot) -> bool
    ensures { result ≡ same_record a b }
{
    let Some(other) = b else {
        return false;
    };
    let Some(record) = a else {
        return false;
    };
    same_words(other, record)
}

// The two have the same bytes.
// Kept: byte by byte, for `==` of two slices calls memcmp, and the archive needs memcpy and memset alone.
fn are_equal(a: &[u8], b: &[u8]) -> bool
    requires { length a.now ≡ length b.now }
    ensures { IsTrue result ↔ EachIndex a.now (λ k. slice_index a.now k ≡ slice_index b.now k) }
{
    a.iter().zip(b).all(|(x, y)| x == y)
}

// The bytes of two slots, `width` each, are equal.
fn same_bytes(width: u32, contents: &[u8], j: u32, k: u32) -> bool
    requires width_in_bounds { width * j + width ≤ length contents.now }
    requires width_in_bounds_2 { width * k + width ≤ length contents.now }
    ensures { result ≡ has_same_bytes width (bytes_at width contents.now j) (bytes_at width contents.now k) }
{
    let width = width as usize;
    are_equal(
        flash::bytes_of(contents, width, j),
        flash::bytes_of(contents, width, k),
    )
}

// "twins, equal in all words and bytes": slots j and k are.
pub fn are_twins(width: u32, words: &[u32], contents: &[u8], j: u32, k: u32) -> bool
    requires j_in_bounds { 5 * j + 5 ≤ length words.now }
    requires k_in_bounds { 5 * k + 5 ≤ length words.now }
    requires width_in_bounds { width * j + width ≤ length contents.now }
    requires width_in_bounds_2 { width * k + width ≤ length contents.now }
    ensures { result ≡ twins width (flash words.now contents.now) j k }
{
    same_record(record::slot_at(words, j), record::slot_at(words, k))
        && same_bytes(width, contents, j, k)
}
