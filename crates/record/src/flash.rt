// The flash: one step that alters it, and a slot's bytes read out. No other file takes a part of the flash to store in it.
ghost use Rattle.std.specs.Prelude.{◌≡◌, ◌+◌, ◌*◌, ◌≤◌, length, replicate};
ghost use Rattle.bounded.specs.Parts.{put_part};
ghost use Rattle.sizes.specs.declared.Layout.TheVariants.{FiveWords};
ghost use Rattle.sizes.specs.Sizes.{stride_of};
ghost use Rattle.record.specs.Slot.{encoded, bytes_at};

use super::Record;
use sizes::Layout;

// The record writer: the record's words into a slot's, as many as the layout says.
pub fn store_record(layout: Layout, part: &mut [u32], record: Record)
    requires { length part.old ≡ stride_of layout }
    ensures { part.new ≡ encoded layout «record» }
{
    match layout {
        Layout::FiveWords => {
            part.copy_from_slice(&[record.p, record.v, record.c, record.np, record.nv]);
        }
        Layout::FourWords => part.copy_from_slice(&[record.p, record.v, record.np, record.nv]),
    }
}

// … into a slot's five.
pub fn store_five(part: &mut [u32], record: Record)
    requires { length part.old ≡ 5 }
    ensures { part.new ≡ encoded FiveWords «record» }
{
    store_record(Layout::FiveWords, part, record);
}

// The contents copier: bytes, one slot's or a whole volume's, or words, from one slice into another of the same length.
// Kept: a loop, for `copy_from_slice` calls memmove, and the archive needs memcpy and memset alone.
pub fn copy_contents<T: Copy>(to: &mut [T], from: &[T])
    requires { length to.old ≡ length from.now }
    ensures { to.new ≡ from.now }
{
    for i in 0..from.len() {
        to[i] = from[i];
    }
}

// One flash step: the slot's words become the record's, and its bytes those given. It is the one function that stores to flash: a format calls it for
// every slot, and after that a write calls it once, an erase once for each listed slot, a cleaning once for each copy and then for each slot of its block, and
// a sweep once for each slot of its three erasures (blank slots by `fill_slot`).
pub fn put_slot(
    layout: Layout,
    words: &mut [u32],
    contents: &mut [u8],
    slot: u32,
    record: Record,
    bytes: &[u8],
)
    requires layout_in_bounds { stride_of layout * slot + stride_of layout ≤ length words.old }
    requires bytes_in_bounds { length bytes.now * slot + length bytes.now ≤ length contents.old }
    ensures words_after { words.new ≡ put_part (stride_of layout) slot (encoded layout «record») words.old }
    ensures contents_after { contents.new ≡ put_part (length bytes.now) slot bytes.now contents.old }
{
    let n = layout.stride();
    let a = n * (slot as usize);
    let w = bytes.len();
    let b = w * (slot as usize);
    store_record(layout, &mut words[a..a + n], record);
    copy_contents(&mut contents[b..b + w], bytes);
}

// One flash step that fills the slot's bytes, `width` of them, with one value.
pub fn fill_slot(
    layout: Layout,
    width: u32,
    words: &mut [u32],
    contents: &mut [u8],
    slot: u32,
    record: Record,
    fill: u8,
)
    requires layout_in_bounds { stride_of layout * slot + stride_of layout ≤ length words.old }
    requires width_in_bounds { width * slot + width ≤ length contents.old }
    requires width_bound { width ≤ 64 }
    ensures words_after { words.new ≡ put_part (stride_of layout) slot (encoded layout «record») words.old }
    ensures contents_after { contents.new ≡ put_part width slot (replicate width fill) contents.old }
{
    let bytes = [fill; sizes::MAX_WIDTH];
    put_slot(
        layout,
        words,
        contents,
        slot,
        record,
        &bytes[0..width as usize],
    );
}

// A slot's bytes, where they lie: bytes wk to wk+w-1, for contents of w bytes a slot.
pub fn bytes_of(contents: &[u8], width: usize, slot: u32) -> &[u8]
    requires { width * slot + width ≤ length contents.now }
    ensures these { result.now ≡ bytes_at width contents.now slot }
    ensures as_many { length result.now ≡ width }
{
    let b = width * (slot as usize);
    &contents[b..b + width]
}

// … copied out, as many as `out` has.
pub fn read_slot(contents: &[u8], slot: u32, out: &mut [u8])
    requires { length out.old * slot + length out.old ≤ length contents.now }
    ensures { out.new ≡ bytes_at (length out.old) contents.now slot }
{
    let width = out.len();
    copy_contents(&mut *out, bytes_of(contents, width, slot));
}
