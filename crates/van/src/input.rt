// The volumes in the input: "each P, S, the width, the table's words, all 32 bits lowest byte first, then the contents".

ghost use Rattle.std.specs.Prelude.{◌≡◌, true, ◌+◌, ◌*◌, ◌≤◌, length, SomeIff, IfSome};
ghost use Rattle.bounded.specs.Limits.{two_widths};
ghost use Rattle.bounded.specs.Tabulate.{tabulate};
ghost use Rattle.fleet.specs.Entry.{comes_to};
ghost use Rattle.fleet.specs.Figures.{entry_of};
ghost use Rattle.fleet.specs.InputLaws.{longest_volume};
ghost use Rattle.fleet.specs.Shown.{announced_by};
ghost use Rattle.fleet.specs.Input.{word_at, sizes_at, volume_length, flash_at, sizes_taken, is_whole};
ghost use Rattle.van.specs.First.{reads, first_of};

use fleet::Figures;
use outcome::Refusal;
use sizes::Sizes;

// Word i of some bytes, "32 bits lowest byte first".
fn word_at(bytes: &[u8], i: usize) -> u32
    requires { 4 * i + 4 ≤ length bytes.now }
    ensures { result ≡ word_at bytes.now i }
{
    let at = 4 * i;
    u32::from_le_bytes([bytes[at], bytes[at + 1], bytes[at + 2], bytes[at + 3]])
}

// "each P, S, the width"
fn sizes_at(input: &[u8]) -> Sizes
    requires { 12 ≤ length input.now }
    ensures { result ≡ sizes_at input.now }
{
    Sizes {
        pages: word_at(input, 0),
        slots: word_at(input, 1),
        width: word_at(input, 2),
    }
}

// No "wrong sizes (64 wide with over 512 slots included)".
fn sizes_taken(sizes: Sizes) -> bool
    ensures { result ≡ sizes_taken two_widths sizes }
{
    sizes.are_ok() && !(sizes.width == 64 && sizes.slots > 512)
}

// How many bytes a volume has.
fn volume_length(sizes: Sizes) -> usize
    requires { sizes_taken two_widths sizes ≡ true }
    ensures { result ≡ volume_length sizes }
{
    let slots = sizes.slots as usize;
    12 + 20 * slots + (sizes.width as usize) * slots
}

// How many bytes a volume has that begins so; none where its sizes are wrong.
pub fn announced(input: &[u8]) -> Option<usize>
    requires { 12 ≤ length input.now }
    ensures finds { SomeIff result (sizes_taken two_widths (sizes_at input.now) ≡ true) (announced_by two_widths input.now) }
    ensures bounded { IfSome result (λ n. (12 ≤ n) × (n ≤ longest_volume)) }
{
    let sizes = sizes_at(input);
    if !sizes_taken(sizes) {
        return None;
    }
    Some(volume_length(sizes))
}

// The input begins with a volume that has right sizes and is not "cut short".
fn is_whole(input: &[u8]) -> bool
    ensures { result ≡ is_whole two_widths input.now }
{
    if input.len() < 12 {
        return false;
    }
    let sizes = sizes_at(input);
    sizes_taken(sizes) && volume_length(sizes) <= input.len()
}

// "the table's words", behind P, S and the width.
fn read_words(input: &[u8], words: &mut [u32])
    requires { 12 + 4 * length words.old ≤ length input.now }
    ensures { words.new ≡ tabulate (length words.old) (λ i. word_at input.now (3 + i)) }
{
    for (i, word) in words.iter_mut().enumerate() {
        *word = word_at(input, 3 + i);
    }
}

// What a whole volume at the front comes to; `words` is as long as its table. Its contents are lent where they stand.
fn entry_in(input: &[u8], words: &mut [u32]) -> Result<Figures, Refusal>
    requires input_value { is_whole two_widths input.now ≡ true }
    requires words_len { length words.old ≡ 5 * (sizes_at input.now).slots }
    ensures { comes_to result ≡ entry_of two_widths (sizes_at input.now) (flash_at input.now) }
{
    read_words(input, words);
    let sizes = sizes_at(input);
    let start = 12 + 20 * (sizes.slots as usize);
    let end = volume_length(sizes);
    figures::entry_of(sizes, words, &input[start..end])
}

// What a whole volume at the front comes to.
fn entry_at(input: &[u8]) -> Result<Figures, Refusal>
    requires { is_whole two_widths input.now ≡ true }
    ensures { comes_to result ≡ entry_of two_widths (sizes_at input.now) (flash_at input.now) }
{
    let sizes = sizes_at(input);
    let w = 5 * (sizes.slots as usize);
    // Room for every table: 1,024 slots of five words.
    let mut words = [0u32; 5120];
    entry_in(input, &mut words[0..w])
}

// What the first volume of some input comes to, and how far to go on.
#[derive(Clone, Copy)]
pub struct First {
    pub entry: Result<Figures, Refusal>,
    pub length: usize,
}

// "A volume with wrong sizes … or cut short prints … 1 … and ends the reading": it goes on at the end of the input.
pub fn first_of(input: &[u8]) -> First
    ensures { reads result ≡ first_of two_widths input.now }
{
    if !is_whole(input) {
        return First {
            entry: Err(Refusal::WrongSize),
            length: input.len(),
        };
    }
    First {
        entry: entry_at(input),
        length: volume_length(sizes_at(input)),
    }
}
