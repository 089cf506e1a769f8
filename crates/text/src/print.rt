// Text put into a lent buffer. What does not fit is left out.
ghost use Rattle.std.specs.Prelude.{◌≡◌, ◌∷◌, [], ◌++◌, length, drop};
ghost use Rattle.text.specs.Print.{shown, added, decimal_in, decimal};
ghost use Rattle.text.specs.Puts.{Puts};

// A byte put at a place of a buffer: the place after it.
pub fn put(out: &mut [u8], at: usize, byte: u8) -> usize
    ensures { shown out.new result ≡ added out.old at (byte ∷ []) }
{
    if at < out.len() {
        out[at] = byte;
        at + 1
    } else {
        at
    }
}

// The digits of n at the end of `digits`: the place of the first.
// Kept: of `write!` a clause knows the bytes only where its result is Ok, and of no writer's result that it is.
fn digits_of(digits: &mut [u8], n: u32) -> usize
    ensures { drop result digits.new ≡ decimal_in (length digits.old) n }
{
    let mut rest = n;
    for i in (0..digits.len()).rev() {
        digits[i] = 48 + ((rest % 10) as u8);
        if rest < 10 {
            return i;
        }
        rest /= 10;
    }
    0
}

// Text that is put into a buffer lent for it, and the place behind it: what is printed, or a line that has not ended.
#[derive(Drop)]
pub struct Printout<'a> {
    pub out: &'a mut [u8],
    pub at: usize,
}

impl<'a> Printout<'a> {
    // A printout that goes on at a place of a buffer.
    pub fn new(out: &'a mut [u8], at: usize) -> Printout<'a>
        ensures same_buffer { result.out.ghost_name ≡ out.entry.ghost_name }
        ensures holds { result.out.now ≡ out.old }
        ensures place { result.at ≡ at }
    {
        Printout { out, at }
    }

    // What is put so far.
    pub fn text(&self) -> &[u8]
        ensures { result.now ≡ shown self.now.out.now self.now.at }
    {
        let n = self.at.min(self.out.len());
        &self.out[0..n]
    }

    // A byte.
    pub fn put(&mut self, byte: u8)
        ensures { Puts self.old self.new (byte ∷ []) }
    {
        self.at = put(self.out, self.at, byte);
    }

    // A text.
    pub fn put_text(&mut self, text: &[u8])
        ensures { Puts self.old self.new text.now }
    {
        for &byte in text {
            self.put(byte);
        }
    }

    // A number in decimal.
    pub fn put_number(&mut self, n: u32)
        ensures { Puts self.old self.new (decimal n) }
    {
        let mut digits = [0u8; 10];
        let first = digits_of(&mut digits, n);
        self.put_text(&digits[first..]);
    }

    // A name and a number.
    pub fn put_field(&mut self, name: &[u8], n: u32)
        ensures { Puts self.old self.new (name.now ++ decimal n) }
    {
        self.put_text(name);
        self.put_number(n);
    }
}
