// What stands at the front of a text, and what is left behind it: a decimal number. For a given text see `strip_prefix` (`stripped` of ScanLaws).
ghost use Rattle.std.specs.Prelude.{◌≡◌, ◌≤◌, ◌+◌, ◌*◌, SomeIff};
ghost use Rattle.text.specs.Scan.{max_number, scanned_of, number};

// A number with one digit more, where it is at most 4,294,967,295.
fn grown(value: u32, digit: u8) -> Option<u32>
    ensures { SomeIff result (10 * value + digit ≤ max_number) (10 * value + digit) }
{
    value.checked_mul(10)?.checked_add(u32::from(digit))
}

// The number at the front, as far as its digits go, and what is behind it; none without a digit or above 4,294,967,295.
pub fn number(text: &[u8]) -> Option<(u32, &[u8])>
    ensures { scanned_of result ≡ number text.now }
{
    let mut value = 0;
    let mut rest = text;
    // Kept: a while along what is left, which is part of the result.
    while let [byte @ b'0'..=b'9', more @ ..] = rest {
        value = grown(value, *byte - b'0')?;
        rest = more;
    }
    if rest.len() == text.len() {
        return None;
    }
    Some((value, rest))
}
