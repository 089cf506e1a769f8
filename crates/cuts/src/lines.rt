// The lines of a text: each ends with a line end, which the last may lack.

ghost use Rattle.std.specs.Prelude.{◌≡◌, ◌==◌, ◌+◌, ◌≤◌, min, length, drop, position};
ghost use Rattle.cuts.specs.Lines.{line_length};

// Where the first line end stands.
fn line_feed(text: &[u8]) -> Option<usize>
    ensures { result ≡ position (λ b. b == 10) text.now }
{
    text.iter().position(|&byte| byte == b'\n')
}

// Where the line that begins at `at` ends: at its line end, or with the text.
pub fn line_end(text: &[u8], at: usize) -> usize
    requires { at ≤ length text.now }
    ensures { result ≡ at + line_length (drop at text.now) }
{
    match line_feed(&text[at..]) {
        Some(length) => at + length,
        None => text.len(),
    }
}

// Where the line behind the one that ends at `end` begins.
pub fn next_line(text: &[u8], end: usize) -> usize
    requires { end ≤ length text.now }
    ensures { result ≡ min (end + 1) (length text.now) }
{
    text.len().min(end + 1)
}
