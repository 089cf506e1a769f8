// One page for the service van: volumes from standard input, the page to standard output.

#![tactic(auto)]

ghost use Rattle.std.specs.Prelude.{◌≡◌, ◌≤◌, length, IfOk};

use program::Output;
use std::io;
use std::io::{Read, Write};
use std::process::ExitCode;

// Room for the longest input: 32 of the largest volumes.
fn room() -> [u8; 1704320]
    ensures { 1704320 ≡ length result }
{
    [0; 1704320]
}

// Bytes of standard input, as far as it goes, from a place of the buffer to before another: the place behind them.
fn read_part<R: Read>(input: &mut [u8], from: usize, to: usize, source: &mut R) -> usize
    requires from_le_to { from ≤ to }
    requires to_in_bounds { to ≤ length input.old }
    ensures { result ≤ to }
{
    from + program::read_full(source, &mut input[from..to])
}

// So many bytes, where standard input has ended behind them: nothing more is read, and no read fails.
// Kept: one more read, since an input that gives more after its end, as a terminal may, is told.
fn ended<R: Read>(source: &mut R, bytes: usize) -> io::Result<usize>
    ensures { IfOk result (λ n. n ≡ bytes) }
{
    let mut next = [0u8; 1];
    if program::read_some(source, &mut next)? > 0 {
        // It gives more after all: no read has failed, and the system's words are those of error 0.
        return Err(io::Error::from_raw_os_error(0));
    }
    Ok(bytes)
}

// How many bytes the volumes have, each as far as it is there, and none behind one that "ends the reading"; "a 33rd is not read". Where standard input gives fewer than
// the next volume has, or none, it has ended.
fn read_volumes<R: Read>(input: &mut [u8], source: &mut R) -> io::Result<usize>
    requires { 1704320 ≤ length input.old }
    ensures { IfOk result (λ n. n ≤ 1704320) }
{
    let mut at = 0;
    for _ in 0..32u32 {
        let table = at + 12;
        let header = read_part(input, at, table, source);
        if header < table {
            return ended(source, header);
        }
        let Some(length) = van::input::announced(&input[at..table]) else {
            return Ok(table);
        };
        let end = at + length;
        let place = read_part(input, table, end, source);
        if place < end {
            return ended(source, place);
        }
        at = end;
    }
    Ok(at)
}

// The page of the volumes. The bytes that are read decide it (`EnoughRead` of crate fleet), and it has its room (`RoomEnough`). An input that cannot be read to its end is told, and no page is printed.
fn print_page<R: Read, W: Write, X: Write>(source: &mut R, to: &mut W, errors: &mut X) {
    let mut input = room();
    match read_volumes(&mut input, source) {
        Ok(n) => {
            let mut out = [0u8; 2483];
            let end = van::page(&input[..n], &mut out);
            if let Err(error) = to.write_all(&out[..end]) {
                program::fail(errors, "van_main: standard output", error);
            }
        }
        Err(error) => program::fail(errors, "van_main: standard input", error),
    }
}

fn main(rt: HostRuntime) -> ExitCode {
    let mut to = Output::new(rt.stdout());
    let mut errors = Output::new(rt.stderr());
    if program::has_argument(&rt, 1) {
        let _ = errors.write_all(b"usage: van_main < VOLUMES\n");
    } else {
        print_page(&mut rt.stdin(), &mut to, &mut errors);
    }
    program::status(to.unread || errors.unread)
}
