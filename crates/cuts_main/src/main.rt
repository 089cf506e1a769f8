// Cut it everywhere: a recorded script from standard input, run with a cut at every point, and one line about it to standard output. With the argument `trial` its erase
// never answers 12.

#![tactic(auto)]

use program::Output;
use std::io::{Read, Write};
use std::process::ExitCode;
use std::rt::Env;

// The script, and what is printed of it. 256 lines of 512 bytes with their line ends have 131,328 bytes, and one byte more is enough to tell that a script is longer
// (`EnoughRead` of crate cuts); what is printed has its room (`RoomEnough`).
fn run<R: Read, W: Write>(trial: bool, from: &mut R, to: &mut W) {
    let mut script = [0u8; 131329];
    let n = program::read_full(from, &mut script);
    let mut out = [0u8; 64];
    let end = cuts::report(trial, &script[..n], &mut out);
    let _ = to.write_all(&out[..end]);
}

// Whether the arguments ask for the trial; none where they are others.
fn trial_of<E: Env>(env: &E) -> Option<bool> {
    if !program::has_argument(env, 1) {
        return Some(false);
    }
    let mut word = [0u8; 8];
    let n = env.arg(1, &mut word).ok()?;
    let alone = !program::has_argument(env, 2);
    (alone && &word[..n] == b"trial".as_slice()).then_some(true)
}

fn main(rt: HostRuntime) -> ExitCode {
    let mut to = Output::new(rt.stdout());
    let mut errors = Output::new(rt.stderr());
    match trial_of(&rt) {
        Some(trial) => run(trial, &mut rt.stdin(), &mut to),
        None => {
            let _ = errors.write_all(b"usage: cuts_main [trial] < SCRIPT\n");
        }
    }
    program::status(to.unread || errors.unread)
}
