// The script program: standard input to standard output, a call a line.

#![tactic(auto)]

ghost use Rattle.script.specs.Enough.{Room};
ghost use Rattle.script.specs.Held.{memory_of};

use feed::Script;
use program::Output;
use script::Memory;
use std::io::{Read, Write};
use std::process::ExitCode;

// What is read at once, carried out, and its output written. A read that fails ends the input.
fn turn<R: Read, W: Write>(script: &mut Script, from: &mut R, to: &mut W)
    requires { Room (memory_of script.old.memory) }
    ensures { Room (memory_of script.new.memory) }
{
    let mut chunk = [0u8; 16384];
    let n = program::read_some(from, &mut chunk).unwrap_or(0);
    if n < 1 {
        stream::finish(script);
    } else {
        stream::pass(script, &chunk[..n], to);
    }
    stream::flushed(script, 0, to);
}

// The whole run, in memory that has room for every volume that a line can name (`format_by_sizes` of crate script). Nothing says that the input ends, so
// the turns are counted up to a number that no run reaches.
fn run_all<R: Read, W: Write>(script: &mut Script, from: &mut R, to: &mut W)
    requires { Room (memory_of script.old.memory) }
{
    for _ in 0..u64::MAX {
        if script.run.over {
            return;
        }
        turn(script, from, to);
    }
}

fn main(rt: HostRuntime) -> ExitCode {
    let mut line = [0u8; 513];
    let mut words = [0u32; 5120];
    // 1,024 slots of 32 bytes, or 512 of 64: "width=64, then with at most 512 slots".
    let mut contents = [0u8; 32768];
    let mut state = [0u32; 1024];
    let memory = Memory {
        words: &mut words,
        contents: &mut contents,
        state: &mut state,
    };
    let mut out = [0u8; 65536];
    let mut script = Script::new(&mut line, memory, &mut out);
    let mut to = Output::new(rt.stdout());
    run_all(&mut script, &mut rt.stdin(), &mut to);
    program::status(to.unread)
}
