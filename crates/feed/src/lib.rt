// The bytes of a script one by one: a line is held in a buffer until it ends.
#![tactic(auto)]

ghost use Rattle.std.specs.Prelude.{◌≡◌, [], length};
ghost use Rattle.bounded.specs.Limits.{two_widths};
ghost use Rattle.text.specs.Print.{shown};
ghost use Rattle.text.specs.Puts.{Puts};
ghost use Rattle.report.specs.Report.{standing, start_run};
ghost use Rattle.script.specs.Held.{memory_of, SameBuffers};
ghost use Rattle.feed.specs.Feed.{carried, fed};
ghost use Rattle.feed.specs.Stands.{stands_of, held_of, SameHeld};

use report::Run;
use script::Memory;
use text::print::Printout;

// A script that is carried out: where its run stands, the line that has not ended, the memory of its volumes, and what is printed.
#[derive(Drop)]
pub struct Script<'a> {
    pub run: Run,
    pub line: Printout<'a>,
    pub memory: Memory<'a>,
    pub out: Printout<'a>,
}

impl<'a> Script<'a> {
    // A script before its first byte: nothing is held of a line, and nothing printed.
    pub fn new(line: &'a mut [u8], memory: Memory<'a>, out: &'a mut [u8]) -> Script<'a>
        ensures stands { stands_of result ≡ standing start_run (memory_of memory.entry) }
        ensures holds { held_of result ≡ [] }
        ensures line_place { result.line.at ≡ 0 }
        ensures room { length result.line.out.now ≡ length line.old }
        ensures prints { shown result.out.out.now result.out.at ≡ [] }
        ensures out_place { result.out.at ≡ 0 }
        ensures out_room { length result.out.out.now ≡ length out.old }
        ensures same_memory { SameBuffers memory.entry result.memory }
        ensures same_line { result.line.out.ghost_name ≡ line.entry.ghost_name }
        ensures same_out { result.out.out.ghost_name ≡ out.entry.ghost_name }
    {
        let run = Run::start();
        let line = Printout::new(line, 0);
        let out = Printout::new(out, 0);
        Script {
            run,
            line,
            memory,
            out,
        }
    }
}

// The line that is held, carried out.
pub fn end_line(script: &mut Script)
    ensures stands { stands_of script.new ≡ (carried two_widths (stands_of script.old) (held_of script.old)).leaves }
    ensures prints { Puts script.old.out script.new.out (carried two_widths (stands_of script.old) (held_of script.old)).prints }
    ensures holds { held_of script.new ≡ [] }
    ensures place { script.new.line.at ≡ 0 }
    ensures bytes { script.new.line.out.now ≡ script.old.line.out.now }
    ensures same_buffers { SameHeld script.old script.new }
{
    let mut list = [0u32; 64];
    let line = line::line_of(script.line.text(), &mut list);
    script.line.at = 0;
    script.run = script::step(script.run, line, &list, &mut script.memory, &mut script.out);
}

// The next byte of a script, which does nothing once the run is over.
pub fn feed(script: &mut Script, byte: u8)
    ensures stands { stands_of script.new
        ≡ (fed two_widths (length script.old.line.out.now) (stands_of script.old) (held_of script.old) byte).turned.leaves }
    ensures prints { Puts script.old.out script.new.out
        (fed two_widths (length script.old.line.out.now) (stands_of script.old) (held_of script.old) byte).turned.prints }
    ensures holds { held_of script.new
        ≡ (fed two_widths (length script.old.line.out.now) (stands_of script.old) (held_of script.old) byte).held }
    ensures room { length script.new.line.out.now ≡ length script.old.line.out.now }
    ensures same_buffers { SameHeld script.old script.new }
{
    if script.run.over {
        return;
    }
    if byte == b'\n' {
        return end_line(script);
    }
    script.line.put(byte);
}
