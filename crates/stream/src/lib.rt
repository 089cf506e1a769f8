// A script's bytes as they come: each fed to the run, and its output written as it fills the buffer.

#![tactic(auto)]

ghost use Rattle.std.specs.Prelude.{◌≡◌};
ghost use Rattle.feed.specs.Stands.{SameRoom};

use feed::Script;
use std::io::Write;

// Output that waits is written once it goes past this place. The longest output of one line, a list of 256 pages, fits behind it.
const ENOUGH: usize = 40000;

// Output that goes past `limit` is written; where it cannot be, the run ends. The memory, the line that is held and the buffers stay as they are.
pub fn flushed<W: Write>(script: &mut Script, limit: usize, to: &mut W)
    ensures same_memory { script.new.memory ≡ script.old.memory }
    ensures same_line { script.new.line ≡ script.old.line }
    ensures same_out { script.new.out.out ≡ script.old.out.out }
{
    if script.out.at <= limit {
        return;
    }
    if to.write_all(script.out.text()).is_err() {
        script.run = script.run.ended();
    }
    script.out.at = 0;
}

// Bytes of the script, up to the line that ends the run; output that is enough is written behind each.
pub fn pass<W: Write>(script: &mut Script, bytes: &[u8], to: &mut W)
    ensures { SameRoom script.old script.new }
{
    for &byte in bytes {
        if script.run.over {
            return;
        }
        feed::feed(script, byte);
        flushed(script, ENOUGH, to);
    }
}

// The end of the input: a last line may lack its line end.
pub fn finish(script: &mut Script)
    ensures { SameRoom script.old script.new }
{
    if script.line.at > 0 {
        feed::end_line(script);
    }
    script.run = script.run.ended();
}
