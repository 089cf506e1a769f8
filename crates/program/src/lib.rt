// What the programs share: how they read, whether they have an argument, what is said of a failure, and their exit status.

#![tactic(auto)]

ghost use Rattle.std.specs.Prelude.{◌≡◌, ◌≢◌, ◌≤◌, false, true, length, take, IfErr, OnOk};
ghost use Rattle.std.specs.IoError.{error_kind};
ghost use Rattle.std.specs.Io.{ReadsAtMost, WritesAtMost};
ghost use Rattle.std.specs.Io.KnownBytes.{Consumes, ReadConsumes, WriteAppends};

use std::env::FillError;
use std::fmt::InlineText;
use std::io;
use std::io::{ErrorKind, Read, Write};
use std::process::ExitCode;
use std::rt::Env;

// One read, begun again where a signal interrupts it before it has a byte.
pub fn read_some<R: Read>(input: &mut R, buf: &mut [u8]) -> io::Result<usize>
    ensures bound { ReadsAtMost result buf.new }
    ensures bytes { ReadConsumes (R.remaining input.old) (R.remaining input.new) result buf.new }
{
    for _ in 0..u64::MAX {
        match input.read(buf) {
            Ok(n) => return Ok(n),
            Err(error) => {
                if error.kind() != ErrorKind::Interrupted {
                    return Err(error);
                }
            }
        }
    }
    Err(io::Error::from(ErrorKind::Interrupted))
}

// Reads until the buffer is full, the input ends or a read fails: how many bytes stand at the start of the buffer. On an empty buffer
// nothing is read.
pub fn read_full<R: Read>(input: &mut R, buf: &mut [u8]) -> usize
    ensures in_bounds { result ≤ length buf.new }
    ensures prefix { result ≡ length (take result buf.new) }
    ensures bytes { Consumes (R.remaining input.old) (R.remaining input.new) (take result buf.new) }
{
    let mut done = 0;
    // Kept: a while, since a read says how far it went.
    while done < buf.len() {
        match read_some(input, &mut buf[done..]) {
            Ok(n) => {
                if n == 0 {
                    return done;
                }
                done += n;
            }
            Err(_) => return done,
        }
    }
    done
}

// A writer, and whether a write has found that the reader of its pipe has gone.
#[derive(Drop)]
pub struct Output<W> {
    pub to: W,
    pub unread: bool,
}

impl<W: Write> Output<W> {
    pub fn new(to: W) -> Output<W>
        ensures writer { result.to ≡ to }
        ensures unread { result.unread ≡ false }
    {
        Output { to, unread: false }
    }
}

impl<W: Write> Write for Output<W> {
    ghost contents = { λ output. W.contents output.to };

    fn write(&mut self, buf: &[u8]) -> io::Result<usize>
        ensures bound { WritesAtMost result buf.now }
        ensures bytes { WriteAppends (W.contents self.old.to) (W.contents self.new.to) result buf.now }
        ensures stays { OnOk result (self.new.unread ≡ self.old.unread) }
        ensures told { IfErr result (λ e. (error_kind e ≡ ErrorKind.BrokenPipe → self.new.unread ≡ true)
            × (error_kind e ≢ ErrorKind.BrokenPipe → self.new.unread ≡ self.old.unread)) }
    {
        let written = self.to.write(buf);
        if let Err(error) = &written {
            if error.kind() == ErrorKind::BrokenPipe {
                self.unread = true;
            }
        }
        written
    }

    fn flush(&mut self) -> io::Result<()> {
        self.to.flush()
    }
}

// The program has an argument at this place; its own name is at 0.
pub fn has_argument<E: Env>(env: &E, at: usize) -> bool {
    let mut none = [0u8; 0];
    !matches!(env.arg(at, &mut none), Err(FillError::NotPresent))
}

// Tells what failed, and the system's words for it. A pipe whose reader has gone is told by the exit status alone.
pub fn fail<W: Write>(to: &mut W, what: &str, error: io::Error) {
    if error.kind() == ErrorKind::BrokenPipe {
        return;
    }
    let text = InlineText::<128>::of(error);
    let all = text.as_str();
    // std writes the error's number behind the words.
    let words = all
        .split_once(" (os error ")
        .map_or(all, |(words, _)| words);
    let _ = writeln!(to, "{what}: {words}");
}

// The exit status: 0, also where input or output fails; but where the reader of a pipe has gone 141, which is what a shell tells of a
// program that SIGPIPE has ended.
pub fn status(unread: bool) -> ExitCode {
    if unread {
        return ExitCode::from(141);
    }
    ExitCode::SUCCESS
}

#[cfg(test)]
mod tests {
    use super::*;

    // What a read does: it gives a byte, is interrupted, or fails.
    #[derive(Clone, Copy)]
    enum Step {
        Byte(u8),
        Interrupted,
        Failed,
    }

    // A source of five reads, and then its end.
    #[derive(Drop)]
    struct Source {
        steps: [Step; 5],
        at: usize,
    }

    impl Read for Source {
        fn read(&mut self, buf: &mut [u8]) -> io::Result<usize> {
            let at = self.at;
            if at >= 5 || buf.is_empty() {
                return Ok(0);
            }
            self.at = at + 1;
            match self.steps[at] {
                Step::Byte(byte) => {
                    buf[0] = byte;
                    Ok(1)
                }
                Step::Interrupted => Err(io::Error::from(ErrorKind::Interrupted)),
                Step::Failed => Err(io::Error::from(ErrorKind::Other)),
            }
        }
    }

    // A writer that fails each time.
    #[derive(Drop)]
    struct Failing(ErrorKind);

    impl Write for Failing {
        fn write(&mut self, _buf: &[u8]) -> io::Result<usize> {
            Err(io::Error::from(self.0))
        }

        fn flush(&mut self) -> io::Result<()> {
            Ok(())
        }
    }

    #[test]
    fn reads_on_behind_an_interruption(rt: HostRuntime) {
        let mut source = Source {
            steps: [
                Step::Interrupted,
                Step::Byte(7),
                Step::Interrupted,
                Step::Byte(8),
                Step::Byte(9),
            ],
            at: 0,
        };
        let mut buf = [0u8; 2];
        assert_eq!(rt; read_full(&mut source, &mut buf), 2);
        assert_eq!(rt; buf, [7, 8]);
        assert_eq!(rt; read_full(&mut source, &mut buf), 1);
        assert_eq!(rt; buf, [9, 8]);
    }

    #[test]
    fn keeps_what_stands_before_a_failure(rt: HostRuntime) {
        let mut source = Source {
            steps: [
                Step::Byte(7),
                Step::Failed,
                Step::Failed,
                Step::Byte(8),
                Step::Byte(9),
            ],
            at: 0,
        };
        let mut buf = [0u8; 4];
        assert_eq!(rt; read_full(&mut source, &mut buf), 1);
        assert!(rt; read_some(&mut source, &mut buf).is_err());
        assert_eq!(rt; read_full(&mut source, &mut buf), 2);
        assert_eq!(rt; buf, [8, 9, 0, 0]);
    }

    #[test]
    fn remembers_that_the_reader_has_gone(rt: HostRuntime) {
        for (kind, want) in [
            (ErrorKind::BrokenPipe, true),
            (ErrorKind::StorageFull, false),
        ] {
            let mut to = Output::new(Failing(kind));
            assert!(rt; to.write_all(b"text").is_err());
            assert_eq!(rt; to.unread, want);
            assert!(rt; to.write_all(b"").is_ok());
            assert_eq!(rt; to.unread, want);
        }
    }

    #[test]
    fn tells_the_words_of_the_system(rt: HostRuntime) {
        let mut line = [b'.'; 26];
        let mut rest = &mut line[..];
        fail(&mut rest, "volumes", io::Error::from_raw_os_error(21));
        assert_eq!(rt; &line, b"volumes: Is a directory\n..");
    }
}
