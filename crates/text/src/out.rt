// Printing. What a command answers goes to standard output, everything else to standard error.
ghost use Rattle.std.specs.Prelude.{◌≡◌, ◌≢◌, OnOk, IfErr};
ghost use Rattle.std.specs.IoError.{error_kind};
ghost use Rattle.std.specs.declared.io.ErrorKind.TheVariants.{BrokenPipe};
ghost use Rattle.text.specs.Printing.{Becomes};

use std::fmt::Display;
use std::io;
use std::io::{Error, ErrorKind, Print, Stderr, Stdout};

/// Where a text goes.
#[derive(Clone, Copy)]
pub enum Stream {
    /// standard output, for what a command answers
    Output,
    /// standard error, for refusals, complaints and remarks
    Error,
}

/// What became of the writes so far.
#[derive(Clone, Copy, Debug, PartialEq, Eq)]
pub enum Fate {
    /// whatever was answered is written; a complaint may have failed
    Written,
    /// a write of the answer failed, by anything but a broken pipe
    Cut,
    /// a write of either stream found its pipe broken: nothing more is written to either
    Unread,
}

/// The two streams of the program, and what became of the writes to them.
#[derive(Drop)]
pub struct Out {
    output: Stdout,
    error: Stderr,
    fate: Fate,
}

impl Out {
    /// The streams of the program, before anything is written.
    pub fn new(rt: &HostRuntime) -> Out
        ensures { result.fate ≡ Fate.Written }
    {
        Out {
            output: rt.stdout(),
            error: rt.stderr(),
            fate: Fate::Written,
        }
    }

    /// What became of all the writes so far.
    pub fn fate(&self) -> Fate
        ensures { result ≡ self.now.fate }
    {
        self.fate
    }

    // Notes what became of a write, which was tried while somebody read. A complaint that cannot be
    // written is no failure.
    fn settle(&mut self, to: Stream, written: io::Result<()>)
        requires { self.now.fate ≢ Fate.Unread }
        ensures becomes { Becomes to self.old.fate self.new.fate }
        ensures written { OnOk written (self.new.fate ≡ self.old.fate) }
        ensures unread { IfErr written
            (λ e. error_kind e ≡ BrokenPipe → self.new.fate ≡ Fate.Unread) }
        ensures cut { IfErr written
            (λ e. to ≡ Stream.Output → error_kind e ≢ BrokenPipe → self.new.fate ≡ Fate.Cut) }
        ensures noted { IfErr written
            (λ e. to ≡ Stream.Error → error_kind e ≢ BrokenPipe
            → self.new.fate ≡ self.old.fate) }
    {
        let Err(e) = written else {
            return;
        };
        if e.kind() == ErrorKind::BrokenPipe {
            self.fate = Fate::Unread;
        } else if let Stream::Output = to {
            self.fate = Fate::Cut;
        }
    }

    // Prints, while somebody reads. This and the next alone write to a stream.
    fn print<D: Display + Drop>(&mut self, to: Stream, value: D)
        requires { self.now.fate ≢ Fate.Unread }
        ensures { Becomes to self.old.fate self.new.fate }
    {
        let written = match to {
            Stream::Output => self.output.print(value),
            Stream::Error => self.error.print(value),
        };
        self.settle(to, written);
    }

    // Prints bytes that need not be text, while somebody reads.
    fn print_bytes(&mut self, bytes: &[u8])
        requires { self.now.fate ≢ Fate.Unread }
        ensures { Becomes Stream.Error self.old.fate self.new.fate }
    {
        let written = self.error.write_all(bytes);
        self.settle(Stream::Error, written);
    }

    /// Prints a value, unless nobody reads any more.
    pub fn put<D: Display + Drop>(&mut self, to: Stream, value: D)
        ensures { Becomes to self.old.fate self.new.fate }
    {
        if self.fate != Fate::Unread {
            self.print(to, value);
        }
    }

    /// Prints a part of the answer.
    pub fn say<D: Display + Drop>(&mut self, value: D)
        ensures { Becomes Stream.Output self.old.fate self.new.fate }
    {
        self.put(Stream::Output, value);
    }

    /// Prints a part of a refusal, a complaint or a remark.
    pub fn note<D: Display + Drop>(&mut self, value: D)
        ensures { Becomes Stream.Error self.old.fate self.new.fate }
    {
        self.put(Stream::Error, value);
    }

    /// Prints such a part that need not be text, as a path.
    pub fn note_bytes(&mut self, bytes: &[u8])
        ensures { Becomes Stream.Error self.old.fate self.new.fate }
    {
        if self.fate != Fate::Unread {
            self.print_bytes(bytes);
        }
    }
}
