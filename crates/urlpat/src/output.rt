//! Standard output that keeps the error of a write that failed.

ghost use Rattle.std.specs.Io.KnownBytes.{Appends, Keeps};
ghost use Rattle.std.specs.IoError.{error_kind};
ghost use Rattle.std.specs.Prelude.{◌≡◌, IfErr, IfNone, IfSome, OnOk, None, Some, false};
ghost use Rattle.std.specs.declared.io.ErrorKind.TheVariants as kinds;
ghost use Rattle.urlpat.specs.Outputs.{ends_within, missing_end};

use std::io;
use std::io::Write;

/// A writer that keeps the error of the last `write_all` or `flush` that failed, and knows whether
/// the output ends within a line.
#[derive(Drop)]
pub struct Output<W> {
    writer: W,
    failure: Option<io::Error>,
    within_line: bool,
}

impl<W> Output<W> {
    /// Wraps a writer. No error is kept yet, and nothing is written.
    pub fn new(writer: W) -> Output<W>
        ensures parts { (result.writer ≡ writer) × (result.failure ≡ None) }
        ensures lines { result.within_line ≡ false }
    {
        Output {
            writer,
            failure: None,
            within_line: false,
        }
    }

    /// The error of the last `write_all` or `flush` that failed. `None`: neither has failed.
    pub fn failure(&self) -> Option<io::Error>
        ensures { result ≡ self.now.failure }
    {
        self.failure
    }

    /// Keeps the error of `written`, if there is one.
    fn keep(&mut self, written: &io::Result<()>)
        ensures writer { self.new.writer ≡ self.old.writer }
        ensures failed { IfErr written.now (λ error. self.new.failure ≡ Some error) }
        ensures done { OnOk written.now (self.new.failure ≡ self.old.failure) }
        ensures lines { self.new.within_line ≡ self.old.within_line }
    {
        if let Err(error) = written {
            self.failure = Some(*error);
        }
    }
}

impl<W: Write> Output<W> {
    /// Ends the last line of the output, if it has no end. The error is that of the writer.
    pub fn end_line(&mut self) -> io::Result<()>
        ensures bytes { OnOk result (Appends (W.contents self.old.writer)
            (W.contents self.new.writer) (missing_end self.old.within_line)) }
    {
        if self.within_line {
            self.write_all(b"\n")
        } else {
            self.write_all(b"")
        }
    }
}

/// Whether output ends within a line, after bytes that are written: as before if there are none.
fn ends_within(before: bool, bytes: &[u8]) -> bool
    ensures { result ≡ ends_within before bytes.now }
{
    match bytes {
        [] => before,
        [.., last] => *last != b'\n',
    }
}

impl<W: Write> Write for Output<W> {
    ghost contents = { λ output. W.contents output.writer };

    fn write(&mut self, buf: &[u8]) -> io::Result<usize> {
        self.writer.write(buf)
    }

    fn flush(&mut self) -> io::Result<()>
        ensures bytes { Keeps (W.contents self.old.writer) (W.contents self.new.writer) }
        ensures failed { IfErr result (λ error. self.new.failure ≡ Some error) }
        ensures done { OnOk result (self.new.failure ≡ self.old.failure) }
    {
        let flushed = self.writer.flush();
        self.keep(&flushed);
        flushed
    }

    fn write_all(&mut self, buf: &[u8]) -> io::Result<()>
        ensures bytes { OnOk result
            (Appends (W.contents self.old.writer) (W.contents self.new.writer) buf.now) }
        ensures failed { IfErr result (λ error. self.new.failure ≡ Some error) }
        ensures done { OnOk result (self.new.failure ≡ self.old.failure) }
        ensures lines { OnOk result
            (self.new.within_line ≡ ends_within self.old.within_line buf.now) }
    {
        let written = self.writer.write_all(buf);
        self.keep(&written);
        self.within_line = ends_within(self.within_line, buf);
        written
    }
}

/// Reports the error with which the output could not be written, `failure`, unless the reader of a
/// pipe has closed it. Without an error (`None`) nothing is reported.
pub fn report_output<Err: Write>(failure: Option<io::Error>, err: &mut Err)
    ensures none { IfNone failure (err.new ≡ err.old) }
    ensures closed { IfSome failure
        (λ error. error_kind error ≡ kinds.BrokenPipe → err.new ≡ err.old) }
{
    if let Some(error) = failure {
        if error.kind() != io::ErrorKind::BrokenPipe {
            let _ = writeln!(err, "urlpat: standard output cannot be written: {error}");
        }
    }
}
