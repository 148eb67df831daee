//! The end of a run: its exit status, and why it has no output.

ghost use Rattle.std.specs.Io.KnownBytes.{Appends};
ghost use Rattle.std.specs.Prelude.{◌≡◌, ◌⊎◌, IfSome, OnOk};
ghost use Rattle.urlpat_matching.specs.Status.{error_line, status_of};

use std::io;
use std::io::Write;
use urlpattern_syntax::Error;

/// The exit status of a run that succeeded.
pub const DONE: u8 = 0;

/// The exit status of a run with a negative outcome: the input does not match, no line is selected,
/// a pattern does not cover the other one, each pattern of a table is the first match of something,
/// or there is no URL for given groups, as where an argument of `link` gives no group a text.
pub const NO_MATCH: u8 = 1;

/// The exit status of any other run.
pub const FAILED: u8 = 2;

/// The exit status of a run that did not fail: `DONE` if `any`, else `NO_MATCH`.
pub fn status_of(any: bool) -> u8
    ensures either { (result ≡ DONE) ⊎ (result ≡ NO_MATCH) }
    ensures is { result ≡ status_of any }
{
    if any { DONE } else { NO_MATCH }
}

/// Writes a text, and flushes the output.
pub fn print<Out: Write>(text: &[u8], out: &mut Out) -> io::Result<()>
    ensures { OnOk result (Appends (Out.contents out.old) (Out.contents out.new) text.now) }
{
    out.write_all(text)?;
    out.flush()
}

/// Reports the error for which a run has no output. Returns the exit status, `FAILED`.
pub fn fail<Err: Write>(error: &Error, err: &mut Err) -> u8
    ensures { result ≡ FAILED }
{
    let _ = report(error, err);
    FAILED
}

/// Writes an error and a line end.
pub fn report<Err: Write>(error: &Error, err: &mut Err) -> io::Result<()>
    ensures { IfSome (error_line error.now) (λ line.
        OnOk result (Appends (Err.contents err.old) (Err.contents err.new) line)) }
{
    writeln!(err, "{error}")
}
