//! How `component`, `match` and `first` report why they have no output.

ghost use Rattle.std.specs.Io.KnownBytes.{Appends};
ghost use Rattle.std.specs.Prelude.{◌≡◌, IfSome, OnOk, Ok, None};
ghost use Rattle.urlpat_commands.specs.CommandAnswers.{ReportsFirst};
ghost use Rattle.urlpat_matching.specs.Status.{error_line};

use crate::component::component_diagnosis;
use std::alloc::Global;
use std::io;
use std::io::Write;
use urlpat_matching::{Command, FAILED, Flags, first_diagnosis, match_diagnosis, report};
use urlpattern::Error;
use urlpattern::error::OutOfMemory;

/// Reports the error for which a command has no output, with a diagnosis if errors are explained
/// and there is memory for it. Returns the exit status, `FAILED`.
pub(crate) fn refuse<Err: Write>(
    alloc: Global,
    error: Error,
    flags: Flags,
    asked: Command<'_, '_>,
    err: &mut Err,
) -> u8
    ensures { result ≡ FAILED }
{
    let note = if flags.explain_errors && !matches!(error, Error::OutOfMemory) {
        diagnosis_of(alloc, asked)
    } else {
        Ok(None)
    };
    let _ = write_failure(&error, &note, err);
    FAILED
}

/// A diagnosis of the patterns of a command, as lines of text. `None`: none is rejected.
fn diagnosis_of(alloc: Global, asked: Command<'_, '_>) -> Result<Option<String>, OutOfMemory> {
    match asked {
        Command::Component(asked) => component_diagnosis(alloc, asked),
        Command::Match(asked) => match_diagnosis(alloc, asked.pattern, asked.base),
        Command::First(asked) => first_diagnosis(alloc, asked.base, asked.patterns),
        _ => Ok(None),
    }
}

/// Writes an error and a line end, and the note on it after that, if there is one. If memory ran
/// out for the note, writes only that it ran out.
fn write_failure<Err: Write>(
    error: &Error,
    note: &Result<Option<String>, OutOfMemory>,
    err: &mut Err,
) -> io::Result<()>
    ensures alone { note.now ≡ Ok None → IfSome (error_line error.now) (λ line.
        OnOk result (Appends (Err.contents err.old) (Err.contents err.new) line)) }
    ensures first { IfSome (error_line error.now)
        (λ line. OnOk result (ReportsFirst line (Err.contents err.old) (Err.contents err.new))) }
{
    match note {
        Ok(None) => report(error, err),
        Ok(Some(note)) => {
            report(error, err)?;
            err.write_all(note.as_bytes())
        }
        Err(_) => err.write_all(b"out of memory\n"),
    }
}
