//! The commands `match` and `first`, and the short form of `match`.

ghost use Rattle.std.specs.Io.KnownBytes.{Appends};
ghost use Rattle.std.specs.Prelude.{◌≡◌, ◌≢◌, ◌⊎◌, option_copied};
ghost use Rattle.urlpat_commands.specs.CommandAnswers.{HasNote, IsFirstAnswered, IsMatchAnswered, PrintsFirst, PrintsFound, PrintsMatch, no_match_text};

use crate::failure::refuse;
use crate::first::first_groups;
use std::alloc::Global;
use std::io::Write;
use urlpat_matching::{
    Command, DONE, FAILED, FirstArguments, Flags, MatchArguments, NO_MATCH, fail, matched_groups,
    note_of, print,
};

/// Runs `match`, or the short form: prints what the groups of a pattern capture of an input, or
/// that the input does not match. Returns the exit status.
///
/// An error is written to `err`; if errors are explained, with its reason, and so is a note on an
/// input that is not a URL.
pub fn print_match<Out: Write, Err: Write>(
    alloc: Global,
    asked: MatchArguments<'_, '_>,
    flags: Flags,
    out: &mut Out,
    err: &mut Err,
) -> u8
    ensures status { (result ≡ DONE) ⊎ (result ≡ NO_MATCH) ⊎ (result ≡ FAILED) }
    ensures answers { result ≢ FAILED
        → PrintsMatch flags asked.entry result (Out.contents out.old) (Out.contents out.new) }
    ensures quiet { result ≢ FAILED
        → (err.new ≡ err.old)
        ⊎ HasNote flags asked.entry.input.now (option_copied asked.entry.base) }
    ensures fails { result ≡ FAILED → (out.new ≡ out.old) ⊎ IsMatchAnswered flags asked.entry }
{
    match matched_groups(alloc, asked, flags) {
        Ok(found) => print_found(alloc, found, asked.base, asked.input, flags, out, err),
        Err(error) => refuse(alloc, error, flags, Command::Match(asked), err),
    }
}

/// Runs `first`: prints the index of the first pattern that matches an input, and what its groups
/// capture, or that none matches. Returns the exit status.
///
/// An error is written to `err`; if errors are explained, with its reason, and so is a note on an
/// input that is not a URL.
pub fn print_first<Out: Write, Err: Write>(
    alloc: Global,
    asked: FirstArguments<'_, '_>,
    flags: Flags,
    out: &mut Out,
    err: &mut Err,
) -> u8
    ensures status { (result ≡ DONE) ⊎ (result ≡ NO_MATCH) ⊎ (result ≡ FAILED) }
    ensures answers { result ≢ FAILED
        → PrintsFirst flags asked.entry result (Out.contents out.old) (Out.contents out.new) }
    ensures quiet { result ≢ FAILED
        → (err.new ≡ err.old)
        ⊎ HasNote flags asked.entry.input.now (option_copied asked.entry.base) }
    ensures fails { result ≡ FAILED → (out.new ≡ out.old) ⊎ IsFirstAnswered flags asked.entry }
{
    match first_groups(alloc, asked, flags) {
        Ok(found) => print_found(alloc, found, asked.base, asked.input, flags, out, err),
        Err(error) => refuse(alloc, error, flags, Command::First(asked), err),
    }
}

/// Prints what was found of an input, or that there is no match (`None`). Returns the exit status.
fn print_found<Out: Write, Err: Write>(
    alloc: Global,
    found: Option<String>,
    base: Option<&str>,
    input: &str,
    flags: Flags,
    out: &mut Out,
    err: &mut Err,
) -> u8
    ensures status { (result ≡ DONE) ⊎ (result ≡ NO_MATCH) ⊎ (result ≡ FAILED) }
    ensures answers { result ≢ FAILED
        → PrintsFound flags.json found result (Out.contents out.old) (Out.contents out.new) }
    ensures quiet { result ≢ FAILED
        → (err.new ≡ err.old) ⊎ HasNote flags input.now (option_copied base.entry) }
{
    match found {
        Some(text) => match print(text.as_bytes(), out) {
            Ok(()) => DONE,
            Err(_) => FAILED,
        },
        None => print_unmatched(alloc, base, input, flags, out, err),
    }
}

/// Prints that there is no match. Returns the exit status. If errors are explained, an input that
/// is not a URL is reported.
fn print_unmatched<Out: Write, Err: Write>(
    alloc: Global,
    base: Option<&str>,
    input: &str,
    flags: Flags,
    out: &mut Out,
    err: &mut Err,
) -> u8
    ensures status { (result ≡ NO_MATCH) ⊎ (result ≡ FAILED) }
    ensures answers { result ≢ FAILED
        → Appends (Out.contents out.old) (Out.contents out.new) (no_match_text flags.json) }
    ensures quiet { result ≢ FAILED
        → (err.new ≡ err.old) ⊎ HasNote flags input.now (option_copied base.entry) }
{
    let note = if flags.explain_errors {
        note_of(alloc, base, input)
    } else {
        Ok(None)
    };
    let note = match note {
        Ok(note) => note,
        Err(error) => return fail(&error, err),
    };
    let Ok(()) = print(no_match_text(flags.json).as_bytes(), out) else {
        return FAILED;
    };
    if let Some(note) = &note {
        let _ = err.write_all(note.as_bytes());
    }
    NO_MATCH
}

/// The text that is printed if there is no match.
fn no_match_text(json: bool) -> &'static str
    ensures { result.now ≡ no_match_text json }
{
    if json { "null\n" } else { "no match\n" }
}
