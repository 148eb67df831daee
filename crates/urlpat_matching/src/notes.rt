//! Notes on standard error: what is wrong with a pattern that is rejected, and that an input is not
//! a URL.

ghost use Rattle.std.specs.Prelude.{◌≡◌, option_copied, IfOk, IfSome};
ghost use Rattle.urlpat_matching.specs.GivenPatterns.{IsPatternGiven, KeepsPartsGiven};
ghost use Rattle.urlpattern_canonical.specs.BaseUrls.{IsRejectedText};
ghost use Rattle.urlpattern_pattern.specs.Patterns.{pattern_view};

use crate::exit_status::FAILED;
use crate::given_pattern::{GivenPattern, compiled, init_of};
use std::alloc::Global;
use std::fmt;
use std::io::Write;
use url::{ParseError, Url};
use urlpattern_canonical::find_url;
use urlpattern_diagnosis::{Diagnosis, Subject};
use urlpattern_engine::PatternRegexp;
use urlpattern_inputs::UrlPatternOptions;
use urlpattern_pattern::UrlPattern;
use urlpattern_syntax::Error;
use urlpattern_syntax::error::OutOfMemory;

/// Returns a note that `input` is not a URL under the base URL `base`. `None`: it is a URL.
pub fn note_of(alloc: Global, base: Option<&str>, input: &str) -> Result<Option<String>, Error>
    ensures { IfOk result (λ note. IfSome note (λ text.
        IsRejectedText input.now (option_copied base.entry))) }
{
    match find_url(alloc, input, base)? {
        Some(url) => {
            drop(url);
            Ok(None)
        }
        None => match parsed(alloc, base, input) {
            Err(ParseError::OutOfMemory) => Err(Error::OutOfMemory),
            Err(reason) => {
                Ok(Some(format!(in alloc; "the input `{input}` is no URL: {reason}\n")?))
            }
            Ok(url) => {
                drop(url);
                Ok(Some(format!(in alloc; "the input `{input}` is no URL\n")?))
            }
        },
    }
}

/// Parses an input as a URL, under a base URL if there is one. The error says why `url` rejects the
/// base or the input.
fn parsed(alloc: Global, base: Option<&str>, input: &str) -> Result<Url, ParseError> {
    let Some(base) = base else {
        return Url::parse(alloc, input);
    };
    let base = Url::parse(alloc, base)?;
    let url = base.join(input);
    drop(base);
    url
}

/// A line of a table, by the name of its file and its number, as it is written before an error.
#[derive(Clone, Copy)]
struct Place<'t>(Option<(&'t str, u64)>);

impl fmt::Display for Place<'_> {
    fn fmt<W: fmt::Write>(&self, f: &mut fmt::Formatter<W>) -> fmt::Result {
        match self.0 {
            Some((file, number)) => write!(f, "{file}:{number}: "),
            None => Ok(()),
        }
    }
}

/// Reports the error with which a pattern or its base is rejected, with the file and the number of
/// the line that has the pattern, if it is that of a table, and after it a diagnosis. If memory
/// runs out, only that is reported. Returns the exit status, `FAILED`.
pub fn write_refusal<Err: Write>(
    alloc: Global,
    line: Option<(&str, u64)>,
    pattern: GivenPattern<'_, '_>,
    base: Option<&str>,
    error: Error,
    err: &mut Err,
) -> u8
    ensures { result ≡ FAILED }
{
    let note = match error {
        Error::OutOfMemory => Err(OutOfMemory),
        _ => match_diagnosis(alloc, pattern, base),
    };
    match note {
        Ok(note) => {
            let place = Place(line);
            let note = note.as_deref().unwrap_or("");
            let _ = write!(err, "urlpat: {place}{error}\n{note}");
        }
        Err(_) => {
            let _ = err.write_all(b"out of memory\n");
        }
    }
    drop(error);
    FAILED
}

/// Compiles a pattern as `compiled` does. `None`: the pattern or its base is rejected, or memory
/// ran out, which is reported as by `write_refusal`.
pub fn compiled_or_report<Err: Write>(
    alloc: Global,
    line: Option<(&str, u64)>,
    pattern: GivenPattern<'_, '_>,
    base: Option<&str>,
    ignore_case: bool,
    err: &mut Err,
) -> Option<UrlPattern<PatternRegexp>>
    ensures compiled { IfSome result (λ compiled.
        IsPatternGiven ignore_case pattern.entry (option_copied base.entry)
        (pattern_view compiled)) }
    ensures kept { IfSome result
        (KeepsPartsGiven ignore_case pattern.entry (option_copied base.entry)) }
    ensures quiet { IfSome result (λ compiled. err.new ≡ err.old) }
{
    match compiled(alloc, pattern, base, ignore_case) {
        Ok(compiled) => Some(compiled),
        Err(error) => {
            write_refusal(alloc, line, pattern, base, error, err);
            None
        }
    }
}

/// Returns a diagnosis of a pattern and its base, as lines of text. `None`: neither is rejected.
pub fn match_diagnosis(
    alloc: Global,
    pattern: GivenPattern<'_, '_>,
    base: Option<&str>,
) -> Result<Option<String>, OutOfMemory> {
    match diagnosed(alloc, pattern, base)? {
        Some(diagnosis) => {
            let text = format!(in alloc; "{diagnosis}\n");
            drop(diagnosis);
            Ok(Some(text?))
        }
        None => Ok(None),
    }
}

/// Returns a diagnosis of the first constructor string that is rejected, with its index, or of the
/// base, as lines of text. `None`: each string is accepted with the base.
pub fn first_diagnosis(
    alloc: Global,
    base: Option<&str>,
    patterns: &[&str],
) -> Result<Option<String>, OutOfMemory> {
    for (index, pattern) in patterns.iter().enumerate() {
        if let Some(diagnosis) = diagnosed(alloc, GivenPattern::Text(*pattern), base)? {
            let text = numbered(alloc, index, &diagnosis);
            drop(diagnosis);
            return Ok(Some(text?));
        }
    }
    Ok(None)
}

/// A diagnosis as lines of text. The first one begins with `index`, that of the pattern, unless the
/// base is at fault.
fn numbered(alloc: Global, index: usize, diagnosis: &Diagnosis) -> Result<String, OutOfMemory> {
    match diagnosis.subject {
        Subject::Base => Ok(format!(in alloc; "{diagnosis}\n")?),
        _ => Ok(format!(in alloc; "pattern {index}: {diagnosis}\n")?),
    }
}

/// Diagnoses a pattern and its base, under the default options. `None`: neither is rejected.
fn diagnosed(
    alloc: Global,
    pattern: GivenPattern<'_, '_>,
    base: Option<&str>,
) -> Result<Option<Diagnosis>, OutOfMemory> {
    match pattern {
        GivenPattern::Text(text) => diagnosed_text(alloc, text, base),
        GivenPattern::Init(plain) => match init_of(alloc, plain, base) {
            Ok(init) => {
                let found = UrlPattern::<PatternRegexp>::diagnose_init(
                    alloc,
                    &init,
                    UrlPatternOptions::default(),
                );
                drop(init);
                found
            }
            Err(Error::OutOfMemory) => Err(OutOfMemory),
            // The base is rejected, whatever the pattern.
            Err(_) => match plain.base_url.as_deref() {
                Some(own) => diagnosed_text(alloc, "*", Some(own)),
                None => diagnosed_text(alloc, "*", base),
            },
        },
    }
}

/// Diagnoses a constructor string and its base. `None`: neither is rejected.
fn diagnosed_text(
    alloc: Global,
    text: &str,
    base: Option<&str>,
) -> Result<Option<Diagnosis>, OutOfMemory> {
    UrlPattern::<PatternRegexp>::diagnose(alloc, text, base, UrlPatternOptions::default())
}
