//! Where an engine rejects a custom expression, according to the crate `regex`.
ghost use Rattle.std.specs.Prelude.{IfOk};
ghost use Rattle.urlpattern_diagnosis.specs.Faults.{IsFaultIn, IsFaultOfBody};
ghost use Rattle.urlpattern_diagnosis.specs.Spans.{IsSpanIn};

use crate::fault::Fault;
use crate::hint::Hint;
use crate::span::Span;
use regex_syntax::{Config, Error, ErrorKind};
use std::alloc::{AllocError, Global};

/// Returns the fault of a custom expression, the span `body` of `text`, that an engine rejects: the
/// place where `regex` rejects it too, with the whole expression as the earlier part, or else the
/// whole expression alone.
pub fn fault_of_expression(alloc: Global, text: &str, body: Span) -> Result<Fault, AllocError>
    requires { IsSpanIn text.now body }
    ensures part { IfOk result (IsFaultOfBody body) }
    ensures within { IfOk result (IsFaultIn text.now) }
{
    let Some(error) = expression_error(alloc, &text[body.start..body.end])? else {
        return Ok(Fault::of_span(body));
    };
    let len = error.span.end.saturating_sub(error.span.start);
    let span = Span::inside(text, body, error.span.start, len);
    if span == body {
        return Ok(Fault::of_span(body));
    }
    Ok(Fault {
        span,
        earlier: Some(body),
    })
}

/// Returns why `regex` rejects an expression, in the words of `regex`, and what to do, or an empty
/// text. `None`: the expression is accepted.
pub(crate) fn message(
    alloc: Global,
    expression: &str,
    hint: Hint,
) -> Result<Option<(&'static str, &'static str)>, AllocError> {
    match expression_error(alloc, expression)? {
        Some(error) => {
            let kind = error.kind;
            let advice = advice(kind, expression, error.span.start, hint);
            Ok(Some((kind.message(), advice)))
        }
        None => Ok(None),
    }
}

/// Returns what to do about an error at a place: words after a semicolon, or an empty text if the
/// error's message says enough.
fn advice(kind: ErrorKind, expression: &str, place: usize, hint: Hint) -> &'static str {
    let refused = expression.as_bytes().get(place);
    let next = expression.as_bytes().get(place.saturating_add(1));
    match kind {
        ErrorKind::ClassRangeInvalid | ErrorKind::ClassRangeLiteral => {
            "; `-` in a class is between the ends of a range: write `\\-` for the character itself"
        }
        ErrorKind::ClassUnclosed if matches!(hint, Hint::Brackets) => {
            "; `)` ends an expression also in a class: write `\\)` for the character itself"
        }
        ErrorKind::ClassUnclosed if expression.contains("&&[") => {
            "; a class within another ends with a `]` of its own: add `]`"
        }
        ErrorKind::ClassUnclosed if expression.contains(']') => {
            "; at the front of a class `^` excludes and `]` is one of its characters, and a `[` in it begins another: write `\\^`, `\\]` or `\\[` for the character itself"
        }
        ErrorKind::EscapeUnrecognized if next == Some(&b'k') =>
            "; backreferences are not supported",
        ErrorKind::EscapeUnrecognized => {
            "; write the character without `\\` for the character itself"
        }
        ErrorKind::UnsupportedLookAround => "; match more, and compare what the group captures",
        ErrorKind::FlagUnrecognized if refused == Some(&b'#') => "; comments are not supported",
        ErrorKind::FlagUnrecognized if refused == Some(&b'>') => {
            "; atomic groups are not supported: write `(?:` for `(?>`"
        }
        _ => count_advice(kind, refused),
    }
}

/// Returns what to do about a rejected repetition, where `refused` is the byte at fault; an empty
/// text for any other error.
fn count_advice(kind: ErrorKind, refused: Option<&u8>) -> &'static str {
    match kind {
        ErrorKind::RepetitionCountDecimalEmpty if refused == Some(&b',') => {
            "; write `{0,3}` for at most three"
        }
        ErrorKind::RepetitionCountDecimalEmpty => {
            "; a count is a number: write `\\{` for the character itself"
        }
        ErrorKind::RepetitionCountUnclosed => {
            "; a count ends with `}`, or write `\\{` for the character itself"
        }
        ErrorKind::RepetitionMissing if refused == Some(&b'{') => {
            "; nothing is before `{` that it could repeat: write `.{3}` for any three characters"
        }
        ErrorKind::RepetitionMissing => {
            "; `*`, `+`, `?` and `{` repeat what is before them: write `.*` for any text"
        }
        _ => "",
    }
}

/// Returns the error with which `regex` rejects an expression. `None`: the expression is accepted.
fn expression_error(alloc: Global, expression: &str) -> Result<Option<Error>, AllocError> {
    match regex_syntax::parse(alloc, expression, &Config::default()) {
        Ok(parsed) => {
            drop(parsed);
            Ok(None)
        }
        Err(error) => match error.kind {
            ErrorKind::OutOfMemory => Err(AllocError),
            _ => Ok(Some(error)),
        },
    }
}
