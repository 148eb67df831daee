//! Where the pattern text of a component is at fault.
ghost use Rattle.std.specs.Prelude.{◌≡◌, IfOk, None, filter};
ghost use Rattle.std.specs.List.{list_any};
ghost use Rattle.std.specs.Str.{chars};
ghost use Rattle.urlpattern_diagnosis.specs.Faults.{IsFaultIn, IsFaultOf, IsParserFault, IsSecondFault, IsSignFault, IsSpanOfToken, IsStopFault, IsUrlFault, IsWholeFault, gives_name, is_path_sign, lacks_colon, marks_len, missing_colon, mistyped_colon};
ghost use Rattle.urlpattern_diagnosis.specs.Spans.{IsSpanIn};

use crate::span::Span;
use crate::token::first_fault;
use std::alloc::Global;
use urlpattern_components::ComponentName;
use urlpattern_parser::parser::Stop;
use urlpattern_parser::tokenizer::tokenize;
use urlpattern_syntax::error::{Error, OutOfMemory, ParserError};
use urlpattern_syntax::tokenizer::{Token, TokenType, TokenizePolicy};

/// Where a text is at fault.
///
/// ```rust fault
/// let earlier = diagnosis.fault.earlier;
/// ```
#[derive(Debug, Clone, Copy, PartialEq, Eq)]
pub struct Fault {
    /// The part at fault.
    pub span: Span,
    /// The part with which the span conflicts: the first of two equal names, the brace of a group
    /// that lacks its end, the `(` of a custom expression, or the whole expression that an engine
    /// rejects at the span. Or else an earlier token that is at fault too.
    pub earlier: Option<Span>,
}

impl Fault {
    /// Returns the fault that is a whole text.
    pub fn whole(text: &str) -> Self
        ensures whole { IsWholeFault text.now result }
        ensures within { IsFaultIn text.now result }
    {
        Fault {
            span: Span::whole(text),
            earlier: None,
        }
    }
}

impl Fault {
    /// Returns the fault of a text that is rejected as a whole: the place where the colon after a
    /// special scheme or `http{s}?` is missing, or the `;` in place of the colon after a special
    /// scheme, or else the whole text.
    pub fn of_url(text: &str) -> Self
        ensures fault { IsUrlFault text.now result }
        ensures within { IsFaultIn text.now result }
    {
        match missing_colon(text) {
            Some(place) => Fault::of_span(Span::at(text, place, 0)),
            None => Fault::of_sign(text),
        }
    }

    /// Returns the `;` in place of the colon after a special scheme as the fault, or else the whole
    /// text.
    fn of_sign(text: &str) -> Self
        ensures fault { IsSignFault text.now result }
        ensures within { IsFaultIn text.now result }
    {
        match mistyped_colon(text) {
            Some(place) => Fault::of_span(Span::at(text, place, 1)),
            None => Fault::whole(text),
        }
    }
}

impl Fault {
    /// Whether the colon after a special scheme is missing from a text, or mistyped.
    pub fn lacks_colon(text: &str) -> bool
        ensures { result ≡ lacks_colon text.now }
    {
        missing_colon(text).is_some() || mistyped_colon(text).is_some()
    }
}

/// Whether a text has a character of a path, a search or a hash that no protocol has.
pub fn has_path_sign(text: &str) -> bool
    ensures { result ≡ list_any is_path_sign text.now }
{
    text.as_bytes().iter().any(|byte| is_path_sign(*byte))
}

/// Whether a byte is a character of a path, a search or a hash that no protocol has: `/`, `=` or
/// `#`.
fn is_path_sign(byte: u8) -> bool
    ensures { result ≡ is_path_sign byte }
{
    matches!(byte, b'/' | b'#' | b'=')
}

/// Returns the length of the special scheme at the beginning of a text, or of the pattern
/// `http{s}?`, if two slashes follow, so that the colon is missing. `None`: the text does not begin
/// so.
fn missing_colon(text: &str) -> Option<usize>
    ensures { result ≡ missing_colon text.now }
{
    let bytes = text.as_bytes();
    if bytes.starts_with(b"http{s}?//") {
        Some(8)
    } else if bytes.starts_with(b"https//") {
        Some(5)
    } else if bytes.starts_with(b"http//") {
        Some(4)
    } else if bytes.starts_with(b"file//") {
        Some(4)
    } else if bytes.starts_with(b"wss//") {
        Some(3)
    } else if bytes.starts_with(b"ftp//") {
        Some(3)
    } else if bytes.starts_with(b"ws//") {
        Some(2)
    } else {
        None
    }
}

/// Returns the length of the special scheme at the beginning of a text, or of the pattern
/// `http{s}?`, if `;` and two slashes follow, so that the colon is mistyped. `None`: the text does
/// not begin so.
fn mistyped_colon(text: &str) -> Option<usize>
    ensures { result ≡ mistyped_colon text.now }
{
    let bytes = text.as_bytes();
    if bytes.starts_with(b"http{s}?;//") {
        Some(8)
    } else if bytes.starts_with(b"https;//") {
        Some(5)
    } else if bytes.starts_with(b"http;//") {
        Some(4)
    } else if bytes.starts_with(b"file;//") {
        Some(4)
    } else if bytes.starts_with(b"wss;//") {
        Some(3)
    } else if bytes.starts_with(b"ftp;//") {
        Some(3)
    } else if bytes.starts_with(b"ws;//") {
        Some(2)
    } else {
        None
    }
}

impl Fault {
    /// Returns the fault that is a single span.
    pub fn of_span(span: Span) -> Self
        ensures { result ≡ record { span = span; earlier = None } }
    {
        Fault {
            span,
            earlier: None,
        }
    }
}

/// Returns where `text`, the pattern of a component, is at fault, by the error with which it is
/// rejected under the prefix code point; the whole text if the error is of `url` or of an engine.
/// `None` for the component: the text is not a hostname pattern.
pub fn fault_of(
    alloc: Global,
    component: Option<ComponentName>,
    text: &str,
    prefix_code_point: &str,
    error: &Error,
) -> Result<Fault, OutOfMemory>
    ensures fault { IfOk result
        (IsFaultOf component text.now (chars prefix_code_point.now) error.now) }
    ensures within { IfOk result (IsFaultIn text.now) }
{
    let stop = match Stop::of(alloc, text, prefix_code_point) {
        Ok(stop) => stop,
        Err(Error::Tokenizer(fault, place)) => {
            let found = first_fault(alloc, component, text, prefix_code_point, place, &fault);
            drop(fault);
            return found;
        }
        Err(_) => return Err(OutOfMemory),
    };
    match error {
        Error::Parser(error) => parser_fault(alloc, text, &stop, error),
        _ => Ok(Fault::whole(text)),
    }
}

/// Returns the fault of a text that consists of tokens, and which the parser rejects with `error`.
/// The pieces of the text, its characters, placeholders and groups, end at `stop`.
fn parser_fault(
    alloc: Global,
    text: &str,
    stop: &Stop<'_>,
    error: &ParserError,
) -> Result<Fault, OutOfMemory>
    ensures fault { IfOk result (IsParserFault text.now stop.now error.now) }
    ensures within { IfOk result (IsFaultIn text.now) }
{
    match error {
        ParserError::ExpectedToken(_, _, _) => Ok(stop_fault(text, stop)),
        ParserError::DuplicateName(name) => {
            let Ok(tokens) = tokenize(alloc, text, TokenizePolicy::Strict) else {
                return Err(OutOfMemory);
            };
            Ok(second_fault(text, &tokens, name))
        }
    }
}

/// Returns the token at which the pieces of the text, its characters, placeholders and groups, end
/// as the fault, and the brace of a group that lacks its end there, if any, as the earlier part.
fn stop_fault(text: &str, stop: &Stop<'_>) -> Fault
    ensures fault { IsStopFault text.now stop.now result }
    ensures within { IsFaultIn text.now result }
{
    let span = span_of(text, stop.found);
    if stop.first.index == stop.found.index {
        return Fault {
            span,
            earlier: None,
        };
    }
    Fault {
        span,
        earlier: Some(span_of(text, stop.first)),
    }
}

/// Returns the second token that is the name `name` as the fault, and the first as the earlier
/// part; the whole text if there are not two.
fn second_fault(text: &str, tokens: &[Token<'_>], name: &str) -> Fault
    ensures fault { IsSecondFault text.now (filter (gives_name name.now) tokens.now) result }
    ensures within { IsFaultIn text.now result }
{
    let mut first = None;
    for token in tokens {
        if gives_name(token, name) {
            let span = span_of(text, *token);
            match first {
                Some(earlier) => {
                    return Fault {
                        span,
                        earlier: Some(earlier),
                    };
                }
                None => first = Some(span),
            }
        }
    }
    Fault::whole(text)
}

/// Whether a token is a name, and its value is `name`.
fn gives_name(token: &Token<'_>, name: &str) -> bool
    ensures { result ≡ gives_name name.now token.now }
{
    matches!(token.kind, TokenType::Name) && token.value == name
}

/// Returns the span of a token in `text`, with the signs that are not part of its value.
pub(crate) fn span_of(text: &str, token: Token<'_>) -> Span
    ensures span { IsSpanOfToken text.now token.entry result }
    ensures within { IsSpanIn text.now result }
{
    let len = token.value.len() + marks_len(token.kind);
    Span::at(text, token.index, len)
}

/// Returns the number of bytes in a token's spelling that are not part of its value: a colon, a
/// backslash or two parentheses.
fn marks_len(kind: TokenType) -> usize
    ensures { result ≡ marks_len kind }
{
    match kind {
        TokenType::Name | TokenType::EscapedChar => 1,
        TokenType::Regexp => 2,
        _ => 0,
    }
}
