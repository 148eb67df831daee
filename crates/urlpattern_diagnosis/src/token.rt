//! Faults where no token begins.
ghost use Rattle.std.specs.Prelude.{◌≡◌, ◌≤◌, ◌++◌, codes, length, List, ℕ, IfNone, IfOk, IfSome};
ghost use Rattle.std.specs.Str.{chars};
ghost use Rattle.urlpattern_diagnosis.specs.Faults.{IsBodyFault, IsFaultIn, IsAfterRegexpStart, IsFirstFault, IsNameFault, IsOpenBracket, IsRejectedStart, HasTokenFault, is_end_kind, is_of_hostname};
ghost use Rattle.urlpattern_syntax.specs.Text.{BeginsWith, is_among};
ghost use Rattle.urlpattern_syntax.specs.Tokens.{IsFault, IsFaultAt, InvalidRegex, IsRegexpStart, fault_view};

use crate::fault::{Fault, span_of};
use crate::span::Span;
use std::alloc::Global;
use urlpattern_components::ComponentName;
use urlpattern_parser::parser::Stop;
use urlpattern_parser::split_body;
use urlpattern_syntax::error::{OutOfMemory, TokenizerError};
use urlpattern_syntax::text::split_first;
use urlpattern_syntax::tokenizer::TokenType;

/// Returns the fault of a component's pattern `text`, in which `place` is the first at which no
/// token begins, because of `fault`. An earlier token that is at fault too is the earlier part,
/// unless the fault has one already.
pub(crate) fn first_fault(
    alloc: Global,
    component: Option<ComponentName>,
    text: &str,
    prefix_code_point: &str,
    place: usize,
    fault: &TokenizerError,
) -> Result<Fault, OutOfMemory>
    requires { IsFault (chars text.now) (fault_view fault.now) place }
    ensures fault { IfOk result (IsFirstFault component text.now (chars prefix_code_point.now)
        (fault_view fault.now) place) }
    ensures within { IfOk result (IsFaultIn text.now) }
{
    let alone = token_fault(component, text, place, fault);
    if let Some(_) = alone.earlier {
        return Ok(alone);
    }
    let Ok(stop) = Stop::of(alloc, &text[..place], prefix_code_point) else {
        return Err(OutOfMemory);
    };
    if is_end(stop.found.kind) {
        return Ok(alone);
    }
    Ok(Fault {
        span: alone.span,
        earlier: Some(span_of(text, stop.found)),
    })
}

/// Whether a token of this kind is the end of a text.
fn is_end(kind: TokenType) -> bool
    ensures { result ≡ is_end_kind kind }
{
    matches!(kind, TokenType::End)
}

/// Returns the fault of a component's pattern `text`, in which no token begins at `place`, because
/// of `fault`.
fn token_fault(
    component: Option<ComponentName>,
    text: &str,
    place: usize,
    fault: &TokenizerError,
) -> Fault
    requires { IsFault (chars text.now) (fault_view fault.now) place }
    ensures fault { HasTokenFault component text.now (fault_view fault.now) place result }
    ensures within { IsFaultIn text.now result }
{
    match fault {
        TokenizerError::IncompleteEscapeCode => {
            Fault::of_span(Span::at(text, text.len().saturating_sub(1), 1))
        }
        TokenizerError::InvalidName => name_fault(component, text, place),
        TokenizerError::InvalidRegex(_) => match split_first(&text[place..]) {
            Some((_, body)) => body_fault(text, place, body),
            None => Fault::whole(text),
        },
    }
}

/// Returns the fault of a text where no name follows the colon at a place: the colon, or in a
/// hostname an unclosed `[` before it.
fn name_fault(component: Option<ComponentName>, text: &str, place: usize) -> Fault
    ensures fault { IsNameFault component text.now place result }
    ensures within { IsFaultIn text.now result }
{
    if !is_hostname(component) {
        return Fault::of_span(Span::at(text, place, 1));
    }
    match open_bracket(text) {
        Some(open) => Fault::of_span(Span::at(text, open.min(place), 1)),
        None => Fault::of_span(Span::at(text, place, 1)),
    }
}

/// Whether a component is the hostname.
fn is_hostname(component: Option<ComponentName>) -> bool
    ensures { result ≡ is_of_hostname component }
{
    matches!(component, Some(ComponentName::Hostname))
}

/// Returns the place of the last square bracket of a text, if it is a `[`. `None`: it is a `]`, or
/// there is no bracket.
fn open_bracket(text: &str) -> Option<usize>
    ensures { IsOpenBracket text.now result }
{
    let bytes = text.as_bytes();
    let mut place = bytes.len();
    while place > 0 {
        place -= 1;
        match bytes[place] {
            b'[' => return Some(place),
            b']' => return None,
            _ => {}
        }
    }
    None
}

/// Returns the fault of a text where `body`, the text after the `(` at `place`, does not begin with
/// a custom expression.
fn body_fault(text: &str, place: usize, body: &str) -> Fault
    requires faulty { (reported : List ℕ)
        × IsFaultAt (codes "(" ++ chars body.now) (InvalidRegex reported) }
    requires within { length body.now ≤ length text.now }
    ensures fault { IsBodyFault text.now place (chars body.now) result }
    ensures within { IsFaultIn text.now result }
{
    if let Some(('?' | ')', _)) = split_first(body) {
        return Fault::of_span(Span::at(text, place, 2));
    }
    let open = Span::at(text, place, 1);
    match rejected_at(body) {
        Some((left, len)) => Fault {
            span: Span::at(text, text.len() - left.len(), len),
            earlier: Some(open),
        },
        None => Fault::of_span(open),
    }
}

/// Returns the rest of a body from its first invalid character on, and the number of invalid bytes.
/// `None`: the text ends before the body does.
fn rejected_at(body: &str) -> Option<(&str, usize)>
    requires faulty { (reported : List ℕ)
        × IsFaultAt (codes "(" ++ chars body.now) (InvalidRegex reported) }
    requires unmarked { ¬ BeginsWith (is_among (codes "?)")) (chars body.now) }
    ensures end { IfNone result (IsRegexpStart (chars body.now)) }
    ensures left { IfSome result (λ found.
        IsAfterRegexpStart (chars body.now) (chars found.0.now)) }
    ensures refused { IfSome result (λ found. IsRejectedStart (chars found.0.now) found.1) }
    ensures len { IfSome result (λ found. length found.0.now ≤ length body.now) }
{
    match split_body(body) {
        Ok(_) => None,
        Err(fault) => fault.invalid_bytes,
    }
}
