//! Simple custom expressions: what they match does not depend on the text around them.

ghost use Rattle.std.specs.Prelude.{◌≡◌, ◌↔◌, All, IfOk, IsAscii, IsTrue};
ghost use Rattle.std.specs.List.{list_any};
ghost use Rattle.std.specs.Str.{chars};
ghost use Rattle.urlpattern_expressions.specs.SimpleExpressions.{AreOfAscii, AreSimpleBy, HasAsciiDelimiter, HasAsciiTexts, HasSimpleExpressionBy, KeepsMeaning, KeepsMeaningByCase, begins_uncaptured, has_simple_signs, is_custom_part, is_escapable, is_simple_by, may_follow};
ghost use Rattle.urlpattern_expressions.specs.Expressions.{config_for};
ghost use Rattle.urlpattern_syntax.specs.{ComponentParts.kept_options, ComponentParts.kept_parts, Options.options_view, Parts.part_view, Parts.parts_view, Text.line_feed};

use regex_syntax::{Config, ErrorKind};
use std::alloc::Global;
use urlpattern_syntax::ComponentParts;
use urlpattern_syntax::error::OutOfMemory;
use urlpattern_syntax::parser::{Options, Part, PartType};
use urlpattern_syntax::text::split_first;

/// Whether the parts of a component have a meaning: each custom regular expression is simple
/// (`is_simple`), and case is kept.
///
/// The only error is that memory ran out.
pub fn has_meaning(alloc: Global, component: &ComponentParts) -> Result<bool, OutOfMemory>
    ensures { IfOk result (λ has_meaning. IsTrue has_meaning ↔ KeepsMeaning component.now) }
{
    if component.options.ignore_case {
        return Ok(false);
    }
    are_simple(alloc, &component.parts, false)
}

/// Whether the parts of a component have a meaning over an engine that honours the flag `i`, such
/// as `PatternRegexp`: each custom regular expression is simple (`is_simple`), and if there is one
/// and case is ignored, the delimiter and all texts of the parts are ASCII.
///
/// The only error is that memory ran out.
pub fn has_meaning_by_case(alloc: Global, component: &ComponentParts) -> Result<bool, OutOfMemory>
    ensures { IfOk result (λ has_meaning.
        IsTrue has_meaning ↔ KeepsMeaningByCase component.now) }
{
    let ignores_case = component.options.ignore_case;
    if ignores_case && has_custom(&component.parts) && !is_of_ascii(component) {
        return Ok(false);
    }
    are_simple(alloc, &component.parts, ignores_case)
}

/// Whether at least one of `parts` is a custom regular expression.
pub fn has_custom(parts: &[Part]) -> bool
    ensures { result ≡ list_any is_custom_part parts.now }
{
    parts.iter().any(|part| is_custom(part))
}

/// Whether the part is a custom regular expression.
pub fn is_custom(part: &Part) -> bool
    ensures { result ≡ is_custom_part part.now }
{
    matches!(part.kind, PartType::Regexp)
}

/// Whether the delimiter and all texts of the parts are ASCII.
fn is_of_ascii(component: &ComponentParts) -> bool
    ensures { IsTrue result ↔ AreOfAscii (kept_options component.now) (kept_parts component.now) }
{
    has_ascii_delimiter(&component.options) && have_ascii_texts(&component.parts)
}

/// Whether the delimiter, if there is one, is ASCII.
fn has_ascii_delimiter(options: &Options) -> bool
    ensures { IsTrue result ↔ HasAsciiDelimiter (options_view options.now) }
{
    match options.delimiter_code_point {
        Some(delimiter) => delimiter.is_ascii(),
        None => true,
    }
}

/// Whether all texts of `parts` are ASCII.
fn have_ascii_texts(parts: &[Part]) -> bool
    ensures { IsTrue result ↔ All HasAsciiTexts (parts_view parts.now) }
{
    for part in parts {
        if !has_ascii_texts(part) {
            return false;
        }
    }
    true
}

/// Whether the texts of the part are ASCII.
fn has_ascii_texts(part: &Part) -> bool
    ensures { IsTrue result ↔ HasAsciiTexts (part_view part.now) }
{
    is_ascii(&part.value) && is_ascii(&part.prefix) && is_ascii(&part.suffix)
}

/// Whether each character of the text is ASCII.
fn is_ascii(text: &str) -> bool
    ensures { IsTrue result ↔ IsAscii (chars text.now) }
{
    text.is_ascii()
}

/// Whether each custom expression of `parts` is simple, with case ignored or kept.
///
/// The only error is that memory ran out.
pub fn are_simple(alloc: Global, parts: &[Part], ignore_case: bool) -> Result<bool, OutOfMemory>
    ensures { IfOk result (λ are_simple.
        IsTrue are_simple ↔ AreSimpleBy ignore_case (parts_view parts.now)) }
{
    for part in parts {
        if !has_simple_expression(alloc, part, ignore_case)? {
            return Ok(false);
        }
    }
    Ok(true)
}

/// Whether the part is not custom, or its expression is simple, with case ignored or kept.
fn has_simple_expression(alloc: Global, part: &Part, ignore_case: bool) -> Result<bool, OutOfMemory>
    ensures { IfOk result (λ is_simple.
        IsTrue is_simple
        ↔ HasSimpleExpressionBy ignore_case part.now.kind (part_view part.now).value) }
{
    match part.kind {
        PartType::Regexp => is_simple(alloc, &part.value, ignore_case),
        _ => Ok(true),
    }
}

/// Whether a custom regular expression is *simple*: what it matches does not depend on the text
/// around it, and it has no group that captures.
///
/// A simple expression is ASCII text that the grammar of `regex` accepts, such as `\d+`, `en|fr`,
/// `[^/]+` or `(?:a|b){2}`. It has no assertion, no flag and no `#`: `^` is only at the start of a
/// class in brackets, and a backslash only before a letter of `dDsSwW`, or before a sign other than
/// `\`, `[`, `<`, `>` and `#`.
///
/// If case is ignored, the grammar reads it with the flag `i`.
///
/// The only error is that memory ran out.
pub fn is_simple(alloc: Global, expression: &str, ignore_case: bool) -> Result<bool, OutOfMemory>
    ensures { IfOk result (λ simple. simple ≡ is_simple_by ignore_case (chars expression.now)) }
{
    if !has_simple_signs(expression) {
        return Ok(false);
    }
    match regex_syntax::parse(alloc, expression, &config_for(ignore_case)) {
        Ok(parsed) => {
            drop(parsed);
            Ok(true)
        }
        Err(error) => match error.kind {
            ErrorKind::OutOfMemory => Err(OutOfMemory),
            _ => Ok(false),
        },
    }
}

/// The default options of `regex_syntax`, except that case may be ignored.
pub fn config_for(ignore_case: bool) -> Config
    ensures { result ≡ config_for ignore_case }
{
    let mut config = Config::default();
    config.flags.case_insensitive = ignore_case;
    config
}

/// Whether each character of a simple expression may stand after the one before it.
fn has_simple_signs(expression: &str) -> bool
    ensures { result ≡ has_simple_signs line_feed (chars expression.now) }
{
    let mut before = '\n';
    let mut rest = expression;
    while let Some((first, after)) = split_first(rest) {
        if !may_follow(before, first, after) {
            return false;
        }
        before = first;
        rest = after;
    }
    true
}

/// Whether `c`, after which `rest` follows, may stand after the character `before`.
fn may_follow(before: char, c: char, rest: &str) -> bool
    ensures { result ≡ may_follow before c (chars rest.now) }
{
    match (before, c) {
        ('\\', _) => is_escapable(c),
        (_, '^') => before == '[',
        (_, '(') => begins_uncaptured(rest),
        _ => c.is_ascii() && !matches!(c, '$' | '#'),
    }
}

/// Whether `c` may stand after a backslash.
fn is_escapable(c: char) -> bool
    ensures { result ≡ is_escapable c }
{
    matches!(
        c,
        'd' | 'D'
            | 's'
            | 'S'
            | 'w'
            | 'W'
            | '!'
            | '"'
            | '$'
            | '%'
            | '&'
            | '\''
            | '('
            | ')'
            | '*'
            | '+'
            | ','
            | '-'
            | '.'
            | '/'
            | ':'
            | ';'
            | '='
            | '?'
            | '@'
            | ']'
            | '^'
            | '_'
            | '`'
            | '{'
            | '|'
            | '}'
            | '~'
    )
}

/// Whether the text begins with `?:`, as a group does that captures nothing.
fn begins_uncaptured(text: &str) -> bool
    ensures { result ≡ begins_uncaptured (chars text.now) }
{
    match split_first(text) {
        Some(('?', rest)) => matches!(split_first(rest), Some((':', _))),
        _ => false,
    }
}
