//! Generates the matcher of a list of parts.

ghost use Rattle.std.specs.Prelude.{◌≡◌, false, ◌++◌, IfOk, IfSome};
ghost use Rattle.std.specs.Str.{chars};
ghost use Rattle.urlpattern_matcher.specs.Components.{IsEngineOf};
ghost use Rattle.urlpattern_matcher.specs.Matchers.{IfMatcher, StripsFixedSuffix, StripsFixedPrefix, StripsFixedTexts, capture_of, engine_view, literal_view};
ghost use Rattle.urlpattern_meaning.specs.Matching.{ReturnsByMeaning, single_capture_matcher, IsMadeByEngine, IsMadeOf};
ghost use Rattle.urlpattern_syntax.specs.{Errors.OnlyOutOfMemory, Options.options_view, Text.text_of};
ghost use Rattle.urlpattern_syntax.specs.Parts.{part_view, parts_view};
ghost use Rattle.urlpattern_syntax.specs.RegexpText.{is_plain, regexp_text};

use crate::matcher::{InnerMatcher, Matcher};
use crate::regexp::RegExp;
use std::alloc::{AllocError, Global};
use urlpattern_parser::parser::{Options, Part, PartModifier, PartType};
use urlpattern_printing::generate_regular_expression;
use urlpattern_syntax::error::{Error, RegExpError};
use urlpattern_syntax::writing::written;

/// Generates the matcher of the parts `part_list`. A fixed text without modifier at the start of
/// the list begins its prefix, and one at the end ends its suffix; without other parts, the matcher
/// is a literal. `flags` are the flags for an engine.
///
/// An expression that the engine rejects is kept in the matcher as an error. If no part has a
/// custom regular expression and case is kept, the matcher returns what the parts *mean*, for texts
/// without line feeds: captures with which the parts can match the text, one after the other, or
/// `None` if they cannot. An engine that the matcher calls has to follow its regular expression.
/// The only error is that memory ran out.
pub fn generate_matcher<R: RegExp>(
    alloc: Global,
    part_list: &[Part],
    options: &Options,
    flags: &str,
) -> Result<Matcher<R>, Error>
    ensures made { IfMatcher result (IsMadeOf (IsEngineOf R.RegExp false (chars flags.now))
        (options_view options.now) (parts_view part_list.now)) }
    ensures means { IfMatcher result
        (ReturnsByMeaning R.answer (options_view options.now) (parts_view part_list.now)) }
    ensures memory { OnlyOutOfMemory result }
{
    Ok(generate_matcher_with_regexp(alloc, part_list, options, flags, None)?)
}

/// Generates the matcher of the parts `part_list`. `whole` is the regular expression of the parts,
/// if it is already generated.
pub(crate) fn generate_matcher_with_regexp<R: RegExp>(
    alloc: Global,
    part_list: &[Part],
    options: &Options,
    flags: &str,
    whole: Option<&str>,
) -> Result<Matcher<R>, AllocError>
    requires { IfSome whole (λ text.
        chars text.now ≡ regexp_text (options_view options.now) (parts_view part_list.now)) }
    ensures { IfMatcher result (IsMadeOf (IsEngineOf R.RegExp false (chars flags.now))
        (options_view options.now) (parts_view part_list.now)) }
{
    let (prefix, middle, suffix) = strip_fixed_texts(part_list);
    let known = if middle.len() == part_list.len() {
        whole
    } else {
        None
    };
    match middle {
        [] => literal_matcher(alloc, prefix, suffix, options),
        [part] => match capture_of(part, options) {
            Some((filter, allow_empty)) => {
                capture_matcher(alloc, prefix, part, suffix, options, filter, allow_empty)
            }
            None => engine_matcher(alloc, prefix, middle, suffix, options, flags, known),
        },
        _ => engine_matcher(alloc, prefix, middle, suffix, options, flags, known),
    }
}

/// Strips a fixed text without modifier, if there is one, from each end of a list of parts. Returns
/// the text that is stripped from the start, the parts between, and the text that is stripped from
/// the end. A text is empty if nothing is stripped.
fn strip_fixed_texts(part_list: &[Part]) -> (&str, &[Part], &str)
    ensures { StripsFixedTexts (parts_view part_list.now) (chars result.0.now)
        (parts_view result.1.now) (chars result.2.now) }
{
    let (prefix, rest) = strip_fixed_prefix(part_list);
    let (middle, suffix) = strip_fixed_suffix(rest);
    (prefix, middle, suffix)
}

/// Strips a fixed text without modifier, if there is one, from the start of a list of parts.
/// Returns its text, or an empty text, and the other parts.
fn strip_fixed_prefix(part_list: &[Part]) -> (&str, &[Part])
    ensures { StripsFixedPrefix (parts_view part_list.now) (chars result.0.now)
        (parts_view result.1.now) }
{
    match part_list.split_first() {
        Some((first, rest)) if is_plain(first) => (&first.value, rest),
        _ => ("", part_list),
    }
}

/// Strips a fixed text without modifier, if there is one, from the end of a list of parts. Returns
/// the other parts, and the stripped text, or an empty text.
fn strip_fixed_suffix(part_list: &[Part]) -> (&[Part], &str)
    ensures { StripsFixedSuffix (parts_view part_list.now) (parts_view result.0.now)
        (chars result.1.now) }
{
    match part_list.split_last() {
        Some((last, middle)) if is_plain(last) => (middle, &last.value),
        _ => (part_list, ""),
    }
}

/// Whether a part is a fixed text without modifier.
pub fn is_plain(part: &Part) -> bool
    ensures { result ≡ is_plain (part_view part.now) }
{
    part.kind == PartType::FixedText && part.modifier == PartModifier::None
}

/// Returns what a wildcard without modifier captures: a character that the captured text may not
/// contain, if there is one, and whether the text may be empty. `None`: the part is not a wildcard,
/// or has a modifier.
fn capture_of(part: &Part, options: &Options) -> Option<(Option<char>, bool)>
    ensures { result ≡ capture_of (options_view options.now) part.now.kind part.now.modifier }
{
    if part.modifier != PartModifier::None {
        return None;
    }
    match part.kind {
        PartType::FullWildcard => Some((None, true)),
        PartType::SegmentWildcard => Some((options.delimiter_code_point, false)),
        _ => None,
    }
}

/// Returns a matcher of one literal: `prefix` followed by `suffix`.
fn literal_matcher<R>(
    alloc: Global,
    prefix: &str,
    suffix: &str,
    options: &Options,
) -> Result<Matcher<R>, AllocError>
    ensures { IfMatcher result (λ made.
        made ≡ literal_view options.now.ignore_case (chars prefix.now ++ chars suffix.now)) }
{
    Ok(Matcher {
        prefix: String::new(alloc),
        suffix: String::new(alloc),
        inner: InnerMatcher::Literal {
            literal: concatenated(alloc, prefix, suffix)?,
        },
        ignore_case: options.ignore_case,
    })
}

/// Returns a matcher of one capture, that of the wildcard `part`, between two texts: `prefix` with
/// the part's own prefix, and the part's own suffix with `suffix`. The capture may not contain the
/// character `filter`, and may be empty if `allow_empty` is set.
fn capture_matcher<R>(
    alloc: Global,
    prefix: &str,
    part: &Part,
    suffix: &str,
    options: &Options,
    filter: Option<char>,
    allow_empty: bool,
) -> Result<Matcher<R>, AllocError>
    ensures { IfMatcher result (λ made.
        made
        ≡ single_capture_matcher (options_view options.now) (chars prefix.now) (part_view part.now)
        (chars suffix.now) filter allow_empty) }
{
    Ok(Matcher {
        prefix: concatenated(alloc, prefix, &part.prefix)?,
        suffix: concatenated(alloc, &part.suffix, suffix)?,
        inner: InnerMatcher::SingleCapture {
            filter,
            allow_empty,
        },
        ignore_case: options.ignore_case,
    })
}

/// Returns a matcher of the parts `middle`, which an engine matches, between `prefix` and `suffix`.
/// `known` is the regular expression of these parts, if it is already generated.
fn engine_matcher<R: RegExp>(
    alloc: Global,
    prefix: &str,
    middle: &[Part],
    suffix: &str,
    options: &Options,
    flags: &str,
    known: Option<&str>,
) -> Result<Matcher<R>, AllocError>
    requires { IfSome known (λ text.
        chars text.now ≡ regexp_text (options_view options.now) (parts_view middle.now)) }
    ensures { IfMatcher result (IsMadeByEngine (IsEngineOf R.RegExp false (chars flags.now))
        (options_view options.now) (chars prefix.now) (parts_view middle.now) (chars suffix.now)) }
{
    let regexp = match known {
        Some(text) => call_engine(alloc, text, flags, false)?,
        None => {
            let text = generate_regular_expression(alloc, middle, options)?;
            call_engine(alloc, &text, flags, false)?
        }
    };
    Ok(Matcher {
        prefix: String::from_str(alloc, prefix)?,
        suffix: String::from_str(alloc, suffix)?,
        inner: InnerMatcher::RegExp { regexp },
        ignore_case: options.ignore_case,
    })
}

/// Compiles `regexp` by `RegExp::parse`. The inner error is that the engine rejects `regexp`.
fn call_engine<R: RegExp>(
    alloc: Global,
    regexp: &str,
    flags: &str,
    force_eval: bool,
) -> Result<Result<R, Error>, AllocError>
    ensures { IfOk result (λ engine.
        IsEngineOf R.RegExp force_eval (chars flags.now) (chars regexp.now) (engine_view engine)) }
{
    match R::parse(alloc, regexp, flags, force_eval) {
        Ok(engine) => Ok(Ok(engine)),
        Err(RegExpError::Pattern) => Ok(Err(Error::RegExp(()))),
        Err(RegExpError::OutOfMemory) => Err(AllocError),
    }
}

/// Returns `front` followed by `back`.
#[inline(always)]
fn concatenated(alloc: Global, front: &str, back: &str) -> Result<String, AllocError>
    ensures { IfOk result (λ text. text_of text ≡ chars front.now ++ chars back.now) }
{
    if front.is_empty() {
        return String::from_str(alloc, back);
    }
    if back.is_empty() {
        return String::from_str(alloc, front);
    }
    written(alloc, &(front, back))
}
