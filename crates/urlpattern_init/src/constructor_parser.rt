//! Splits a constructor string, the pattern of a whole URL, into the patterns of its components.
//!
//! <https://urlpattern.spec.whatwg.org/#constructor-string-parsing>

ghost use Rattle.std.specs.Prelude.{◌≡◌, IfErr, IfNone, IfOk, IfSome, ◌*◌, ◌≤◌, length};
ghost use Rattle.std.specs.Str.{chars};
ghost use Rattle.urlpattern_init.specs.ConstructorString.{AreFewTurns, HasProtocolOrBase, IsSplitOf, RejectsString, SplitsAt, SplitsInto};
ghost use Rattle.urlpattern_components.specs.Eight.{at};
ghost use Rattle.urlpattern_init.specs.Inheritance.{values_view};
ghost use Rattle.urlpattern_init.specs.SpecialProtocol.{IsKnownProtocol, IsSpecialTo, RejectsProtocol};
ghost use Rattle.urlpattern_constructor.specs.Split.{HasProtocol, LacksProtocol};
ghost use Rattle.urlpattern_constructor.specs.Splitting.{HasComponentsAt, IsOwned, IsSource, split_text_view, split_texts, text_of_source, values_of_split};
ghost use Rattle.urlpattern_syntax.specs.Errors.{MemoryOr, OnlyOutOfMemory};
ghost use Rattle.urlpattern_syntax.specs.Text.{option_text};

mod special_protocol;

use crate::init::UrlPatternInit;
pub use special_protocol::accepts_special_scheme;
use special_protocol::is_special_protocol;
use std::alloc::Global;
use url::Url;
use urlpattern_components::{ComponentName, Eight};
use urlpattern_constructor::{Position, Section, Source, Split, SplitText};
use urlpattern_matcher::component::ComponentWithParts;
use urlpattern_matcher::regexp::RegExp;
use urlpattern_parser::tokenizer::{TokenizePolicy, tokenize};
use urlpattern_syntax::Error;

impl UrlPatternInit {
    /// Splits a constructor string, the pattern of a whole URL, into the patterns of its
    /// components, and puts `base_url` beside them in the init.
    ///
    /// Fails with the error of the protocol's pattern, with `BaseUrlRequired` if the string has no
    /// protocol and `base_url` is `None`, or with `OutOfMemory`.
    ///
    /// <https://urlpattern.spec.whatwg.org/#parse-a-constructor-string>
    pub fn parse_constructor_string<R: RegExp>(
        alloc: Global,
        pattern: &str,
        base_url: Option<Url>,
    ) -> Result<UrlPatternInit, Error>
        ensures split { IfOk result (λ init.
            SplitsInto (IsSpecialTo R.RegExp) (chars pattern.now) (values_view init)) }
        ensures base { IfOk result (λ init. init.base_url ≡ base_url) }
        ensures complete { IfOk result HasProtocolOrBase }
        ensures refused { IfErr result (MemoryOr (RejectsString (chars pattern.now) base_url)) }
    {
        let (init, _) = Self::parse_constructor_string_counted::<R>(alloc, pattern, base_url)?;
        Ok(init)
    }

    /// Splits a constructor string like `parse_constructor_string`, and also returns the number of
    /// turns: how many times the parser looked at a token.
    pub fn parse_constructor_string_counted<R: RegExp>(
        alloc: Global,
        pattern: &str,
        base_url: Option<Url>,
    ) -> Result<(UrlPatternInit, usize), Error>
        ensures split { IfOk result (λ found.
            SplitsInto (IsSpecialTo R.RegExp) (chars pattern.now) (values_view found.0)) }
        ensures turns { IfOk result (λ found. AreFewTurns (chars pattern.now) found.1) }
        ensures base { IfOk result (λ found. found.0.base_url ≡ base_url) }
        ensures complete { IfOk result (λ found. HasProtocolOrBase found.0) }
        ensures refused { IfErr result (MemoryOr (RejectsString (chars pattern.now) base_url)) }
    {
        let (init, turns, _, _) = Self::parse_constructor_string_keeping::<R>(
            alloc, pattern, base_url, false,
        )?;
        Ok((init, turns))
    }

    /// Splits a constructor string like `parse_constructor_string`, and also returns the byte at
    /// which the string has each component. `None`: the string lacks the component, or implies it.
    pub fn parse_constructor_string_with_starts<R: RegExp>(
        alloc: Global,
        pattern: &str,
        base_url: Option<Url>,
    ) -> Result<(UrlPatternInit, Eight<Option<usize>>), Error>
        ensures split { IfOk result (λ found.
            SplitsAt (IsSpecialTo R.RegExp) (chars pattern.now) (values_view found.0) found.1) }
        ensures there { IfOk result (λ found.
            HasComponentsAt (chars pattern.now) (values_view found.0) found.1) }
        ensures base { IfOk result (λ found. found.0.base_url ≡ base_url) }
        ensures complete { IfOk result (λ found. HasProtocolOrBase found.0) }
        ensures refused { IfErr result (MemoryOr (RejectsString (chars pattern.now) base_url)) }
    {
        let (init, _, _, starts) = Self::parse_constructor_string_keeping::<R>(
            alloc, pattern, base_url, false,
        )?;
        Ok((init, starts))
    }

    /// Splits a constructor string like `parse_constructor_string_counted`. If `keeps`, the third
    /// value is the text of the protocol and its component, compiled under the default options,
    /// which a caller need not compile again. `None`: `keeps` is `false`, or the string has no
    /// protocol. The last value is the byte at which the string has each component. `None`: the
    /// string lacks the component, or implies it.
    pub fn parse_constructor_string_keeping<'a, R: RegExp>(
        alloc: Global,
        pattern: &'a str,
        base_url: Option<Url>,
        keeps: bool,
    ) -> Result<
        (
            UrlPatternInit,
            usize,
            Option<(&'a str, ComponentWithParts<R>)>,
            Eight<Option<usize>>,
        ),
        Error,
    >
        ensures split { IfOk result (λ found.
            SplitsAt (IsSpecialTo R.RegExp) (chars pattern.now) (values_view found.0) found.3) }
        ensures there { IfOk result (λ found.
            HasComponentsAt (chars pattern.now) (values_view found.0) found.3) }
        ensures turns { IfOk result (λ found. AreFewTurns (chars pattern.now) found.1) }
        ensures base { IfOk result (λ found. found.0.base_url ≡ base_url) }
        ensures complete { IfOk result (λ found. HasProtocolOrBase found.0) }
        ensures known { IfOk result (λ found. IfSome found.2 (IsKnownProtocol R.RegExp)) }
        ensures refused { IfErr result (MemoryOr (RejectsString (chars pattern.now) base_url)) }
    {
        let tokens = tokenize(alloc, pattern, TokenizePolicy::Lenient)?;
        let source = Source {
            input: pattern,
            tokens: &tokens,
        };
        let (split, known) = split::<R>(alloc, &source, keeps)?;
        if split.values.protocol.is_none() && base_url.is_none() {
            return Err(Error::BaseUrlRequired);
        }
        let init = to_init(alloc, &split, base_url)?;
        let starts = split.starts();
        Ok((init, split.turns, known, starts))
    }
}

/// Returns the pattern of the protocol in a constructor string, with where it begins: the text
/// before the colon that ends the protocol. `None`: the string has no protocol.
pub fn protocol_of(alloc: Global, pattern: &str) -> Result<Option<SplitText<'_>>, Error>
    ensures protocol { IfOk result (λ found. IfSome found (λ protocol.
        HasProtocol (chars pattern.now) (λ text. text ≡ split_text_view protocol))) }
    ensures lacks { IfOk result (λ found. IfNone found (LacksProtocol (chars pattern.now))) }
    ensures memory { OnlyOutOfMemory result }
{
    let tokens = tokenize(alloc, pattern, TokenizePolicy::Lenient)?;
    let source = Source {
        input: pattern,
        tokens: &tokens,
    };
    let start = Position {
        index: 0,
        depth: 0,
        turns: 0,
    };
    let end = source.end_of(Section::Protocol, start);
    if source.is_non_special_pattern_char(end.index, b':') {
        Ok(Some(source.split_text(0, end.index)))
    } else {
        Ok(None)
    }
}

/// Splits a constructor string, given with its tokens: finds the protocol, decides whether a
/// protocol that is found is special, and cuts the components accordingly.
///
/// If `keeps`, the second value is the text of the protocol and its compiled component. `None`:
/// `keeps` is `false`, or the string has no protocol.
///
/// Fails with the error of the protocol's pattern, or with `OutOfMemory`.
fn split<'a, R: RegExp>(
    alloc: Global,
    source: &Source<'_, 'a>,
    keeps: bool,
) -> Result<(Split<'a>, Option<(&'a str, ComponentWithParts<R>)>), Error>
    requires { IsSource source.now }
    ensures split { IfOk result (λ found. IsSplitOf (IsSpecialTo R.RegExp) source.now found.0) }
    ensures turns { IfOk result (λ found. found.0.turns ≤ 2 * length source.now.tokens.now) }
    ensures known { IfOk result (λ found. IfSome found.1 (IsKnownProtocol R.RegExp)) }
    ensures refused { IfErr result (MemoryOr (λ error.
        HasProtocol (text_of_source source.now) (λ protocol.
        RejectsProtocol protocol.text error))) }
{
    let start = Position {
        index: 0,
        depth: 0,
        turns: 0,
    };
    let end = source.end_of(Section::Protocol, start);
    if !source.is_non_special_pattern_char(end.index, b':') {
        return Ok((source.relative(end), None));
    }
    let back = Position { index: 0, ..end };
    let colon = source.end_of(Section::Protocol, back);
    let protocol = source.split_text(0, colon.index);
    let (special, known) = is_special_protocol::<R>(alloc, protocol.text, keeps)?;
    Ok((source.absolute(colon, protocol, special), known))
}

/// Creates an init from owned copies of the components of a split, and a base URL.
fn to_init(alloc: Global, split: &Split<'_>, base_url: Option<Url>) -> Result<UrlPatternInit, Error>
    ensures components { IfOk result (λ init.
        values_view init ≡ values_of_split (split_texts split.now)) }
    ensures base { IfOk result (λ init. init.base_url ≡ base_url) }
    ensures memory { OnlyOutOfMemory result }
{
    let value = |name: ComponentName| -> Result<Option<String>, Error>
        ensures { IsOwned (at (values_of_split (split_texts split.entry.now)) name) result }
    { owned(alloc, split.text(name)) };
    let values = Eight::try_from_fn(value)?;
    Ok(UrlPatternInit::from_eight(values, base_url))
}

/// Returns an owned copy of a text, and `None` for `None`.
fn owned(alloc: Global, text: Option<&str>) -> Result<Option<String>, Error>
    ensures { IsOwned (option_text text.entry) result }
{
    match text {
        Some(text) => Ok(Some(String::from_str(alloc, text)?)),
        None => Ok(None),
    }
}
