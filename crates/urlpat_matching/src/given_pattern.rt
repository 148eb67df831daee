//! Patterns as the arguments of a command give them, and how they are compiled.

ghost use Rattle.std.specs.Prelude.{◌≡◌, option_copied, IfErr, IfOk, Ok};
ghost use Rattle.urlpat_matching.specs.GivenPatterns.{IsCopyOf, IsInitOf, IsPatternGiven, IsPatternOfPlain, KeepsPartsGiven, KeepsPartsOfPlain, RejectsGiven, RejectsPlain, own_base, plain_values};
ghost use Rattle.urlpattern_canonical.specs.BaseUrls.{parsed_base, text_bytes};
ghost use Rattle.urlpattern_canonical.specs.Canonical.{Reports};
ghost use Rattle.urlpattern_components.specs.Eight.{at};
ghost use Rattle.urlpattern_init.specs.Inheritance.{values_view};
ghost use Rattle.urlpattern_pattern.specs.Patterns.{pattern_view};
ghost use Rattle.urlpattern_syntax.specs.Errors.{MemoryOr, OnlyOutOfMemory};
ghost use Rattle.urlpattern_syntax.specs.Text.{option_text};

use std::alloc::{AllocError, Global};
use url::Url;
use urlpattern_canonical::parse_base;
use urlpattern_components::{ComponentName, Eight};
use urlpattern_engine::PatternRegexp;
use urlpattern_init as init;
use urlpattern_inputs::{UrlPatternInit, UrlPatternOptions};
use urlpattern_pattern::UrlPattern;
use urlpattern_syntax::{Error, RegexSyntax};

/// A pattern, as the arguments of a command give it.
#[derive(Clone, Copy, Debug)]
pub enum GivenPattern<'m, 'w> {
    /// A constructor string.
    Text(&'w str),
    /// An init, which has the patterns of components.
    Init(&'m UrlPatternInit),
}

/// Compiles a pattern with the engine `PatternRegexp`, under a base URL if there is one. For an
/// init that has a base URL, that one is taken.
///
/// The error is the one with which the pattern or its base is rejected, or that memory ran out.
pub fn compiled(
    alloc: Global,
    pattern: GivenPattern<'_, '_>,
    base: Option<&str>,
    ignore_case: bool,
) -> Result<UrlPattern<PatternRegexp>, Error>
    ensures compiled { IfOk result (λ compiled. IsPatternGiven ignore_case pattern.entry
        (option_copied base.entry) (pattern_view compiled)) }
    ensures kept { IfOk result
        (KeepsPartsGiven ignore_case pattern.entry (option_copied base.entry)) }
    ensures refused { IfErr result
        (MemoryOr (RejectsGiven ignore_case pattern.entry (option_copied base.entry))) }
{
    match pattern {
        GivenPattern::Text(text) => {
            let options = UrlPatternOptions {
                regex_syntax: RegexSyntax::Rust,
                ignore_case,
            };
            UrlPattern::from_constructor_string(alloc, text, base, options)
        }
        GivenPattern::Init(plain) => compiled_init(alloc, plain, base, ignore_case),
    }
}

/// Compiles an init as `compiled` does.
fn compiled_init(
    alloc: Global,
    plain: &UrlPatternInit,
    base: Option<&str>,
    ignore_case: bool,
) -> Result<UrlPattern<PatternRegexp>, Error>
    ensures compiled { IfOk result (λ compiled.
        IsPatternOfPlain ignore_case plain.now (option_copied base.entry) (pattern_view compiled)) }
    ensures kept { IfOk result
        (KeepsPartsOfPlain ignore_case plain.now (option_copied base.entry)) }
    ensures refused { IfErr result
        (MemoryOr (RejectsPlain ignore_case plain.now (option_copied base.entry))) }
{
    let init = init_of(alloc, plain, base)?;
    let options = UrlPatternOptions {
        regex_syntax: RegexSyntax::Rust,
        ignore_case,
    };
    UrlPattern::parse(alloc, init, options)
}

/// Copies an init, with its base URL parsed: its own, or else `base`.
///
/// The error is the one with which `url` rejects the base URL, or that memory ran out.
pub fn init_of(
    alloc: Global,
    plain: &UrlPatternInit,
    base: Option<&str>,
) -> Result<init::UrlPatternInit, Error>
    ensures init { IfOk result (IsInitOf plain.now (option_copied base.entry)) }
    ensures refused { IfErr result
        (MemoryOr (Reports (parsed_base (own_base plain.now (option_copied base.entry)))
        (text_bytes (own_base plain.now (option_copied base.entry))))) }
{
    let base_url = base_of(alloc, plain, base)?;
    let copy = copied(alloc, plain, base_url)?;
    Ok(copy)
}

/// Parses the base URL of an init: its own, or else `base`.
fn base_of(alloc: Global, plain: &UrlPatternInit, base: Option<&str>) -> Result<Option<Url>, Error>
    ensures ok { IfOk result (λ url.
        parsed_base (own_base plain.now (option_copied base.entry)) ≡ Ok url) }
    ensures err { IfErr result
        (MemoryOr (Reports (parsed_base (own_base plain.now (option_copied base.entry)))
        (text_bytes (own_base plain.now (option_copied base.entry))))) }
{
    match plain.base_url.as_deref() {
        Some(own) => parse_base(alloc, Some(own)),
        None => parse_base(alloc, base),
    }
}

/// Copies the texts of an init to one with this parsed base URL.
fn copied(
    alloc: Global,
    plain: &UrlPatternInit,
    base_url: Option<Url>,
) -> Result<init::UrlPatternInit, Error>
    ensures texts { IfOk result (λ copy. values_view copy ≡ plain_values plain.now) }
    ensures base { IfOk result (λ copy. copy.base_url ≡ base_url) }
    ensures memory { OnlyOutOfMemory result }
{
    let text = |name: ComponentName| -> Result<Option<String>, AllocError>
        ensures { IsCopyOf (at (plain_values plain.entry.now) name) result }
    { owned(alloc, plain.get(name)) };
    let texts = Eight::try_from_fn(text)?;
    Ok(init::UrlPatternInit::from_eight(texts, base_url))
}

/// Copies a text, if there is one.
fn owned(alloc: Global, text: Option<&str>) -> Result<Option<String>, AllocError>
    ensures { IsCopyOf (option_text text.entry) result }
{
    match text {
        Some(text) => Ok(Some(String::from_str(alloc, text)?)),
        None => Ok(None),
    }
}
