//! The init of a pattern that is given, and where its texts are.

ghost use Rattle.std.specs.Prelude.{◌≡◌, option_copied, IfOk, None};
ghost use Rattle.urlpat_explain.specs.Explained.{IsInitAt, IsInitOfTextAt};
ghost use Rattle.urlpattern_components.specs.Eight.{at};
ghost use Rattle.urlpattern_components.specs.declared.eight.ComponentName.{ComponentName};

use crate::explained::text_places;
use std::alloc::Global;
use urlpat_matching::{GivenPattern, init_of};
use urlpattern_canonical::parse_base;
use urlpattern_components::{ComponentName, Eight};
use urlpattern_diagnosis::Span;
use urlpattern_engine::PatternRegexp;
use urlpattern_init::UrlPatternInit;
use urlpattern_syntax::Error;

/// Returns the init of a pattern, and the places of its texts in the constructor string, if there
/// is one.
///
/// The error is the one with which the string or the base is rejected, or that memory ran out.
pub fn given_init(
    alloc: Global,
    pattern: GivenPattern<'_, '_>,
    base: Option<&str>,
) -> Result<(UrlPatternInit, Eight<Option<Span>>), Error>
    ensures { IfOk result (λ found.
        IsInitAt pattern.entry (option_copied base.entry) found.0 found.1) }
{
    match pattern {
        GivenPattern::Text(text) => init_of_text(alloc, text, base),
        GivenPattern::Init(plain) => Ok((init_of(alloc, plain, base)?, no_places())),
    }
}

/// The places of no texts.
fn no_places() -> Eight<Option<Span>>
    ensures { (name : ComponentName) → at result name ≡ None }
{
    let no_place = |_name: ComponentName| -> Option<Span>
        ensures { result ≡ None }
    { None };
    Eight::from_fn(no_place)
}

/// Parses a constructor string to an init, and returns the places of the init's texts in the
/// string.
fn init_of_text(
    alloc: Global,
    text: &str,
    base: Option<&str>,
) -> Result<(UrlPatternInit, Eight<Option<Span>>), Error>
    ensures { IfOk result (λ found.
        IsInitOfTextAt text.now (option_copied base.entry) found.0 found.1) }
{
    let base = parse_base(alloc, base)?;
    let (init, starts) = UrlPatternInit::parse_constructor_string_with_starts::<PatternRegexp>(
        alloc, text, base,
    )?;
    let places = text_places(text, &init, &starts);
    Ok((init, places))
}
