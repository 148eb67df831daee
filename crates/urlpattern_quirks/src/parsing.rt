//! Patterns for browsers: compiled, and as plain data.
ghost use Rattle.std.specs.Prelude.{◌≡◌, IfErr, IfOk};
ghost use Rattle.urlpattern_compile.specs.Compiled.{IsPatternOfInit, RejectsInit};
ghost use Rattle.urlpattern_pattern.specs.ByText.{ReturnsByItsText, MakesFirstWays};
ghost use Rattle.urlpattern_pattern.specs.KeptParts.{KeepsPartsOf};
ghost use Rattle.urlpattern_pattern.specs.Patterns.{pattern_view, IfPattern};
ghost use Rattle.urlpattern_quirks.specs.Quirks.{IsPlainOf, plain_pattern, IsPlainOfInit};
ghost use Rattle.urlpattern_plain.specs.Values.{pattern_by};
ghost use Rattle.urlpattern_syntax.specs.Errors.{MemoryOr, OnlyOutOfMemory};
ghost use Rattle.urlpattern_syntax.specs.Text.{text_of};

use std::alloc::Global;
use urlpattern_init::UrlPatternInit;
use urlpattern_inputs::UrlPatternOptions;
use urlpattern_matcher::component::Component;
use urlpattern_matcher::regexp::RegExp;
use urlpattern_pattern as pattern;
use urlpattern_plain::{UrlPattern, UrlPatternComponent};
use urlpattern_syntax::Error;

/// Compiles a pattern from an init, and returns it as plain data.
///
/// Fails with the error with which the init is rejected, or with `OutOfMemory`.
pub fn parse_pattern<R: RegExp>(
    alloc: Global,
    init: UrlPatternInit,
    options: UrlPatternOptions,
) -> Result<UrlPattern, Error>
    ensures parsed { IfOk result (IsPlainOfInit R.RegExp init options) }
    ensures refused { IfErr result (MemoryOr (RejectsInit R.RegExp init options)) }
{
    let pattern = pattern::UrlPattern::<R>::parse(alloc, init, options)?;
    plain_pattern(alloc, pattern)
}

/// Compiles a pattern from an init, by `UrlPattern::parse` and with its contract.
///
/// Fails with the error with which the init is rejected, or with `OutOfMemory`.
pub fn parse_pattern_as_lib<R: RegExp>(
    alloc: Global,
    init: UrlPatternInit,
    options: UrlPatternOptions,
) -> Result<pattern::UrlPattern<R>, Error>
    ensures compiled { IfPattern result (IsPatternOfInit R.RegExp init options) }
    ensures kept { IfOk result (KeepsPartsOf R.RegExp init options) }
    ensures by_text { MakesFirstWays R.RegExp
        → IfPattern result (ReturnsByItsText R.answer init options) }
    ensures refused { IfErr result (MemoryOr (RejectsInit R.RegExp init options)) }
{
    pattern::UrlPattern::parse(alloc, init, options)
}

/// Converts a compiled pattern to plain data, in which each engine is replaced by its text.
fn plain_pattern<R: RegExp>(
    alloc: Global,
    pattern: pattern::UrlPattern<R>,
) -> Result<UrlPattern, Error>
    ensures plain { IfOk result (λ plain.
        pattern_by text_of plain ≡ plain_pattern R.text_made_of (pattern_view pattern)) }
    ensures memory { OnlyOutOfMemory result }
{
    let has_regexp_groups = pattern.has_regexp_groups();
    let plain = |component: Component<R>| -> Result<UrlPatternComponent, Error>
        ensures { IsPlainOf R.text_made_of component result }
    { UrlPatternComponent::from_component(alloc, component) };
    let components = pattern.into_eight().try_map(plain)?;
    Ok(UrlPattern::from_eight(components, has_regexp_groups))
}
