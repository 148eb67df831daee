//! The engine `PatternRegexp`.

ghost use Rattle.std.specs.Prelude.{◌≡◌, true};
ghost use Rattle.std.specs.Str.{chars};
ghost use Rattle.urlpattern_matcher.specs.Components.{ignores_case};
ghost use Rattle.urlpattern_engine.specs.PatternRegexps.{HasNumbers, pattern_engine};

use crate::strategy::Strategy;
use std::alloc::{AllocError, Global};
use urlpattern_copies::CloneRegExp;
use urlpattern_matcher::regexp::RegExp;
use urlpattern_syntax::RegexSyntax;
use urlpattern_syntax::error::{OutOfMemory, RegExpError};

/// An engine that returns what `regex::Regex` returns, if case is kept.
///
/// An expression of the form that parts generate is matched by its own steps. Any other that
/// matches only at the start of a text, as those of patterns do, is matched by an automaton. A
/// `regex::Regex` matches the rest. One is also made for each match of a text of 1,024 bytes or
/// more, in place of the automaton, and for each match by an expression of another form that is
/// only kept.
///
/// A copy of a value shares what was compiled, so that nothing is compiled again.
///
/// A type alias names the engine once:
///
/// ```rust own_engine
/// type Pattern = UrlPattern<PatternRegexp>;
///
/// /// Compiles a constructor string.
/// fn pattern(alloc: Global, text: &str) -> Result<Pattern, Error> {
///     Pattern::from_constructor_string(alloc, text, None, UrlPatternOptions::default())
/// }
/// ```
pub struct PatternRegexp {
    strategy: Strategy,
    /// Whether the case of letters is ignored.
    ignore_case: bool,
}

impl Drop for PatternRegexp {
    /// Drops the fields. For an engine that goes out of scope, the prover then handles one call
    /// instead of one for each kind of expression.
    #[inline(always)]
    fn drop(self) {
        let Self {
            strategy: _strategy,
            ignore_case: _,
        } = self;
    }
}

/// Case is ignored if the flags have an `i`; other flags, and `force_eval`, have no effect. An
/// expression that is generated from parts without custom ones is never rejected; others are
/// rejected only if the grammar of `regex` does not read them, or if they are nested too deep or
/// too large. For an expression of more than 2³² bytes, `OutOfMemory` is returned.
///
/// With case ignored, steps compare ASCII letters by their lower case and other characters exactly;
/// the crate `regex` ignores case by Unicode.
impl RegExp for PatternRegexp {
    ghost syntax_of = { pattern_engine.syntax_of };

    ghost IsMade = { pattern_engine.IsMade };

    ghost MayReject = { pattern_engine.MayReject };

    ghost answer = { pattern_engine.answer };

    ghost text_made_of = { pattern_engine.text_made_of };

    ghost case_honoured = { pattern_engine.case_honoured };

    fn syntax() -> RegexSyntax {
        RegexSyntax::Rust
    }

    fn parse(
        alloc: Global,
        pattern: &str,
        flags: &str,
        _force_eval: bool,
    ) -> Result<PatternRegexp, RegExpError> {
        if !is_short(pattern) {
            return Err(RegExpError::OutOfMemory);
        }
        let ignore_case = ignores_case(flags);
        let strategy = Strategy::to_match(alloc, pattern, ignore_case)?;
        Ok(PatternRegexp {
            strategy,
            ignore_case,
        })
    }

    fn parse_to_keep(
        alloc: Global,
        pattern: String,
        flags: &str,
        _force_eval: bool,
        is_generated: bool,
    ) -> Result<PatternRegexp, RegExpError> {
        if !is_short(&pattern) {
            return Err(RegExpError::OutOfMemory);
        }
        let ignore_case = ignores_case(flags);
        let strategy = Strategy::to_keep(alloc, pattern, ignore_case, is_generated)?;
        Ok(PatternRegexp {
            strategy,
            ignore_case,
        })
    }

    fn matches<'a>(
        &self,
        alloc: Global,
        text: &'a str,
    ) -> Result<Option<Vec<Option<&'a str>>>, OutOfMemory> {
        self.strategy.matches(alloc, self.ignore_case, text)
    }

    fn pattern_string(&self) -> &str {
        self.strategy.pattern_string()
    }

    fn honours_case() -> bool {
        true
    }

    fn agrees_with_parts() -> bool {
        true
    }
}

/// A copy is equal to the value, and shares what was compiled.
impl Clone for PatternRegexp {
    ghost is_clone = { λ value copy. copy ≡ value };

    fn clone(&self) -> Result<PatternRegexp, AllocError> {
        Ok(PatternRegexp {
            strategy: self.strategy.clone()?,
            ignore_case: self.ignore_case,
        })
    }
}

impl CloneRegExp for PatternRegexp {
    ghost clones_are_equal = { λ value copy equal. equal };
}

/// The greatest length in bytes of an expression: the number of groups that the grammar of `regex`
/// can count.
const LENGTH_LIMIT: usize = 1 << 32;

/// Whether an expression has at most `LENGTH_LIMIT` bytes.
fn is_short(pattern: &str) -> bool
    ensures { result ≡ true → HasNumbers (chars pattern.now) }
{
    pattern.len() <= LENGTH_LIMIT
}

/// Whether the flags have an `i`.
fn ignores_case(flags: &str) -> bool
    ensures { result ≡ ignores_case (chars flags.now) }
{
    flags.chars().any(|flag| flag == 'i')
}
