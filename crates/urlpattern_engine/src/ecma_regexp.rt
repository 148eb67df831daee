//! A stand-in for the engine of a browser, by the crate `regex`.

use regex::Regex;
use std::alloc::Global;
use urlpattern_matcher::regexp::RegExp;
use urlpattern_syntax::RegexSyntax;
use urlpattern_syntax::error::{OutOfMemory, RegExpError};

/// A regular expression in ECMAScript's syntax: its text and its flags, for a browser's own engine.
///
/// The crate `regex` compiles the text once, without the flags, and the value keeps the result. The
/// value matches by that `Regex`, and matches nothing if `regex` rejected the text.
///
/// A pattern whose engine is a browser's, as plain data:
///
/// ```rust plain_pattern
/// let input = StringOrInit::String(CowStr::Borrowed("https://example.com/users/:id"));
/// let init = process_construct_pattern_input(alloc, input, None)?;
/// let options = UrlPatternOptions::default();
/// let users: UrlPattern = parse_pattern::<EcmaRegexp>(alloc, init, options)?;
/// ```
pub struct EcmaRegexp(String, String, Option<Regex>);

impl Drop for EcmaRegexp {
    /// Drops the fields. For an engine that goes out of scope, the prover then handles one call
    /// instead of one for each field.
    fn drop(self) {
        let Self(_text, _rust, _regex) = self;
    }
}

/// A text is rejected only with `force_eval`.
impl RegExp for EcmaRegexp {
    ghost use Rattle.urlpattern_engine.specs.EcmaRegexps.{ecma_engine};

    ghost syntax_of = { ecma_engine.syntax_of };

    ghost IsMade = { ecma_engine.IsMade };

    ghost MayReject = { ecma_engine.MayReject };

    ghost answer = { ecma_engine.answer };

    ghost text_made_of = { ecma_engine.text_made_of };

    ghost case_honoured = { ecma_engine.case_honoured };

    fn syntax() -> RegexSyntax {
        RegexSyntax::EcmaScript
    }

    fn parse(
        alloc: Global,
        pattern: &str,
        flags: &str,
        force_eval: bool,
    ) -> Result<EcmaRegexp, RegExpError> {
        let read = match Regex::parse(alloc, pattern, flags, force_eval) {
            Ok(regex) => Some(regex),
            Err(RegExpError::OutOfMemory) => return Err(RegExpError::OutOfMemory),
            Err(RegExpError::Pattern) if force_eval => return Err(RegExpError::Pattern),
            Err(RegExpError::Pattern) => None,
        };
        let pattern = String::from_str(alloc, pattern)?;
        let flags = String::from_str(alloc, flags)?;
        Ok(EcmaRegexp(pattern, flags, read))
    }

    fn matches<'a>(
        &self,
        alloc: Global,
        text: &'a str,
    ) -> Result<Option<Vec<Option<&'a str>>>, OutOfMemory> {
        match &self.2 {
            Some(regex) => regex.matches(alloc, text),
            None => Ok(None),
        }
    }

    fn pattern_string(&self) -> &str {
        self.0.as_str()
    }

    fn honours_case() -> bool {
        false
    }
}
