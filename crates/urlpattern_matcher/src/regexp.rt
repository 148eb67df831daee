//! Engines of regular expressions.

mod rust;

ghost use Rattle.std.specs.Prelude.{◌≡◌, Bool, true, ℕ, List, Option, Err, IfOk, IsTrue};
ghost use Rattle.std.specs.Str.{chars};
ghost use Rattle.urlpattern_meaning.specs.CaptureTexts.{captures_view};
ghost use Rattle.urlpattern_meaning.specs.GeneratedTexts.{IsGenerated};
ghost use Rattle.urlpattern_meaning.specs.Matching.{ValuesAgreeWithParts};
ghost use Rattle.urlpattern_meaning.specs.PartMeaning.{Captures};
ghost use Rattle.urlpattern_syntax.specs.declared.error.RegExpError.TheVariants.{Pattern};
ghost use Rattle.urlpattern_syntax.specs.declared.parser.RegexSyntax.{RegexSyntax};
ghost use Rattle.urlpattern_syntax.specs.Text.{text_of};

use regex::Regex;
use std::alloc::Global;
use urlpattern_parser::parser::RegexSyntax;
use urlpattern_syntax::error::{OutOfMemory, RegExpError};

/// A regular expression, compiled by an engine.
///
/// The ghost members describe the engine: `syntax_of` is the syntax that it accepts, `IsMade` says
/// which values it may make of an expression and flags, `MayReject` which expressions it may reject
/// with which flags and `force_eval`, `answer` what a value returns for a text, `text_made_of` of
/// which expression a value was made, and `case_honoured` whether the flag `i` is honoured.
pub trait RegExp: Sized + Drop {
    ghost syntax_of: { RegexSyntax };

    ghost IsMade: { Self → (regexp flags : List ℕ) → Type 0 };

    ghost MayReject: { (regexp flags : List ℕ) → (force_eval : Bool) → Type 0 };

    ghost answer: { Self → List ℕ → Option Captures };

    ghost text_made_of: { Self → List ℕ };

    ghost case_honoured: { Bool };

    /// Returns the syntax that the engine accepts. The syntax of generated expressions is that of
    /// the options, whatever this returns. An engine of ECMAScript's syntax that accepts the
    /// expression of a component with a custom one is called again, with `force_eval`.
    fn syntax() -> RegexSyntax
        ensures { result ≡ syntax_of };

    /// Compiles the regular expression `pattern`. In `flags`, `i` says that case is ignored.
    ///
    /// With `force_eval`, an expression that the engine does not accept is rejected at once.
    /// Without `force_eval`, the engine may reject the expression later.
    ///
    /// The error is that the engine rejects the expression, or that memory ran out.
    fn parse(
        alloc: Global,
        pattern: &str,
        flags: &str,
        force_eval: bool,
    ) -> Result<Self, RegExpError>
        ensures made { IfOk result (λ engine. IsMade engine (chars pattern.now) (chars flags.now)) }
        ensures refused { result ≡ Err Pattern
            → MayReject (chars pattern.now) (chars flags.now) force_eval };

    /// Compiles the regular expression `pattern`, as `parse` does, to a value that is kept and
    /// hardly ever matched, so that an engine may put off work until a match. `is_generated` says
    /// that the expression was generated from parts, none of them custom.
    fn parse_to_keep(
        alloc: Global,
        pattern: String,
        flags: &str,
        force_eval: bool,
        is_generated: bool,
    ) -> Result<Self, RegExpError>
        requires { is_generated ≡ true → IsGenerated (text_of pattern) }
        ensures made { IfOk result (λ engine. IsMade engine (text_of pattern) (chars flags.now)) }
        ensures refused { result ≡ Err Pattern
            → MayReject (text_of pattern) (chars flags.now) force_eval }
    {
        Self::parse(alloc, &pattern, flags, force_eval)
    }

    /// Returns what the groups capture of `text`, in order and without the whole match: slices of
    /// `text`, or `None` for a group that took no part. `None` as a whole: `text` does not match.
    fn matches<'a>(
        &self,
        alloc: Global,
        text: &'a str,
    ) -> Result<Option<Vec<Option<&'a str>>>, OutOfMemory>
        ensures { IfOk result (λ found. captures_view found ≡ answer self.now (chars text.now)) };

    /// Returns the regular expression that the value was made of.
    fn pattern_string(&self) -> &str
        ensures { chars result.now ≡ text_made_of self.now };

    /// Whether the engine honours the flag `i`, so that its values ignore case. Comparisons know
    /// nothing of a component that ignores case, and that an engine matches which does not.
    fn honours_case() -> bool
        ensures { result ≡ case_honoured };

    /// Whether each value that was made of the regular expression of parts, none of them custom,
    /// with the flag `u` alone, is known to return what the parts mean: captures with which the
    /// parts can match the text, one after the other, or `None` if they cannot. An engine for which
    /// nothing is known keeps the default, `false`.
    fn agrees_with_parts() -> bool
        ensures { IsTrue result → ValuesAgreeWithParts IsMade answer }
    {
        false
    }
}

/// The engine of the crate `regex`, which ignores flags and compiles each text at once.
///
/// The contract permits any rejection. What is matched and captured is in the contracts of `regex`.
impl RegExp for Regex {
    ghost use Rattle.urlpattern_matcher.specs.Regexes.{regex_engine};

    ghost syntax_of = { regex_engine.syntax_of };

    ghost IsMade = { regex_engine.IsMade };

    ghost MayReject = { regex_engine.MayReject };

    ghost answer = { regex_engine.answer };

    ghost text_made_of = { regex_engine.text_made_of };

    ghost case_honoured = { regex_engine.case_honoured };

    fn syntax() -> RegexSyntax {
        RegexSyntax::Rust
    }

    fn parse(
        alloc: Global,
        pattern: &str,
        _flags: &str,
        _force_eval: bool,
    ) -> Result<Regex, RegExpError> {
        match Regex::new(alloc, pattern) {
            Ok(regex) => Ok(regex),
            Err(regex::Error::OutOfMemory) => Err(RegExpError::OutOfMemory),
            Err(_) => Err(RegExpError::Pattern),
        }
    }

    fn matches<'a>(
        &self,
        alloc: Global,
        text: &'a str,
    ) -> Result<Option<Vec<Option<&'a str>>>, OutOfMemory> {
        let mut matcher = self.matcher(alloc)?;
        match matcher.captures(text) {
            Some(captures) => Ok(Some(rust::groups(alloc, &captures)?)),
            None => Ok(None),
        }
    }

    fn pattern_string(&self) -> &str {
        self.as_str()
    }

    fn honours_case() -> bool {
        false
    }
}
