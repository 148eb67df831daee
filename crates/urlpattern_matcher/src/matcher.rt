//! Matchers of components, which call an engine of regular expressions only where one is needed.

ghost use Rattle.std.specs.Prelude.{◌≡◌, ◌↔◌, [], ℕ, List, IfErr, IfNone, IfOk, IfSome, IsTrue, map, not};
ghost use Rattle.std.specs.{Char.to_ascii_lowercase, Str.chars};
ghost use Rattle.urlpattern_meaning.specs.CaptureTexts.{captures_view};
ghost use Rattle.urlpattern_matcher.specs.Looks.{look_result, NeedsEngine};
ghost use Rattle.urlpattern_matcher.specs.Matchers.{BeginsWithFolded, EndsWithFolded, matcher_view};
ghost use Rattle.urlpattern_meaning.specs.Matching.{Returns, CallsEngine, HasMiddle, IsMatched, IsSame, MayBeEmpty, MayRunOutOfMemory, PassesFilter};
ghost use Rattle.urlpattern_syntax.specs.{Errors.OnlyOutOfMemory, Text.lacks};

mod look;

use crate::regexp::RegExp;
pub use look::Look;
use std::alloc::Global;
use urlpattern_syntax::error::Error;

/// A matcher of texts: a prefix, a suffix, and what is between them.
///
/// From a pattern text to a matcher, with `copied` as the callback that changes nothing:
///
/// ```rust matcher_of
/// let options = Options::pathname(alloc)?;
/// let parts = parse_pattern_string(alloc, "/users", &options, copied)?;
/// let matcher: Matcher<PatternRegexp> = generate_matcher(alloc, &parts, &options, "")?;
/// ```
#[derive(Debug, Drop)]
pub struct Matcher<R> {
    /// The text that a match begins with.
    pub prefix: String,
    /// The text that a match ends with, after the prefix and the text between.
    pub suffix: String,
    /// What is between prefix and suffix.
    pub inner: InnerMatcher<R>,
    /// Whether the case of ASCII letters is ignored in prefix, suffix, literal and filter. An
    /// engine has its own flags.
    pub ignore_case: bool,
}

/// What is between the prefix and the suffix of a text.
///
/// A matcher keeps the error of an expression that was rejected, and then matches nothing.
///
/// ```rust inner
/// match &matcher.inner {
///     InnerMatcher::Literal { literal } => Ok(format!(in alloc; "the text {literal}")?),
///     InnerMatcher::SingleCapture { .. } => Ok(format!(in alloc; "one group")?),
///     InnerMatcher::RegExp { .. } => Ok(format!(in alloc; "an engine")?),
/// }
/// ```
#[derive(Debug, Drop)]
pub enum InnerMatcher<R> {
    /// A literal text.
    Literal {
        /// The text.
        literal: String,
    },
    /// A text that is captured.
    SingleCapture {
        /// A character that the text may not contain.
        filter: Option<char>,
        /// Whether the text may be empty.
        allow_empty: bool,
    },
    /// A text that an engine matches, with its captures. No text matches if an error is kept.
    RegExp {
        /// The engine's value, or the error with which the engine rejected the expression.
        regexp: Result<R, Error>,
    },
}

impl<R: RegExp> Matcher<R> {
    /// Returns what the groups capture of `input`, in order: slices of `input`, with `None` for a
    /// group that took no part. `None` as a whole: `input` does not match.
    ///
    /// A mismatch that is found without an engine does not allocate, nor does a match of a literal.
    pub fn matches<'a>(
        &self,
        alloc: Global,
        input: &'a str,
    ) -> Result<Option<Vec<Option<&'a str>>>, Error>
        ensures answer { IfOk result (λ found.
            Returns R.answer (matcher_view self.now) (chars input.now) (captures_view found)) }
        ensures memory { OnlyOutOfMemory result }
        ensures asked { IfErr result (λ _.
            MayRunOutOfMemory R.answer (matcher_view self.now) (chars input.now)) }
    {
        match self.look(input) {
            None => Ok(None),
            Some(Look::Matched) => Ok(Some(Vec::new(alloc))),
            Some(Look::Captured(text)) => Ok(Some(vec![in alloc; Some(text)]?)),
            Some(Look::Asks { engine, middle }) => Ok(engine.matches(alloc, middle)?),
        }
    }

    /// Whether `input` matches.
    ///
    /// Only an engine allocates.
    pub fn accepts(&self, alloc: Global, input: &str) -> Result<bool, Error>
        ensures answer { IfOk result (λ accepted.
            IsTrue accepted ↔ IsMatched R.answer (matcher_view self.now) (chars input.now)) }
        ensures memory { OnlyOutOfMemory result }
        ensures asked { IfErr result (λ _. CallsEngine (matcher_view self.now) (chars input.now)) }
    {
        match self.look(input) {
            None => Ok(false),
            Some(Look::Matched | Look::Captured(_)) => Ok(true),
            Some(Look::Asks { engine, middle }) => Ok(engine.matches(alloc, middle)?.is_some()),
        }
    }

    /// Matches `input` as far as possible without an engine, and without allocating. `None`:
    /// `input` does not match. `Asks` is returned only if `input` has the prefix and the suffix,
    /// and an engine is between them.
    pub fn look<'m, 'a>(&'m self, input: &'a str) -> Option<Look<'m, 'a, R>>
        ensures answer { Returns R.answer (matcher_view self.now) (chars input.now)
            (look_result R.answer result) }
        ensures asked { IfSome result (λ look.
            NeedsEngine look → CallsEngine (matcher_view self.now) (chars input.now)) }
    {
        let middle = self.middle(input)?;
        match &self.inner {
            InnerMatcher::Literal { literal } => {
                if self.is_same(middle, literal) {
                    Some(Look::Matched)
                } else {
                    None
                }
            }
            InnerMatcher::SingleCapture {
                filter,
                allow_empty,
            } => {
                if self.is_captured(middle, *filter, *allow_empty) {
                    Some(Look::Captured(middle))
                } else {
                    None
                }
            }
            InnerMatcher::RegExp { regexp } => match regexp {
                Ok(engine) => Some(Look::Asks { engine, middle }),
                Err(_) => None,
            },
        }
    }
}

impl<R> Matcher<R> {
    /// Returns what is between the prefix and the suffix of `input`. `None`: `input` does not begin
    /// with the prefix and end with the suffix, or the two overlap.
    fn middle<'a>(&self, input: &'a str) -> Option<&'a str>
        ensures some { IfSome result (λ middle.
            HasMiddle (matcher_view self.now) (chars input.now) (chars middle.now)) }
        ensures none { IfNone result
            ((middle : List ℕ) → ¬ HasMiddle (matcher_view self.now) (chars input.now) middle) }
    {
        if self.has_no_ends() {
            return Some(input);
        }
        if self.ignore_case {
            let rest = strip_prefix_ignoring_case(input, &self.prefix)?;
            strip_suffix_ignoring_case(rest, &self.suffix)
        } else {
            let rest = input.strip_prefix(self.prefix.as_str())?;
            rest.strip_suffix(self.suffix.as_str())
        }
    }

    /// Whether prefix and suffix are empty, so that all of a text is between them.
    fn has_no_ends(&self) -> bool
        ensures prefix { IsTrue result → (matcher_view self.now).prefix ≡ [] }
        ensures suffix { IsTrue result → (matcher_view self.now).suffix ≡ [] }
    {
        self.prefix.is_empty() && self.suffix.is_empty()
    }

    /// Whether `text` equals `literal`, but for the case of ASCII letters if the matcher ignores
    /// case.
    fn is_same(&self, text: &str, literal: &str) -> bool
        ensures { IsTrue result ↔ IsSame self.now.ignore_case (chars text.now) (chars literal.now) }
    {
        if self.ignore_case {
            text.eq_ignore_ascii_case(literal)
        } else {
            text == literal
        }
    }

    /// Whether a single capture accepts `text`: it does not contain the character `filter`, and is
    /// not empty unless `allow_empty` is set.
    fn is_captured(&self, text: &str, filter: Option<char>, allow_empty: bool) -> bool
        ensures { IsTrue result
            ↔ (MayBeEmpty allow_empty (chars text.now)
            × PassesFilter self.now.ignore_case filter (chars text.now)) }
    {
        (allow_empty || !text.is_empty()) && self.passes(text, filter)
    }

    /// Whether `text` does not contain the character `filter`, if there is one. The case of ASCII
    /// letters is ignored if the matcher ignores case.
    fn passes(&self, text: &str, filter: Option<char>) -> bool
        ensures { IsTrue result ↔ PassesFilter self.now.ignore_case filter (chars text.now) }
    {
        match filter {
            None => true,
            Some(c) if self.ignore_case => !has_ignoring_case(text, c),
            Some(c) => !text.contains(c),
        }
    }
}

/// Returns what follows `prefix` in `text`, where the case of ASCII letters is ignored. `None`:
/// `text` does not begin with `prefix`.
fn strip_prefix_ignoring_case<'a>(text: &'a str, prefix: &str) -> Option<&'a str>
    ensures some { IfSome result (λ rest.
        BeginsWithFolded (chars prefix.now) (chars text.now) (chars rest.now)) }
    ensures none { IfNone result
        ((rest : List ℕ) → ¬ BeginsWithFolded (chars prefix.now) (chars text.now) rest) }
{
    let (front, rest) = text.split_at_checked(prefix.len())?;
    front.eq_ignore_ascii_case(prefix).then_some(rest)
}

/// Returns what precedes `suffix` in `text`, where the case of ASCII letters is ignored. `None`:
/// `text` does not end with `suffix`.
fn strip_suffix_ignoring_case<'a>(text: &'a str, suffix: &str) -> Option<&'a str>
    ensures some { IfSome result (λ rest.
        EndsWithFolded (chars suffix.now) (chars text.now) (chars rest.now)) }
    ensures none { IfNone result
        ((rest : List ℕ) → ¬ EndsWithFolded (chars suffix.now) (chars text.now) rest) }
{
    let at = text.len().checked_sub(suffix.len())?;
    let (rest, back) = text.split_at_checked(at)?;
    back.eq_ignore_ascii_case(suffix).then_some(rest)
}

/// Whether `text` contains `c`, where the case of ASCII letters is ignored.
fn has_ignoring_case(text: &str, c: char) -> bool
    ensures { not result ≡ lacks (to_ascii_lowercase c) (map to_ascii_lowercase (chars text.now)) }
{
    text.chars().any(|other| other.eq_ignore_ascii_case(&c))
}
