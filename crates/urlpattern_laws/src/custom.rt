//! Laws on custom regular expressions: what they match and capture, and that the engines
//! `PatternRegexp` and `regex::Regex`, and matchers over these, return it.
//!
//! A *way* is one way in which parts match the start of a text. Ways are in the order in which a
//! backtracking engine tries them; the *first way* is the first that matches the whole text.
//!
//! Each function has an empty body; its contract is a theorem.

ghost use Rattle.std.specs.Prelude.{⊤};
ghost use Rattle.urlpattern_matcher.specs.Regexes.{regex_engine};
ghost use Rattle.urlpattern_matcher.specs.FirstWays.{KeepsCase};
ghost use Rattle.urlpattern_laws.specs.LawsOfTexts.{CapturesAreAsNames, ComponentsCapture, MatchersReturnIfMatched, MatchersCapture, PartsCaptureMeanings, PartsMatchMeanings, ReadsInGroups, ValuesReturnIfMatched, ValuesCapture};
ghost use Rattle.urlpattern_laws.specs.LawsOfWays.{ComponentsReturnFirstOfParts, FirstWaysAreCaptured, FirstWaysAreOfEitherCase, FirstWaysAreOfTrees, MatchersReturnFirstOfParts, ValuesReturnFirstByFlags, ValuesReturnFirstOfParts};
ghost use Rattle.urlpattern_laws.specs.OwnGroups.{ComponentsCaptureByGroups};
ghost use Rattle.urlpattern_engine.specs.PatternRegexps.{pattern_engine};
ghost use Rattle.urlpattern_pattern.specs.ByText.{AcceptedAlone};
ghost use Rattle.urlpattern_meaning.specs.FirstResults.{AcceptedText};

/// The grammar of the crate `regex` composes. In a group, with any text before and after, it reads
/// an expression that stands alone up to the closing parenthesis, and what it reads matches the
/// texts that the expression matches by itself. Where it reads nothing, as for a group name that
/// occurs before, it rejects the longer expression.
///
/// An expression stands alone if the grammar reads it by itself, without assertions and byte
/// classes, and if it has no `#`, which begins a comment under the flag `x`.
#[tactic(auto, using(crate::proofs::CustomLaws::reads_in_groups))]
pub fn expressions_are_read_in_groups()
    ensures { ReadsInGroups }
{}

/// Parts without a custom one match (`PartsMatch`) exactly the texts that they mean (`PartsMean`),
/// and have there (`PartsCapture`) exactly the captures that they mean.
#[tactic(auto, using(crate::proofs::MatchersCapture::parts_capture_meanings, crate::proofs::TakenMeanings::parts_take_meanings))]
pub fn parts_take_the_texts_that_they_mean()
    ensures takes { PartsMatchMeanings }
    ensures captures { PartsCaptureMeanings }
{}

/// A value that an engine made of the regular expression of parts returns captures for a text
/// exactly if the parts match the text (`PartsMatch`). A custom part matches what its expression
/// matches by itself.
///
/// Premises: each custom expression stands alone, as `expressions_are_read_in_groups` says. For
/// `PatternRegexp`, the flag `i` is not set.
#[tactic(auto, using(crate::proofs::ValuesTaken::pattern_values_taken, crate::proofs::ValuesTaken::regex_values_taken))]
pub fn values_answer_the_texts_that_parts_take()
    ensures own { ValuesReturnIfMatched pattern_engine KeepsCase }
    ensures regex { ValuesReturnIfMatched regex_engine (λ flags. ⊤) }
{}

/// A matcher returns captures for a text without line feeds exactly if its parts, custom ones
/// included, match the text (`PartsMatch`).
///
/// Premises: each custom expression stands alone, as `expressions_are_read_in_groups` says; case is
/// kept; and the engine, where one is needed, accepted its regular expression. For `PatternRegexp`,
/// the flags keep case too.
pub fn matchers_answer_the_texts_that_parts_take()
    ensures own { MatchersReturnIfMatched pattern_engine AcceptedAlone }
    ensures regex { MatchersReturnIfMatched regex_engine (λ options flags.
        AcceptedText (λ value. ⊤)) }
{}

/// A value that an engine made of the regular expression of parts returns captures that the parts
/// have in the text (`PartsCapture`), or `None` if they do not match the text. A custom part
/// captures its copies without the first prefix and the last suffix, as any group does.
///
/// Premises: each custom expression stands alone, as `expressions_are_read_in_groups` says, and
/// captures nothing itself. For `PatternRegexp`, the flag `i` is not set.
#[tactic(auto, using(crate::proofs::ValuesTaken::pattern_values_capture, crate::proofs::ValuesTaken::regex_values_capture))]
pub fn values_answer_what_parts_capture()
    ensures own { ValuesCapture pattern_engine KeepsCase }
    ensures regex { ValuesCapture regex_engine (λ flags. ⊤) }
{}

/// A matcher returns captures that its parts, custom ones included, have in a text without line
/// feeds (`PartsCapture`), or `None` if they do not match the text.
///
/// Premises: each custom expression stands alone, as `expressions_are_read_in_groups` says, and
/// captures nothing itself; case is kept; and the engine, where one is needed, accepted its regular
/// expression. For `PatternRegexp`, the flags keep case too.
pub fn matchers_answer_what_parts_capture()
    ensures own { MatchersCapture pattern_engine AcceptedAlone }
    ensures regex { MatchersCapture regex_engine (λ options flags.
        AcceptedText (λ value. ⊤)) }
{}

/// The matcher of a compiled component returns captures that the component's parts have in a text
/// without line feeds (`PartsCapture`), or `None` if they do not match the text. Captures are as
/// many as the names of the parts' groups.
///
/// Premises: each custom expression stands alone, as `expressions_are_read_in_groups` says, and
/// captures nothing itself; case is kept; and the engine, where one is needed, accepted its regular
/// expression.
pub fn components_answer_what_parts_capture()
    ensures names { CapturesAreAsNames }
    ensures own { ComponentsCapture pattern_engine }
    ensures regex { ComponentsCapture regex_engine }
{}

/// A value that an engine made of the regular expression of parts returns the captures of the first
/// way in which the parts match the whole text: an earlier choice is preferred to a later one, and
/// inside a custom part the choices are those of its expression by itself. These captures are some
/// that the parts have in the text (`PartsCapture`).
///
/// Without a custom part, this is the first way of the tree of the regular expression, with case
/// ignored or kept. Where case is ignored, texts that are equal except for case then have captures
/// that are equal except for case.
///
/// Premises: each custom expression stands alone, as `expressions_are_read_in_groups` says, and
/// captures nothing itself. For `PatternRegexp`, the flag `i` is not set; or the flags say as the
/// options whether case is ignored, expressions are read so, and if case is ignored, the text, all
/// texts of the parts and the delimiter are ASCII.
#[tactic(auto, using(crate::proofs::CustomLaws::first_ways))]
pub fn values_answer_the_first_way_of_parts()
    ensures trees { FirstWaysAreOfTrees }
    ensures either_case { FirstWaysAreOfEitherCase }
    ensures captured { FirstWaysAreCaptured }
    ensures own { ValuesReturnFirstOfParts pattern_engine KeepsCase }
    ensures by_flags { ValuesReturnFirstByFlags pattern_engine }
    ensures regex { ValuesReturnFirstOfParts regex_engine (λ flags. ⊤) }
{}

/// A matcher returns the captures of the first way in which its parts match the whole of a text
/// without line feeds, or `None` if they do not match the text.
///
/// Premises: each custom expression stands alone, as `expressions_are_read_in_groups` says, and
/// captures nothing itself; case is kept; and the engine, where one is needed, accepted its regular
/// expression. For `PatternRegexp`, the flags keep case too.
pub fn matchers_answer_the_first_way_of_parts()
    ensures own { MatchersReturnFirstOfParts pattern_engine AcceptedAlone }
    ensures regex { MatchersReturnFirstOfParts regex_engine (λ options flags.
        AcceptedText (λ value. ⊤)) }
{}

/// The matcher of a compiled component returns the captures of the first way in which the
/// component's parts match the whole of a text without line feeds, or `None` if they do not match
/// the text.
///
/// Premises: each custom expression stands alone, as `expressions_are_read_in_groups` says, and
/// captures nothing itself; case is kept; and the engine, where one is needed, accepted its regular
/// expression.
pub fn components_answer_the_first_way_of_parts()
    ensures own { ComponentsReturnFirstOfParts pattern_engine }
    ensures regex { ComponentsReturnFirstOfParts regex_engine }
{}

/// A compiled component captures what the groups of its expression do, in the order in which the
/// groups begin. A custom expression with a group of its own, as `(?P<x>..)`, adds a capture, and
/// the names of the parts after it are shifted, since names are beside captures in order: of
/// `/:a((?P<x>x)?y)/:b` and `/xy/1`, `b` is `x`.
///
/// Premises: the matcher has an engine, as each with a custom part has; case is kept; and the text
/// has no line feed.
pub fn components_capture_by_groups()
    ensures own { ComponentsCaptureByGroups pattern_engine }
    ensures regex { ComponentsCaptureByGroups regex_engine }
{}
