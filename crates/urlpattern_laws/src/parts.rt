//! Laws of patterns and their parts.
//!
//! Parts *mean* a text if they match it by the definition `PartsMatch`, without an engine; where
//! case is ignored, ASCII letters of both are compared in lower case. Their meaning is *known* if
//! custom regular expressions are simple, case is kept if there is one, and case is kept or no
//! engine is needed that does not honour the flag `i`, such as `regex::Regex`.
//!
//! Each function has an empty body; its contract is a theorem.

ghost use Rattle.urlpattern_matcher.specs.Regexes.{regex_engine};
ghost use Rattle.urlpattern_engine.specs.{GrammarReadings.ExpressionsReturnAlike, PatternRegexps.pattern_engine};
ghost use Rattle.urlpattern_pattern.specs.ByText.{MakesFirstWays};
ghost use Rattle.urlpattern_laws.specs.PartReadings.{ApartMatchNothing, CommonAreMatched, CoveredAreMatched, CoveredByEngineAreMatched, CoveredByMeaningAreMatched, DoesHonourCase, EqualAreMatched, KeptPartsMean, KnownAreCoveredByMeaning, MadeAreMatched, OwnPartsMean, OwnPartsMeanWithCase, PartingsAreMatched};

use urlpattern_matcher::regexp::RegExp;

/// A pattern that `PatternRegexp` or `regex::Regex` made of parts matches a text without line feeds
/// in a component exactly if the component's parts mean the text, if their meaning is known.
pub fn patterns_match_what_their_parts_mean()
    ensures pattern_regexp { OwnPartsMean pattern_engine }
    ensures regex { OwnPartsMean regex_engine }
{}

/// A pattern that was made of parts, over any engine whose matchers return first ways, such as
/// `PatternRegexp`, matches a text without line feeds in a component exactly if the component's
/// parts mean the text, if their meaning is known, and the component keeps case, or the engine
/// honours the flag `i` if it says so. A component that keeps case, of a compiled pattern that
/// matches by its pattern texts, does too, whatever the engine, with the parts that it keeps.
pub fn patterns_match_what_their_parts_mean_by_first_ways<R: RegExp>()
    ensures first_ways { MakesFirstWays R.RegExp → OwnPartsMeanWithCase R.RegExp }
    ensures by_flags { MakesFirstWays R.RegExp → DoesHonourCase R.RegExp → OwnPartsMean R.RegExp }
    ensures by_text { KeptPartsMean R.RegExp }
{}

/// A pattern that covers another by their parts matches any eight texts without line feeds that the
/// other matches. A `Parting` of two patterns has texts that the other matches, with any texts that
/// it matches in the components without a known text, and a component whose text the pattern does
/// not match.
///
/// Premises: each of the two patterns matches what its parts mean, where their meaning is known;
/// and for components with equal parts whose meaning is not known, such as custom regular
/// expressions, the pattern matches what the other matches. Patterns made of their parts meet the
/// second if two values that their engine made of one expression return the same results.
pub fn covered_patterns_match<R: RegExp>()
    ensures covered { CoveredAreMatched R.answer }
    ensures made { MadeAreMatched R.RegExp }
    ensures parted { PartingsAreMatched R.answer }
{}

/// If each component of a pattern covers that of another by the meaning of the parts, or a
/// component of the other means no text without line feeds, the pattern matches any eight texts
/// without line feeds that the other matches. Premise: each of the two patterns, over any engine,
/// matches what its parts mean, where their meaning is known.
///
/// A pattern that covers another covers it by meaning, if the meaning of any two components with
/// equal parts is known.
pub fn patterns_covered_by_meaning_match<R: RegExp>()
    ensures covered { CoveredByMeaningAreMatched R.answer }
    ensures known { KnownAreCoveredByMeaning }
{}

/// If `PatternRegexp` or `regex::Regex` made two patterns of parts, with or without custom regular
/// expressions, and the parts of one pattern cover those of the other, it matches any eight texts
/// without line feeds that the other matches.
pub fn covered_patterns_by_these_engines_match()
    ensures pattern_regexp { CoveredByEngineAreMatched pattern_engine }
    ensures regex { CoveredByEngineAreMatched regex_engine }
{}

/// Two patterns that one engine made of equal parts, as `UrlPattern::is_same` decides, match the
/// same eight texts without line feeds, with the same captures, if case is kept in each component
/// or no part of the component is custom. Premise: two values that the engine made of one
/// expression return the same results, as those of `PatternRegexp` and of `regex::Regex` do.
pub fn equal_patterns_match_alike<R: RegExp>()
    ensures made { ExpressionsReturnAlike R.RegExp → EqualAreMatched R.RegExp }
    ensures pattern_regexp { EqualAreMatched pattern_engine }
    ensures regex { EqualAreMatched regex_engine }
{}

/// Each of two patterns matches the common texts that are found by their parts. In a component of
/// which no text is known, since both have the same parts, they match any text without line feed
/// that one of them matches. If the parts of a component are apart, no eight texts without line
/// feeds are matched by both patterns.
///
/// Premise, for components with equal parts whose meaning is not known: the other pattern matches
/// what this one matches, as for `covered_patterns_match`.
pub fn overlapping_patterns_match<R: RegExp>()
    ensures common { CommonAreMatched R.answer }
    ensures apart { ApartMatchNothing R.answer }
{}
