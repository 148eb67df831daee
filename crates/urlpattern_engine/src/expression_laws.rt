//! Laws of `PatternRegexp`: what its values, and the matchers made with it, return. The *tree* of
//! an expression is what it is parsed to (`IsTreeOf`).
//!
//! Each function does nothing; what its contract promises is a theorem.

ghost use Rattle.std.specs.Prelude.{⊤};
ghost use Rattle.urlpattern_matcher.specs.Components.{FlagsAgree};
ghost use Rattle.urlpattern_matcher.specs.Regexes.{regex_engine};
ghost use Rattle.urlpattern_matcher.specs.FirstWays.{AllReturnAlike, ComponentsAcceptGenerated, EachReturnsFirst, KeepsCase, MatchersAcceptGenerated, ValuesReturnAlike, ValuesReturnByFlags, ValuesReturnFirst, ValuesFollowParts, ValuesFollowTexts};
ghost use Rattle.urlpattern_engine.specs.PatternRegexps.{pattern_engine};
ghost use Rattle.urlpattern_engine.specs.GrammarReadings.{ExpressionsReturnAlike, ValuesReturnAsRead};
ghost use Rattle.urlpattern_syntax.specs.declared.parser.RegexSyntax.{RegexSyntax};

/// A value made without the flag `i`, whose own text has a tree, returns for each text of
/// characters the first match of the tree in backtracking order. Its results are therefore what its
/// text means and, if the text is the regular expression of parts without custom ones, in either
/// syntax, what that expression means.
///
/// A value made with or without the flag, of the regular expression of parts without custom ones,
/// returns the first match too; with the flag, ASCII letters are compared by their lower case, and
/// captures keep the case of the text.
pub fn pattern_regexps_answer_the_first_way()
    ensures first { ValuesReturnFirst pattern_engine KeepsCase }
    ensures follows { ValuesFollowTexts pattern_engine KeepsCase }
    ensures generated { ValuesFollowParts pattern_engine KeepsCase }
    ensures by_flags { ValuesReturnByFlags pattern_engine }
{}

/// A value made without the flag `i` and a `regex::Regex` made of the same expression return equal
/// results for each text of characters.
pub fn pattern_regexps_answer_as_regex_does()
    ensures { ValuesReturnAlike pattern_engine regex_engine KeepsCase }
{}

/// A value made without the flag `i` returns, for each text of characters, the first match of what
/// the grammar of `regex` reads in the value's own expression, custom or not, with the texts of the
/// groups. A `regex::Regex` does too.
pub fn pattern_regexps_answer_what_the_grammar_reads()
    ensures own { ValuesReturnAsRead pattern_engine KeepsCase }
    ensures regex { ValuesReturnAsRead regex_engine (λ flags. ⊤) }
{}

/// Two values made of the regular expression of the same parts, custom or not, return equal results
/// for each text of characters, if case is kept. If case is ignored, they do unless a part is
/// custom. Two values of `regex::Regex` do too.
pub fn values_of_one_expression_answer_alike()
    ensures own { ExpressionsReturnAlike pattern_engine }
    ensures regex { ExpressionsReturnAlike regex_engine }
{}

/// The engine accepts each expression that is generated from parts without custom ones: a matcher
/// of parts without custom ones has a value if it needs one, and a component compiled to such parts
/// has one.
pub fn pattern_regexps_take_each_generated_text()
    ensures matcher { MatchersAcceptGenerated pattern_engine }
    ensures component { (syntax : RegexSyntax)
        → ComponentsAcceptGenerated (record pattern_engine { syntax_of = syntax }) }
{}

/// A matcher of parts without custom ones, made by the engine with the flags of its options,
/// returns for each text of characters without line feed the first match of the tree of the parts
/// in backtracking order: a meaning of the parts, or `None` if they have none. Case is kept.
///
/// No premise on the engine is needed. All matchers of the same parts return equal results.
pub fn matchers_by_pattern_regexp_answer_the_first_way()
    ensures first { EachReturnsFirst pattern_engine (λ options flags inner.
        FlagsAgree options flags) }
    ensures one { AllReturnAlike pattern_engine (λ options flags inner. FlagsAgree options flags) }
{}
