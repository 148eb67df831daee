//! Laws of the definitions in contracts: those of the crates below, and those of whole patterns.
//!
//! Each function has an empty body; its contract is a theorem. The *first way* is the first in
//! which a backtracking engine matches the whole text by the parts of a component.

ghost use Rattle.std.specs.Prelude.{⊤, ℕ, List, Option};
ghost use Rattle.urlpattern_pattern.specs.ByText.{MakesFirstWays};
ghost use Rattle.urlpattern_engine.specs.EcmaRegexps.{KeepsRegex, ecma_engine};
ghost use Rattle.urlpattern_laws.specs.PatternLaws.{EqualTextsHaveEqualResults, EqualTextsHaveEqualTests, ResultsMeanTheParts, FirstResultsAreOne, MatchesAreOne, RegexMeetsPremises, RegexResultsAreFirst, TestsAgree, TestsAreOne};
ghost use Rattle.urlpattern_canonical.specs.Canonical.{canonical_hash, canonical_password, canonical_search, canonical_username};
ghost use Rattle.urlpattern_laws.specs.CanonicalLaws.{AreCanonicalAgain};
ghost use Rattle.urlpattern_laws.specs.ByCase.{FindingsAreByCase, FindingsByCaseAreOne, FirstsAreReturnedByCase, FirstsAreReturnedWithoutEngine, InputFindingsAreByCase, KeptMeaningsByCaseAreOfTexts, TextsOfUrlsAreLinesByCase};
ghost use Rattle.urlpattern_laws.specs.LinkLaws.{LinksAreOne, LinksDiffer, LinksOfCapturesAreTheTexts};
ghost use Rattle.urlpattern_laws.specs.MatchLinks.{GroupsOfCapturesAreGiven, GroupsOfMatchesDiffer, GroupsOfResultsAreGiven, LinksOfCompiledMatchesAreTheTexts, LinksOfMatchesAreTheTexts};
ghost use Rattle.urlpattern_laws.specs.Outcomes.{DecidesGenerated, FirstWaysDecide, InitRejectionsAreOne, InitsHaveValues, PatternsExcludeRejections};
ghost use Rattle.urlpattern_pattern.specs.KeptMeanings.{KeptMeaningsAreOfTexts};
ghost use Rattle.urlpattern_pattern.specs.ByTextLaws.{CompiledHaveMeaning, FindingsAreByText, FindingsAreOne, InputFindingsAreByText, PatternsReturnAlike, PatternsReturnByText, ReadingsAsAreOne, AcceptedPatternsReturnByText};
ghost use Rattle.urlpattern_matcher.specs.FirstWays.{EachReturnsFirst};
ghost use Rattle.urlpattern_matcher.specs.Regexes.{regex_engine};
ghost use Rattle.urlpattern_engine.specs.PatternRegexps.{pattern_engine};
ghost use Rattle.urlpattern_meaning.specs.FirstResults.{AcceptedText};
ghost use Rattle.urlpattern_meaning.specs.PartMeaning.{Captures};

pub use crate::custom::{
    components_answer_the_first_way_of_parts, components_answer_what_parts_capture,
    components_capture_by_groups, expressions_are_read_in_groups,
    matchers_answer_the_first_way_of_parts, matchers_answer_the_texts_that_parts_take,
    matchers_answer_what_parts_capture, parts_take_the_texts_that_they_mean,
    values_answer_the_first_way_of_parts, values_answer_the_texts_that_parts_take,
    values_answer_what_parts_capture,
};
pub use urlpattern_engine::expression_laws::{
    matchers_by_pattern_regexp_answer_the_first_way, pattern_regexps_answer_as_regex_does,
    pattern_regexps_answer_the_first_way, pattern_regexps_take_each_generated_text,
    values_of_one_expression_answer_alike,
};
pub use urlpattern_engine::regex_laws::{
    matchers_by_regex_answer_the_first_way, regex_answers_the_first_way,
    regex_refuses_no_generated_syntax,
};
pub use urlpattern_init::constructor_laws::{
    splits_are_one, texts_are_lines, texts_of_urls_are_lines,
};
use urlpattern_matcher::regexp::RegExp;
pub use urlpattern_matches::result_laws::results_are_read_back;
pub use urlpattern_meaning::meaning_laws::{
    captures_are_as_many_as_names, copies_are_one_capture, dialect_trees_are_one,
    every_text_has_an_outcome, every_text_has_tokens, first_ways_are_meant, first_ways_fold,
    joining_keeps_meaning, joining_keeps_printed_text, joining_keeps_regexp,
    matchers_answer_the_first_way, matchers_answer_what_parts_mean, names_are_new,
    parts_and_regexp_mean_the_same, parts_that_were_read_print_and_read_back, pieces_are_one,
    plain_ends_are_removed, printed_patterns_fail_by_the_encoding_alone,
    printed_patterns_read_back, printed_patterns_read_back_by_callbacks,
    read_parts_are_pattern_parts, readings_are_one, readings_by_callbacks_are_one, tokens_are_one,
    tokens_lose_nothing,
};
pub use urlpattern_plain::json_laws::reading_undoes_writing;
pub use urlpattern_values::value_laws::{
    encoded_values_are_decoded, encoded_values_have_no_delimiters,
};

/// The results of a compiled pattern are what its pattern texts mean. In a match, each component's
/// pattern text reads as parts that mean the component's text (`PartsMean`), and the groups are the
/// names of the parts with the captures of this meaning. There is no match only if the pattern
/// texts do not mean all eight texts.
///
/// Premises, for each component: no part is custom, case is kept, the text has no line feed, and
/// the engine, where one is needed, accepted its regular expression and returns for each text what
/// the expression means (`Follows`). No text of the input is longer than `url` is certain to
/// accept.
pub fn groups_mean_the_parts<R: RegExp>()
    ensures { ResultsMeanTheParts R.RegExp }
{}

/// A test of an input is true exactly if there is a match, and any two matches of an input have the
/// same results. With a match, a test is false only if a text of an init is longer than `url` is
/// certain to accept.
pub fn tests_agree_with_matches<E>()
    ensures agree { (answer : E → List ℕ → Option Captures) → TestsAgree answer }
    ensures one { (answer : E → List ℕ → Option Captures) → MatchesAreOne answer }
    ensures not_both { (answer : E → List ℕ → Option Captures) → TestsAreOne answer }
{}

/// What is found in an input depends on the input by its eight texts alone. For inputs with equal
/// texts, such as an init and the URL with its texts, any two results are equal, and any two tests.
///
/// Premise: no text of the inputs is longer than `url` is certain to accept. A URL meets it.
pub fn equal_texts_are_matched_alike<E>()
    ensures results { (answer : E → List ℕ → Option Captures) → EqualTextsHaveEqualResults answer }
    ensures tests { (answer : E → List ℕ → Option Captures) → EqualTextsHaveEqualTests answer }
{}

/// A canonical user name, password, search or hash is its own canonical form.
///
/// Nothing is said of protocols, hostnames, ports and pathnames. Of an init, `?` at the start of
/// the search and `#` at the start of the hash are removed before the value is made canonical.
pub fn canonical_values_are_canonical_again()
    ensures username { AreCanonicalAgain canonical_username }
    ensures password { AreCanonicalAgain canonical_password }
    ensures search { AreCanonicalAgain canonical_search }
    ensures hash { AreCanonicalAgain canonical_hash }
{}

/// A pattern compiled by `regex::Regex` meets the premise of `groups_mean_the_parts` on a
/// component's engine, if the engine accepted its regular expression. In a match the groups of the
/// component are the names of its parts with the captures of the first way, the first in which a
/// backtracking engine matches the whole text. The pattern text and the component's text determine
/// the first way.
///
/// Premises, for the component: no part is custom, case is kept, and the text has no line feed.
pub fn groups_by_regex_are_of_the_first_way()
    ensures premises { RegexMeetsPremises }
    ensures first { RegexResultsAreFirst }
    ensures one { FirstResultsAreOne }
{}

/// A matcher that `EcmaRegexp` made of parts returns for a text without line feeds the captures of
/// the first way in which a backtracking engine matches the whole text by the parts' regular
/// expression. They are a meaning of the parts (`PartsMean`); `None` is returned if the parts do
/// not mean the text.
///
/// Premises: no part is custom, case is kept, and a value of `EcmaRegexp`, where one is needed,
/// holds a `Regex`.
pub fn matchers_by_ecma_regexp_answer_the_first_way()
    ensures { EachReturnsFirst ecma_engine (λ options flags. AcceptedText KeepsRegex) }
{}

/// A compiled pattern matches by its pattern texts. Each component that has a meaning, since its
/// custom regular expressions are simple and its case is kept, has the names of the parts of its
/// pattern text, and returns for each text without line feeds the captures of the first way in
/// which the parts match it. What is found in eight texts, or in an input that is not too long for
/// `url`, is determined by the pattern texts, if each component has a meaning and each text is
/// without line feed.
///
/// Premise: the value of the engine, where a component that has a meaning needs one, returns the
/// first way of the parts between prefix and suffix, which are left to it.
///
/// The parts that a compiled pattern keeps for a component have a meaning, as
/// `UrlPattern::component_has_meaning` decides, exactly if the component's pattern text has one.
pub fn patterns_answer_by_their_texts<R: RegExp>()
    ensures by_text { PatternsReturnByText R.RegExp }
    ensures found { FindingsAreByText R.answer }
    ensures executed { InputFindingsAreByText R.answer }
    ensures one { FindingsAreOne }
    ensures readings { ReadingsAsAreOne }
    ensures meaning { CompiledHaveMeaning R.RegExp }
    ensures kept { KeptMeaningsAreOfTexts R.RegExp }
{}

/// Two patterns that are compiled from one init, over any engines, find equal results in eight
/// texts, if both match by the init's pattern texts (`ReturnsByItsText`), each component has a
/// meaning, and no text has a line feed.
pub fn patterns_of_one_init_answer_alike<R: RegExp, S: RegExp>()
    ensures { PatternsReturnAlike R.answer S.answer }
{}

/// The premise on the engine under which patterns match by their pattern texts, for each of three
/// engines. `PatternRegexp` and `regex::Regex` meet it always; `EcmaRegexp` if it holds a `Regex`
/// for each component that has a meaning and needs an engine.
pub fn patterns_by_these_engines_answer_by_their_texts()
    ensures pattern_regexp { MakesFirstWays pattern_engine }
    ensures regex { MakesFirstWays regex_engine }
    ensures ecma_regexp { AcceptedPatternsReturnByText ecma_engine (AcceptedText KeepsRegex) }
{}

/// An init has at most one outcome: it is compiled to a pattern, or it is rejected with a single
/// error, and never both. Processing an init as a pattern rejects no value. Two errors are left
/// aside: out of memory, and a text too long for `url`.
///
/// Premises: the engine does not both accept and reject a regular expression of a component's
/// parts, or of some of them in a row; and any two matchers that it makes for the protocol accept a
/// special scheme, or neither does. An engine whose matchers return first ways (`MakesFirstWays`)
/// meets the second if no pattern text has a custom regular expression; `PatternRegexp` then meets
/// both.
pub fn inits_have_one_outcome<R: RegExp>()
    ensures not_both { PatternsExcludeRejections R.RegExp }
    ensures refusals { InitRejectionsAreOne R.RegExp }
    ensures values { InitsHaveValues }
    ensures by_first_ways { FirstWaysDecide R.RegExp }
    ensures pattern_regexp { DecidesGenerated pattern_engine }
{}

/// A component whose matcher needs no engine matches by its pattern text, over any engine, with
/// case ignored or kept. It has no custom part. For each text without line feeds it returns the
/// captures of the first way in which its parts match the text.
///
/// Where case is ignored, an ASCII letter of a fixed text, of a prefix or suffix or of the
/// delimiter stands for both of its cases, and captures are pieces of the text as it is.
///
/// A matcher that needs an engine is left out: it compares prefix and suffix with case ignored, but
/// leaves the text between them to the engine. `PatternRegexp` ignores case there too,
/// `regex::Regex` does not.
pub fn first_ways_are_answered_without_an_engine<R: RegExp>()
    ensures { FirstsAreReturnedWithoutEngine R.RegExp }
{}

/// A component over `PatternRegexp` matches by its pattern text, with case ignored or kept. If it
/// has a meaning (`IsMeantByCase`), it returns for each line the captures of the first way in which
/// its parts match the text, whether or not its matcher needs an engine. Where case is ignored and
/// a part is custom, this is said of lines of ASCII (`IsLineByCase`).
///
/// Where case is ignored, an ASCII letter of a fixed text, of a prefix or suffix or of the
/// delimiter stands for both of its cases, custom expressions are read with the flag `i`, and
/// captures are pieces of the text as it is.
pub fn first_ways_are_answered_where_case_is_ignored()
    ensures { FirstsAreReturnedByCase pattern_engine }
{}

/// A compiled pattern over `PatternRegexp` matches by its pattern texts, also in components that
/// ignore case. Each component that has a meaning (`IsMeantByCase`) has the names of the parts of
/// its pattern text, and for a line the captures of the first way in which the parts match it, as
/// `first_ways_are_answered_where_case_is_ignored` says. There is no match only if the parts of a
/// component have no way to match its text.
///
/// What is found is determined by the pattern texts, if each component has a meaning and each text
/// is a line (`IsLineByCase`). The texts of a URL are.
///
/// The parts that a compiled pattern keeps for a component have a meaning, as
/// `UrlPattern::component_has_meaning_by_case` decides, exactly if the component's pattern text
/// does.
pub fn patterns_answer_by_their_texts_where_case_is_ignored()
    ensures found { FindingsAreByCase pattern_engine }
    ensures executed { InputFindingsAreByCase pattern_engine }
    ensures urls { TextsOfUrlsAreLinesByCase }
    ensures one { FindingsByCaseAreOne }
    ensures kept { KeptMeaningsByCaseAreOfTexts pattern_engine }
{}

/// A pattern and groups have at most one link. Two links of a pattern whose groups are to capture
/// different texts of a component have different texts there.
///
/// What a group is to capture is the canonical form of its text: `é` and `%C3%A9` are the same text
/// of a path.
pub fn links_differ_by_their_groups<R: RegExp>()
    ensures one { LinksAreOne R.answer }
    ensures differ { LinksDiffer R.answer }
{}

/// A link whose groups are the captures of eight texts has these texts.
///
/// Premises, for each component: if its matcher returns these captures for its text, the parts mean
/// the text with them; no fixed text has a modifier, since its copies are not captured; and each
/// captured text is its own canonical form.
pub fn links_of_captures_are_the_texts<R: RegExp>()
    ensures { LinksOfCapturesAreTheTexts R.answer }
{}

/// `to_groups`, of captures or of a result, returns each group that captured a text, with the text,
/// and no other group.
///
/// Premise: no two groups of a component have the same name. Captures of a match by a compiled
/// pattern meet it, and so does each result whose `to_groups` returns groups.
pub fn groups_of_matches_are_given<R: RegExp>()
    ensures captures { GroupsOfCapturesAreGiven }
    ensures result { GroupsOfResultsAreGiven }
    ensures differ { GroupsOfMatchesDiffer R.RegExp }
{}

/// A link whose groups are the captures of a match has the texts that were matched.
///
/// Premises, for each component: its names are those of its parts and differ; if its matcher
/// returns these captures for its text, the parts mean the text with them; no fixed text has a
/// modifier; and each captured text is its own canonical form.
///
/// A compiled pattern over `PatternRegexp` or `regex::Regex` meets the first two in a component
/// without a custom part whose case is kept, for a text without line feeds.
pub fn links_of_matches_are_the_texts<R: RegExp>()
    ensures matches { LinksOfMatchesAreTheTexts R.answer }
    ensures pattern_regexp { LinksOfCompiledMatchesAreTheTexts pattern_engine }
    ensures regex { LinksOfCompiledMatchesAreTheTexts regex_engine }
{}
