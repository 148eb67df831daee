//! Laws of the definitions that contracts name: tokens, parts, regular expressions, matchers and
//! printed patterns.
//!
//! Each function of the file does nothing; what it promises is a theorem.

ghost use Rattle.std.specs.Prelude.{◌≡◌, ◌≢◌, ℕ, List, [], ◌++◌, All, AllPairs, None, Some, length};
ghost use Rattle.std.specs.Char.{is_ascii_digit};
ghost use Rattle.urlpattern_meaning.specs.{FirstResults.ReturnsByFirstWay, Matching.ReturnsByMeaning, Ways.FirstWaysFold, Ways.first_way};
ghost use Rattle.urlpattern_meaning.specs.Dialect.{Follows, HasMeaningOf, IsTreeOf, Items, Means, group_count};
ghost use Rattle.urlpattern_meaning.specs.Laws.{EncodingResults, AtMostOne, CountFrom, HasLenientTokens, HasTokensOrFault, IsSpelledAt, AreSpelledFrom, listed, numbers_among};
ghost use Rattle.urlpattern_meaning.specs.LawsOfMeaning.{ReturnsWhereEnginesAgree, CapturesHaveNames, CopiesAreOneCapture, FirstWayIsMeant, FirstWayIsOne, FollowingIsAgreeing, NoCopiesAreOneCapture, OfEachMatcher, OfEachTree, PlainEndsAreRemoved, TreesMeanTheParts, WaysAreMeanings, WildcardsCaptureNothingElse};
ghost use Rattle.urlpattern_meaning.specs.LawsOfReading.{TextsWithResultsHaveOutcomes, FaultsAreOne, HaveOneAtMost, IndicesRise, OfEachReading, OfEachToken, OfPartsThatWereRead, OfPrintableParts, OutcomesAreOneGivenMemory, OutcomesLackOnlyResults, PiecesAreOne, PrintedFailsByTheEncoding, PrintedMayReadAsJoined, PrintedReadsOnlyAsJoined, ReadPartsArePrintable, ReadingsExcludeRejections, TokensExcludeFaults, TokensHavePieces, UnderEachCallback, UnderEachList};
ghost use Rattle.urlpattern_meaning.specs.PartMeaning.{AreGenerated, MeanTheSame};
ghost use Rattle.urlpattern_meaning.specs.Printing.{HaveTexts, Keeps, joined, printed};
ghost use Rattle.urlpattern_meaning.specs.RoundTrip.{ArePatternParts, IsNotRejected, PrintsTheSame, ReadsAsJoined, ReadsOnlyAsJoined};
ghost use Rattle.urlpattern_syntax.specs.{Options.OptionsView, Parts.PartView, Text.BeginsWith};
ghost use Rattle.urlpattern_syntax.specs.Reading.{Reads, Rejects};
ghost use Rattle.urlpattern_syntax.specs.RegexpText.{group_names, regexp_text};
ghost use Rattle.urlpattern_syntax.specs.Tokens.{AreLenientTokens, AreTokens, TokenView, end_of};
ghost use Rattle.urlpattern_syntax.specs.declared.tokenizer.TokenType.TheVariants.{End, Name};

use urlpattern_syntax::Error;

/// Where plain fixed texts, which have no modifier, are removed from the ends of a list of parts,
/// the parts match exactly the texts made of the first removed text, a text that the remaining
/// parts match, and the second, with the same captures.
pub fn plain_ends_are_removed()
    ensures { PlainEndsAreRemoved }
{}

/// Parts match the same texts, with the same captures, after neighbouring fixed texts without a
/// modifier are joined into one.
pub fn joining_keeps_meaning()
    ensures { (options : OptionsView) (parts : List PartView)
        → MeanTheSame options (joined parts) parts }
{}

/// Parts print as the same pattern after neighbouring fixed texts without a modifier are joined
/// into one, where no fixed text is empty.
pub fn joining_keeps_printed_text()
    ensures { (options : OptionsView) (parts : List PartView) → HaveTexts parts
        → printed options (joined parts) ≡ printed options parts }
{}

/// Copies of a wildcard are captured as one text: all of them without the first prefix and the last
/// suffix. Without copies the capture is `None`, or the empty text for "zero or more" with neither
/// prefix nor suffix. A wildcard has no other captures.
pub fn copies_are_one_capture()
    ensures copies { CopiesAreOneCapture }
    ensures none { NoCopiesAreOneCapture }
    ensures only { WildcardsCaptureNothingElse }
{}

/// A text has at most one list of strict tokens or one first fault, never both, and at most one
/// list of lenient tokens. By [`every_text_has_tokens`] it has lenient tokens, and strict tokens or
/// a fault.
pub fn tokens_are_one()
    ensures tokens { (text : List ℕ) → AtMostOne (AreTokens text) }
    ensures faults { FaultsAreOne }
    ensures not_both { TokensExcludeFaults }
    ensures lenient { (text : List ℕ) → AtMostOne (AreLenientTokens text) }
{}

/// Every text has strict tokens, or a first fault with its place. Every text has lenient tokens.
pub fn every_text_has_tokens()
    ensures strict { (text : List ℕ) → HasTokensOrFault text }
    ensures lenient { (text : List ℕ) → HasLenientTokens text }
{}

/// The values of the tokens hold all of a text but the characters that are skipped between tokens,
/// the backslash of an escape, the colon of a name and the parentheses of a regular expression.
/// Each token begins where its index says, after the token before it, and its value is a part of
/// the text. `End` is the last token, and no other.
pub fn tokens_lose_nothing()
    ensures lay { (text : List ℕ) (tokens : List TokenView) → AreTokens text tokens
        → AreSpelledFrom 0 tokens text }
    ensures rise { IndicesRise }
    ensures stand { OfEachToken (λ text token later. IsSpelledAt text token) }
    ensures slice { OfEachToken (λ text token later.
        (before after : List ℕ) × (text ≡ before ++ token.value ++ after)) }
    ensures ends { OfEachToken (λ text token later. later ≡ [] → token ≡ end_of text) }
    ensures only_end { OfEachToken (λ text token later. token.kind ≡ End → later ≡ []) }
{}

/// The tokens of a text are exactly one list of pieces, which are characters, placeholders and
/// groups in braces, with one ending, which has the token at which the pieces end.
pub fn pieces_are_one()
    ensures one { PiecesAreOne }
    ensures exist { TokensHavePieces }
{}

/// A text has at most one outcome, the parts that it reads as or an error by which it is rejected,
/// where the encoding has at most one result for each text. [`every_text_has_an_outcome`] says when
/// a text has one. The encoding is any list of texts with their results.
pub fn readings_are_one()
    ensures readings { UnderEachList (HaveOneAtMost Reads) }
    ensures refusals { UnderEachList (HaveOneAtMost Rejects) }
    ensures not_both { UnderEachList ReadingsExcludeRejections }
{}

/// Under an encoding callback a text has at most one outcome, not counting that memory ran out,
/// where the callback may return at most one result for each text, not counting that memory ran
/// out. `F` is the callback's type.
pub fn readings_by_callbacks_are_one<F: Fn(&str) -> Result<String, Error>>()
    ensures { UnderEachCallback F.Fn OutcomesAreOneGivenMemory }
{}

/// Under any options every text has an outcome, the parts that it reads as or an error by which it
/// is rejected, or else the encoding is called with a text for which it has no result. A text
/// therefore has an outcome where the encoding has a result for each text that it is called with.
/// The encoding is any list of texts with their results or, in the last clause, any callback: `F`
/// is the callback's type.
pub fn every_text_has_an_outcome<F: Fn(&str) -> Result<String, Error>>()
    ensures listed { UnderEachList OutcomesLackOnlyResults }
    ensures answered { UnderEachList TextsWithResultsHaveOutcomes }
    ensures called { UnderEachCallback F.Fn TextsWithResultsHaveOutcomes }
{}

/// In the parts that a text reads as, the names of groups are not empty, and no two are equal.
/// Those that begin with a digit are `0`, `1` and so on in order. A name that a pattern gives does
/// not begin with a digit, so the numbers name the groups without a given name.
pub fn names_are_new()
    ensures nonempty { UnderEachList
        (OfEachReading (λ options parts. All (λ name. name ≢ []) (group_names parts))) }
    ensures distinct { UnderEachList (OfEachReading (λ options parts.
        AllPairs (λ name other. name ≢ other) (group_names parts))) }
    ensures numbered { UnderEachList
        (OfEachReading (λ options parts. CountFrom 0 (numbers_among (group_names parts)))) }
    ensures given { OfEachToken (λ text token later.
        token.kind ≡ Name → ¬ BeginsWith is_ascii_digit token.value) }
{}

/// A text is the spelling of at most one tree of the dialect of regular expressions in which parts
/// are written.
pub fn dialect_trees_are_one()
    ensures { (text : List ℕ) → AtMostOne (IsTreeOf text) }
{}

/// A way is one way in which a tree of the dialect matches a beginning of a text; the first is the
/// one that a backtracking engine finds first. The ways are exactly the matches that the meaning of
/// the tree allows. The first way that matches the whole text therefore captures what the tree
/// means, is missing only where the tree does not match the text, and has as many captures as the
/// tree has groups. A function that returns the captures of the first way follows the regular
/// expression of the tree, so each regular expression of the dialect can be followed.
pub fn first_ways_are_meant()
    ensures ways { WaysAreMeanings }
    ensures some { OfEachTree (λ tree text captures.
        first_way tree text ≡ Some captures → Means tree text captures) }
    ensures none { OfEachTree (λ tree text captures.
        first_way tree text ≡ None → ¬ Means tree text captures) }
    ensures count { OfEachTree (λ tree text captures.
        first_way tree text ≡ Some captures → length captures ≡ group_count tree) }
    ensures follows { (regexp : List ℕ) (tree : Items) → IsTreeOf regexp tree
        → Follows regexp (first_way tree) }
{}

/// Where case is ignored, a tree matches a text exactly if the folded tree, with case kept, matches
/// the folded text, and the captures of the first way of the tree, once folded, are equal to those
/// of the first way of the folded tree. Folding replaces each ASCII letter by its lower case.
pub fn first_ways_fold()
    ensures { FirstWaysFold }
{}

/// The regular expression of parts has exactly one tree of the dialect, which matches exactly the
/// texts that the parts match, with the same captures. An engine follows the regular expression
/// exactly if it returns what the parts mean. No part is a custom regular expression; options,
/// names, prefixes, suffixes and values are arbitrary.
pub fn parts_and_regexp_mean_the_same()
    ensures tree { (options : OptionsView) (parts : List PartView) → AreGenerated parts
        → HasMeaningOf (regexp_text options parts) options parts }
    ensures means { TreesMeanTheParts }
    ensures engines { FollowingIsAgreeing }
{}

/// Wherever a list of parts matches a text, there are as many captures as the list has names.
pub fn captures_are_as_many_as_names()
    ensures { CapturesHaveNames }
{}

/// A matcher that is made from parts returns what the parts mean: captures only if the parts match
/// the text with these captures, and `None` only if they do not match the text. Case is kept, and
/// the text is of characters without line feed. A matcher without an engine needs no more. If there
/// is an engine, it accepted the regular expression of the parts that are left between the removed
/// fixed texts, and its value either follows that expression, where no part is custom, or returns
/// what those parts mean. `E` is any type of engines' values.
pub fn matchers_answer_what_parts_mean<E>()
    ensures follows { OfEachMatcher E ReturnsByMeaning }
    ensures agrees { OfEachMatcher E ReturnsWhereEnginesAgree }
{}

/// A matcher that is made from parts returns the captures of the first way, the one that a
/// backtracking engine finds first, in which the tree of their regular expression matches the whole
/// text. At most one result is that of the first way: captures that the parts mean, or `None` where
/// they do not match the text. No part is custom, case is kept, and the text is of characters
/// without line feed. The matcher's engine, if it has one, accepted its regular expression, and
/// returns the first way of the tree of that expression. `E` is any type of engines' values.
pub fn matchers_answer_the_first_way<E>()
    ensures first { OfEachMatcher E ReturnsByFirstWay }
    ensures one { FirstWayIsOne }
    ensures meant { FirstWayIsMeant }
{}

/// Parts have the same regular expression, and the same names of groups, after neighbouring fixed
/// texts without a modifier are joined into one.
pub fn joining_keeps_regexp()
    ensures text { (options : OptionsView) (parts : List PartView)
        → regexp_text options (joined parts) ≡ regexp_text options parts }
    ensures names { (parts : List PartView) → group_names (joined parts) ≡ group_names parts }
{}

/// Parts that a text reads as are pattern parts: their kinds, values and names fit together.
/// Options and encoding are arbitrary.
pub fn read_parts_are_pattern_parts()
    ensures { UnderEachList (OfEachReading ArePatternParts) }
{}

/// Printing and parsing are inverse. The printed pattern of parts reads as the joined parts, in
/// which neighbouring fixed texts without a modifier are one, and as nothing else, and is not
/// rejected. The parts that it reads as print as the same text. The parts are any that are
/// printable, and the encoding any list of results that keeps their texts; for all parts there is
/// such a list.
pub fn printed_patterns_read_back()
    ensures reads { OfPrintableParts ReadsAsJoined }
    ensures only { OfPrintableParts ReadsOnlyAsJoined }
    ensures not_refused { OfPrintableParts IsNotRejected }
    ensures same { OfPrintableParts PrintsTheSame }
    ensures kept { (parts : List PartView)
        → (answers : EncodingResults) × Keeps (listed answers) parts }
{}

/// The printed pattern of printable parts is rejected only by an error that the encoding has for
/// one of the texts of the joined parts. Where the encoding changes none of these texts, the
/// pattern reads as the joined parts or not at all.
pub fn printed_patterns_fail_by_the_encoding_alone()
    ensures only { UnderEachList PrintedReadsOnlyAsJoined }
    ensures refused { UnderEachList PrintedFailsByTheEncoding }
{}

/// The printed pattern of printable parts may be read as the joined parts, under a callback that
/// may return each of their texts unchanged. Under a callback that changes none of the texts, the
/// pattern is read as nothing else. The pattern is rejected only by an error that the callback may
/// return for one of the texts. Parts that were read under the callback and standard options are
/// printable, if no fixed text is empty, and no fixed text, prefix or suffix has a character that
/// is skipped between tokens.
pub fn printed_patterns_read_back_by_callbacks<F: Fn(&str) -> Result<String, Error>>()
    ensures printable { UnderEachCallback F.Fn ReadPartsArePrintable }
    ensures reads { UnderEachCallback F.Fn PrintedMayReadAsJoined }
    ensures only { UnderEachCallback F.Fn PrintedReadsOnlyAsJoined }
    ensures refused { UnderEachCallback F.Fn PrintedFailsByTheEncoding }
{}

/// Parts that a text was read as under the default, hostname or pathname options, in either syntax,
/// print as a pattern that reads back: as the joined parts, and as nothing else, and the joined
/// parts print as the same text. No fixed text of the parts is empty, and no fixed text, prefix or
/// suffix has a character that is skipped between tokens. The two encodings are any lists of
/// results: the first made the parts, and the second keeps their texts.
pub fn parts_that_were_read_print_and_read_back()
    ensures reads { OfPartsThatWereRead ReadsAsJoined }
    ensures only { OfPartsThatWereRead ReadsOnlyAsJoined }
    ensures not_refused { OfPartsThatWereRead IsNotRejected }
    ensures same { OfPartsThatWereRead PrintsTheSame }
{}
