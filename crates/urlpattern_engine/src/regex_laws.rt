//! Laws of the crate `regex` as an engine. The *tree* of an expression is what it is parsed to
//! (`IsTreeOf`).
//!
//! Each function does nothing; what its contract promises is a theorem.

ghost use Rattle.std.specs.Prelude.{⊤};
ghost use Rattle.urlpattern_matcher.specs.Regexes.{AcceptsGeneratedSyntax, regex_engine};
ghost use Rattle.urlpattern_matcher.specs.FirstWays.{AllReturnAlike, EachReturnsFirst, ValuesReturnFirst, ValuesFollowParts, ValuesFollowTexts};
ghost use Rattle.urlpattern_meaning.specs.FirstResults.{AcceptedText};

/// A `regex::Regex` whose own text has a tree returns, for each text of characters, the first match
/// of the tree in backtracking order. Its results are therefore what its text means and, if the
/// text is the regular expression of parts without custom ones, in either syntax, what that
/// expression means.
pub fn regex_answers_the_first_way()
    ensures first { ValuesReturnFirst regex_engine (λ flags. ⊤) }
    ensures follows { ValuesFollowTexts regex_engine (λ flags. ⊤) }
    ensures generated { ValuesFollowParts regex_engine (λ flags. ⊤) }
{}

/// A matcher by `regex::Regex`, of parts without custom ones, returns for each text of characters
/// without line feed the first match of the tree of the parts in backtracking order: a meaning of
/// the parts, or `None` if they have none. Case is kept.
///
/// The only premise on the engine is that it accepted the text where one was needed. All matchers
/// of the same parts return equal results.
pub fn matchers_by_regex_answer_the_first_way()
    ensures first { EachReturnsFirst regex_engine (λ options flags. AcceptedText (λ regex. ⊤)) }
    ensures one { AllReturnAlike regex_engine (λ options flags. AcceptedText (λ regex. ⊤)) }
{}

/// `regex` does not reject the regular expression of parts for its syntax, if no part is custom and
/// there are fewer groups than `regex` can count: an error of its parser means that memory ran out.
/// The size limit is left open.
pub fn regex_refuses_no_generated_syntax()
    ensures { AcceptsGeneratedSyntax }
{}
