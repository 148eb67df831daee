//! Laws of common texts.

ghost use Rattle.urlpattern_compare.specs.CommonLaws.{FewNeedFewTexts, MeaningsExist, SmallHaveAutomata, SmallNeedFewSets, UsualAreWide};

/// Some meanings exist of any patterns, unless a component may need too many states: ways in which
/// unknown components may match. So what a result of [`find_common`](crate::find_common) says of
/// each is said of some.
pub fn meanings_exist()
    ensures { MeaningsExist }
{}

/// Small questions have results: [`find_common`](crate::find_common) does not return a doubt for
/// the work that they take.
///
/// The size of a component is the number of its characters and wildcards, a segment wildcard
/// counted twice, with 1 added. A component without custom regular expressions does not need too
/// many states if its size is at most [`MOST_STATES`](crate::MOST_STATES), nor too many sets of
/// states if 2 to the power of its size in all patterns is at most the limit. Not too many texts
/// have to be tried if 2 to the power of the number of components of `none_of` is at most the
/// limit, without those that match any text without line feeds, as `*` does, or of which nothing is
/// known. Most questions take far less. [`USUAL_LIMITS`](crate::USUAL_LIMITS) allow sizes of 13 and
/// 9 such components.
pub fn small_questions_have_results()
    ensures automata { SmallHaveAutomata }
    ensures sets { SmallNeedFewSets }
    ensures texts { FewNeedFewTexts }
    ensures usual { UsualAreWide }
{}
