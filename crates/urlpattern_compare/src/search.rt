//! What a search for a text finds, and how far it goes.

ghost use Rattle.urlpattern_compare.specs.Searching.{IsMostSets};

/// What a search found.
#[derive(Debug, Drop)]
pub enum Found {
    /// The characters of a text of the kind that was sought.
    Text(Vec<char>),
    /// No text of the kind that was sought exists.
    Nothing,
    /// The search reached more sets of states than it may, and was given up.
    TooMany,
}

/// The number of sets of states beyond which a search is given up, unless the automata have few
/// states.
pub const MOST_SETS: usize = 10_000;

/// A search of automata with at most this many states together is never given up.
pub const FEW_STATES: usize = 19;

/// The number of sets of [`FEW_STATES`] states.
pub(crate) const SETS_OF_FEW: usize = 524_288;

/// How many sets of states a search of two automata reaches at most before it is given up; `states`
/// and `others` are the numbers of their states.
pub(crate) fn most_sets(states: usize, others: usize) -> usize
    ensures { IsMostSets states others result }
{
    if states <= FEW_STATES && others <= FEW_STATES - states {
        SETS_OF_FEW
    } else {
        MOST_SETS
    }
}
