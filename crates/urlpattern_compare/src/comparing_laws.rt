//! Laws of comparing patterns.

ghost use Rattle.std.specs.Prelude.{◌≡◌};
ghost use Rattle.urlpattern_compare.specs.DecidedComparisons.{ApartAreKnown, EqualAreCovered, PartedAreKnown};
ghost use Rattle.urlpattern_compare.specs.WorkBounds.{SmallAreCompared};
ghost use Rattle.urlpattern_compare.specs.declared.parts_automaton.TheConstants.{MOST_STATES};
ghost use Rattle.urlpattern_compare.specs.declared.search.TheConstants.{FEW_STATES, MOST_SETS};

/// A component that decides is not left aside for one of which nothing is known.
///
/// A pattern with the same parts and options in each component is covered, with custom regular
/// expressions too. `covers` is not `Unknown` if a text is known of a component that only the asked
/// pattern matches, nor `overlaps` if a component of the two is apart, but where to compare that
/// component may take too much work.
pub fn decided_comparisons_are_known()
    ensures equal { EqualAreCovered }
    ensures parted { PartedAreKnown }
    ensures apart { ApartAreKnown }
{}

/// To compare two components does not take too much work if no part is a custom regular expression,
/// and the numbers of characters and wildcards of both, a segment wildcard counted twice, with 1
/// added to each, are at most [`FEW_STATES`](crate::FEW_STATES) together.
///
/// Few components are that small: two with at most eight characters and wildcards are. `FEW_STATES`
/// is 19; [`MOST_SETS`](crate::MOST_SETS) and [`MOST_STATES`](crate::MOST_STATES) are 10,000.
pub fn small_components_are_compared()
    ensures compared { SmallAreCompared }
    ensures few { FEW_STATES ≡ 19 }
    ensures sets { MOST_SETS ≡ 10000 }
    ensures states { MOST_STATES ≡ 10000 }
{}
