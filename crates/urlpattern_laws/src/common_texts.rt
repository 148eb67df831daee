//! Laws of texts that some patterns match, and others do not.
//!
//! Each function has an empty body; its contract is a theorem.

ghost use Rattle.urlpattern_laws.specs.CommonReadings.{CoveringMatch, FoundAreMatched, NothingIsLeft};

use urlpattern_matcher::regexp::RegExp;

/// Each pattern of `all_of` matches the texts that `find_common` returns for the parts of some
/// patterns, and no pattern of `none_of` does. Where it returns `Nothing`, a pattern of `none_of`
/// matches any eight texts without line feeds that each pattern of `all_of` matches. Of patterns
/// that cover another one together, one matches any such texts that the other matches.
///
/// Premises: each pattern matches what its parts mean, where their meaning is known; and patterns
/// with a component of equal parts whose meaning is not known match the same texts there. Patterns
/// made of their parts meet the second, as [`covered_patterns_match`](crate::parts) says.
pub fn common_texts_are_matched<R: RegExp>()
    ensures found { FoundAreMatched R.answer }
    ensures nothing { NothingIsLeft R.answer }
    ensures covering { CoveringMatch R.answer }
{}
