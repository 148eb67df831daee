//! Patterns compared by their parts: which one is more specific, whether one covers another,
//! whether two overlap, which of a list are the first match of some texts, and whether texts exist
//! that some patterns match and others do not.
//!
//! A compiled pattern keeps its parts: `UrlPattern::parts` borrows them, `UrlPattern::into_parts`
//! moves them out. No URL is needed.

pub use crate::contention::{Contended, Contention, ContentionDoubt, contending};
pub use crate::list::{contending_patterns_match, unreachable_patterns_are_never_first};
pub use crate::router::{covered_routes_serve_nothing, unreached_routes_serve_nothing};
pub use urlpattern_compare::common_laws::{meanings_exist, small_questions_have_results};
pub use urlpattern_compare::comparing_laws::{
    decided_comparisons_are_known, small_components_are_compared,
};
pub use urlpattern_compare::order_laws::parts_are_in_order;
pub use urlpattern_compare::{
    Common, Doubt, Lack, Limits, Parting, PatternAutomata, PatternCovering, PatternOverlap,
    PatternParts, Reach, Reason, USUAL_LIMITS, compare_parts, find_common, first_covering,
    reach_of, reach_of_each,
};
pub use urlpattern_laws::common_texts::common_texts_are_matched;
pub use urlpattern_laws::parts::{
    covered_patterns_by_these_engines_match, covered_patterns_match, equal_patterns_match_alike,
    overlapping_patterns_match, patterns_covered_by_meaning_match,
    patterns_match_what_their_parts_mean, patterns_match_what_their_parts_mean_by_first_ways,
};
pub use urlpattern_syntax::ComponentParts;
