//! Patterns compared by their parts: which is more specific, which covers another, and which
//! overlap.
//!
//! A [`PatternParts`] has the parts of a pattern's eight components. [`PatternParts::covers`] and
//! [`PatternParts::overlaps`] compare which texts two patterns match, [`PatternParts::is_same`]
//! compares the parts themselves, [`PatternParts::hash_into`] feeds them to a hasher,
//! [`first_covering`] searches a list, and [`compare_parts`] orders parts by how specific they are.
//!
//! [`covers`] and [`overlaps`] compare the parts of one component. Each list of parts is turned
//! into a [`PartsAutomaton`], and a text is searched for that one of two automata accepts, and the
//! other accepts or rejects. [`find_common`] finds eight texts that each of some patterns matches,
//! and none of others, and [`reach_of_each`] says which patterns of a list are the first that match
//! some.
#![tactic(auto)]

mod accepting;
mod apart;
mod candidates;
mod cells;
mod classes;
pub mod common_laws;
mod common_texts;
pub mod comparing_laws;
mod component_coverage;
mod condition;
mod copies;
mod coverage;
mod edge_counts;
mod equal_parts;
mod examples;
mod exits;
mod first_cover;
mod first_uncovered;
mod folding;
mod fronts;
mod joint_states;
mod known_parts;
mod lacks;
mod moves;
mod order;
pub mod order_laws;
mod parts_automaton;
mod parts_hash;
mod pattern_parts;
mod reaching;
mod search;
mod shapes;
mod states;
mod text_search;
mod together;

pub use candidates::{Limits, USUAL_LIMITS};
pub use common_texts::{Common, Doubt, Lack, PatternAutomata, find_common};
pub use copies::copy_of;
pub use coverage::{Covering, Overlap, Reason, covers, overlaps};
pub use first_cover::first_covering;
pub use order::compare_parts;
pub use parts_automaton::{Edge, MOST_EDGES, MOST_STATES, PartsAutomaton, Test};
pub use pattern_parts::{Parting, PatternCovering, PatternOverlap, PatternParts};
pub use reaching::{Reach, reach_of, reach_of_each};
pub use search::{FEW_STATES, Found, MOST_SETS};
