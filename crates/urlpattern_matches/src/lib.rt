//! What a pattern is matched against, and what it returns: the eight texts of an input, captures
//! and results.
//!
//! `urlpattern` re-exports the types of matches and results, `url_texts` and `pathname_texts`, and
//! `parse_match_input` in its module `quirks`. The rest is for `urlpattern_pattern` and the crates
//! above it.
#![tactic(auto)]

mod captures;
mod decoded;
mod group_maps;
mod groups_json;
mod input_parsing;
mod result;
pub mod result_laws;
mod texts;

pub use captures::{
    GroupCaptures, NoCaptures, UrlPatternCaptures, UrlPatternCapturesIter, UrlPatternGroups,
    assemble_match, copy_found,
};
pub use input_parsing::parse_match_input;
pub use result::{UrlPatternComponentResult, UrlPatternResult};
pub use texts::{are_lines, input_texts, is_line, pathname_texts, url_texts};
