//! Types and functions for browsers: an engine with ECMAScript's syntax, compiled patterns as plain
//! data, inits and inputs with texts for URLs, and the texts of a match input.

pub use crate::Error;
pub use crate::component::Component;
pub use urlpattern_engine::EcmaRegexp;
pub use urlpattern_inputs::{Inputs, MatchInput, StringOrInit, UrlPatternInit};
pub use urlpattern_matches::parse_match_input;
pub use urlpattern_plain::{InnerMatcher, Matcher, UrlPattern, UrlPatternComponent};
pub use urlpattern_quirks::{
    parse_pattern, parse_pattern_as_lib, process_construct_pattern_input, process_match_input,
};
