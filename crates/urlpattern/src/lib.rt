//! URL patterns: texts such as `/users/:id` that say which URLs match, and name parts of them.
//!
//! `UrlPatternList` and `UrlPatternMap` return the first pattern that matches, and
//! `UrlPatternRouter` the first route for a method. The module `quirks` is for browsers. This crate
//! re-exports what users need of the crates below it.
//!
//! <https://urlpattern.spec.whatwg.org/>
#![tactic(auto)]

mod contention;
mod list;
mod map;
mod path;
mod path_error;
pub mod quirks;
pub mod regexp;
mod router;
pub mod rules;
pub mod theorem;

pub use list::{UrlPatternList, UrlPatternMatches};
pub use map::{UrlPatternMap, UrlPatternMapIter, UrlPatternMapMatches};
pub use path::is_path;
pub use path_error::PathError;
pub use router::{
    AllowedMethods, Route, RouteConflicts, RouteContentions, RouteError, RouteReaches, Routed,
    Unreached, UnreachedRoute, UrlPatternRouter,
};
pub use urlpattern_canonical::canonicalize_and_process;
pub use urlpattern_components::{ComponentName, Eight};
pub use urlpattern_diagnosis::{Diagnosis, Fault, Span, Subject};
pub use urlpattern_generate::{GenerateError, GivenGroup, NoLink};
pub use urlpattern_init::{UrlPatternInit, UrlPatternMatchInput};
pub use urlpattern_inputs::UrlPatternOptions;
pub use urlpattern_laws::laws;
pub use urlpattern_matcher::{component, matcher};
pub use urlpattern_matches::{
    UrlPatternCaptures, UrlPatternCapturesIter, UrlPatternComponentResult, UrlPatternGroups,
    UrlPatternResult, are_lines, is_line, pathname_texts, url_texts,
};
pub use urlpattern_parser::{parser, tokenizer};
pub use urlpattern_pattern::{CompareError, UrlPattern};
pub use urlpattern_syntax::{Error, RegexSyntax, error};
pub use urlpattern_values::{DecodeError, decode, encode};
