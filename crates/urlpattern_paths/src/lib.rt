//! Paths that parts can be read into in one way only: of fixed texts, segments, and a wildcard at
//! the end. What such parts capture is read from a path in one pass, without an engine.
#![tactic(auto)]

mod by_parts;
mod path_captures;
mod read_once;
mod template;

pub use by_parts::{PathReading, match_with_path, path_template, read_by_template};
pub use template::PathTemplate;
