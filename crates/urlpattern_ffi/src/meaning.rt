//! Whether the parts of a pattern say which texts it matches.
ghost use Rattle.urlpattern_ffi.specs.KeptPatterns.{boxed_patterns};
ghost use Rattle.urlpattern_ffi.specs.ReportedMeanings.{IsMeaningReported};

use crate::pattern_box::{PatternBox, pattern_at};
use crate::status::Status;
use std::alloc::Global;

/// Whether each component of the pattern at an index has a meaning: `Done` if each has one,
/// `NoMatch` if not, `NoPattern` if there is no such pattern.
pub fn has_meaning(alloc: Global, kept: &Option<Box<PatternBox>>, index: usize) -> Status
    ensures { IsMeaningReported (boxed_patterns kept.now) index result }
{
    let pattern = match pattern_at(kept, index) {
        Some(pattern) => pattern,
        None => return Status::NoPattern,
    };
    match pattern.has_meaning_by_case(alloc) {
        Ok(true) => Status::Done,
        Ok(false) => Status::NoMatch,
        Err(_) => Status::OutOfMemory,
    }
}
