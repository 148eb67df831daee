//! Whether a pattern covers another one.
ghost use Rattle.std.specs.Prelude.{◌≡◌};
ghost use Rattle.urlpattern_ffi.specs.ReportedCoverings.{AreCompared, IsCoveringReported};
ghost use Rattle.urlpattern_ffi.specs.KeptPatterns.{boxed_patterns};
ghost use Rattle.urlpattern_ffi.specs.Mismatches.{no_component};

use crate::mismatching::{NO_COMPONENT, component_number};
use crate::pattern_box::{PatternBox, pattern_at};
use crate::status::Status;
use std::alloc::Global;
use urlpattern::regexp::PatternRegexp;
use urlpattern::rules::PatternCovering;
use urlpattern::{CompareError, UrlPattern};

/// Compares the pattern of `kept` at `index` with the asked one, the pattern of `others` at
/// `asked`: `Done` if it covers the asked one, `NoMatch` if not, `Unknown` if it is not known,
/// `NoPattern` if an index is out of range. Writes the number of a component in which the two
/// differ, or because of which it is not known, or else `NO_COMPONENT`.
pub fn covers(
    alloc: Global,
    kept: &Option<Box<PatternBox>>,
    index: usize,
    others: &Option<Box<PatternBox>>,
    asked: usize,
    component: &mut u32,
) -> Status
    ensures { IsCoveringReported (boxed_patterns kept.now) index (boxed_patterns others.now) asked
        component.new result }
{
    *component = NO_COMPONENT;
    let pattern = match pattern_at(kept, index) {
        Some(pattern) => pattern,
        None => return Status::NoPattern,
    };
    let other = match pattern_at(others, asked) {
        Some(other) => other,
        None => return Status::NoPattern,
    };
    compare(alloc, pattern, other, component)
}

/// Compares two patterns: `Done` if `pattern` covers `asked`, `NoMatch` if not, `Unknown` if it is
/// not known. Writes the number of the component to which that is due, if there is one. The caller
/// has written `NO_COMPONENT` before.
fn compare(
    alloc: Global,
    pattern: &UrlPattern<PatternRegexp>,
    asked: &UrlPattern<PatternRegexp>,
    component: &mut u32,
) -> Status
    requires { component.old ≡ no_component }
    ensures { AreCompared pattern.now asked.now component.new result }
{
    match pattern.covers(alloc, asked) {
        Ok(PatternCovering::Covered) => Status::Done,
        Ok(PatternCovering::NotCovered(parting)) => {
            *component = component_number(parting.component);
            Status::NoMatch
        }
        Ok(PatternCovering::Unknown(name, _)) => {
            *component = component_number(name);
            Status::Unknown
        }
        Err(CompareError::NoParts) => Status::Unknown,
        Err(CompareError::OutOfMemory) => Status::OutOfMemory,
    }
}
