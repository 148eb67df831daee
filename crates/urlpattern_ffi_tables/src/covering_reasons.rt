//! Why it is not known whether a pattern covers another one.
ghost use Rattle.std.specs.Prelude.{◌≡◌};
ghost use Rattle.urlpattern_ffi.specs.KeptPatterns.{boxed_patterns};
ghost use Rattle.urlpattern_ffi_tables.specs.CoveringReasons.{IsReasonFound, IsReasonReported, reason_number};

use std::alloc::Global;
use urlpattern::regexp::PatternRegexp;
use urlpattern::rules::{PatternCovering, Reason};
use urlpattern::{CompareError, UrlPattern};
use urlpattern_ffi::{PatternBox, Status, pattern_at};

/// The number of the reason that a pattern was put together by hand, and has no parts.
const NO_PARTS: u32 = 4;

/// Writes the number of the reason why it is not known whether the pattern of `kept` at `index`
/// covers the asked one, the pattern of `others` at `asked`. `NoMatch`: it is known. `NoPattern`:
/// an index is out of range.
pub fn covering_reason(
    alloc: Global,
    kept: &Option<Box<PatternBox>>,
    index: usize,
    others: &Option<Box<PatternBox>>,
    asked: usize,
    reason: &mut u32,
) -> Status
    ensures { IsReasonReported (boxed_patterns kept.now) index (boxed_patterns others.now) asked
        reason.old reason.new result }
{
    let pattern = match pattern_at(kept, index) {
        Some(pattern) => pattern,
        None => return Status::NoPattern,
    };
    let other = match pattern_at(others, asked) {
        Some(other) => other,
        None => return Status::NoPattern,
    };
    find_reason(alloc, pattern, other, reason)
}

/// Writes the number of the reason why it is not known whether a pattern covers the asked one.
/// `NoMatch`: it is known.
fn find_reason(
    alloc: Global,
    pattern: &UrlPattern<PatternRegexp>,
    asked: &UrlPattern<PatternRegexp>,
    reason: &mut u32,
) -> Status
    ensures { IsReasonFound pattern.now asked.now reason.old reason.new result }
{
    match pattern.covers(alloc, asked) {
        Ok(PatternCovering::Covered) => Status::NoMatch,
        Ok(PatternCovering::NotCovered(_)) => Status::NoMatch,
        Ok(PatternCovering::Unknown(_, why)) => {
            *reason = reason_number(why);
            Status::Done
        }
        Err(CompareError::NoParts) => {
            *reason = NO_PARTS;
            Status::Done
        }
        Err(CompareError::OutOfMemory) => Status::OutOfMemory,
    }
}

/// The number of a reason for C.
fn reason_number(reason: Reason) -> u32
    ensures { result ≡ reason_number reason }
{
    match reason {
        Reason::CustomExpression => 1,
        Reason::IgnoredCase => 2,
        Reason::TooMany => 3,
    }
}
