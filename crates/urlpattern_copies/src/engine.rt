//! Engines whose values can be copied.

ghost use Rattle.std.specs.Prelude.{◌≡◌, IfOk};
ghost use Rattle.urlpattern_matcher.specs.Matchers.{engine_view};

use crate::error::copied_error;
use std::alloc::AllocError;
use urlpattern_matcher::regexp::RegExp;
use urlpattern_syntax::Error;

/// An engine whose values can be copied.
///
/// A copy is equal to the value that it is a copy of: it was made of the same regular expression,
/// and returns the same captures for each text. `PatternRegexp` is such an engine. A value of
/// `regex::Regex` cannot be copied.
pub trait CloneRegExp: RegExp + Clone {
    ghost clones_are_equal: { (value copy : Self) → Self.is_clone value copy → copy ≡ value };
}

/// Returns a copy of an engine's value, or of the error that is kept in its place.
pub(crate) fn copied_engine<R: CloneRegExp>(
    engine: &Result<R, Error>,
) -> Result<Result<R, Error>, AllocError>
    ensures { IfOk result (λ copy. engine_view copy ≡ engine_view engine.now) }
{
    match engine {
        Ok(value) => Ok(Ok(copied(value)?)),
        Err(error) => Ok(Err(copied_error(error)?)),
    }
}

/// Returns an equal value of the engine.
fn copied<R: CloneRegExp>(value: &R) -> Result<R, AllocError>
    ensures { IfOk result (λ copy. copy ≡ value.now) }
{
    let copy = value.clone()?;
    Ok(copy)
}
