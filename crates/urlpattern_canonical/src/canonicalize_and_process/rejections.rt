//! The errors by which rejections of `url` are reported.
ghost use Rattle.std.specs.Prelude.{◌≡◌};
ghost use Rattle.urlpattern_syntax.specs.Errors.{error_view};
ghost use Rattle.urlpattern_canonical.specs.RejectedAs.{IsRejectedAs};
ghost use Rattle.urlpattern_canonical.specs.Canonical.{IsReported, reported_error};

use url::{ParseError, ParseResult};
use urlpattern_syntax::Error;

/// The least number of bytes of a text that may be too long for `url`.
const LONG_TEXT: usize = 1 << 24;

/// Converts a result of `url` for texts of at most `bytes` bytes.
///
/// Fails with the error of `url`; with out of memory in place of an overflow if `bytes` is less
/// than `LONG_TEXT`.
pub fn reported<T>(answer: ParseResult<T>, bytes: usize) -> Result<T, Error>
    ensures { IsReported answer bytes result }
{
    match answer {
        Ok(value) => Ok(value),
        Err(error) => Err(rejection(error, bytes)),
    }
}

/// Converts a result of `url` for texts of at most `bytes` bytes. Fails with `reason` for each
/// error of `url` other than an overflow and out of memory.
pub(super) fn rejected_as(
    reason: ParseError,
    answer: ParseResult<()>,
    bytes: usize,
) -> Result<(), Error>
    ensures { IsRejectedAs reason answer bytes result }
{
    match answer {
        Ok(()) => Ok(()),
        Err(error @ (ParseError::OutOfMemory | ParseError::Overflow)) => Err(rejection(
            error, bytes,
        )),
        Err(_) => Err(Error::Url(reason)),
    }
}

/// Converts an error of `url` on texts of at most `bytes` bytes. An overflow is out of memory if
/// `bytes` is less than `LONG_TEXT`.
fn rejection(error: ParseError, bytes: usize) -> Error
    ensures { error_view result ≡ reported_error error bytes }
{
    match error {
        ParseError::OutOfMemory => Error::OutOfMemory,
        ParseError::Overflow if bytes < LONG_TEXT => Error::OutOfMemory,
        _ => Error::Url(error),
    }
}
