//! Why a path finds no pattern of a list or a map.
ghost use Rattle.std.specs.Prelude.{◌≡◌, Some};
ghost use Rattle.urlpattern.specs.Paths.{path_error_text};
ghost use Rattle.urlpattern.specs.declared.path_error.PathError.TheVariants as errors;

use std::{error, fmt};
use urlpattern_syntax::error::OutOfMemory;

/// Why a path was not matched against the patterns of a list or a map.
#[derive(Debug, Clone, Copy, PartialEq, Eq)]
pub enum PathError {
    /// The text does not begin with `/`, or has a `?`, a `#` or a line feed.
    NotAPath,
    /// The allocator had no memory.
    OutOfMemory,
}

/// Prints the reason, in one line.
impl fmt::Display for PathError {
    ghost output = { λ error. Some (path_error_text error) };

    fn fmt<W: fmt::Write>(&self, f: &mut fmt::Formatter<W>) -> fmt::Result {
        match self {
            Self::NotAPath => {
                f.write_str("a path begins with `/` and has no `?`, no `#` and no line feed")
            }
            Self::OutOfMemory => f.write_str("out of memory"),
        }
    }
}

impl error::Error for PathError {}

impl From<OutOfMemory> for PathError {
    ghost from_gives = { λ _ error. error ≡ errors.OutOfMemory };

    fn from(_error: OutOfMemory) -> PathError {
        PathError::OutOfMemory
    }
}
