//! Why a pattern has no text with the values of its groups.

ghost use Rattle.std.specs.Prelude.{◌≡◌, Some};
ghost use Rattle.urlpattern_generate.specs.GenerateErrorText.{generate_error_text};
ghost use Rattle.urlpattern_generate.specs.declared.generate_error.GenerateError.TheVariants as errors;

use std::alloc::AllocError;
use std::{error, fmt};
use urlpattern_components::ComponentName;

/// Why a pattern has no text with the values of its groups.
///
/// With `path` as the result of `UrlPattern::generate`:
///
/// ```rust generate_error
/// match path {
///     Ok(path) => Ok(format!(in alloc; "the path {path}")?),
///     Err(GenerateError::OutOfMemory) => Err(Error::OutOfMemory),
///     Err(error) => Ok(format!(in alloc; "no path: {error}")?),
/// }
/// ```
#[derive(Debug, PartialEq, Eq, Drop)]
pub enum GenerateError {
    /// The group of this name in this component has no value, and its modifier does not allow that
    /// it is left out.
    Missing(ComponentName, String),
    /// The group of this name in this component cannot capture its value, or `url` rejects the
    /// value.
    NotCaptured(ComponentName, String),
    /// The text of this component would be read with other captures than those requested, or not at
    /// all; or it is not canonical, so that no URL has it.
    ReadOtherwise(ComponentName),
    /// The pattern was put together by hand, so its parts are not known.
    NoParts,
    /// Memory ran out.
    OutOfMemory,
}

/// Prints the reason in one line, with the component and the group where they are known, and what
/// to do.
impl fmt::Display for GenerateError {
    ghost output = { λ error. Some (generate_error_text error) };

    fn fmt<W: fmt::Write>(&self, f: &mut fmt::Formatter<W>) -> fmt::Result {
        match self {
            Self::Missing(component, name) => write!(
                f,
                "the group `{component}.{name}` is missing: give a text for it"
            ),
            Self::NotCaptured(component, name) => write!(
                f,
                "the group `{component}.{name}` cannot capture what is given for it: give a text that it matches"
            ),
            Self::ReadOtherwise(component) => write!(
                f,
                "the {component} would be read with other groups, or no URL has it: give other texts"
            ),
            Self::NoParts => f.write_str(
                "the pattern was put together by hand, so that its parts are not known: compile it",
            ),
            Self::OutOfMemory => f.write_str("out of memory"),
        }
    }
}

impl error::Error for GenerateError {}

impl From<AllocError> for GenerateError {
    ghost from_gives = { λ _ error. error ≡ errors.OutOfMemory };

    fn from(_error: AllocError) -> GenerateError {
        GenerateError::OutOfMemory
    }
}
