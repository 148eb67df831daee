//! Why a pattern has no URL with the values of its groups.

ghost use Rattle.std.specs.Prelude.{◌≡◌};
ghost use Rattle.urlpattern_generate.specs.NoLinkText.{no_link_text};
ghost use Rattle.urlpattern_generate.specs.declared.no_link.NoLink.TheVariants as errors;

use crate::generate_error::GenerateError;
use std::alloc::AllocError;
use std::{error, fmt};
use url::ParseError;
use urlpattern_components::ComponentName;

/// Why a pattern has no URL with the values of its groups.
///
/// ```rust no_link
/// match url {
///     Ok(url) => Ok(format!(in alloc; "user {id}: {url}")?),
///     Err(NoLink::OutOfMemory) => Err(Error::OutOfMemory),
///     Err(_) => Ok(format!(in alloc; "user {id}: no URL")?),
/// }
/// ```
#[derive(Debug, PartialEq, Eq, Drop)]
pub enum NoLink {
    /// A component has no text with the values of its groups.
    Component(GenerateError),
    /// `url` rejects the joined texts of the components.
    Url(ParseError),
    /// The joined texts are a URL with another text for this component, as `https://example.com`
    /// has the path `/`. If several components differ, among them a pathname that runs into the
    /// host before it, the pathname is named; otherwise the first.
    OtherText(ComponentName),
    /// Memory ran out.
    OutOfMemory,
}

/// Prints the reason in one line, with the component and the group where they are known, and what
/// to do.
impl fmt::Display for NoLink {
    ghost output = { no_link_text };

    fn fmt<W: fmt::Write>(&self, f: &mut fmt::Formatter<W>) -> fmt::Result {
        match self {
            Self::Component(error) => fmt::Display::fmt(error, f),
            Self::Url(reason) => write!(f, "no URL has these texts: {reason}"),
            Self::OtherText(component) => write!(
                f,
                "a URL with these texts has another {component}: give other texts, or change the pattern"
            ),
            Self::OutOfMemory => f.write_str("out of memory"),
        }
    }
}

impl error::Error for NoLink {}

impl From<AllocError> for NoLink {
    ghost from_gives = { λ _ error. error ≡ errors.OutOfMemory };

    fn from(_error: AllocError) -> NoLink {
        NoLink::OutOfMemory
    }
}
