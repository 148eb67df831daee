//! Why a router takes no route.
ghost use Rattle.std.specs.Prelude.{Some};
ghost use Rattle.urlpattern.specs.Routes.{route_error_text};

use std::{error, fmt};

/// Why a route was not added to a router.
#[derive(Debug, Clone, Copy, PartialEq, Eq)]
pub enum RouteError {
    /// A route of the router has the name.
    NameTaken,
    /// The method is no token of HTTP (RFC 9110, section 5.6.2), as one with a space.
    NotAMethod,
    /// The allocator had no memory.
    OutOfMemory,
}

/// Prints the reason, in one line.
impl fmt::Display for RouteError {
    ghost output = { λ error. Some (route_error_text error) };

    fn fmt<W: fmt::Write>(&self, f: &mut fmt::Formatter<W>) -> fmt::Result {
        match self {
            Self::NameTaken => f.write_str("another route has the name"),
            Self::NotAMethod => f.write_str("the method is not a token, such as `GET`"),
            Self::OutOfMemory => f.write_str("out of memory"),
        }
    }
}

impl error::Error for RouteError {}
