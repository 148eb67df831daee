//! Why rules are rejected.

ghost use Rattle.std.specs.Prelude.{◌≡◌};
ghost use Rattle.urlpattern_routes.specs.FaultWords.{member_text, reason_text};

use crate::attribute::RouterAttribute;

/// The member of a rule or of a condition that is at fault.
#[derive(Debug, Clone, Copy, PartialEq, Eq)]
pub enum RouterMember {
    /// `condition`
    Condition,
    /// `urlPattern`
    UrlPattern,
    /// The member that names this attribute.
    Attribute(RouterAttribute),
    /// `or`
    Or,
    /// `not`
    Not,
    /// `source`
    Source,
}

/// Why a member is rejected.
#[derive(Debug, Clone, Copy, PartialEq, Eq)]
pub enum RouterReason {
    /// The member is missing.
    Missing,
    /// The condition is within more `or` and `not` than the limit.
    TooDeep,
    /// The condition has no member that is known.
    Empty,
    /// `or` or `not` has other members beside it.
    NotAlone,
    /// The member is no array.
    NotAnArray,
    /// The member is neither a text, nor null, a Boolean or an integer that is not negative, which
    /// are read as texts.
    NotAText,
    /// The member is neither a text, null, nor an object with texts.
    NotAPattern,
    /// The text is no name of a method.
    NotAMethod,
    /// The method is one that `fetch` rejects: `CONNECT`, `TRACE` or `TRACK`.
    ForbiddenMethod,
    /// The text is none of the names that the member may have.
    UnknownName,
    /// The source needs a handler of the event `fetch`, and the worker has none.
    NoHandler,
}

/// A fault of a rule.
#[derive(Debug, Clone, Copy, PartialEq, Eq)]
pub struct RouterFault {
    /// The member at fault.
    pub member: RouterMember,
    /// Why the member is rejected.
    pub reason: RouterReason,
}

impl RouterMember {
    /// Returns the name of the member in JSON.
    pub fn as_str(self) -> &'static str
        ensures { result.now ≡ member_text self }
    {
        match self {
            Self::Condition => "condition",
            Self::UrlPattern => "urlPattern",
            Self::Attribute(attribute) => attribute.as_str(),
            Self::Or => "or",
            Self::Not => "not",
            Self::Source => "source",
        }
    }
}

impl RouterReason {
    /// Returns the reason in words, which go after the name of the member.
    pub fn as_str(self) -> &'static str
        ensures { result.now ≡ reason_text self }
    {
        match self {
            Self::Missing => "is missing",
            Self::TooDeep => "is within too many conditions",
            Self::Empty => "has no member that is known",
            Self::NotAlone => "has other members beside it",
            Self::NotAnArray => "is no array",
            Self::NotAText => "is no text",
            Self::NotAPattern => "is no text, and no object with texts",
            Self::NotAMethod => "is no method",
            Self::ForbiddenMethod => "is CONNECT, TRACE or TRACK",
            Self::UnknownName => "is none of its names",
            Self::NoHandler => "needs a handler of fetch events",
        }
    }
}
