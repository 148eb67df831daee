//! What is decided about a URL, and why.
ghost use Rattle.std.specs.Prelude.{◌≡◌};
ghost use Rattle.urlpattern_policy.specs.DecisionWords.{is_allow};

use url::ParseError;

/// What a policy decides about a URL, or about a text that may be none.
#[derive(Debug, Clone, Copy, PartialEq, Eq)]
pub enum Decision {
    /// Denied, for this reason.
    Deny(DenyReason),
    /// Allowed by the rule at this index. `None`: no rule matches, and the default is to allow.
    Allow(Option<usize>),
}

impl Decision {
    /// Whether the URL is allowed.
    pub fn is_allowed(&self) -> bool
        ensures { result ≡ is_allow self.now }
    {
        match self {
            Self::Allow(_) => true,
            Self::Deny(_) => false,
        }
    }
}

/// Why a URL, or a text that may be none, is denied.
#[derive(Debug, Clone, Copy, PartialEq, Eq)]
pub enum DenyReason {
    /// The rule at this index denies the URL.
    Rule(usize),
    /// No rule matches, and the default is to deny.
    NoRule,
    /// The text is no URL; or its host is opaque, and `url` rejects it under `http`.
    NotAUrl(ParseError),
    /// The text or the base URL has 16 MB or more.
    TooLong,
    /// The URL has a user name or a password, which the policy denies.
    Credentials,
    /// The allocator had no memory.
    OutOfMemory,
}
