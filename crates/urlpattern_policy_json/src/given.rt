//! Policies as they are given.

use urlpattern_differences::Effect;
use urlpattern_inputs::StringOrInit;

/// A rule as it is given: its pattern is not compiled.
#[derive(Debug, Drop)]
pub struct GivenRule {
    /// What is decided about the URLs that the pattern matches.
    pub effect: Effect,
    /// The pattern: a constructor string or an init.
    pub pattern: StringOrInit<'static>,
}

/// What a policy says apart from its rules.
#[derive(Debug, Clone, Copy, PartialEq, Eq)]
pub struct GivenSettings<'v> {
    /// The base URL of the patterns.
    pub base: Option<&'v str>,
    /// What is decided about a URL that no rule matches.
    pub default: Effect,
    /// Whether a URL is brought to its plain spelling before it is matched.
    pub plain_spelling: bool,
    /// Whether a URL with a user name or a password is denied, whatever the rules say.
    pub denies_credentials: bool,
}
