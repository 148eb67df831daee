//! Policies of rules that allow or deny.
ghost use Rattle.std.specs.Prelude.{◌≡◌, [], OnErr, OnOk};
ghost use Rattle.urlpattern_policy.specs.Decisions.{AppendsRule};
ghost use Rattle.urlpattern_policy.specs.PolicyWords.{strict_options};
ghost use Rattle.urlpattern_differences.specs.declared.rules.Effect.TheVariants as effects;
ghost use Rattle.urlpattern_syntax.specs.Errors.{OnlyOutOfMemory};

mod deciding;

use std::alloc::Global;
use urlpattern::UrlPatternMap;
use urlpattern_differences::Effect;
use urlpattern_matcher::regexp::RegExp;
use urlpattern_pattern::UrlPattern;
use urlpattern_syntax::Error;

/// What a policy decides apart from its rules.
#[derive(Debug, Clone, Copy, PartialEq, Eq)]
pub struct PolicyOptions {
    /// What is decided about a URL that no rule matches.
    pub default: Effect,
    /// Whether a URL is brought to its plain spelling before it is matched. An opaque host, under a
    /// scheme that is not special, is then read as under `http`.
    pub plain_spelling: bool,
    /// Whether a URL with a user name or a password is denied, whatever the rules say.
    pub denies_credentials: bool,
}

impl PolicyOptions {
    /// Returns the options of a new policy: a URL that no rule matches is denied, and URLs are
    /// brought to their plain spelling. User names and passwords are left to the rules.
    pub fn new() -> Self
        ensures { result ≡ strict_options }
    {
        Self {
            default: Effect::Deny,
            plain_spelling: true,
            denies_credentials: false,
        }
    }
}

/// Rules in order, each of which allows or denies the URLs that its pattern matches. The first
/// rule that matches decides.
#[derive(Debug, Drop)]
pub struct UrlPolicy<R: RegExp = regex::Regex> {
    /// The rules: their patterns, each with what it decides.
    pub rules: UrlPatternMap<Effect, R>,
    /// What is decided apart from the rules.
    pub options: PolicyOptions,
}

impl<R: RegExp> UrlPolicy<R> {
    /// Returns a policy without rules, which denies every URL. Does not allocate.
    pub fn new(alloc: Global) -> Self
        ensures rules { result.rules ≡ [] }
        ensures options { result.options ≡ strict_options }
    {
        Self {
            rules: UrlPatternMap::new(alloc),
            options: PolicyOptions::new(),
        }
    }

    /// Appends a rule that allows the URLs that the pattern matches.
    ///
    /// If memory runs out, the pattern is dropped, and the policy is unchanged.
    pub fn allow(&mut self, pattern: UrlPattern<R>) -> Result<(), Error>
        ensures appended { OnOk result (AppendsRule self.old pattern effects.Allow self.new) }
        ensures unchanged { OnErr result (self.new ≡ self.old) }
        ensures memory { OnlyOutOfMemory result }
    {
        self.rules.try_insert(pattern, Effect::Allow)
    }

    /// Appends a rule that denies the URLs that the pattern matches.
    ///
    /// If memory runs out, the pattern is dropped, and the policy is unchanged.
    pub fn deny(&mut self, pattern: UrlPattern<R>) -> Result<(), Error>
        ensures appended { OnOk result (AppendsRule self.old pattern effects.Deny self.new) }
        ensures unchanged { OnErr result (self.new ≡ self.old) }
        ensures memory { OnlyOutOfMemory result }
    {
        self.rules.try_insert(pattern, Effect::Deny)
    }
}
