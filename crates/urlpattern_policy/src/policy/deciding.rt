//! Decides about URLs, and about texts.
ghost use Rattle.std.specs.Bool.{OnFalse, OnTrue};
ghost use Rattle.std.specs.Prelude.{◌≡◌, ◌&&◌, Ok, not, nat_le, IfErr, IfOk, option_copied};
ghost use Rattle.std.specs.Str.{chars};
ghost use Rattle.url.specs.Parser.{parse_url};
ghost use Rattle.urlpattern_canonical.specs.Canonical.{canonical_hostname, long_text};
ghost use Rattle.urlpattern_init.specs.Inheritance.{texts_of_url};
ghost use Rattle.urlpattern_matches.specs.GroupTexts.{borrowed_texts};
ghost use Rattle.urlpattern_policy.specs.Decisions.{Decides, DecidesHost, DecidesSpelled, DecidesTexts, DecidesUrl, IsHostRefusal, IsRefusal, IsRespelled, has_credentials, has_opaque_host, is_host_read, longest_bytes, matched_texts};
ghost use Rattle.urlpattern_syntax.specs.RegexpText.{is_empty};
ghost use Rattle.urlpattern_syntax.specs.Text.{text_of};

use super::UrlPolicy;
use crate::decision::{Decision, DenyReason};
use crate::spelled_texts::{are_plain, plain_texts};
use std::alloc::Global;
use url::{ParseError, Url};
use urlpattern_canonical::canonicalize_and_process::{canonicalize_hostname, is_special_scheme};
use urlpattern_components::Eight;
use urlpattern_differences::Effect;
use urlpattern_matcher::regexp::RegExp;
use urlpattern_matches::{input_texts, url_texts};
use urlpattern_syntax::Error;

/// A text of this many bytes is too long. `url` rejects no shorter one for its length.
const LONG_TEXT: usize = 1 << 24;

impl<R: RegExp> UrlPolicy<R> {
    /// Decides about a text, which is read as a URL, relative to the base URL if there is one.
    ///
    /// What is no URL is denied, and so is every text if memory runs out.
    pub fn decide(&self, alloc: Global, text: &str, base: Option<&Url>) -> Decision
        ensures { Decides R.answer self.now (option_copied base.entry) text.now result }
    {
        if is_too_long(text, base) {
            return Decision::Deny(DenyReason::TooLong);
        }
        match parsed(alloc, text, base) {
            Ok(url) => self.decide_url(alloc, &url),
            Err(reason) => Decision::Deny(reason),
        }
    }

    /// Decides about a URL.
    ///
    /// Only an engine allocates, and what brings a URL to its plain spelling that has another or an
    /// opaque host.
    pub fn decide_url(&self, alloc: Global, url: &Url) -> Decision
        ensures { DecidesUrl R.answer self.now (texts_of_url url.now) result }
    {
        self.decide_of_url(alloc, &url_texts(url))
    }

    /// Decides about the URL that has these eight texts.
    fn decide_of_url(&self, alloc: Global, texts: &Eight<&str>) -> Decision
        ensures { DecidesUrl R.answer self.now (borrowed_texts texts.now) result }
    {
        if self.denies_credentials_of(texts) {
            return Decision::Deny(DenyReason::Credentials);
        }
        if self.reads_host_of(texts) {
            return self.decide_by_host(alloc, texts);
        }
        self.decide_spelled(alloc, texts)
    }

    /// Decides about the URL that has these eight texts and an opaque host, by the host that `url`
    /// reads under `http`.
    fn decide_by_host(&self, alloc: Global, texts: &Eight<&str>) -> Decision
        ensures { DecidesHost R.answer self.now (borrowed_texts texts.now) result }
    {
        match read_host(alloc, texts.hostname) {
            Ok(host) => self.decide_spelled(alloc, &with_hostname(texts, &host)),
            Err(refusal) => Decision::Deny(refusal),
        }
    }

    /// Decides about the URL that has these eight texts, in plain spelling if the options say so.
    fn decide_spelled(&self, alloc: Global, texts: &Eight<&str>) -> Decision
        ensures { DecidesSpelled R.answer self.now (borrowed_texts texts.now) result }
    {
        if self.keeps_spelling_of(texts) {
            return self.decide_texts(alloc, texts);
        }
        let Ok(plain) = plain_texts(alloc, texts) else {
            return Decision::Deny(DenyReason::OutOfMemory);
        };
        self.decide_texts(alloc, &input_texts(&plain))
    }

    /// Whether the policy denies a URL with these texts for its user name or its password.
    fn denies_credentials_of(&self, texts: &Eight<&str>) -> bool
        ensures { result
            ≡ (self.now.options.denies_credentials && has_credentials (borrowed_texts texts.now)) }
    {
        self.options.denies_credentials
            && (is_written(texts.username) || is_written(texts.password))
    }

    /// Whether the host of a URL with these texts is read as that of a special scheme is.
    fn reads_host_of(&self, texts: &Eight<&str>) -> bool
        ensures { result ≡ is_host_read self.now.options (borrowed_texts texts.now) }
    {
        self.options.plain_spelling && has_opaque_host(texts)
    }

    /// Whether the texts are matched as they are spelled.
    fn keeps_spelling_of(&self, texts: &Eight<&str>) -> bool
        ensures kept { OnTrue result (matched_texts self.now.options (borrowed_texts texts.now)
            ≡ borrowed_texts texts.now) }
        ensures respelled { OnFalse result
            (IsRespelled self.now.options (borrowed_texts texts.now)) }
    {
        if self.options.plain_spelling {
            return are_plain(texts);
        }
        true
    }

    /// Decides about eight texts as they are spelled.
    fn decide_texts(&self, alloc: Global, texts: &Eight<&str>) -> Decision
        ensures { DecidesTexts R.answer self.now (borrowed_texts texts.now) result }
    {
        match self.rules.first_captures_of_texts(alloc, texts) {
            Ok(Some((index, effect, captures))) => {
                drop(captures);
                match effect {
                    Effect::Allow => Decision::Allow(Some(index)),
                    Effect::Deny => Decision::Deny(DenyReason::Rule(index)),
                }
            }
            Ok(None) => match self.options.default {
                Effect::Allow => Decision::Allow(None),
                Effect::Deny => Decision::Deny(DenyReason::NoRule),
            },
            Err(_) => Decision::Deny(DenyReason::OutOfMemory),
        }
    }
}

/// Whether a URL with these texts has an opaque host.
fn has_opaque_host(texts: &Eight<&str>) -> bool
    ensures { result ≡ has_opaque_host (borrowed_texts texts.now) }
{
    is_written(texts.hostname) && !is_special_scheme(texts.protocol)
}

/// Returns the texts with another hostname.
fn with_hostname<'s>(texts: &'s Eight<&str>, hostname: &'s str) -> Eight<&'s str>
    ensures { borrowed_texts result
        ≡ record (borrowed_texts texts.now) { hostname = chars hostname.now } }
{
    Eight {
        protocol: texts.protocol,
        username: texts.username,
        password: texts.password,
        hostname,
        port: texts.port,
        pathname: texts.pathname,
        search: texts.search,
        hash: texts.hash,
    }
}

/// Whether a text is not empty.
fn is_written(text: &str) -> bool
    ensures { result ≡ not (is_empty (chars text.now)) }
{
    !text.is_empty()
}

/// Whether a text, or the base URL, is too long.
fn is_too_long(text: &str, base: Option<&Url>) -> bool
    ensures { result ≡ nat_le long_text (longest_bytes (option_copied base.entry) text.now) }
{
    match base {
        Some(base) => text.len().max(base.as_str().len()) >= LONG_TEXT,
        None => text.len() >= LONG_TEXT,
    }
}

/// Returns the host that `url` reads under `http`, or why a URL with such a host is denied.
fn read_host(alloc: Global, host: &str) -> Result<String, DenyReason>
    ensures ok { IfOk result (λ text. canonical_hostname (chars host.now) ≡ Ok (text_of text)) }
    ensures err { IfErr result (IsRefusal (canonical_hostname (chars host.now))) }
{
    match canonicalize_hostname(alloc, host) {
        Ok(text) => Ok(text),
        Err(Error::Url(error)) => Err(host_refusal(error)),
        Err(_) => Err(DenyReason::OutOfMemory),
    }
}

/// Returns why a URL is denied whose host `url` rejects for this error.
fn host_refusal(error: ParseError) -> DenyReason
    ensures { IsHostRefusal error result }
{
    match error {
        ParseError::Overflow => DenyReason::OutOfMemory,
        _ => DenyReason::NotAUrl(error),
    }
}

/// Parses a text as a URL, relative to the base URL if there is one, or returns why it is denied.
fn parsed(alloc: Global, text: &str, base: Option<&Url>) -> Result<Url, DenyReason>
    ensures ok { IfOk result (λ url. parse_url (option_copied base.entry) text.now ≡ Ok url) }
    ensures err { IfErr result (IsRefusal (parse_url (option_copied base.entry) text.now)) }
{
    let url = match base {
        Some(base) => base.join(text),
        None => Url::parse(alloc, text),
    };
    match url {
        Ok(url) => Ok(url),
        Err(ParseError::OutOfMemory | ParseError::Overflow) => Err(DenyReason::OutOfMemory),
        Err(error) => Err(DenyReason::NotAUrl(error)),
    }
}
