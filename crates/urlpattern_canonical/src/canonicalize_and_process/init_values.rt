//! The values of an init: for a pattern as they are, for a URL canonical. A final colon of a
//! protocol and an initial mark of a search or a hash are removed for both.
ghost use Rattle.std.specs.Prelude.{◌≡◌, Some, length, IfOk};
ghost use Rattle.std.specs.Str.{chars};
ghost use Rattle.urlpattern_syntax.specs.Text.{text_of, option_text};
ghost use Rattle.urlpattern_syntax.specs.Errors.{OnlyOutOfMemory};
ghost use Rattle.urlpattern_canonical.specs.Canonical.{IsResult, IsPathnameResult, IsPortResult, bytes_passed, is_hierarchical, is_hierarchical_under, processed_hash, processed_hostname, processed_password, processed_protocol, processed_search, processed_username};

use super::marks::{begins_with_slash, without_colon, without_first};
use super::schemes::is_special_scheme;
use super::{Canonicalizer, ProcessType};
use urlpattern_syntax::Error;

impl Canonicalizer {
    /// Returns the protocol of an init: the value without a final colon, made canonical if it is
    /// for a URL.
    ///
    /// Fails with `Error::Url` if the value is for a URL and `url` rejects it.
    pub fn process_protocol(&self, value: &str, kind: &ProcessType) -> Result<String, Error>
        ensures { IsResult (processed_protocol kind.now (chars value.now))
            (bytes_passed kind.now (length value.now)) result }
    {
        let value = without_colon(value);
        match kind {
            ProcessType::Pattern => self.kept(value),
            ProcessType::Url => self.protocol(value),
        }
    }

    /// Returns the user name of an init: unchanged for a pattern, canonical for a URL.
    ///
    /// Fails with `Error::Url` if the value is for a URL and `url` rejects it.
    pub fn process_username(&self, value: &str, kind: &ProcessType) -> Result<String, Error>
        ensures { IsResult (processed_username kind.now (chars value.now))
            (bytes_passed kind.now (length value.now)) result }
    {
        match kind {
            ProcessType::Pattern => self.kept(value),
            ProcessType::Url => self.username(value),
        }
    }

    /// Returns the password of an init: unchanged for a pattern, canonical for a URL.
    ///
    /// Fails with `Error::Url` if the value is for a URL and `url` rejects it.
    pub fn process_password(&self, value: &str, kind: &ProcessType) -> Result<String, Error>
        ensures { IsResult (processed_password kind.now (chars value.now))
            (bytes_passed kind.now (length value.now)) result }
    {
        match kind {
            ProcessType::Pattern => self.kept(value),
            ProcessType::Url => self.password(value),
        }
    }

    /// Returns the hostname of an init: unchanged for a pattern, canonical for a URL.
    ///
    /// Fails with `Error::Url` if the value is for a URL and `url` rejects it.
    pub fn process_hostname(&self, value: &str, kind: &ProcessType) -> Result<String, Error>
        ensures { IsResult (processed_hostname kind.now (chars value.now))
            (bytes_passed kind.now (length value.now)) result }
    {
        match kind {
            ProcessType::Pattern => self.kept(value),
            ProcessType::Url => self.hostname(value),
        }
    }

    /// Returns the port of an init: unchanged for a pattern; for a URL canonical, and empty if it
    /// is the default port of `protocol`.
    ///
    /// Fails with `Error::Url` if the value is for a URL and `url` rejects it.
    pub fn process_port(
        &self,
        value: &str,
        protocol: Option<&str>,
        kind: &ProcessType,
    ) -> Result<String, Error>
        ensures { IsPortResult kind.now value.now protocol.entry result }
    {
        match kind {
            ProcessType::Pattern => self.kept(value),
            ProcessType::Url => self.port(value, protocol),
        }
    }

    /// Returns the pathname of an init: unchanged for a pattern; for a URL canonical, as a list of
    /// segments or as an opaque path, by `protocol` and an initial slash.
    ///
    /// Fails with `Error::Url` if the value is for a URL and `url` rejects it.
    pub fn process_pathname(
        &self,
        value: &str,
        protocol: Option<&str>,
        kind: &ProcessType,
    ) -> Result<String, Error>
        ensures { IsPathnameResult kind.now value.now protocol.entry result }
    {
        match kind {
            ProcessType::Pattern => self.kept(value),
            ProcessType::Url => self.pathname_under(value, protocol),
        }
    }

    /// Returns the search of an init: the value without an initial question mark, made canonical if
    /// it is for a URL.
    ///
    /// Fails with `Error::Url` if the value is for a URL and `url` rejects it.
    pub fn process_search(&self, value: &str, kind: &ProcessType) -> Result<String, Error>
        ensures { IsResult (processed_search kind.now (chars value.now))
            (bytes_passed kind.now (length value.now)) result }
    {
        let value = without_first(value, b'?');
        match kind {
            ProcessType::Pattern => self.kept(value),
            ProcessType::Url => self.search(value),
        }
    }

    /// Returns the hash of an init: the value without an initial number sign, made canonical if it
    /// is for a URL.
    ///
    /// Fails with `Error::Url` if the value is for a URL and `url` rejects it.
    pub fn process_hash(&self, value: &str, kind: &ProcessType) -> Result<String, Error>
        ensures { IsResult (processed_hash kind.now (chars value.now))
            (bytes_passed kind.now (length value.now)) result }
    {
        let value = without_first(value, b'#');
        match kind {
            ProcessType::Pattern => self.kept(value),
            ProcessType::Url => self.hash(value),
        }
    }

    /// Returns the canonical form of a path, which is a list of segments or opaque, by `protocol`
    /// and an initial slash.
    fn pathname_under(&self, value: &str, protocol: Option<&str>) -> Result<String, Error>
        ensures { IsPathnameResult ProcessType.Url value.now protocol.entry result }
    {
        if is_hierarchical(protocol, value) {
            self.pathname(value)
        } else {
            self.opaque_pathname(value)
        }
    }

    /// Returns a copy of a value for a pattern.
    fn kept(&self, value: &str) -> Result<String, Error>
        ensures ok { IfOk result (λ text. text_of text ≡ chars value.now) }
        ensures memory { OnlyOutOfMemory result }
    {
        Ok(String::from_str(self.alloc, value)?)
    }
}

/// Whether a path is a list of segments: there is a protocol that is empty or special, or the path
/// begins with a slash.
fn is_hierarchical(protocol: Option<&str>, pathname: &str) -> bool
    ensures { result ≡ is_hierarchical (option_text protocol.entry) (chars pathname.now) }
{
    match protocol {
        Some(protocol) if makes_hierarchical(protocol) => true,
        _ => begins_with_slash(pathname),
    }
}

/// Whether any path under this protocol is a list of segments: the protocol is empty or special.
fn makes_hierarchical(protocol: &str) -> bool
    ensures { result ≡ is_hierarchical_under (Some (chars protocol.now)) }
{
    protocol.is_empty() || is_special_scheme(protocol)
}
