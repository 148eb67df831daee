//! Canonical values of the components of a URL, by `url`: a protocol begins a URL that is parsed,
//! any other value is set on a URL and read back.
#![tactic(auto, using(crate::proofs::SettingLemmas::empty_answered))]

ghost use Rattle.std.specs.Prelude.{◌≡◌, length, IsAscii};
ghost use Rattle.std.specs.Str.{chars};
ghost use Rattle.urlpattern_canonical.specs.Canonical.{IsResult, canonical_hash, canonical_hostname, canonical_opaque_pathname, canonical_password, canonical_pathname, canonical_port, canonical_protocol, canonical_search, canonical_username, port_bytes, scheme_for_port, without_added_prefix};
ghost use Rattle.urlpattern_syntax.specs.Text.{option_text};

use super::Canonicalizer;
use super::marks::begins_with_slash;
use super::rejections::{rejected_as, reported};
use super::schemes::is_special_scheme;
use super::urls::{parse_opaque, parse_under};
use url::{ParseError, quirks};
use urlpattern_syntax::Error;

impl Canonicalizer {
    /// Returns the canonical form of a protocol: the scheme of a URL that begins with the value. A
    /// special scheme is its own canonical form.
    ///
    /// Fails with `Error::Url` if `url` rejects the value.
    pub fn protocol(&self, value: &str) -> Result<String, Error>
        ensures { IsResult (canonical_protocol (chars value.now)) (length value.now) result }
    {
        if value.is_empty() {
            return Ok(String::new(self.alloc));
        }
        if is_special_scheme(value) {
            return Ok(String::from_str(self.alloc, value)?);
        }
        let url = parse_under(self.alloc, value, value.len())?;
        Ok(String::from_str(self.alloc, url.scheme())?)
    }

    /// Returns the canonical form of a user name.
    ///
    /// Fails with `Error::Url` if `url` rejects the value.
    pub fn username(&self, value: &str) -> Result<String, Error>
        ensures { IsResult (canonical_username (chars value.now)) (length value.now) result }
    {
        if value.is_empty() {
            return Ok(String::new(self.alloc));
        }
        let mut url = self.dummy()?;
        reported(url.set_username(value), value.len())?;
        Ok(String::from_str(self.alloc, url.username())?)
    }

    /// Returns the canonical form of a password.
    ///
    /// Fails with `Error::Url` if `url` rejects the value.
    pub fn password(&self, value: &str) -> Result<String, Error>
        ensures { IsResult (canonical_password (chars value.now)) (length value.now) result }
    {
        if value.is_empty() {
            return Ok(String::new(self.alloc));
        }
        let mut url = self.dummy()?;
        reported(url.set_password(Some(value)), value.len())?;
        Ok(String::from_str(self.alloc, quirks::password(&url))?)
    }

    /// Returns the canonical form of a hostname.
    ///
    /// Fails with `Error::Url` if `url` rejects the value.
    pub fn hostname(&self, value: &str) -> Result<String, Error>
        ensures { IsResult (canonical_hostname (chars value.now)) (length value.now) result }
    {
        if value.is_empty() {
            return Ok(String::new(self.alloc));
        }
        let mut url = self.dummy()?;
        let answer = quirks::set_hostname(&mut url, value);
        rejected_as(ParseError::InvalidDomainCharacter, answer, value.len())?;
        Ok(String::from_str(self.alloc, quirks::hostname(&url))?)
    }

    /// Returns the canonical form of a port, empty if it is the default port of `protocol`. `None`:
    /// there is no protocol, and no port is the default.
    ///
    /// Fails with `Error::Url` if `url` rejects the value.
    pub fn port(&self, value: &str, protocol: Option<&str>) -> Result<String, Error>
        ensures { IsResult (canonical_port (option_text protocol.entry) (chars value.now))
            (port_bytes value.now protocol.entry) result }
    {
        if value.is_empty() {
            return Ok(String::new(self.alloc));
        }
        let protocol = protocol.unwrap_or("");
        let bytes = value.len().max(protocol.len());
        let mut url = parse_under(self.alloc, scheme_for_port(protocol), bytes)?;
        rejected_as(
            ParseError::InvalidPort,
            quirks::set_port(&mut url, value),
            bytes,
        )?;
        Ok(String::from_str(self.alloc, quirks::port(&url))?)
    }

    /// Returns the canonical form of a path that is a list of segments. `/-` is put before a value
    /// without an initial slash, and removed from the path if still there.
    ///
    /// Fails with `Error::Url` if `url` rejects the value.
    pub fn pathname(&self, value: &str) -> Result<String, Error>
        ensures { IsResult (canonical_pathname (chars value.now)) (length value.now) result }
    {
        if value.is_empty() {
            return Ok(String::new(self.alloc));
        }
        if begins_with_slash(value) {
            let url = self.dummy_with_path(value, value.len())?;
            return Ok(String::from_str(self.alloc, url.path())?);
        }
        let guarded = format!(in self.alloc; "/-{value}")?;
        let url = self.dummy_with_path(&guarded, value.len())?;
        Ok(String::from_str(self.alloc, without_added_prefix(url.path()))?)
    }

    /// Returns the canonical form of an opaque path, such as that of a `data:` URL.
    ///
    /// Fails with `Error::Url` if `url` rejects the value.
    pub fn opaque_pathname(&self, value: &str) -> Result<String, Error>
        ensures { IsResult (canonical_opaque_pathname (chars value.now)) (length value.now) result }
    {
        if value.is_empty() {
            return Ok(String::new(self.alloc));
        }
        let mut url = parse_opaque(self.alloc)?;
        reported(url.set_path(value), value.len())?;
        Ok(String::from_str(self.alloc, url.path())?)
    }

    /// Returns the canonical form of a query.
    ///
    /// Fails with `Error::Url` if `url` rejects the value.
    pub fn search(&self, value: &str) -> Result<String, Error>
        ensures { IsResult (canonical_search (chars value.now)) (length value.now) result }
    {
        if value.is_empty() {
            return Ok(String::new(self.alloc));
        }
        let mut url = self.dummy()?;
        reported(url.set_query(Some(value)), value.len())?;
        Ok(String::from_str(self.alloc, url.query().unwrap_or(""))?)
    }

    /// Returns the canonical form of a fragment.
    ///
    /// Fails with `Error::Url` if `url` rejects the value.
    pub fn hash(&self, value: &str) -> Result<String, Error>
        ensures { IsResult (canonical_hash (chars value.now)) (length value.now) result }
    {
        if value.is_empty() {
            return Ok(String::new(self.alloc));
        }
        let mut url = self.dummy()?;
        reported(url.set_fragment(Some(value)), value.len())?;
        Ok(String::from_str(self.alloc, url.fragment().unwrap_or(""))?)
    }
}

/// Returns the scheme of the URL on which a port is set: the protocol, or `dummy` if that is empty.
fn scheme_for_port(protocol: &str) -> &str
    ensures { chars result.now ≡ scheme_for_port (chars protocol.now) }
{
    if protocol.is_empty() {
        "dummy"
    } else {
        protocol
    }
}

/// Returns the path without the `/-` at its start that was put before a value, if still there.
fn without_added_prefix(path: &str) -> &str
    requires { IsAscii path.now }
    ensures { result.now ≡ without_added_prefix path.now }
{
    match path.as_bytes() {
        [b'/', b'-', ..] => &path[2..],
        _ => path,
    }
}
