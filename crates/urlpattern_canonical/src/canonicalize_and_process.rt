//! Canonical values of the components of a URL, and the values of an init.
//!
//! <https://urlpattern.spec.whatwg.org/#canon>
ghost use Rattle.std.specs.Prelude.{◌≡◌, Ok, length, IfOk};
ghost use Rattle.std.specs.{Option.ForSome, Str.chars};
ghost use Rattle.urlpattern_syntax.specs.Text.{text_of, option_text};
ghost use Rattle.urlpattern_syntax.specs.Errors.{OnlyOutOfMemory};
ghost use Rattle.urlpattern_canonical.specs.Canonical.{IsResult, IsPathnameResult, IsPortResult, bytes_passed, canonical_hash, canonical_hostname, canonical_opaque_pathname, canonical_password, canonical_pathname, canonical_port, canonical_protocol, canonical_search, canonical_username, dummy_url, port_bytes, processed_base, processed_hash, processed_hostname, processed_password, processed_protocol, processed_search, processed_username};

mod init_values;
mod ipv6;
mod marks;
mod rejections;
mod schemes;
mod urls;
mod values;

pub use ipv6::canonicalize_ipv6_hostname;
pub use marks::{begins_with_slash, without_first};
pub use rejections::reported;
pub use schemes::{is_special_scheme, special_scheme_default_port};
use std::alloc::Global;
use url::Url;
use urlpattern_syntax::Error;
pub use urlpattern_syntax::escape::escape_pattern_string;

/// Makes the values of components canonical by `url`: a protocol begins a URL that is parsed, any
/// other value is set on a URL and read back. An empty value stays empty.
///
/// The URL on which most values are set may be parsed once and is then copied for each of them.
///
/// ```rust canonicalizer
/// let canonicalizer = Canonicalizer::shared(alloc)?;
/// let path = canonicalizer.pathname("/a/../b")?;
/// ```
#[derive(Drop)]
pub struct Canonicalizer {
    alloc: Global,
    dummy: Option<Url>,
    ghost parsed: { ForSome dummy (λ url. dummy_url ≡ Ok url) },
}

/// What a value of an init is for.
#[derive(Debug, PartialEq, Eq, Drop)]
pub enum ProcessType {
    /// A pattern of a component.
    Pattern,
    /// A component of a URL.
    Url,
}

/// Returns the canonical form of a protocol: the scheme of a URL that begins with the value.
///
/// Fails with `Error::Url` if `url` rejects the value.
///
/// <https://urlpattern.spec.whatwg.org/#canonicalize-a-protocol>
pub fn canonicalize_protocol(alloc: Global, value: &str) -> Result<String, Error>
    ensures { IsResult (canonical_protocol (chars value.now)) (length value.now) result }
{
    Canonicalizer::new(alloc).protocol(value)
}

/// Returns the canonical form of a user name.
///
/// Fails with `Error::Url` if `url` rejects the value.
///
/// <https://urlpattern.spec.whatwg.org/#canonicalize-a-username>
pub fn canonicalize_username(alloc: Global, value: &str) -> Result<String, Error>
    ensures { IsResult (canonical_username (chars value.now)) (length value.now) result }
{
    Canonicalizer::new(alloc).username(value)
}

/// Returns the canonical form of a password.
///
/// Fails with `Error::Url` if `url` rejects the value.
///
/// <https://urlpattern.spec.whatwg.org/#canonicalize-a-password>
pub fn canonicalize_password(alloc: Global, value: &str) -> Result<String, Error>
    ensures { IsResult (canonical_password (chars value.now)) (length value.now) result }
{
    Canonicalizer::new(alloc).password(value)
}

/// Returns the canonical form of a hostname.
///
/// Fails with `Error::Url` if `url` rejects the value.
///
/// <https://urlpattern.spec.whatwg.org/#canonicalize-a-hostname>
pub fn canonicalize_hostname(alloc: Global, value: &str) -> Result<String, Error>
    ensures { IsResult (canonical_hostname (chars value.now)) (length value.now) result }
{
    Canonicalizer::new(alloc).hostname(value)
}

/// Returns the canonical form of a port, empty if it is the default port of `protocol`. `None`:
/// there is no protocol, and no port is the default.
///
/// Fails with `Error::Url` if `url` rejects the value.
///
/// <https://urlpattern.spec.whatwg.org/#canonicalize-a-port>
pub fn canonicalize_port(
    alloc: Global,
    value: &str,
    protocol: Option<&str>,
) -> Result<String, Error>
    ensures { IsResult (canonical_port (option_text protocol.entry) (chars value.now))
        (port_bytes value.now protocol.entry) result }
{
    Canonicalizer::new(alloc).port(value, protocol)
}

/// Returns the canonical form of a path that is a list of segments.
///
/// Fails with `Error::Url` if `url` rejects the value.
///
/// <https://urlpattern.spec.whatwg.org/#canonicalize-a-pathname>
pub fn canonicalize_pathname(alloc: Global, value: &str) -> Result<String, Error>
    ensures { IsResult (canonical_pathname (chars value.now)) (length value.now) result }
{
    Canonicalizer::new(alloc).pathname(value)
}

/// Returns the canonical form of an opaque path, such as that of a `data:` URL.
///
/// Fails with `Error::Url` if `url` rejects the value.
///
/// <https://urlpattern.spec.whatwg.org/#canonicalize-an-opaque-pathname>
pub fn canonicalize_an_opaque_pathname(alloc: Global, value: &str) -> Result<String, Error>
    ensures { IsResult (canonical_opaque_pathname (chars value.now)) (length value.now) result }
{
    Canonicalizer::new(alloc).opaque_pathname(value)
}

/// Returns the canonical form of a query.
///
/// Fails with `Error::Url` if `url` rejects the value.
///
/// <https://urlpattern.spec.whatwg.org/#canonicalize-a-search>
pub fn canonicalize_search(alloc: Global, value: &str) -> Result<String, Error>
    ensures { IsResult (canonical_search (chars value.now)) (length value.now) result }
{
    Canonicalizer::new(alloc).search(value)
}

/// Returns the canonical form of a fragment.
///
/// Fails with `Error::Url` if `url` rejects the value.
///
/// <https://urlpattern.spec.whatwg.org/#canonicalize-a-hash>
pub fn canonicalize_hash(alloc: Global, value: &str) -> Result<String, Error>
    ensures { IsResult (canonical_hash (chars value.now)) (length value.now) result }
{
    Canonicalizer::new(alloc).hash(value)
}

/// Returns the protocol of an init: the value without a final colon, made canonical if it is for a
/// URL.
///
/// Fails with `Error::Url` if `url` rejects a value for a URL.
///
/// <https://urlpattern.spec.whatwg.org/#process-protocol-for-init>
pub fn process_protocol_init(
    alloc: Global,
    value: &str,
    kind: &ProcessType,
) -> Result<String, Error>
    ensures { IsResult (processed_protocol kind.now (chars value.now))
        (bytes_passed kind.now (length value.now)) result }
{
    Canonicalizer::new(alloc).process_protocol(value, kind)
}

/// Returns the user name of an init: unchanged for a pattern, canonical for a URL.
///
/// Fails with `Error::Url` if `url` rejects a value for a URL.
///
/// <https://urlpattern.spec.whatwg.org/#process-username-for-init>
pub fn process_username_init(
    alloc: Global,
    value: &str,
    kind: &ProcessType,
) -> Result<String, Error>
    ensures { IsResult (processed_username kind.now (chars value.now))
        (bytes_passed kind.now (length value.now)) result }
{
    Canonicalizer::new(alloc).process_username(value, kind)
}

/// Returns the password of an init: unchanged for a pattern, canonical for a URL.
///
/// Fails with `Error::Url` if `url` rejects a value for a URL.
///
/// <https://urlpattern.spec.whatwg.org/#process-password-for-init>
pub fn process_password_init(
    alloc: Global,
    value: &str,
    kind: &ProcessType,
) -> Result<String, Error>
    ensures { IsResult (processed_password kind.now (chars value.now))
        (bytes_passed kind.now (length value.now)) result }
{
    Canonicalizer::new(alloc).process_password(value, kind)
}

/// Returns the hostname of an init: unchanged for a pattern, canonical for a URL.
///
/// Fails with `Error::Url` if `url` rejects a value for a URL.
///
/// <https://urlpattern.spec.whatwg.org/#process-hostname-for-init>
pub fn process_hostname_init(
    alloc: Global,
    value: &str,
    kind: &ProcessType,
) -> Result<String, Error>
    ensures { IsResult (processed_hostname kind.now (chars value.now))
        (bytes_passed kind.now (length value.now)) result }
{
    Canonicalizer::new(alloc).process_hostname(value, kind)
}

/// Returns the port of an init: unchanged for a pattern; for a URL canonical, and empty if it is
/// the default port of `protocol`.
///
/// Fails with `Error::Url` if `url` rejects a value for a URL.
///
/// <https://urlpattern.spec.whatwg.org/#process-port-for-init>
pub fn process_port_init(
    alloc: Global,
    value: &str,
    protocol: Option<&str>,
    kind: &ProcessType,
) -> Result<String, Error>
    ensures { IsPortResult kind.now value.now protocol.entry result }
{
    Canonicalizer::new(alloc).process_port(value, protocol, kind)
}

/// Returns the pathname of an init: unchanged for a pattern; for a URL canonical, as a list of
/// segments or as an opaque path, by `protocol` and an initial slash.
///
/// Fails with `Error::Url` if `url` rejects a value for a URL.
///
/// <https://urlpattern.spec.whatwg.org/#process-pathname-for-init>
pub fn process_pathname_init(
    alloc: Global,
    value: &str,
    protocol: Option<&str>,
    kind: &ProcessType,
) -> Result<String, Error>
    ensures { IsPathnameResult kind.now value.now protocol.entry result }
{
    Canonicalizer::new(alloc).process_pathname(value, protocol, kind)
}

/// Returns the search of an init: the value without an initial question mark, made canonical if it
/// is for a URL.
///
/// Fails with `Error::Url` if `url` rejects a value for a URL.
///
/// <https://urlpattern.spec.whatwg.org/#process-search-for-init>
pub fn process_search_init(alloc: Global, value: &str, kind: &ProcessType) -> Result<String, Error>
    ensures { IsResult (processed_search kind.now (chars value.now))
        (bytes_passed kind.now (length value.now)) result }
{
    Canonicalizer::new(alloc).process_search(value, kind)
}

/// Returns the hash of an init: the value without an initial number sign, made canonical if it is
/// for a URL.
///
/// Fails with `Error::Url` if `url` rejects a value for a URL.
///
/// <https://urlpattern.spec.whatwg.org/#process-hash-for-init>
pub fn process_hash_init(alloc: Global, value: &str, kind: &ProcessType) -> Result<String, Error>
    ensures { IsResult (processed_hash kind.now (chars value.now))
        (bytes_passed kind.now (length value.now)) result }
{
    Canonicalizer::new(alloc).process_hash(value, kind)
}

/// Returns a text that an init takes over from its base URL
/// (<https://urlpattern.spec.whatwg.org/#process-a-base-url-string>).
///
/// For a pattern the text is escaped; for a URL it is unchanged.
pub fn process_base_url(alloc: Global, input: &str, kind: &ProcessType) -> Result<String, Error>
    ensures ok { IfOk result (λ text. text_of text ≡ processed_base kind.now (chars input.now)) }
    ensures memory { OnlyOutOfMemory result }
{
    match kind {
        ProcessType::Pattern => escape_pattern_string(alloc, input),
        ProcessType::Url => Ok(String::from_str(alloc, input)?),
    }
}
