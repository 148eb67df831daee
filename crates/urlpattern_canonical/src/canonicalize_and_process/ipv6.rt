//! IPv6 addresses in brackets.
ghost use Rattle.std.specs.Prelude.{◌≡◌};
ghost use Rattle.std.specs.{List.list_all, Str.chars};
ghost use Rattle.urlpattern_canonical.specs.Canonical.{IsResult, canonical_ipv6_hostname, is_ipv6_character};

use std::alloc::Global;
use url::ParseError;
use urlpattern_syntax::Error;

/// Returns the canonical form of an IPv6 address in brackets: in lower case.
///
/// Fails with `Error::Url(ParseError::InvalidIpv6Address)` if the value has any other character
/// than hexadecimal digits, colons and brackets.
///
/// <https://urlpattern.spec.whatwg.org/#canonicalize-an-ipv6-hostname>
pub fn canonicalize_ipv6_hostname(alloc: Global, value: &str) -> Result<String, Error>
    ensures { IsResult (canonical_ipv6_hostname (chars value.now)) 0 result }
{
    if !is_ipv6_text(value) {
        return Err(Error::Url(ParseError::InvalidIpv6Address));
    }
    Ok(value.to_ascii_lowercase(alloc)?)
}

/// Whether each character of the text may occur in an IPv6 address in brackets.
fn is_ipv6_text(value: &str) -> bool
    ensures { result ≡ list_all is_ipv6_character value.now }
{
    value.as_bytes().iter().all(|&b| is_ipv6_byte(b))
}

/// Whether the byte may occur in an IPv6 address in brackets: a hexadecimal digit, a bracket or a
/// colon.
fn is_ipv6_byte(b: u8) -> bool
    ensures { result ≡ is_ipv6_character b }
{
    b.is_ascii_hexdigit() || matches!(b, b'[' | b']' | b':')
}
