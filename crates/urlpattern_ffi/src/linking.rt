//! Writes the URL of a pattern with given groups.
ghost use Rattle.urlpattern_ffi.specs.KeptPatterns.{boxed_patterns};
ghost use Rattle.std.specs.Prelude.{◌≡◌, IfOk, string_bytes};
ghost use Rattle.urlpattern_ffi.specs.WrittenLinks.{reason_text, url_error_text, IsLinkReported, IsReasonWritten, IsUrlLinked};

use crate::pattern_box::{PatternBox, pattern_at};
use crate::status::Status;
use crate::text_buffers::write;
use std::alloc::{AllocError, Global};
use url::ParseError;
use urlpattern::regexp::PatternRegexp;
use urlpattern::{NoLink, UrlPattern};
use urlpattern_ffi_links::{GivenBytes, Unlinked};

/// Writes the URL of the pattern at an index, with the groups that `given` cuts out of `text`, to
/// `buffer`, and its length in bytes to `needed`. `Refused`: there is no URL, and the reason is
/// written in its place. `NoPattern`: there is no such pattern, or an element of `given` gives no
/// group.
pub fn link(
    alloc: Global,
    kept: &Option<Box<PatternBox>>,
    index: usize,
    text: &[u8],
    given: &[GivenBytes],
    buffer: &mut [u8],
    needed: &mut usize,
) -> Status
    ensures { IsLinkReported (boxed_patterns kept.now) index text.now given.now buffer.old
        buffer.new needed.new result }
{
    match pattern_at(kept, index) {
        Some(pattern) => link_pattern(alloc, pattern, text, given, buffer, needed),
        None => Status::NoPattern,
    }
}

/// Writes the URL of a pattern, with the groups that `given` cuts out of `text`, to `buffer`, and
/// its length in bytes to `needed`. `Refused`: there is no URL, and the reason is written in its
/// place. `NoPattern`: an element of `given` gives no group.
fn link_pattern(
    alloc: Global,
    pattern: &UrlPattern<PatternRegexp>,
    text: &[u8],
    given: &[GivenBytes],
    buffer: &mut [u8],
    needed: &mut usize,
) -> Status
    ensures { IsUrlLinked pattern.now text.now given.now buffer.old buffer.new needed.new result }
{
    match urlpattern_ffi_links::link(alloc, pattern, text, given) {
        Ok(url) => write(url.as_str(), buffer, needed),
        Err(Unlinked::NoLink(reason)) => write_reason(alloc, &reason, buffer, needed),
        Err(Unlinked::Given) => Status::NoPattern,
        Err(Unlinked::OutOfMemory) => Status::OutOfMemory,
    }
}

/// Writes to `buffer` why there is no URL, and the length of that in bytes to `needed`. `Refused`:
/// the reason is written.
pub fn write_reason(alloc: Global, reason: &NoLink, buffer: &mut [u8], needed: &mut usize) -> Status
    ensures { IsReasonWritten reason.now buffer.old buffer.new needed.new result }
{
    let Ok(text) = reason_text(alloc, reason) else {
        return Status::OutOfMemory;
    };
    match write(&text, buffer, needed) {
        Status::Done => Status::Refused,
        status => status,
    }
}

/// The message of the reason why there is no URL.
fn reason_text(alloc: Global, reason: &NoLink) -> Result<String, AllocError>
    ensures { IfOk result (λ text. string_bytes text ≡ reason_text reason.now) }
{
    match reason {
        NoLink::Url(error) => {
            format!(in alloc; "no URL has these texts: {}", url_error_text(*error))
        }
        NoLink::Component(_) | NoLink::OtherText(_) | NoLink::OutOfMemory => {
            reason.to_string(alloc)
        }
    }
}

/// Why `url` rejects a text, in words.
fn url_error_text(error: ParseError) -> &'static str
    ensures { result.now ≡ url_error_text error }
{
    match error {
        ParseError::EmptyHost => "empty host",
        ParseError::IdnaError => "invalid international domain name",
        ParseError::InvalidPort => "invalid port number",
        ParseError::InvalidIpv4Address => "invalid IPv4 address",
        ParseError::InvalidIpv6Address => "invalid IPv6 address",
        ParseError::InvalidDomainCharacter => "invalid domain character",
        ParseError::RelativeUrlWithoutBase => "relative URL without a base",
        ParseError::Overflow => "URLs more than 4 GB are not supported",
        _ => "they are those of no URL",
    }
}
