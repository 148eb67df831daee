//! Percent-decodes texts.

ghost use Rattle.std.specs.Prelude.{◌≡◌, ◌↔◌, IfOk, IsTrue};
ghost use Rattle.std.specs.Str.{chars};
ghost use Rattle.urlpattern_values.specs.EncodedValues.{IsDecoded, decoded_bytes};

use percent_encoding::{DecodeError, percent_decode_str};
use std::alloc::{AllocError, Global};
use std::borrow::CowStr;

/// Returns the text, percent-decoded: each `%` with two hexadecimal digits after it is one byte.
/// Borrows the text if it has no such `%`.
///
/// The error is that the bytes are not UTF-8, or that memory ran out.
pub fn decode<'t>(alloc: Global, text: &'t str) -> Result<CowStr<'t>, DecodeError>
    ensures { IsDecoded (chars text.now) result }
{
    percent_decode_str(text).decode_utf8(alloc)
}

/// Whether two texts, percent-decoded, are equal bytes, whether or not these are UTF-8.
pub fn decode_alike(alloc: Global, text: &str, other: &str) -> Result<bool, AllocError>
    ensures { IfOk result (λ are.
        IsTrue are ↔ (decoded_bytes (chars text.now) ≡ decoded_bytes (chars other.now))) }
{
    let bytes = percent_decode_str(text).into_cow(alloc)?;
    let others = percent_decode_str(other).into_cow(alloc)?;
    Ok(are_same_bytes(bytes.as_slice(), others.as_slice()))
}

/// Whether bytes are equal.
fn are_same_bytes(bytes: &[u8], others: &[u8]) -> bool
    ensures { IsTrue result ↔ (bytes.now ≡ others.now) }
{
    bytes == others
}
