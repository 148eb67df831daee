//! Percent-encodes values of groups.

ghost use Rattle.std.specs.Cow.{cow_str_bytes};
ghost use Rattle.std.specs.Prelude.{◌≡◌, IfOk};
ghost use Rattle.std.specs.Str.{chars};
ghost use Rattle.urlpattern_values.specs.EncodedValues.{encoded};

use percent_encoding::{AsciiSet, NON_ALPHANUMERIC, ascii_set, utf8_percent_encode};
use std::alloc::{AllocError, Global};
use std::borrow::CowStr;

/// The ASCII bytes of the component percent-encode set.
///
/// <https://url.spec.whatwg.org/#component-percent-encode-set>
const COMPONENT: AsciiSet = ascii_set!(
    NON_ALPHANUMERIC
        .remove(b'-')
        .remove(b'_')
        .remove(b'.')
        .remove(b'!')
        .remove(b'~')
        .remove(b'*')
        .remove(b'\'')
        .remove(b'(')
        .remove(b')')
);

/// Returns the value, percent-encoded as by `encodeURIComponent`: each byte of its UTF-8 that is
/// not an ASCII letter, a digit or one of `-_.!~*'()` is written as `%` and two hexadecimal digits.
/// Borrows the value if it has no such byte.
pub fn encode(alloc: Global, value: &str) -> Result<CowStr<'_>, AllocError>
    ensures { IfOk result (λ text. chars (cow_str_bytes text) ≡ encoded (chars value.now)) }
{
    utf8_percent_encode(value, COMPONENT).into_cow(alloc)
}
