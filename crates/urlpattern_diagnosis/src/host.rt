//! Where and why `url` rejects a hostname, and why it rejects a port.
ghost use Rattle.urlpattern_diagnosis.specs.Faults.{IsFaultIn, IsSingleSpan};
ghost use Rattle.urlpattern_diagnosis.specs.Spans.{IsPartOf, IsSpanIn};

use crate::fault::Fault;
use crate::span::Span;
use crate::wide::{ascii_form, ascii_form_of};

/// The decimal digits.
const DIGITS: [char; 10] = ['0', '1', '2', '3', '4', '5', '6', '7', '8', '9'];

/// The characters that no domain contains, except controls, `%`, `:` and `\`.
const FORBIDDEN: &str = " #/<>?@[]^|";

/// The controls that URL parsing skips.
const SKIPPED: &str = "\t\n\r";

/// Returns the fault of a rejected hostname, the span `host` of `text`: its first character that no
/// domain contains, or the first number over 255 if it consists of four numbers, or else all of it.
/// A hostname that begins with `[` is at fault as a whole.
///
/// <https://url.spec.whatwg.org/#forbidden-host-code-point>
pub fn fault_of_host(text: &str, host: Span) -> Fault
    requires { IsSpanIn text.now host }
    ensures part { IsSingleSpan (IsPartOf host) result }
    ensures within { IsFaultIn text.now result }
{
    let name = &text[host.start..host.end];
    if name.starts_with('[') {
        return Fault::of_span(host);
    }
    if let Some((start, len)) = forbidden(name) {
        return Fault::of_span(Span::inside(text, host, start, len));
    }
    match large_number(name) {
        Some((start, len)) => Fault::of_span(Span::inside(text, host, start, len)),
        None => Fault::of_span(host),
    }
}

/// Returns the words for `part`, which is at fault in a hostname, with `@` for the part, `~` for
/// its ASCII form and `#` for the reason of `url`.
pub(crate) fn host_words(part: &str) -> &'static str {
    match part {
        " " => "a hostname has no space",
        "\\\\" => "a hostname has no `\\`: write `/`",
        "^" => "a hostname has no `^`: a pattern matches a whole hostname, without `^` and `$`",
        "|" => "a hostname has no `|`: write `(a|b)` for one of two",
        "<" => "a hostname has no `<`: a name is written `:host`",
        _ if ascii_form_of(part).is_some() => "`@` is full-width: write `~`",
        _ if is_one_forbidden(part) => "a hostname has no `@`",
        _ if ends_in_number(part) => {
            "a hostname that ends in a number is an IPv4 address: four numbers up to 255"
        }
        _ => "`@` is no hostname: #",
    }
}

/// Returns the words for `part`, which `url` rejects as a port, with `@` for the part. A part that
/// begins with a dot may be meant as a hostname that begins with a name.
pub(crate) fn port_words(part: &str) -> &'static str {
    if is_number(part) {
        "`@` is no port: a port is a number up to 65535"
    } else if part.starts_with('.') {
        "`@` is no port: a port has only the digits 0 to 9, and a name after `:` begins with a letter, `$` or `_`"
    } else if part.starts_with('[') {
        "`@` is no port: a port has only the digits 0 to 9, and a regular expression is within `(` and `)`"
    } else {
        "`@` is no port: a port has only the digits 0 to 9"
    }
}

/// Returns the byte index and length of the first character in a hostname pattern that no domain
/// contains. A backslash counts if it is itself escaped. `None`: a domain may contain each.
fn forbidden(name: &str) -> Option<(usize, usize)> {
    let mut is_escaped = false;
    for (start, c) in name.char_indices() {
        if c == '\\' {
            if is_escaped {
                return Some((start.saturating_sub(1), 2));
            }
            is_escaped = true;
        } else {
            if is_forbidden(c)
                || is_wide_forbidden(c)
                || c == '%' && !has_digits_after(name, start)
            {
                return Some((start, c.len_utf8()));
            }
            is_escaped = false;
        }
    }
    None
}

/// Whether a character is forbidden in a domain wherever it is. Not counted are `%` and `\`, which
/// depend on what is around them, a colon, which is not text in a pattern, and tabs and line ends,
/// which are skipped.
fn is_forbidden(c: char) -> bool {
    FORBIDDEN.contains(c) || c.is_ascii_control() && !SKIPPED.contains(c)
}

/// Whether a character is the full-width form of a character that no domain contains.
fn is_wide_forbidden(c: char) -> bool {
    match ascii_form(c) {
        Some(sign) => ":%\\".contains(sign) || is_forbidden(sign),
        None => false,
    }
}

/// Whether a text is a single character that no domain contains.
fn is_one_forbidden(text: &str) -> bool {
    let mut characters = text.chars();
    match (characters.next(), characters.next()) {
        (Some(c), None) => c == '%' || is_forbidden(c),
        _ => false,
    }
}

/// Whether two hexadecimal digits follow the byte at an index, so that a `%` there encodes a byte.
fn has_digits_after(name: &str, index: usize) -> bool {
    let bytes = name.as_bytes();
    match (
        bytes.get(index.saturating_add(1)),
        bytes.get(index.saturating_add(2)),
    ) {
        (Some(first), Some(second)) => first.is_ascii_hexdigit() && second.is_ascii_hexdigit(),
        _ => false,
    }
}

/// Returns the byte index and length of the first number over 255 in a hostname of four numbers.
/// `None`: the hostname is of another form, or no number is over 255.
fn large_number(name: &str) -> Option<(usize, usize)> {
    let mut found = None;
    let mut count = 0usize;
    let mut start = 0usize;
    for label in name.split('.') {
        if !is_number(label) {
            return None;
        }
        if found.is_none() && is_large(label) {
            found = Some((start, label.len()));
        }
        start = start.saturating_add(label.len()).saturating_add(1);
        count = count.saturating_add(1);
    }
    if count == 4 { found } else { None }
}

/// Whether a text consists of decimal digits, at least one.
pub(crate) fn is_number(label: &str) -> bool {
    !label.is_empty() && label.trim_start_matches(DIGITS).is_empty()
}

/// Whether a number, in decimal digits, is larger than 255.
fn is_large(label: &str) -> bool {
    let digits = label.trim_start_matches('0');
    digits.len() > 3 || digits.len() == 3 && digits > "255"
}

/// Whether the last label of a hostname is a decimal number, so that the hostname is an IPv4
/// address. A dot at the end is ignored.
///
/// <https://url.spec.whatwg.org/#ends-in-a-number-checker>
fn ends_in_number(name: &str) -> bool {
    let name = name.strip_suffix('.').unwrap_or(name);
    match name.rsplit_once('.') {
        Some((_, last)) => is_number(last),
        None => is_number(name),
    }
}
