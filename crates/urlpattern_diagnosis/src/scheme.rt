//! Reasons why a text has no protocol, or one that is rejected.

use crate::host::is_number;
use crate::sentence::Sentence;

/// Returns the words for a scheme before `//` without its colon, with `@` for `sign`, what is in
/// place of the colon. `sign` is empty if nothing is.
pub(crate) fn missing_words(sign: &str) -> &'static str {
    if sign.is_empty() {
        "`:` is missing before `//`: a protocol ends with it, as in `https://`"
    } else {
        "`:` is missing before `//`: `@` is in its place"
    }
}

/// Returns why the pattern `part`, which has no protocol, is rejected without a base URL, and what
/// to write: by what it seems to be meant as, or else a URL with the pattern, without the `^` and
/// `$` of a regular expression.
pub(crate) fn base_sentence(part: &str) -> Sentence<'_> {
    if let Some(words) = misread_message(part) {
        return Sentence {
            words,
            text: part,
            other: "",
            sign: ' ',
        };
    }
    if let Some(scheme) = scheme_before_name(part) {
        return Sentence {
            words: "a pattern without a protocol needs a base URL: `:` begins a name here, so write `@\\:` for a protocol, or give a base",
            text: scheme,
            other: "",
            sign: ':',
        };
    }
    let relative = match part.strip_prefix('^') {
        Some(rest) => rest.trim_end_matches('$'),
        None => part.trim_start_matches(' '),
    };
    Sentence {
        words: "a pattern without a protocol needs a base URL: write `#@`, or give a base",
        text: relative,
        other: url_prefix(relative),
        sign: ' ',
    }
}

/// Returns what to put before a relative URL to make it absolute: a protocol, and also a hostname
/// unless the text seems to begin with one: with `//`, with `localhost`, or with a name up to a
/// dot.
fn url_prefix(text: &str) -> &'static str {
    if text.starts_with("//") {
        return "https:";
    }
    if text.starts_with('/') {
        return "https://HOST";
    }
    if text.starts_with("localhost") {
        return "https://";
    }
    match text.find(['.', '/', '?', '#']) {
        Some(place) if place > 0 && text.as_bytes().get(place) == Some(&b'.') => "https://",
        _ => "https://HOST/",
    }
}

/// Returns the words for a text without a protocol that seems to be meant to have one, or not to be
/// a URL, such as one in quotes, or that has tabs or line ends. `None`: the text is none of these.
fn misread_message(text: &str) -> Option<&'static str> {
    if is_quoted(text) {
        Some(
            "a pattern is written without quotes around it, and without a protocol it needs a base URL",
        )
    } else if text == "<all_urls>" {
        Some("a pattern of all URLs is written `*://*:*/*`")
    } else if text.starts_with('{') && text.contains(['"', '\'']) {
        Some("a pattern is written as a URL, as in `https://HOST/users/:id`, and not as an object")
    } else if text.contains("：//") {
        Some("no protocol is before `：//`, since `：` is full-width: write `:`")
    } else if text.contains("://") {
        Some(
            "`://` ends no protocol within `{` or `(`: write the protocol outside of them, or close them before it",
        )
    } else if has_method(text) {
        Some("a pattern is written without a method, and without a protocol it needs a base URL")
    } else if text.starts_with("\\\\") {
        Some(
            "a pattern has `/` where a path of Windows has `\\`, and without a protocol it needs a base URL",
        )
    } else if text.contains(['\t', '\n', '\r']) {
        Some(
            "a pattern without a protocol needs a base URL: begin it with `https://`, or give a base",
        )
    } else {
        None
    }
}

/// Whether a text begins with one of seven HTTP methods, and a space.
fn has_method(text: &str) -> bool {
    match text.split_once(' ') {
        Some((word, _)) => matches!(
            word,
            "GET" | "HEAD" | "POST" | "PUT" | "PATCH" | "DELETE" | "OPTIONS"
        ),
        None => false,
    }
}

/// Returns the text before the first colon, if it consists of letters, as a protocol does, and is
/// not `localhost`. `None`: it does not, or there is no colon.
fn scheme_before_name(text: &str) -> Option<&str> {
    let (scheme, _) = text.split_once(':')?;
    if scheme.is_empty() || scheme == "localhost" {
        return None;
    }
    for byte in scheme.as_bytes() {
        if !byte.is_ascii_alphabetic() {
            return None;
        }
    }
    Some(scheme)
}

/// Whether a text begins with a quotation mark.
pub(crate) fn is_quoted(text: &str) -> bool {
    text.starts_with(['"', '\'', '`', '“', '‘', '«'])
}

/// Whether a text begins with a number and a dot, as an IPv4 address does.
fn is_of_numbers(text: &str) -> bool {
    match text.split_once('.') {
        Some((first, _)) => is_number(first),
        None => false,
    }
}

/// Returns the words for `part`, which `url` rejects as a protocol, with `@` for the part.
pub(crate) fn protocol_words(part: &str) -> &'static str {
    if part.starts_with('^') {
        "`@` is no protocol: a pattern matches a whole URL, without `^`"
    } else if is_quoted(part) {
        "`@` is no protocol: a pattern is written without quotes around it"
    } else if has_method(part) {
        "`@` is no protocol: a pattern is written without a method"
    } else if part.contains(' ') {
        "`@` is no protocol: a protocol has no space"
    } else if part.contains("http") && part.contains([',', '|', '[']) {
        "`@` is no protocol: write `http{s}?` for both"
    } else if is_of_numbers(part) || part.starts_with('[') {
        "`@` is no protocol: write `https://@` for a hostname"
    } else {
        "`@` is no protocol: it begins with a letter, and has letters, digits, `+`, `-` and `.`"
    }
}
