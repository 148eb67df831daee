//! The surroundings of a place in a pattern text.

use crate::fault::Fault;
use crate::wide::ascii_form;

/// Whether no `close` matches the first `open` at or after `place`. Escaped bytes do not count.
/// `false` if there is no `open`.
pub(crate) fn is_unclosed(pattern: &str, place: usize, open: u8, close: u8) -> bool {
    let mut depth = 0usize;
    let mut is_escaped = false;
    for byte in pattern.as_bytes().iter().skip(place) {
        if is_escaped {
            is_escaped = false;
        } else if *byte == b'\\' {
            is_escaped = true;
        } else if *byte == open {
            depth = depth.saturating_add(1);
        } else if *byte == close {
            if depth == 1 {
                return false;
            }
            depth = depth.saturating_sub(1);
        }
    }
    depth > 0
}

/// Whether `place` is within square brackets that begin at or after `start`. Escaped brackets do
/// not count.
pub(crate) fn is_in_class(pattern: &str, start: usize, place: usize) -> bool {
    let mut is_open = false;
    let mut is_escaped = false;
    for byte in pattern.as_bytes().iter().take(place).skip(start) {
        match byte {
            _ if is_escaped => is_escaped = false,
            b'\\' => is_escaped = true,
            b'[' => is_open = true,
            b']' => is_open = false,
            _ => {}
        }
    }
    is_open
}

/// Whether, between two places, the first `)` within square brackets is followed by their `]`
/// before another `[`, so that the `)` ends a custom expression in the middle of a class.
pub(crate) fn has_cut_class(pattern: &str, start: usize, end: usize) -> bool {
    let mut is_open = false;
    let mut is_cut = false;
    let mut is_escaped = false;
    for byte in pattern.as_bytes().iter().take(end).skip(start) {
        match byte {
            _ if is_escaped => is_escaped = false,
            b'\\' => is_escaped = true,
            b'[' if is_cut => return false,
            b']' if is_cut => return true,
            b'[' => is_open = true,
            b']' => is_open = false,
            b')' => is_cut = is_open,
            _ => {}
        }
    }
    false
}

/// Returns the first `]` or `}` at or after a place that is not escaped, is not in a class or a
/// count, and closes none. `None`: there is no such bracket.
pub(crate) fn stray_bracket(pattern: &str, place: usize) -> Option<char> {
    let mut is_escaped = false;
    let mut awaited = b' ';
    for byte in pattern.as_bytes().iter().skip(place) {
        match *byte {
            _ if is_escaped => is_escaped = false,
            b'\\' => is_escaped = true,
            b'[' if awaited == b' ' => awaited = b']',
            b'{' if awaited == b' ' => awaited = b'}',
            byte if byte == awaited => awaited = b' ',
            b']' | b'}' if awaited == b' ' => return Some(char::from(*byte)),
            _ => {}
        }
    }
    None
}

/// Returns the ASCII form of the first full-width mark before a place: of `(`, `)`, `{`, `}`, `:`,
/// `*` or `\`. `None`: there is no such mark.
pub(crate) fn wide_mark(pattern: &str, place: usize) -> Option<char> {
    for (index, c) in pattern.char_indices() {
        if index >= place {
            return None;
        }
        match ascii_form(c) {
            Some(mark @ ('(' | ')' | '{' | '}' | ':' | '*' | '\\')) => return Some(mark),
            _ => {}
        }
    }
    None
}

/// Whether `*`, `+` or `?` is right before a place, and no backslash is before that.
pub(crate) fn is_after_modifier(pattern: &str, place: usize) -> bool {
    let bytes = pattern.as_bytes();
    match place.checked_sub(1) {
        Some(last) => {
            matches!(bytes.get(last), Some(b'*' | b'+' | b'?'))
                && bytes.get(last.saturating_sub(1)) != Some(&b'\\')
        }
        None => false,
    }
}

/// Whether an escaped `)` is at or after a place.
pub(crate) fn has_escaped_close(pattern: &str, place: usize) -> bool {
    pattern.get(place..).unwrap_or("").contains("\\)")
}

/// Whether a regular expression seems to end right before a place: with `]`, `.`, or a backslash
/// and a letter.
pub(crate) fn is_after_expression(pattern: &str, place: usize) -> bool {
    let bytes = pattern.as_bytes();
    match bytes.get(place.saturating_sub(1)) {
        Some(b']' | b'.') => true,
        Some(byte) if byte.is_ascii_alphabetic() => {
            bytes.get(place.saturating_sub(2)) == Some(&b'\\')
        }
        _ => false,
    }
}

/// Returns the `-` or `^` at a place. `None`: another character is there.
pub(crate) fn sign_at(pattern: &str, place: usize) -> Option<char> {
    match pattern.as_bytes().get(place) {
        Some(b'-') => Some('-'),
        Some(b'^') => Some('^'),
        _ => None,
    }
}

/// Whether a group, whose brace is the earlier part of the fault, has only a word before the part
/// at fault: a name, perhaps, that lacks its `:`.
pub(crate) fn is_after_word(pattern: &str, fault: Fault) -> bool {
    let Some(open) = fault.earlier else {
        return false;
    };
    let word = pattern.get(open.end..fault.span.start).unwrap_or("");
    !word.is_empty() && !word.contains([':', '*', '(', ']', '}', '\\', '.', '/', '-', ' '])
}
