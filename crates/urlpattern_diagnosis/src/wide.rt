//! Full-width forms of ASCII characters.

/// Returns the ASCII character whose full-width form is `c`. `None`: `c` is not full-width.
pub(crate) fn ascii_form(c: char) -> Option<char> {
    match c {
        '\u{FF01}'..='\u{FF5E}' => char::from_u32(u32::from(c).saturating_sub(0xFEE0)),
        _ => None,
    }
}

/// Returns the ASCII character whose full-width form is the text, after any backslashes. `None`:
/// the text is anything else.
pub(crate) fn ascii_form_of(text: &str) -> Option<char> {
    let mut characters = text.trim_start_matches('\\').chars();
    match (characters.next(), characters.next()) {
        (Some(c), None) => ascii_form(c),
        _ => None,
    }
}
