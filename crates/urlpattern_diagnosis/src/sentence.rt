//! Sentences about the texts of a pattern.

use std::alloc::AllocError;

/// A sentence about up to two texts and a sign.
#[derive(Clone, Copy)]
pub(crate) struct Sentence<'a> {
    /// The words, with `@` for the first text, `#` for the second and `~` for the sign.
    pub(crate) words: &'static str,
    /// The first text.
    pub(crate) text: &'a str,
    /// The second text.
    pub(crate) other: &'a str,
    /// The sign.
    pub(crate) sign: char,
}

impl Sentence<'_> {
    /// Appends the words to `out`, with the texts and the sign in place of `@`, `#` and `~`.
    pub(crate) fn append_to(&self, out: &mut String) -> Result<(), AllocError> {
        for c in self.words.chars() {
            match c {
                '@' => append_on_line(out, self.text)?,
                '#' => append_on_line(out, self.other)?,
                '~' => out.push(self.sign)?,
                _ => out.push(c)?,
            }
        }
        Ok(())
    }
}

/// Appends a text as part of a line, with spaces for control characters.
fn append_on_line(out: &mut String, text: &str) -> Result<(), AllocError> {
    for c in text.chars() {
        out.push(if c.is_control() { ' ' } else { c })?;
    }
    Ok(())
}
