//! What a matcher sees in a text before an engine is called.

/// The result of matching a text as far as possible without an engine.
#[derive(Drop)]
pub enum Look<'m, 'a, R> {
    /// The text matches, and there are no groups.
    Matched,
    /// The text matches, and the only group captures this slice of the text.
    Captured(&'a str),
    /// The text matches if an engine matches the text between prefix and suffix.
    Asks {
        /// The engine's value.
        engine: &'m R,
        /// The text between prefix and suffix.
        middle: &'a str,
    },
}
