//! The parts of one component, with the options with which they were parsed.

use crate::parser::{Options, Part};

/// The parts of a component's pattern text, and the options with which it was parsed.
///
/// <https://urlpattern.spec.whatwg.org/#parts-and-part-lists>
#[derive(Debug)]
pub struct ComponentParts {
    /// The options with which the text was parsed.
    pub options: Options,
    /// The parts, in order.
    pub parts: Vec<Part>,
    /// Whether a match ignores case where the options do. `false`: an engine matches the component
    /// that does not honour the flag `i`.
    pub honours_case: bool,
}

impl Drop for ComponentParts {
    /// Drops the fields. Where parts go out of scope, the prover sees one call instead of one for
    /// each field.
    fn drop(self) {
        let Self {
            options: _options,
            parts: _parts,
            honours_case: _,
        } = self;
    }
}
