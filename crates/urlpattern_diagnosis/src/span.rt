//! Spans of a text.
ghost use Rattle.std.specs.Prelude.{◌≡◌};
ghost use Rattle.urlpattern_diagnosis.specs.Spans.{IsPartOf, IsSpanAt, IsSpanIn, whole_span};

/// A part of a text, by the byte indices of its first character and after its last.
///
/// The part of the text at fault:
///
/// ```rust span
/// let span = diagnosis.fault.span;
/// let part = diagnosis.text.get(span.start..span.end);
/// ```
#[derive(Debug, Clone, Copy, PartialEq, Eq)]
pub struct Span {
    /// The index of the first byte.
    pub start: usize,
    /// The index after the last byte.
    pub end: usize,
}

impl Span {
    /// Returns the span of a whole text.
    pub fn whole(text: &str) -> Self
        ensures whole { result ≡ whole_span text.now }
        ensures within { IsSpanIn text.now result }
    {
        Span {
            start: 0,
            end: text.len(),
        }
    }

    /// Returns the span of the `len` bytes from `start` on, or of the whole text if these are not
    /// whole characters of it.
    pub fn at(text: &str, start: usize, len: usize) -> Self
        ensures at { IsSpanAt text.now start len result }
        ensures within { IsSpanIn text.now result }
    {
        if start > text.len() || len > text.len() - start {
            return Span::whole(text);
        }
        let end = start + len;
        if text.is_char_boundary(start) && text.is_char_boundary(end) {
            return Span { start, end };
        }
        Span::whole(text)
    }
    /// Returns the span of the `len` bytes from `start` on in the part `outer` of a text, or of all
    /// of that part if these are not whole characters of it.
    pub(crate) fn inside(text: &str, outer: Span, start: usize, len: usize) -> Self
        requires { IsSpanIn text.now outer }
        ensures part { IsPartOf outer result }
        ensures within { IsSpanIn text.now result }
    {
        let span = Span::at(text, outer.start.saturating_add(start), len);
        if span.start < outer.start || span.end > outer.end {
            return outer;
        }
        span
    }
}
