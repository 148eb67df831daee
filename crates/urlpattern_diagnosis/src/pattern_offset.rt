//! The place of a component's pattern in a given text.
ghost use Rattle.std.specs.Prelude.{◌≡◌, ◌≤◌, length};
ghost use Rattle.urlpattern_diagnosis.specs.Faults.{IsFaultIn};
ghost use Rattle.urlpattern_diagnosis.specs.PatternOffsets.{IsMovedFault, IsMovedSpan, offset_in_value};
ghost use Rattle.urlpattern_diagnosis.specs.Spans.{IsSpanIn};

use crate::fault::Fault;
use crate::span::Span;
use urlpattern_components::ComponentName;

/// The place of a pattern in a text.
#[derive(Debug, Clone, Copy, PartialEq, Eq)]
pub struct PatternOffset {
    /// The byte index at which the text has the pattern, without the pattern's first `missing`
    /// bytes.
    pub start: usize,
    /// The number of bytes at the beginning of the pattern that the text lacks: those of the base
    /// URL, before a relative path.
    pub missing: usize,
}

impl PatternOffset {
    /// Returns the place of `pattern`, the processed pattern of a component, in a text that has the
    /// value of the component at `value`.
    ///
    /// A pattern that is longer than the value begins with the path of the base URL, which the text
    /// lacks. A shorter one is the end of the value, after its sign, or, of a protocol, its
    /// beginning, before the colon.
    pub fn in_value(component: ComponentName, value: Span, pattern: &str) -> Self
        requires { value.start ≤ value.end }
        ensures place { result ≡ offset_in_value component value pattern.now }
        ensures within { result.start ≤ value.end }
    {
        let len = value.end - value.start;
        let shorter = len.saturating_sub(pattern.len());
        let skipped = match component {
            ComponentName::Protocol => 0,
            _ => shorter,
        };
        PatternOffset {
            start: value.start + skipped,
            missing: pattern.len().saturating_sub(len),
        }
    }

    /// Returns a fault of `pattern`, moved to `text`, where the pattern is at this place.
    pub fn moved(self, text: &str, pattern: &str, fault: Fault) -> Fault
        requires place { self.start ≤ length text.now }
        requires within { IsFaultIn pattern.now fault }
        ensures moved { IsMovedFault text.now self fault result }
        ensures within { IsFaultIn text.now result }
    {
        let span = self.moved_span(text, pattern, fault.span);
        match fault.earlier {
            Some(earlier) => Fault {
                span,
                earlier: Some(self.moved_span(text, pattern, earlier)),
            },
            None => Fault {
                span,
                earlier: None,
            },
        }
    }

    /// Returns a span of `pattern`, moved to `text`; the whole text if the span begins in
    /// bytes that the text lacks.
    fn moved_span(self, text: &str, pattern: &str, span: Span) -> Span
        requires place { self.start ≤ length text.now }
        requires within { IsSpanIn pattern.now span }
        ensures moved { IsMovedSpan text.now self span result }
        ensures within { IsSpanIn text.now result }
    {
        if span.start < self.missing {
            return Span::whole(text);
        }
        let after = span.start - self.missing;
        if after > text.len() - self.start {
            return Span::whole(text);
        }
        Span::at(text, self.start + after, span.end - span.start)
    }
}
