//! What a caller wrote as a pattern, and where it has each component.

ghost use Rattle.std.specs.Prelude.{◌≡◌, ◌+◌, ◌≤◌, ℕ, List, length, IfSome};
ghost use Rattle.std.specs.Str.{chars};
ghost use Rattle.urlpattern_compile.specs.Diagnoses.{span_in, whole_text};
ghost use Rattle.urlpattern_compile.specs.Sources.{IsSource, IsTextOf, written};
ghost use Rattle.urlpattern_diagnosis.specs.Spans.{span_between};

use urlpattern_components::{ComponentName, Eight};
use urlpattern_diagnosis::Span;
use urlpattern_init::UrlPatternInit;

/// A constructor string, and the byte at which it has each component.
#[derive(Clone, Copy)]
pub(super) struct SplitString<'a> {
    /// The string.
    pub(super) text: &'a str,
    /// The byte at which the string has each component. `None`: it lacks the component, or implies
    /// it.
    pub(super) starts: &'a Eight<Option<usize>>,
}

/// A pattern as the caller wrote it: an init, and the constructor string that was split into it, if
/// any.
#[derive(Clone, Copy)]
pub(super) struct PatternSource<'a> {
    /// The constructor string.
    pub(super) string: Option<SplitString<'a>>,
    /// The init.
    pub(super) init: &'a UrlPatternInit,
}

impl<'a> PatternSource<'a> {
    /// Returns the text that shows a component: the constructor string; or, if there is none, the
    /// value of the component, or its `pattern` if the init lacks the component.
    pub(super) fn text(&self, component: ComponentName, pattern: &'a str) -> &'a str
        ensures { IsTextOf (written self.now) component (chars pattern.now) result.now }
    {
        match self.string {
            Some(split) => split.text,
            None => self.init.get(component).unwrap_or(pattern),
        }
    }

    /// Returns the text that shows the pattern as a whole: the constructor string, or nothing.
    pub(super) fn whole_text(&self) -> &'a str
        ensures { result.now ≡ whole_text (written self.now).string }
    {
        match self.string {
            Some(split) => split.text,
            None => "",
        }
    }

    /// Returns where `text`, the text that shows a component, has the value of that component.
    /// `None`: the constructor string lacks the component, or implies it.
    pub(super) fn span(&self, component: ComponentName, text: &str) -> Option<Span>
        requires source { IsSource self.now }
        requires text { (pattern : List ℕ)
            × IsTextOf (written self.now) component pattern text.now }
        ensures span { result
            ≡ span_in (written self.now).string (written self.now).components text.now component }
        ensures within { IfSome result (λ span.
            (span.start ≤ span.end) × (span.end ≤ length text.now)) }
    {
        let Some(split) = self.string else {
            return Some(Span::whole(text));
        };
        match *split.starts.get(component) {
            Some(start) => {
                let len = self.init.get(component).unwrap_or("").len();
                let span = span_of(text, start, len);
                Some(span)
            }
            None => None,
        }
    }
}

/// Returns the span of the `len` bytes of a text from `start` on.
pub fn span_of(text: &str, start: usize, len: usize) -> Span
    requires { start + len ≤ length text.now }
    ensures span { result ≡ span_between start (start + len) }
    ensures order { result.start ≤ result.end }
    ensures within { result.end ≤ length text.now }
{
    let after = text.len() - start - len;
    Span {
        start,
        end: text.len() - after,
    }
}
