//! A pattern that is given, as `explain` shows it.

ghost use Rattle.std.specs.Prelude.{◌≡◌};
ghost use Rattle.std.specs.Str.{chars};
ghost use Rattle.urlpat_explain.specs.Explained.{origin};
ghost use Rattle.urlpat_explain.specs.ComponentPlaces.{text_place, text_places};
ghost use Rattle.urlpattern_components.specs.Eight.{at};
ghost use Rattle.urlpattern_constructor.specs.Splitting.{HasComponentsAt};
ghost use Rattle.urlpattern_init.specs.Inheritance.{values_view};
ghost use Rattle.urlpattern_syntax.specs.Text.{option_text};

use crate::noted::Noted;
use urlpattern_compile::span_of;
use urlpattern_components::{ComponentName, Eight};
use urlpattern_diagnosis::Span;
use urlpattern_engine::PatternRegexp;
use urlpattern_init::UrlPatternInit;
use urlpattern_pattern::UrlPattern;

/// What `explain` explains: a pattern, and the values of its components.
#[derive(Clone, Copy)]
pub struct Explained<'a> {
    /// The compiled pattern.
    pub pattern: &'a UrlPattern<PatternRegexp>,
    /// The texts that the pattern itself has for components.
    pub init: &'a UrlPatternInit,
    /// The places of these texts in the constructor string, if there is one.
    pub places: &'a Eight<Option<Span>>,
    /// The values of the components, inherited ones included.
    pub values: &'a UrlPatternInit,
    /// What is noted of each component.
    pub noted: &'a Eight<Noted>,
    /// The pattern as a constructor string that needs no base URL, if there is one.
    pub text: &'a Option<String>,
}

impl Explained<'_> {
    /// The origin of a component's value: `given` by the pattern, `inherited` from the base URL, or
    /// `left out`.
    pub fn origin(&self, name: ComponentName) -> &'static str
        ensures { result.now ≡ origin (at (values_view self.now.init.now) name)
            (at (values_view self.now.values.now) name) }
    {
        origin_of(self.init.get(name), self.values.get(name))
    }

    /// What is noted of a component.
    pub fn noted(&self, name: ComponentName) -> Noted
        ensures { result ≡ at self.now.noted.now name }
    {
        *self.noted.get(name)
    }

    /// The place of a component's text in the constructor string, if it has one.
    pub fn place(&self, name: ComponentName) -> Option<Span>
        ensures { result ≡ at self.now.places.now name }
    {
        *self.places.get(name)
    }
}

/// The origin of a component's value. `given` is the text that the pattern has, and `value` is the
/// value.
fn origin_of(given: Option<&str>, value: Option<&str>) -> &'static str
    ensures { result.now ≡ origin (option_text given.entry) (option_text value.entry) }
{
    match (given, value) {
        (Some(_), _) => "given",
        (None, Some(_)) => "inherited",
        (None, None) => "left out",
    }
}

/// The places of component texts in a constructor string, which is split into `init` and has the
/// text of each component at its byte of `starts`.
pub fn text_places(
    string: &str,
    init: &UrlPatternInit,
    starts: &Eight<Option<usize>>,
) -> Eight<Option<Span>>
    requires { HasComponentsAt (chars string.now) (values_view init.now) starts.now }
    ensures { result ≡ text_places (values_view init.now) starts.now }
{
    let place = |name: ComponentName| -> Option<Span>
        requires { HasComponentsAt (chars string.now) (values_view init.now) starts.now }
        ensures { result
            ≡ text_place (at (values_view init.entry.now) name) (at starts.entry.now name) }
    { text_place(string, init, starts, name) };
    Eight::from_fn(place)
}

/// The place of a component's text among those of `text_places`. `None`: the string lacks the text
/// or implies it, or the text is empty.
fn text_place(
    string: &str,
    init: &UrlPatternInit,
    starts: &Eight<Option<usize>>,
    name: ComponentName,
) -> Option<Span>
    requires { HasComponentsAt (chars string.now) (values_view init.now) starts.now }
    ensures { result ≡ text_place (at (values_view init.now) name) (at starts.now name) }
{
    let text = init.get(name)?;
    if text.is_empty() {
        return None;
    }
    let first = (*starts.get(name))?;
    let span = span_of(string, first, text.len());
    Some(span)
}
