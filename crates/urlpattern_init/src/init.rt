//! Inits, and what a pattern is matched against. In `processing`: the values of an init, and what
//! it inherits from its base URL.
//!
//! <https://urlpattern.spec.whatwg.org/#process-a-urlpatterninit>
mod processing;

ghost use Rattle.std.specs.Prelude.{◌≡◌, IfOk, option_map};
ghost use Rattle.urlpattern_init.specs.Inheritance.{values_of, values_view};
ghost use Rattle.urlpattern_components.specs.Eight.{at};
ghost use Rattle.urlpattern_syntax.specs.Text.{option_text, text_of};

pub use processing::{process, process_values, url_text};
use std::alloc::AllocError;
use url::Url;
use urlpattern_components::{ComponentName, Eight, field_of, with_fields};

/// The patterns of a URL pattern's components, or the components of a URL to match.
///
/// With `Pattern` as `UrlPattern<PatternRegexp>`:
///
/// ```rust init
/// let mut init = UrlPatternInit::default();
/// init.pathname = Some(String::from_str(alloc, "/users/:id")?);
/// let users = Pattern::parse(alloc, init, UrlPatternOptions::default())?;
/// ```
///
/// <https://urlpattern.spec.whatwg.org/#dictdef-urlpatterninit>
#[derive(Debug, Default, PartialEq, Eq, Drop)]
pub struct UrlPatternInit {
    /// The scheme, with or without the colon after it.
    pub protocol: Option<String>,
    /// The user name.
    pub username: Option<String>,
    /// The password.
    pub password: Option<String>,
    /// The host.
    pub hostname: Option<String>,
    /// The port.
    pub port: Option<String>,
    /// The path.
    pub pathname: Option<String>,
    /// The query, with or without the question mark before it.
    pub search: Option<String>,
    /// The fragment, with or without the number sign before it.
    pub hash: Option<String>,
    /// The URL from which components are inherited.
    pub base_url: Option<Url>,
}

/// A copy has the same texts and the same base URL.
impl Clone for UrlPatternInit {
    ghost is_clone = { λ init copy.
        (values_view copy ≡ values_view init) × (copy.base_url ≡ init.base_url) };

    fn clone(&self) -> Result<Self, AllocError> {
        let base_url = self.base_url.clone()?;
        let texts = Eight::try_from_fn(|name| self.copied(name))?;
        Ok(Self::from_eight(texts, base_url))
    }
}

impl UrlPatternInit {
    /// Returns the text of a component. `None`: the init lacks the component.
    pub fn get(&self, name: ComponentName) -> Option<&str>
        ensures { option_text result ≡ at (values_view self.now) name }
    {
        field_of!(self, name).as_deref()
    }

    /// Returns a copy of the text of a component. `None`: the init lacks the component.
    #[tactic(auto, using(crate::proofs::InheritanceLemmas::same_texts))]
    fn copied(&self, name: ComponentName) -> Result<Option<String>, AllocError>
        ensures { IfOk result (λ copy. option_map text_of copy ≡ at (values_view self.now) name) }
    {
        field_of!(self, name).clone()
    }

    /// Creates an init from eight optional texts and a base URL.
    pub fn from_eight(texts: Eight<Option<String>>, base_url: Option<Url>) -> Self
        ensures texts { values_view result ≡ values_of texts }
        ensures base { result.base_url ≡ base_url }
    {
        with_fields!(Self, texts, base_url)
    }
}

/// What a pattern is matched against.
///
/// ```rust url_input
/// let url = Url::parse(alloc, "https://example.com/users/123")?;
/// let input = UrlPatternMatchInput::Url(url);
/// ```
///
/// <https://urlpattern.spec.whatwg.org/#typedefdef-urlpatterninput>
#[derive(Debug, Clone, PartialEq, Eq, Drop)]
pub enum UrlPatternMatchInput {
    /// The components of a URL.
    Init(UrlPatternInit),
    /// A URL.
    Url(Url),
}
