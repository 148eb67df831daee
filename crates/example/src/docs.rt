//! Pages of documentation by their URLs, in a language or without one, with contracts about URLs
//! alone.

ghost use Rattle.example.specs.Docs.{IsDocs, IsNoDocs};
ghost use Rattle.example.specs.Sites.{IsOnSite};
ghost use Rattle.std.specs.Prelude.{IfErr, IfNone, IfOk, IfSome};
ghost use Rattle.urlpattern.specs.Errors.{OnlyOutOfMemory};
ghost use Rattle.urlpattern.specs.Text.{option_text};

use std::alloc::Global;
use std::marker::Model;
use url::Url;
use urlpattern::laws::texts_are_lines;
use urlpattern::regexp::PatternRegexp;
use urlpattern::{ComponentName, Error, UrlPattern, UrlPatternOptions};

/// The pattern of the pages. The segment of the language may be missing.
const PATTERN: &str = "https://example.com/:lang(en|fr)?/docs";

/// The name of the group for the language.
const LANG: &str = "lang";

/// The pages of documentation, with the pattern of their URLs, which is compiled once.
#[derive(Drop)]
pub struct Docs {
    pattern: UrlPattern<PatternRegexp>,
}

// The pattern is compiled from `PATTERN`. No contract mentions the pattern.
impl Model for Docs {
    ghost use Rattle.example.specs.Docs.{docs_text};
    ghost use Rattle.example.specs.Sites.{IsPatternOf};
    ghost use Rattle.std.specs.Prelude.{⊤};

    ghost Value = { ⊤ };

    ghost view = { λ docs. tt };

    ghost invariant = { λ docs. IsPatternOf docs_text docs.pattern };
}

impl Docs {
    /// Compiles the pattern.
    ///
    /// The error is that of `UrlPattern::from_constructor_string`.
    pub fn new(alloc: Global) -> Result<Self, Error> {
        let options = UrlPatternOptions::default();
        let pattern = UrlPattern::from_constructor_string(alloc, PATTERN, None, options)?;
        Ok(Self { pattern })
    }

    /// The language of the page with this URL, borrowed from the URL: `en`, `fr`, or `None` where
    /// the URL names no language. `None` alone: the URL is not that of a page of documentation.
    ///
    /// The URL of a page is `https://example.com/en/docs`, `https://example.com/fr/docs` or
    /// `https://example.com/docs`. The port is empty. User name, password, query and fragment may
    /// be anything, since the pattern does not restrict them.
    ///
    /// The expression needs an engine, which may run out of memory. It is called only for a URL of
    /// `https://example.com`.
    pub fn language<'u>(
        &self,
        alloc: Global,
        url: &'u Url,
    ) -> Result<Option<Option<&'u str>>, Error>
        ensures some { IfOk result (λ found.
            IfSome found (λ language. IsDocs url.now (option_text language))) }
        ensures none { IfOk result (λ found. IfNone found (IsNoDocs url.now)) }
        ensures memory { OnlyOutOfMemory result }
        ensures asked { IfErr result (λ _. IsOnSite url.now) }
    {
        // A law of the library: each text of a URL is of characters without line feed.
        texts_are_lines(url);
        let Some(found) = self.pattern.captures(alloc, url)? else {
            return Ok(None);
        };
        Ok(Some(found.get(ComponentName::Pathname, LANG)))
    }
}
