//! Reports why a pattern does not match: the first component that does not match its text.
ghost use Rattle.std.specs.Prelude.{IfErr, IfOk};
ghost use Rattle.urlpattern_init.specs.Inheritance.{texts_of_url};
ghost use Rattle.urlpattern_matches.specs.GroupTexts.{borrowed_texts};
ghost use Rattle.urlpattern_pattern.specs.{Mismatch.CallsInTurn, Mismatch.FindsMismatch, Patterns.pattern_view};
ghost use Rattle.urlpattern_syntax.specs.Errors.{OnlyOutOfMemory};

use super::UrlPattern;
use std::alloc::Global;
use url::Url;
use urlpattern_components::{ComponentName, Eight};
use urlpattern_matcher::regexp::RegExp;
use urlpattern_matches::url_texts;
use urlpattern_syntax::Error;

impl<R: RegExp> UrlPattern<R> {
    /// Returns the first component, in the order of the standard, that does not match its text of a
    /// URL. `None`: the pattern matches the URL.
    ///
    /// Only an engine allocates, and no engine of a component after the one that is returned is
    /// called.
    ///
    /// With `pattern` as a function that compiles a constructor string:
    ///
    /// ```rust mismatch
    /// let users = pattern(alloc, "https://example.com/users/:id")?;
    /// let url = Url::parse(alloc, "https://example.org/users/123")?;
    /// let component = users.mismatch(alloc, &url)?;
    /// ```
    ///
    /// <https://urlpattern.spec.whatwg.org/#url-pattern-match>
    pub fn mismatch(&self, alloc: Global, url: &Url) -> Result<Option<ComponentName>, Error>
        ensures first { IfOk result
            (FindsMismatch R.answer (pattern_view self.now) (texts_of_url url.now)) }
        ensures memory { OnlyOutOfMemory result }
        ensures asked { IfErr result (λ _.
            CallsInTurn R.answer (pattern_view self.now) (texts_of_url url.now)) }
    {
        self.mismatch_of_texts(alloc, &url_texts(url))
    }

    /// Returns the first component, in the order of the standard, that does not match its text of
    /// `texts`. `None`: the pattern matches the eight texts.
    ///
    /// Only an engine allocates, and no engine of a component after the one that is returned is
    /// called.
    pub fn mismatch_of_texts(
        &self,
        alloc: Global,
        texts: &Eight<&str>,
    ) -> Result<Option<ComponentName>, Error>
        ensures first { IfOk result
            (FindsMismatch R.answer (pattern_view self.now) (borrowed_texts texts.now)) }
        ensures memory { OnlyOutOfMemory result }
        ensures asked { IfErr result (λ _.
            CallsInTurn R.answer (pattern_view self.now) (borrowed_texts texts.now)) }
    {
        for name in ComponentName::all() {
            if !self.get(name).matcher.accepts(alloc, texts.get(name))? {
                return Ok(Some(name));
            }
        }
        Ok(None)
    }
}
