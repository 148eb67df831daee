//! The matches of a list for what is no `Url`: eight texts, an input that is parsed, or a path.
ghost use Rattle.std.specs.Prelude.{◌≡◌, IfErr, IfOk};
ghost use Rattle.std.specs.Str.{chars};
ghost use Rattle.urlpattern.specs.FirstMatch.{patterns_view, CallsEngineBeforeMatch, HasGroupsInOrder, IsFirstCaptured};
ghost use Rattle.urlpattern.specs.NextMatch.{matches_left};
ghost use Rattle.urlpattern.specs.Paths.{IsFirstOfPath, IsPathError, HasGroupsOfPath, HasMatchesOfPath};
ghost use Rattle.urlpattern_matches.specs.GroupTexts.{borrowed_texts};
ghost use Rattle.urlpattern_matches.specs.MatchInput.{texts_view};
ghost use Rattle.urlpattern_syntax.specs.Errors.{OnlyOutOfMemory};

use super::{UrlPatternList, UrlPatternMatches};
use crate::path::is_path;
use crate::path_error::PathError;
use std::alloc::Global;
use urlpattern_components::Eight;
use urlpattern_inputs::MatchInput;
use urlpattern_matcher::regexp::RegExp;
use urlpattern_matches::{UrlPatternCaptures, input_texts, pathname_texts};
use urlpattern_syntax::Error;

impl<R: RegExp> UrlPatternList<R> {
    /// Returns the least index whose pattern matches eight texts, one for each component, and the
    /// match, which borrows from the pattern and from the owner of the texts. `None`: no pattern
    /// matches. The texts are not made canonical.
    ///
    /// Only an engine allocates.
    pub fn first_captures_of_texts<'p, 'u>(
        &'p self,
        alloc: Global,
        texts: &Eight<&'u str>,
    ) -> Result<Option<(usize, UrlPatternCaptures<'p, 'u>)>, Error>
        ensures first { IfOk result
            (IsFirstCaptured R.answer (patterns_view self.now) (borrowed_texts texts.now)) }
        ensures groups { IfOk result
            (HasGroupsInOrder R.answer (patterns_view self.now) (borrowed_texts texts.now)) }
        ensures memory { OnlyOutOfMemory result }
        ensures asked { IfErr result (λ _.
            CallsEngineBeforeMatch R.answer (patterns_view self.now) (borrowed_texts texts.now)) }
    {
        Ok(self.first(alloc, texts)?)
    }

    /// Returns the least index whose pattern matches an input that is parsed into its eight texts,
    /// and the match, which borrows from the pattern and the input. `None`: no pattern matches.
    ///
    /// Only an engine allocates.
    pub fn first_captures_of_input<'p, 'u>(
        &'p self,
        alloc: Global,
        input: &'u MatchInput,
    ) -> Result<Option<(usize, UrlPatternCaptures<'p, 'u>)>, Error>
        ensures first { IfOk result
            (IsFirstCaptured R.answer (patterns_view self.now) (texts_view input.now)) }
        ensures groups { IfOk result
            (HasGroupsInOrder R.answer (patterns_view self.now) (texts_view input.now)) }
        ensures memory { OnlyOutOfMemory result }
        ensures asked { IfErr result (λ _.
            CallsEngineBeforeMatch R.answer (patterns_view self.now) (texts_view input.now)) }
    {
        Ok(self.first(alloc, &input_texts(input))?)
    }

    /// Returns the least index whose pattern matches a path, all other components being empty, and
    /// the match, which borrows from the pattern and the path. `None`: no pattern matches.
    ///
    /// The path is a path whatever it looks like: `//example.com/` has no hostname. It is not made
    /// canonical, as the path of a `Url` is.
    ///
    /// The error is `NotAPath` unless `is_path`, else `OutOfMemory`. Only an engine allocates.
    pub fn first_captures_of_path<'p, 'u>(
        &'p self,
        alloc: Global,
        path: &'u str,
    ) -> Result<Option<(usize, UrlPatternCaptures<'p, 'u>)>, PathError>
        ensures first { IfOk result
            (IsFirstOfPath R.answer (patterns_view self.now) (chars path.now)) }
        ensures groups { IfOk result
            (HasGroupsOfPath R.answer (patterns_view self.now) (chars path.now)) }
        ensures refused { IfErr result
            (IsPathError R.answer (patterns_view self.now) (chars path.now)) }
    {
        if !is_path(path) {
            return Err(PathError::NotAPath);
        }
        Ok(self.first(alloc, &pathname_texts(path))?)
    }

    /// Iterates over all matches of eight texts, one for each component, as `matches` does for
    /// those of a URL. The texts are not made canonical.
    pub fn matches_of_texts<'p, 'u>(
        &'p self,
        alloc: Global,
        texts: Eight<&'u str>,
    ) -> UrlPatternMatches<'p, 'u, R>
        ensures { matches_left result
            ≡ record {
              patterns = patterns_view self.now;
              texts = borrowed_texts texts.entry;
              from = 0;
            } }
    {
        UrlPatternMatches::new(self, alloc, texts)
    }

    /// Iterates over all matches of an input that is parsed into its eight texts, as `matches` does
    /// for those of a URL.
    pub fn matches_of_input<'p, 'u>(
        &'p self,
        alloc: Global,
        input: &'u MatchInput,
    ) -> UrlPatternMatches<'p, 'u, R>
        ensures { matches_left result
            ≡ record { patterns = patterns_view self.now; texts = texts_view input.now; from = 0 } }
    {
        UrlPatternMatches::new(self, alloc, input_texts(input))
    }

    /// Iterates over all matches of a path, all other components being empty, as `matches` does for
    /// a URL. The path is not made canonical. `None`: the text is no path, by `is_path`.
    pub fn matches_of_path<'p, 'u>(
        &'p self,
        alloc: Global,
        path: &'u str,
    ) -> Option<UrlPatternMatches<'p, 'u, R>>
        ensures { HasMatchesOfPath (patterns_view self.now) (chars path.now) result }
    {
        if !is_path(path) {
            return None;
        }
        Some(UrlPatternMatches::new(self, alloc, pathname_texts(path)))
    }
}
