//! The matches of a map for what is no `Url`: eight texts, an input that is parsed, or a path.
ghost use Rattle.std.specs.Map.{keys_of};
ghost use Rattle.std.specs.Prelude.{◌≡◌, ◌<◌, ◌≤◌, length, IfErr, IfOk, IfSome};
ghost use Rattle.std.specs.Str.{chars};
ghost use Rattle.urlpattern.specs.FirstMatch.{CallsEngineBeforeMatch, HasGroupsInOrder, IsFirstCaptured};
ghost use Rattle.urlpattern.specs.MapMatches.{all_entries, entries_left, HasEntriesOfPath};
ghost use Rattle.urlpattern.specs.NextMatch.{CallsEngineBeforeMatchFrom, IsFirstCapturedFrom, SkipsOnlyMismatches};
ghost use Rattle.urlpattern.specs.Paths.{HasGroupsOfPath, IsFirstOfPath, IsPathError};
ghost use Rattle.urlpattern.specs.PatternKeys.{IsTemplateAt};
ghost use Rattle.urlpattern.specs.PatternMaps.{entry_patterns, HasValueAt, without_value};
ghost use Rattle.urlpattern_index.specs.Keys.{hashes_view};
ghost use Rattle.urlpattern_matches.specs.GroupTexts.{borrowed_texts};
ghost use Rattle.urlpattern_matches.specs.MatchInput.{texts_view};
ghost use Rattle.urlpattern_syntax.specs.Errors.{OnlyOutOfMemory};

use super::{UrlPatternMap, UrlPatternMapMatches};
use crate::path::is_path;
use crate::path_error::PathError;
use std::alloc::Global;
use urlpattern_components::Eight;
use urlpattern_index::AddressHashes;
use urlpattern_inputs::MatchInput;
use urlpattern_matcher::regexp::RegExp;
use urlpattern_matches::{UrlPatternCaptures, input_texts, pathname_texts};
use urlpattern_paths::PathTemplate;
use urlpattern_syntax::Error;
use urlpattern_syntax::error::OutOfMemory;

impl<T, R: RegExp> UrlPatternMap<T, R> {
    /// Returns the least index whose pattern matches eight texts, one for each component, with the
    /// value of the pattern and the match, which borrows from the map and from the owner of the
    /// texts. `None`: no pattern matches. The texts are not made canonical.
    ///
    /// Only an engine allocates.
    pub fn first_captures_of_texts<'m, 'u>(
        &'m self,
        alloc: Global,
        texts: &Eight<&'u str>,
    ) -> Result<Option<(usize, &'m T, UrlPatternCaptures<'m, 'u>)>, Error>
        ensures first { IfOk result (λ found.
            IsFirstCaptured R.answer (entry_patterns self.now) (borrowed_texts texts.now)
            (without_value found)) }
        ensures groups { IfOk result (λ found.
            HasGroupsInOrder R.answer (entry_patterns self.now) (borrowed_texts texts.now)
            (without_value found)) }
        ensures value { IfOk result (HasValueAt self.now) }
        ensures memory { OnlyOutOfMemory result }
        ensures asked { IfErr result (λ _.
            CallsEngineBeforeMatch R.answer (entry_patterns self.now) (borrowed_texts texts.now)) }
    {
        Ok(self.with_value(self.patterns.first_captures_of_texts(alloc, texts)?))
    }

    /// Returns the least index whose pattern matches an input that is parsed into its eight texts,
    /// with the value of the pattern and the match, which borrows from the map and the input.
    /// `None`: no pattern matches.
    ///
    /// Only an engine allocates.
    pub fn first_captures_of_input<'m, 'u>(
        &'m self,
        alloc: Global,
        input: &'u MatchInput,
    ) -> Result<Option<(usize, &'m T, UrlPatternCaptures<'m, 'u>)>, Error>
        ensures first { IfOk result (λ found.
            IsFirstCaptured R.answer (entry_patterns self.now) (texts_view input.now)
            (without_value found)) }
        ensures groups { IfOk result (λ found.
            HasGroupsInOrder R.answer (entry_patterns self.now) (texts_view input.now)
            (without_value found)) }
        ensures value { IfOk result (HasValueAt self.now) }
        ensures memory { OnlyOutOfMemory result }
        ensures asked { IfErr result (λ _.
            CallsEngineBeforeMatch R.answer (entry_patterns self.now) (texts_view input.now)) }
    {
        Ok(self.with_value(self.patterns.first_captures_of_input(alloc, input)?))
    }

    /// Returns the least index whose pattern matches a path, all other components being empty, with
    /// the value of the pattern and the match, which borrows from the map and the path. `None`: no
    /// pattern matches. The path is not made canonical.
    ///
    /// The error is `NotAPath` unless `is_path`, else `OutOfMemory`. Only an engine allocates.
    pub fn first_captures_of_path<'m, 'u>(
        &'m self,
        alloc: Global,
        path: &'u str,
    ) -> Result<Option<(usize, &'m T, UrlPatternCaptures<'m, 'u>)>, PathError>
        ensures first { IfOk result (λ found.
            IsFirstOfPath R.answer (entry_patterns self.now) (chars path.now)
            (without_value found)) }
        ensures groups { IfOk result (λ found.
            HasGroupsOfPath R.answer (entry_patterns self.now) (chars path.now)
            (without_value found)) }
        ensures value { IfOk result (HasValueAt self.now) }
        ensures refused { IfErr result
            (IsPathError R.answer (entry_patterns self.now) (chars path.now)) }
    {
        match self.patterns.first_captures_of_path(alloc, path) {
            Ok(found) => Ok(self.with_value(found)),
            Err(error) => Err(error),
        }
    }

    /// Iterates over all matches of eight texts, one for each component, as `matches` does for
    /// those of a URL. The texts are not made canonical.
    pub fn matches_of_texts<'m, 'u>(
        &'m self,
        alloc: Global,
        texts: Eight<&'u str>,
    ) -> UrlPatternMapMatches<'m, 'u, T, R>
        ensures { entries_left result ≡ all_entries self.now (borrowed_texts texts.entry) }
    {
        UrlPatternMapMatches::new(self, alloc, texts)
    }

    /// Iterates over all matches of an input that is parsed into its eight texts, as `matches` does
    /// for those of a URL.
    pub fn matches_of_input<'m, 'u>(
        &'m self,
        alloc: Global,
        input: &'u MatchInput,
    ) -> UrlPatternMapMatches<'m, 'u, T, R>
        ensures { entries_left result ≡ all_entries self.now (texts_view input.now) }
    {
        UrlPatternMapMatches::new(self, alloc, input_texts(input))
    }

    /// Iterates over all matches of a path, all other components being empty, as `matches` does for
    /// a URL. The path is not made canonical. `None`: the text is no path, by `is_path`.
    pub fn matches_of_path<'m, 'u>(
        &'m self,
        alloc: Global,
        path: &'u str,
    ) -> Option<UrlPatternMapMatches<'m, 'u, T, R>>
        ensures { HasEntriesOfPath self.now (chars path.now) result }
    {
        if !is_path(path) {
            return None;
        }
        Some(UrlPatternMapMatches::new(self, alloc, pathname_texts(path)))
    }

    /// Returns the template by which the path of the pattern at an index is read, without a look
    /// at the pattern, if there is one.
    #[inline(always)]
    pub(crate) fn template(&self, index: usize) -> Option<&PathTemplate>
        ensures { IfSome result (λ template.
            IsTemplateAt R.answer (keys_of self.now) index template.now) }
    {
        self.patterns.template(index)
    }

    /// Returns the least index, not below `from`, whose pattern may match texts with these hashes.
    /// `None`: no such pattern matches.
    #[inline(always)]
    pub(crate) fn next_candidate(&self, hashes: &AddressHashes, from: usize) -> Option<usize>
        ensures within { IfSome result (λ index. (from ≤ index) × (index < length self.now)) }
        ensures passed { SkipsOnlyMismatches R.answer (entry_patterns self.now)
            (hashes_view hashes.now) from result }
    {
        self.patterns.next_candidate(hashes, from)
    }

    /// Returns the least index, not below `from`, whose pattern matches eight texts, with the value
    /// of the pattern and the match. `None`: no such pattern matches.
    ///
    /// Only an engine allocates.
    pub(crate) fn first_from<'m, 'u>(
        &'m self,
        alloc: Global,
        texts: &Eight<&'u str>,
        from: usize,
    ) -> Result<Option<(usize, &'m T, UrlPatternCaptures<'m, 'u>)>, OutOfMemory>
        ensures first { IfOk result (λ found.
            IsFirstCapturedFrom R.answer (entry_patterns self.now) (borrowed_texts texts.now) from
            (without_value found)) }
        ensures groups { IfOk result (λ found.
            HasGroupsInOrder R.answer (entry_patterns self.now) (borrowed_texts texts.now)
            (without_value found)) }
        ensures value { IfOk result (HasValueAt self.now) }
        ensures asked { IfErr result (λ _.
            CallsEngineBeforeMatchFrom R.answer (entry_patterns self.now)
            (borrowed_texts texts.now) from) }
    {
        Ok(self.with_value(self.patterns.first_from(alloc, texts, from)?))
    }

    /// Puts the value of its pattern into a match.
    pub(super) fn with_value<'m, 'u>(
        &'m self,
        found: Option<(usize, UrlPatternCaptures<'m, 'u>)>,
    ) -> Option<(usize, &'m T, UrlPatternCaptures<'m, 'u>)>
        requires { IfSome found (λ first. first.0 < length self.now) }
        ensures same { without_value result ≡ found.entry }
        ensures value { HasValueAt self.now result }
    {
        match found {
            Some((index, captures)) => Some((index, &self.values[index], captures)),
            None => None,
        }
    }
}
