//! An iterator over the matches of a map.

use super::UrlPatternMap;
use std::alloc::Global;
use urlpattern_components::Eight;
use urlpattern_matcher::regexp::RegExp;
use urlpattern_matches::UrlPatternCaptures;
use urlpattern_syntax::Error;

/// The remaining matches of a URL, in the order of the patterns, each with the index of its pattern
/// and the pattern's value.
///
/// Returned by `UrlPatternMap::matches`. If an engine runs out of memory, the last item is that
/// error.
#[derive(Drop)]
pub struct UrlPatternMapMatches<'m, 'u, T, R: RegExp> {
    map: &'m UrlPatternMap<T, R>,
    alloc: Global,
    texts: Eight<&'u str>,
    /// The index from which on the next call tries patterns.
    from: usize,
}

impl<'m, 'u, T, R: RegExp> UrlPatternMapMatches<'m, 'u, T, R> {
    ghost use Rattle.std.specs.Prelude.{◌≡◌};
    ghost use Rattle.urlpattern.specs.MapMatches.{all_entries, entries_left};
    ghost use Rattle.urlpattern_matches.specs.GroupTexts.{borrowed_texts};

    /// Returns an iterator over all matches of eight texts.
    pub(super) fn new(map: &'m UrlPatternMap<T, R>, alloc: Global, texts: Eight<&'u str>) -> Self
        ensures { entries_left result ≡ all_entries map.now (borrowed_texts texts.entry) }
    {
        Self {
            map,
            alloc,
            texts,
            from: 0,
        }
    }
}

impl<'m, 'u, T, R: RegExp> Iterator for UrlPatternMapMatches<'m, 'u, T, R> {
    ghost use Rattle.std.specs.Iterator.{at_most};
    ghost use Rattle.std.specs.Prelude.{◌-◌, length};
    ghost use Rattle.urlpattern.specs.MapMatches.{entries_left, YieldsEntry};

    type Item = Result<(usize, &'m T, UrlPatternCaptures<'m, 'u>), Error>;

    ghost next_gives = { λ old found new.
        YieldsEntry R.answer (entries_left old) found (entries_left new) };

    ghost remaining = { λ matches. at_most (length matches.map.now - matches.from) };

    fn next(&mut self) -> Option<Result<(usize, &'m T, UrlPatternCaptures<'m, 'u>), Error>> {
        let len = self.map.len();
        match self.map.first_from(self.alloc, &self.texts, self.from) {
            Ok(Some((index, value, captures))) => {
                self.from = index + 1;
                Some(Ok((index, value, captures)))
            }
            Ok(None) => None,
            Err(error) => {
                self.from = len;
                Some(Err(Error::from(error)))
            }
        }
    }
}
