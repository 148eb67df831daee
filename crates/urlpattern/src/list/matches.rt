//! An iterator over the matches of a list.

use super::UrlPatternList;
use std::alloc::Global;
use urlpattern_components::Eight;
use urlpattern_matcher::regexp::RegExp;
use urlpattern_matches::UrlPatternCaptures;
use urlpattern_syntax::Error;

/// The remaining matches of a URL, in the order of the patterns, each with the index of its
/// pattern.
///
/// Returned by `UrlPatternList::matches`.
///
/// ```rust matches
/// let mut matches = patterns.matches(alloc, &url);
/// let Some(first) = matches.next() else {
///     return text(alloc, "no match");
/// };
/// let (index, captures) = first?;
/// ```
#[derive(Drop)]
pub struct UrlPatternMatches<'p, 'u, R: RegExp> {
    list: &'p UrlPatternList<R>,
    alloc: Global,
    texts: Eight<&'u str>,
    /// The index from which on the next call tries patterns.
    from: usize,
}

impl<'p, 'u, R: RegExp> UrlPatternMatches<'p, 'u, R> {
    ghost use Rattle.std.specs.Prelude.{◌≡◌};
    ghost use Rattle.urlpattern.specs.FirstMatch.{patterns_view};
    ghost use Rattle.urlpattern.specs.NextMatch.{matches_left};
    ghost use Rattle.urlpattern_matches.specs.GroupTexts.{borrowed_texts};

    /// Returns an iterator over all matches of eight texts.
    pub(super) fn new(list: &'p UrlPatternList<R>, alloc: Global, texts: Eight<&'u str>) -> Self
        ensures { matches_left result
            ≡ record {
              patterns = patterns_view list.now;
              texts = borrowed_texts texts.entry;
              from = 0;
            } }
    {
        Self {
            list,
            alloc,
            texts,
            from: 0,
        }
    }
}

impl<'p, 'u, R: RegExp> Iterator for UrlPatternMatches<'p, 'u, R> {
    ghost use Rattle.std.specs.Iterator.{at_most};
    ghost use Rattle.std.specs.Prelude.{◌-◌, length};
    ghost use Rattle.urlpattern.specs.NextMatch.{matches_left, YieldsMatch};

    type Item = Result<(usize, UrlPatternCaptures<'p, 'u>), Error>;

    ghost next_gives = { λ old found new.
        YieldsMatch R.answer (matches_left old) found (matches_left new) };

    ghost remaining = { λ matches. at_most (length matches.list.now - matches.from) };

    fn next(&mut self) -> Option<Result<(usize, UrlPatternCaptures<'p, 'u>), Error>> {
        let len = self.list.len();
        match self.list.first_from(self.alloc, &self.texts, self.from) {
            Ok(Some((index, captures))) => {
                self.from = index + 1;
                Some(Ok((index, captures)))
            }
            Ok(None) => None,
            Err(error) => {
                self.from = len;
                Some(Err(Error::from(error)))
            }
        }
    }
}
