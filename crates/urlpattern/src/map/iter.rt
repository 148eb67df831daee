//! An iterator over the patterns of a map and their values.
ghost use Rattle.std.specs.Iterator.{at_most};
ghost use Rattle.std.specs.Map.Iter.{deref_pair, TakesFirst};
ghost use Rattle.std.specs.Prelude.{◌≡◌, length, zip};
ghost use Rattle.std.specs.Slice.Iter.{iter_rest};

use std::marker::Model;
use std::slice;
use urlpattern_matcher::regexp::RegExp;
use urlpattern_pattern::UrlPattern;

/// The remaining patterns of a `UrlPatternMap`, in order, each with its value.
///
/// ```rust map_entries
/// let mut entries = pages.iter();
/// let first = entries.next();
/// ```
#[derive(Drop)]
pub struct UrlPatternMapIter<'a, T, R: RegExp> {
    patterns: slice::Iter<'a, UrlPattern<R>>,
    values: slice::Iter<'a, T>,
}

impl<'a, T, R: RegExp> Model for UrlPatternMapIter<'a, T, R> {
    ghost use Rattle.std.specs.Prelude.{◌≡◌, List, length, zip};
    ghost use Rattle.std.specs.Slice.Iter.{iter_rest};
    ghost use Rattle.urlpattern_pattern.specs.UrlPatterns.{UrlPattern};

    ghost Value = { List (UrlPattern R × T) };

    ghost view = { λ entries. zip (iter_rest entries.patterns) (iter_rest entries.values) };

    ghost invariant = { λ entries.
        length (iter_rest entries.values) ≡ length (iter_rest entries.patterns) };
}

impl<'a, T, R: RegExp> UrlPatternMapIter<'a, T, R> {
    /// Pairs each pattern with its value: `patterns` and `values` have as many elements.
    pub(super) fn new(patterns: slice::Iter<'a, UrlPattern<R>>, values: slice::Iter<'a, T>) -> Self
        requires { length (iter_rest values) ≡ length (iter_rest patterns) }
        ensures { result ≡ zip (iter_rest patterns.entry) (iter_rest values.entry) }
    {
        Self { patterns, values }
    }
}

impl<'a, T, R: RegExp> Iterator for UrlPatternMapIter<'a, T, R> {
    type Item = (&'a UrlPattern<R>, &'a T);

    ghost next_gives = { TakesFirst deref_pair };

    ghost remaining = { λ entries. at_most (length entries) };

    fn next(&mut self) -> Option<(&'a UrlPattern<R>, &'a T)> {
        let pattern = self.patterns.next()?;
        Some((pattern, self.values.next().unwrap()))
    }
}
