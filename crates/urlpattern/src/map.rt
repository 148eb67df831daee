//! Maps from patterns to values, such as the handlers of a router's routes.
//!
//! The patterns are a list, whose index finds those that can match. The values are kept in a second
//! vector.
ghost use Rattle.std.specs.List.{remove};
ghost use Rattle.std.specs.Map.{keys_of};
ghost use Rattle.std.specs.Map.Iter.{deref_pair, ShowsInOrder};
ghost use Rattle.std.specs.Prelude.{◌≡◌, ◌==◌, ◌++◌, [], ◌∷◌, length, option_map, slice_get, IfErr, IfOk, OnErr, OnOk};
ghost use Rattle.urlpattern_init.specs.Inheritance.{texts_of_url};
ghost use Rattle.urlpattern_init.specs.declared.init.UrlPatternMatchInput.TheVariants as inputs;
ghost use Rattle.urlpattern.specs.FirstMatch.{CallsEngineBeforeMatch, HasGroupsInOrder, IsFirstMatch};
ghost use Rattle.urlpattern.specs.MapMatches.{all_entries, entries_left};
ghost use Rattle.urlpattern.specs.PatternMaps.{entry_patterns, first_entry_view, AppendsUntilRefused, HasValueAt, without_value};
ghost use Rattle.urlpattern.specs.Contending.{AreContentionsBy};
ghost use Rattle.urlpattern.specs.Reached.{AreReachedBy, LacksParts};
ghost use Rattle.urlpattern_pattern.specs.UrlPatterns.{UrlPattern};
ghost use Rattle.urlpattern_syntax.specs.Errors.{OnlyOutOfMemory};

mod copy;
mod finding;
mod iter;
mod matches;

use crate::contention::Contention;
use crate::list::UrlPatternList;
pub use iter::UrlPatternMapIter;
pub use matches::UrlPatternMapMatches;
use std::alloc::Global;
use std::marker::Model;
use url::Url;
use urlpattern_compare::{Limits, Reach};
use urlpattern_matcher::regexp::RegExp;
use urlpattern_matches::{UrlPatternCaptures, url_texts};
use urlpattern_pattern::{CompareError, UrlPattern};
use urlpattern_syntax::Error;

/// Patterns in order, each with a value, such as the routes of a router with their handlers.
///
/// If several patterns match, the first one counts.
///
/// With `pattern` as a function that compiles a constructor string:
///
/// ```rust pages
/// let mut pages = UrlPatternMap::new(alloc);
/// pages.try_insert(pattern(alloc, "https://example.com/users/:id")?, "profile")?;
/// pages.try_insert(
///     pattern(alloc, "https://example.com/users/:id/files/*")?,
///     "files",
/// )?;
/// pages.try_insert(pattern(alloc, "https://example.com/*")?, "page")?;
/// Ok(pages)
/// ```
#[derive(Debug, Drop)]
pub struct UrlPatternMap<T, R: RegExp = regex::Regex> {
    patterns: UrlPatternList<R>,
    /// The value of each pattern, in the same order.
    values: Vec<T>,
}

impl<T, R: RegExp> Model for UrlPatternMap<T, R> {
    ghost use Rattle.std.specs.Prelude.{◌≡◌, List, length, zip};
    ghost use Rattle.urlpattern_pattern.specs.UrlPatterns.{UrlPattern};

    ghost Value = { List (UrlPattern R × T) };

    ghost view = { λ map. zip map.patterns map.values.items };

    ghost invariant = { λ map. length map.values.items ≡ length map.patterns };
}

impl<T, R: RegExp> UrlPatternMap<T, R> {
    /// Returns an empty map. Does not allocate.
    pub fn new(alloc: Global) -> Self
        ensures { result ≡ [] }
    {
        Self {
            patterns: UrlPatternList::new(alloc),
            values: Vec::new(alloc),
        }
    }

    /// Returns an empty map with room for `capacity` patterns and their values, but not for the
    /// patterns' entries in the index: adding a pattern may still allocate.
    pub fn with_capacity(alloc: Global, capacity: usize) -> Result<Self, Error>
        ensures empty { IfOk result (λ map. map ≡ []) }
        ensures memory { OnlyOutOfMemory result }
    {
        Ok(Self {
            patterns: UrlPatternList::with_capacity(alloc, capacity)?,
            values: Vec::with_capacity(alloc, capacity)?,
        })
    }

    /// Appends a pattern with its value.
    ///
    /// If memory runs out, the error is the pattern and the value, and the map is unchanged.
    pub fn insert(&mut self, pattern: UrlPattern<R>, value: T) -> Result<(), (UrlPattern<R>, T)>
        ensures appended { OnOk result (self.new ≡ self.old ++ (pattern, value) ∷ []) }
        ensures unchanged { OnErr result (self.new ≡ self.old) }
        ensures handed_back { IfErr result (λ refused. refused ≡ (pattern, value)) }
    {
        let Ok(()) = self.values.reserve(1) else {
            return Err((pattern, value));
        };
        match self.patterns.push(pattern) {
            Ok(()) => {}
            Err(pattern) => return Err((pattern, value)),
        }
        match self.values.push(value) {
            Ok(()) => Ok(()),
            Err(_) => unreachable!(),
        }
    }

    /// Removes the pattern at an index, and returns it with its value. Later entries move down by
    /// one. `None`: the index is out of range, and the map is unchanged.
    ///
    /// Does not allocate. Takes time in proportion to the length of the map.
    pub fn remove(&mut self, index: usize) -> Option<(UrlPattern<R>, T)>
        ensures removed { result ≡ slice_get self.old index }
        ensures others { self.new ≡ remove self.old index }
    {
        match self.patterns.remove(index) {
            Some(pattern) => Some((pattern, self.values.remove(index))),
            None => None,
        }
    }

    /// The number of patterns.
    pub fn len(&self) -> usize
        ensures { result ≡ length self.now }
    {
        self.patterns.len()
    }

    /// Whether the map is empty.
    pub fn is_empty(&self) -> bool
        ensures { result ≡ (length self.now == 0) }
    {
        self.patterns.is_empty()
    }

    /// The pattern at an index and its value, if there is one.
    pub fn get(&self, index: usize) -> Option<(&UrlPattern<R>, &T)>
        ensures { option_map deref_pair result ≡ slice_get self.now index }
    {
        match self.patterns.get(index) {
            Some(pattern) => Some((pattern, &self.values[index])),
            None => None,
        }
    }

    /// The patterns, in order.
    pub(crate) fn patterns(&self) -> &[UrlPattern<R>]
        ensures { result.now ≡ keys_of self.now }
    {
        self.patterns.as_slice()
    }

    /// Iterates over the patterns, in order, each with its value.
    pub fn iter(&self) -> UrlPatternMapIter<'_, T, R>
        ensures rest { result ≡ self.now }
        ensures runs { ShowsInOrder (deref_pair {K = UrlPattern R} {X = T}) }
    {
        UrlPatternMapIter::new(self.patterns.iter(), self.values.iter())
    }

    /// Returns the least index whose pattern matches a URL, with the value of the pattern and the
    /// match, which borrows from the map and the URL. `None`: no pattern matches.
    ///
    /// Only an engine allocates.
    ///
    /// The value of the first route that matches, and what the group `ID` captures:
    ///
    /// ```rust routes
    /// let Some((_, value, found)) = routes.first_captures(alloc, url)? else {
    ///     return Ok(None);
    /// };
    /// Ok(Some((value, found.get(ComponentName::Pathname, ID))))
    /// ```
    pub fn first_captures<'m, 'u>(
        &'m self,
        alloc: Global,
        url: &'u Url,
    ) -> Result<Option<(usize, &'m T, UrlPatternCaptures<'m, 'u>)>, Error>
        ensures first { IfOk result (λ found.
            IsFirstMatch R.answer (entry_patterns self.now) (inputs.Url url.now)
            (first_entry_view found)) }
        ensures groups { IfOk result (λ found.
            HasGroupsInOrder R.answer (entry_patterns self.now) (texts_of_url url.now)
            (without_value found)) }
        ensures value { IfOk result (HasValueAt self.now) }
        ensures memory { OnlyOutOfMemory result }
        ensures asked { IfErr result (λ _.
            CallsEngineBeforeMatch R.answer (entry_patterns self.now) (texts_of_url url.now)) }
    {
        Ok(self.with_value(self.patterns.first_captures(alloc, url)?))
    }

    /// Iterates over all matches of a URL, in the order of the patterns, each with the index of its
    /// pattern and the pattern's value. The matches borrow from the map and the URL.
    ///
    /// If an engine runs out of memory, the last item is that error.
    pub fn matches<'m, 'u>(
        &'m self,
        alloc: Global,
        url: &'u Url,
    ) -> UrlPatternMapMatches<'m, 'u, T, R>
        ensures { entries_left result ≡ all_entries self.now (texts_of_url url.now) }
    {
        UrlPatternMapMatches::new(self, alloc, url_texts(url))
    }

    /// Returns whether each pattern is the first match of some texts, in order, as
    /// `UrlPatternList::reach_of_each` does.
    ///
    /// The error is `NoParts` if a pattern has no parts, else `OutOfMemory`.
    pub fn reach_of_each(&self, alloc: Global, limits: Limits) -> Result<Vec<Reach>, CompareError>
        ensures found { IfOk result (λ found.
            AreReachedBy R.RegExp limits (keys_of self.now) found.items) }
        ensures missing { IfErr result (LacksParts (keys_of self.now)) }
    {
        self.patterns.reach_of_each(alloc, limits)
    }

    /// Returns the pairs of patterns that contend, as `UrlPatternList::contending` does.
    ///
    /// The error is `NoParts` if a pattern has no parts, else `OutOfMemory`.
    pub fn contending(&self, alloc: Global, limits: Limits) -> Result<Vec<Contention>, CompareError>
        ensures found { IfOk result (λ found.
            AreContentionsBy R.RegExp limits (keys_of self.now) found.items) }
        ensures missing { IfErr result (LacksParts (keys_of self.now)) }
    {
        self.patterns.contending(alloc, limits)
    }
}

impl<T: Drop, R: RegExp> UrlPatternMap<T, R> {
    /// Appends a pattern with its value.
    ///
    /// If memory runs out, the pattern and the value are dropped, and the map is unchanged.
    pub fn try_insert(&mut self, pattern: UrlPattern<R>, value: T) -> Result<(), Error>
        ensures appended { OnOk result (self.new ≡ self.old ++ (pattern, value) ∷ []) }
        ensures unchanged { OnErr result (self.new ≡ self.old) }
        ensures memory { OnlyOutOfMemory result }
    {
        match self.insert(pattern, value) {
            Ok(()) => Ok(()),
            Err(_) => Err(Error::OutOfMemory),
        }
    }

    /// Appends patterns with their values, in order.
    ///
    /// If memory runs out, the entries before the first one that finds no room are appended, and
    /// that entry and all after it are dropped.
    pub fn extend(&mut self, entries: Vec<(UrlPattern<R>, T)>) -> Result<(), Error>
        ensures appended { OnOk result (self.new ≡ self.old ++ entries.items) }
        ensures until_refused { OnErr result
            (AppendsUntilRefused self.old entries.items self.new) }
        ensures memory { OnlyOutOfMemory result }
    {
        for (pattern, value) in entries {
            self.try_insert(pattern, value)?;
        }
        Ok(())
    }
}

impl<'a, T, R: RegExp> IntoIterator for &'a UrlPatternMap<T, R> {
    type Item = (&'a UrlPattern<R>, &'a T);

    type IntoIter = UrlPatternMapIter<'a, T, R>;

    ghost into_iter_gives = { λ map entries.
        (entries ≡ map.now) × ShowsInOrder (deref_pair {K = UrlPattern R} {X = T}) };

    fn into_iter(self) -> UrlPatternMapIter<'a, T, R> {
        self.iter()
    }
}
