//! Lists of patterns, which find the first one that matches an input.
//!
//! The texts of the input are made once, however many patterns are tried. An index finds the
//! patterns that can match them, by the literal protocol and hostname and by the segments of the
//! pathname. Only these patterns are tried, in the order of the list. No result is built for
//! patterns that do not match.
ghost use Rattle.std.specs.Iterator.Adapters.{IterYieldsInOrder};
ghost use Rattle.std.specs.List.{remove};
ghost use Rattle.std.specs.Prelude.{◌≡◌, ◌==◌, ◌++◌, ◌<◌, [], ◌∷◌, length, option_copied, slice_get, IfErr, IfOk, IfSome, OnErr, OnOk};
ghost use Rattle.std.specs.Slice.Iter.{iter_rest};
ghost use Rattle.urlpattern_init.specs.Inheritance.{texts_of_url};
ghost use Rattle.urlpattern_init.specs.declared.init.UrlPatternMatchInput.TheVariants as inputs;
ghost use Rattle.urlpattern.specs.FirstMatch.{first_captures_view, first_view, patterns_view, CopiesFirstMatch, HasGroupsInOrder, IsFirstMatch, CallsEngineBeforeMatch};
ghost use Rattle.urlpattern.specs.PatternKeys.{address_of, IsTemplateAt};
ghost use Rattle.urlpattern_index.specs.FixedTexts.{address_texts};
ghost use Rattle.urlpattern_index.specs.Keys.{hashes_of, hashes_view};
ghost use Rattle.urlpattern.specs.NextMatch.{matches_left, CallsEngineBeforeMatchFrom, IsFirstCapturedFrom};
ghost use Rattle.urlpattern_pattern.specs.Match.{IfUrl};
ghost use Rattle.urlpattern_pattern.specs.UrlPatterns.{UrlPattern};
ghost use Rattle.urlpattern_syntax.specs.Errors.{OnlyOutOfMemory};

mod contending;
mod copy;
mod finding;
mod matches;
mod other_inputs;
mod pattern_fixed;
mod unreached;

pub(crate) use contending::contending_of_all;
pub use contending::contending_patterns_match;
pub use matches::UrlPatternMatches;
use pattern_fixed::fixed_of;
use std::alloc::Global;
use std::marker::Model;
use std::slice;
pub use unreached::unreachable_patterns_are_never_first;
pub(crate) use unreached::{
    automata_of_each, error_without_memory, push_automata, reach_of_all, references,
};
use url::{Url, quirks};
use urlpattern_index::{Address, AddressHashes, Index};
use urlpattern_init::UrlPatternMatchInput;
use urlpattern_matcher::regexp::RegExp;
use urlpattern_matches::{
    UrlPatternCaptures, UrlPatternResult, input_texts, parse_match_input, url_texts,
};
use urlpattern_paths::{PathTemplate, path_template};
use urlpattern_pattern::UrlPattern;
use urlpattern_syntax::Error;

/// A list of patterns in order, such as the routes of a router.
///
/// With `pattern` as a function that compiles a constructor string:
///
/// ```rust list
/// let mut patterns = UrlPatternList::new(alloc);
/// patterns.try_push(pattern(alloc, "https://example.com/users/*")?)?;
/// patterns.try_push(pattern(alloc, "https://example.com/*")?)?;
/// ```
#[derive(Debug)]
pub struct UrlPatternList<R: RegExp = regex::Regex> {
    patterns: Vec<UrlPattern<R>>,
    /// Finds the patterns that can match a URL, by its protocol, hostname and path.
    index: Index,
    /// For each pattern, the template by which its path is read, if there is one.
    templates: Vec<Option<PathTemplate>>,
}

impl<R: RegExp> Drop for UrlPatternList<R> {
    /// Drops the patterns and the index, in a function of its own, so that the prover handles a
    /// single call where a list goes out of scope.
    fn drop(self) {
        let Self {
            patterns: _patterns,
            index: _index,
            templates: _templates,
        } = self;
    }
}

impl<R: RegExp> Model for UrlPatternList<R> {
    ghost use Rattle.std.specs.Prelude.{List};
    ghost use Rattle.urlpattern.specs.PatternKeys.{AreIndexed, AreTemplates};
    ghost use Rattle.urlpattern_pattern.specs.UrlPatterns.{UrlPattern};

    ghost Value = { List (UrlPattern R) };

    ghost view = { λ list. list.patterns.items };

    ghost invariant = { λ list. AreIndexed R.answer list.patterns.items list.index
        × AreTemplates R.answer list.patterns.items list.templates.items };
}

impl<R: RegExp> UrlPatternList<R> {
    /// Returns an empty list. Does not allocate.
    pub fn new(alloc: Global) -> Self
        ensures { result ≡ [] }
    {
        Self {
            patterns: Vec::new(alloc),
            index: Index::new(alloc),
            templates: Vec::new(alloc),
        }
    }

    /// Returns an empty list with room for `capacity` patterns, but not for what is kept beside
    /// each of them, such as its entry in the index: adding a pattern may still allocate.
    pub fn with_capacity(alloc: Global, capacity: usize) -> Result<Self, Error>
        ensures empty { IfOk result (λ list. list ≡ []) }
        ensures memory { OnlyOutOfMemory result }
    {
        Ok(Self {
            patterns: Vec::with_capacity(alloc, capacity)?,
            index: Index::new(alloc),
            templates: Vec::new(alloc),
        })
    }

    /// Appends a pattern.
    ///
    /// If memory runs out, the error is the pattern, and the list is unchanged.
    pub fn push(&mut self, pattern: UrlPattern<R>) -> Result<(), UrlPattern<R>>
        ensures appended { OnOk result (self.new ≡ self.old ++ pattern ∷ []) }
        ensures unchanged { OnErr result (self.new ≡ self.old) }
        ensures handed_back { IfErr result (λ refused. refused ≡ pattern) }
    {
        let Ok(()) = self.patterns.reserve(1) else {
            return Err(pattern);
        };
        let Ok(()) = self.templates.reserve(1) else {
            return Err(pattern);
        };
        let template = path_template(&pattern);
        let Ok(()) = self.index.push(fixed_of(&pattern)) else {
            return Err(pattern);
        };
        match self.templates.push(template) {
            Ok(()) => {}
            Err(_) => unreachable!(),
        }
        match self.patterns.push(pattern) {
            Ok(()) => Ok(()),
            Err(_) => unreachable!(),
        }
    }

    /// Appends a pattern.
    ///
    /// If memory runs out, the pattern is dropped, and the list is unchanged.
    pub fn try_push(&mut self, pattern: UrlPattern<R>) -> Result<(), Error>
        ensures appended { OnOk result (self.new ≡ self.old ++ pattern ∷ []) }
        ensures unchanged { OnErr result (self.new ≡ self.old) }
        ensures memory { OnlyOutOfMemory result }
    {
        match self.push(pattern) {
            Ok(()) => Ok(()),
            Err(_) => Err(Error::OutOfMemory),
        }
    }

    /// Removes and returns the pattern at an index. Later patterns move down by one. `None`: the
    /// index is out of range, and the list is unchanged.
    ///
    /// Does not allocate. Takes time in proportion to the length of the list.
    pub fn remove(&mut self, index: usize) -> Option<UrlPattern<R>>
        ensures removed { result ≡ slice_get self.old index }
        ensures others { self.new ≡ remove self.old index }
    {
        if index >= self.patterns.len() {
            return None;
        }
        self.index.remove(index);
        self.templates.remove(index);
        Some(self.patterns.remove(index))
    }

    /// The number of patterns.
    pub fn len(&self) -> usize
        ensures { result ≡ length self.now }
    {
        self.patterns.len()
    }

    /// Whether the list is empty.
    pub fn is_empty(&self) -> bool
        ensures { result ≡ (length self.now == 0) }
    {
        self.patterns.is_empty()
    }

    /// The pattern at an index, if there is one.
    pub fn get(&self, index: usize) -> Option<&UrlPattern<R>>
        ensures { option_copied result ≡ slice_get self.now index }
    {
        self.patterns.get(index)
    }

    /// The patterns, in order.
    pub(crate) fn as_slice(&self) -> &[UrlPattern<R>]
        ensures { result.now ≡ self.now }
    {
        self.patterns.as_slice()
    }

    /// Returns the template by which the path of the pattern at an index is read, without a look
    /// at the pattern, if there is one.
    #[inline(always)]
    pub(crate) fn template(&self, index: usize) -> Option<&PathTemplate>
        ensures { IfSome result (λ template. IsTemplateAt R.answer self.now index template.now) }
    {
        self.templates.get(index)?.as_ref()
    }

    /// Iterates over the patterns, in order.
    pub fn iter(&self) -> slice::Iter<'_, UrlPattern<R>>
        ensures rest { iter_rest result ≡ self.now }
        ensures runs { IterYieldsInOrder (UrlPattern R) }
    {
        self.patterns.iter()
    }

    /// Returns the least index whose pattern matches an input, and the match. `None`: no pattern
    /// matches.
    ///
    /// The result is that of calling `UrlPattern::exec` on one pattern after the other until one
    /// matches. Later patterns are not tried, nor are those that the index rules out.
    ///
    /// If the input is a URL, only an engine allocates, and the copy of a match.
    pub fn first_match(
        &self,
        alloc: Global,
        input: UrlPatternMatchInput,
    ) -> Result<Option<(usize, UrlPatternResult)>, Error>
        ensures first { IfOk result (λ found.
            IsFirstMatch R.answer (patterns_view self.now) input (first_view found)) }
        ensures memory { OnlyOutOfMemory result }
        ensures copied { IfErr result (λ _.
            IfUrl (CopiesFirstMatch R.answer (patterns_view self.now)) input) }
    {
        match input {
            UrlPatternMatchInput::Url(url) => self.first_result(alloc, url_texts(&url)),
            input => match parse_match_input(alloc, input)? {
                Some(texts) => self.first_result(alloc, input_texts(&texts)),
                None => Ok(None),
            },
        }
    }

    /// Returns the least index whose pattern matches a URL, and the match, which borrows from the
    /// pattern and the URL. `None`: no pattern matches.
    ///
    /// The result is that of calling `UrlPattern::captures` on one pattern after the other until
    /// one matches.
    ///
    /// Only an engine allocates.
    ///
    /// With a number in `ages` for each pattern:
    ///
    /// ```rust max_age
    /// let Some((index, found)) = patterns.first_captures(alloc, url)? else {
    ///     return Ok(None);
    /// };
    /// drop(found);
    /// Ok(ages.get(index).copied())
    /// ```
    pub fn first_captures<'p, 'u>(
        &'p self,
        alloc: Global,
        url: &'u Url,
    ) -> Result<Option<(usize, UrlPatternCaptures<'p, 'u>)>, Error>
        ensures first { IfOk result (λ found.
            IsFirstMatch R.answer (patterns_view self.now) (inputs.Url url.now)
            (first_captures_view found)) }
        ensures groups { IfOk result
            (HasGroupsInOrder R.answer (patterns_view self.now) (texts_of_url url.now)) }
        ensures memory { OnlyOutOfMemory result }
        ensures asked { IfErr result (λ _.
            CallsEngineBeforeMatch R.answer (patterns_view self.now) (texts_of_url url.now)) }
    {
        // Most texts of the URL are made only once a pattern is tried.
        let mut hashes = AddressHashes::new();
        hashes.fill(url_address(url));
        match self.next_candidate(&hashes, 0) {
            Some(index) => self.captures_from_candidate(alloc, url, &hashes, index),
            None => Ok(None),
        }
    }

    /// Returns the first match of a URL by a pattern whose index is at least `index`, with the
    /// index of that pattern. `hashes` are those of the URL. `None`: no such pattern matches.
    ///
    /// Only an engine allocates. The variables that this function needs are initialized only for a
    /// URL that some pattern may match, since it is not inlined into `first_captures`.
    #[inline(never)]
    fn captures_from_candidate<'p, 'u>(
        &'p self,
        alloc: Global,
        url: &'u Url,
        hashes: &AddressHashes,
        index: usize,
    ) -> Result<Option<(usize, UrlPatternCaptures<'p, 'u>)>, Error>
        requires within { index < length self.now }
        requires hashes { hashes_view hashes.now ≡ hashes_of (address_of (texts_of_url url.now)) }
        ensures first { IfOk result
            (IsFirstCapturedFrom R.answer (patterns_view self.now) (texts_of_url url.now) index) }
        ensures groups { IfOk result
            (HasGroupsInOrder R.answer (patterns_view self.now) (texts_of_url url.now)) }
        ensures memory { OnlyOutOfMemory result }
        ensures asked { IfErr result (λ _.
            CallsEngineBeforeMatchFrom R.answer (patterns_view self.now) (texts_of_url url.now)
            index) }
    {
        Ok(self.first_from_candidate(alloc, &url_texts(url), hashes, index)?)
    }

    /// Iterates over all matches of a URL, in the order of the patterns, each with the index of its
    /// pattern. The matches borrow from the patterns and the URL.
    ///
    /// If an engine runs out of memory, the last item is that error.
    pub fn matches<'p, 'u>(&'p self, alloc: Global, url: &'u Url) -> UrlPatternMatches<'p, 'u, R>
        ensures { matches_left result
            ≡ record { patterns = patterns_view self.now; texts = texts_of_url url.now; from = 0 } }
    {
        UrlPatternMatches::new(self, alloc, url_texts(url))
    }
}

/// The protocol, the hostname and the path of a URL, by which the index finds patterns.
fn url_address(url: &Url) -> Address<'_>
    ensures { address_texts result ≡ address_of (texts_of_url url.now) }
{
    Address {
        protocol: url.scheme(),
        hostname: quirks::hostname(url),
        pathname: url.path(),
    }
}

impl<'a, R: RegExp> IntoIterator for &'a UrlPatternList<R> {
    type Item = &'a UrlPattern<R>;

    type IntoIter = slice::Iter<'a, UrlPattern<R>>;

    ghost into_iter_gives = { λ list patterns.
        (iter_rest patterns ≡ list.now) × IterYieldsInOrder (UrlPattern R) };

    fn into_iter(self) -> slice::Iter<'a, UrlPattern<R>> {
        self.iter()
    }
}
