//! Captures of a match, borrowed from the pattern and from the texts that it matches.
ghost use Rattle.std.specs.Prelude.{◌≡◌, map, option_map, IfOk, IsSomeAnd};
ghost use Rattle.std.specs.Str.{chars};
ghost use Rattle.serde_json.specs.View.{view};
ghost use Rattle.urlpattern_matches.specs.declared.captures.NoCaptures.TheVariants as all_missed;
ghost use Rattle.urlpattern_matches.specs.BorrowedMatches.{all_groups_left, all_groups_view, groups_left, groups_view, borrowed_group, pattern_captures_view, texts_captured, IsCopyOfMatch};
ghost use Rattle.urlpattern_matches.specs.GroupTexts.{IsCapturedOf, captures_of, texts_of, HasNoGroups, IsWithoutGroups};
ghost use Rattle.urlpattern_matches.specs.ResultJson.{IsTreeOfCaptures};
ghost use Rattle.urlpattern_matches.specs.ResultViews.{captured_text, component_result_view, group_of, took_part, IsSameResult};
ghost use Rattle.urlpattern_syntax.specs.Text.{option_text};
ghost use Rattle.urlpattern_syntax.specs.Errors.{OnlyOutOfMemory};
ghost use Rattle.urlpattern_components.specs.Eight.{components};

mod groups;

use crate::result::{UrlPatternComponentResult, UrlPatternResult, empty_result};
pub use groups::{UrlPatternCapturesIter, UrlPatternGroups};
use serde_json::Value;
use std::alloc::Global;
use std::slice;
use urlpattern_components::{ComponentName, Eight};
use urlpattern_matcher::matcher::Look;
use urlpattern_matcher::regexp::RegExp;
use urlpattern_syntax::Error;
use urlpattern_syntax::error::OutOfMemory;

/// A match: its names are borrowed from the pattern, its texts and captures from the input.
///
/// `UrlPattern::captures` returns such a match.
///
/// The groups of the path `/users/123`, which `/users/:id{/files/:file}?` matches:
///
/// ```rust groups
/// let mut groups = found.groups(ComponentName::Pathname);
/// let id = groups.next();
/// let file = groups.next();
/// ```
#[derive(Debug, Clone)]
pub struct UrlPatternCaptures<'p, 'u> {
    /// The names of each component's groups, in order.
    names: Eight<&'p Vec<String>>,
    /// The text of each component, which was matched.
    texts: Eight<&'u str>,
    /// The captures of each component's groups, in the order of the names.
    captures: Eight<GroupCaptures<'u>>,
}

/// Puts a match together: the names of each component's groups, the text of each component, and
/// what the groups capture, in the order of the names.
pub fn assemble_match<'p, 'u>(
    names: Eight<&'p Vec<String>>,
    texts: Eight<&'u str>,
    captures: Eight<GroupCaptures<'u>>,
) -> UrlPatternCaptures<'p, 'u>
    ensures names { result.names ≡ names.entry }
    ensures texts { result.texts ≡ texts.entry }
    ensures captures { result.captures ≡ captures.entry }
{
    UrlPatternCaptures {
        names,
        texts,
        captures,
    }
}

impl Drop for UrlPatternCaptures<'_, '_> {
    /// Drops the captures. Where a match goes out of scope, the prover handles one call in place of
    /// one for each component.
    fn drop(self) {
        let Self {
            names: _,
            texts: _,
            captures: _captures,
        } = self;
    }
}

impl<'p, 'u> UrlPatternCaptures<'p, 'u> {
    /// Returns the text that the component was matched against.
    pub fn input(&self, component: ComponentName) -> &'u str
        ensures { chars result.now ≡ (pattern_captures_view self.now component).input }
    {
        self.texts.get(component)
    }

    /// Returns what the group `name` of a component captured, a slice of the component's text.
    /// `None`: the component has no such group, or the group took no part. The last of equal names
    /// counts.
    ///
    /// With `users` compiled from `https://example.com/users/:id`, and `ID` as the text `id`:
    ///
    /// ```rust user
    /// let Some(found) = users.captures(alloc, url)? else {
    ///     return Ok(None);
    /// };
    /// Ok(found.get(ComponentName::Pathname, ID))
    /// ```
    pub fn get(&self, component: ComponentName, name: &str) -> Option<&'u str>
        ensures { option_text result
            ≡ captured_text (pattern_captures_view self.now component) (chars name.now) }
    {
        self.group(component, name).flatten()
    }

    /// Whether the group `name` of a component took part in the match. `None`: the component has no
    /// such group. The last of equal names counts.
    pub fn took_part(&self, component: ComponentName, name: &str) -> Option<bool>
        ensures { result ≡ took_part (pattern_captures_view self.now component) (chars name.now) }
    {
        self.group(component, name).map(|capture| capture.is_some())
    }

    /// Returns what the group `name` of a component captured. `Some(None)`: the group took no part.
    /// `None`: the component has no such group. The last of equal names counts.
    fn group(&self, component: ComponentName, name: &str) -> Option<Option<&'u str>>
        ensures { option_map option_text result
            ≡ (pattern_captures_view self.now component).group (chars name.now) }
    {
        group_named(
            self.names.get(component),
            self.captures.get(component).as_slice(),
            name,
        )
    }

    /// Returns an iterator over the groups of a component, in order: each name with its capture.
    pub fn groups(&self, component: ComponentName) -> UrlPatternGroups<'_, 'p, 'u>
        ensures { groups_left result ≡ groups_view self.now component }
    {
        UrlPatternGroups::new(
            self.names.get(component),
            self.captures.get(component).as_slice(),
        )
    }

    /// Returns an iterator over the groups of all components, in the order of the standard:
    /// component, name and capture.
    pub fn iter(&self) -> UrlPatternCapturesIter<'_, 'p, 'u>
        ensures { all_groups_left result ≡ all_groups_view self.now components }
    {
        UrlPatternCapturesIter::new(self)
    }

    /// Returns the groups that took part, in the order of `iter`: component, name and capture, as
    /// `UrlPattern::link` and `generate` expect them.
    pub fn to_groups(&self, alloc: Global) -> Result<Vec<(ComponentName, &'p str, &'u str)>, Error>
        ensures all { IfOk result (λ groups.
            map borrowed_group groups.items
            ≡ texts_captured (all_groups_view self.now components)) }
        ensures memory { OnlyOutOfMemory result }
    {
        let mut groups = Vec::new(alloc);
        for (component, name, capture) in self.iter() {
            if let Some(text) = capture {
                if groups.push((component, name, text)).is_err() {
                    return Err(Error::OutOfMemory);
                }
            }
        }
        Ok(groups)
    }

    /// Returns an owned copy of the match, as `UrlPattern::exec` does.
    #[inline(always)]
    pub fn to_result(&self, alloc: Global) -> Result<UrlPatternResult, Error>
        ensures same { IfOk result (IsCopyOfMatch self.now) }
        ensures memory { OnlyOutOfMemory result }
    {
        let mut result = empty_result(alloc);
        match self.copy_to(alloc, &mut result) {
            Ok(()) => Ok(result),
            Err(OutOfMemory) => {
                drop(result);
                Err(Error::OutOfMemory)
            }
        }
    }

    /// Returns the JSON of the match: the JSON of the result that `to_result` returns.
    pub fn to_json_value(&self, alloc: Global) -> Result<Value, Error>
        ensures tree { IfOk result (λ tree. IsTreeOfCaptures self.now (view tree)) }
        ensures memory { OnlyOutOfMemory result }
    {
        let copy = self.to_result(alloc)?;
        let tree = copy.to_json_value(alloc);
        drop(copy);
        match tree {
            Ok(tree) => Ok(tree),
            Err(error) => Err(error),
        }
    }

    /// Copies the texts, names and captures of the match to `copy`, a result without groups.
    fn copy_to(&self, alloc: Global, copy: &mut UrlPatternResult) -> Result<(), OutOfMemory>
        requires { IsWithoutGroups copy.old }
        ensures same { IfOk result (λ _. IsCopyOfMatch self.now copy.new) }
    {
        self.copy_component(alloc, ComponentName::Protocol, &mut copy.protocol)?;
        self.copy_component(alloc, ComponentName::Username, &mut copy.username)?;
        self.copy_component(alloc, ComponentName::Password, &mut copy.password)?;
        self.copy_component(alloc, ComponentName::Hostname, &mut copy.hostname)?;
        self.copy_component(alloc, ComponentName::Port, &mut copy.port)?;
        self.copy_component(alloc, ComponentName::Pathname, &mut copy.pathname)?;
        self.copy_component(alloc, ComponentName::Search, &mut copy.search)?;
        self.copy_component(alloc, ComponentName::Hash, &mut copy.hash)
    }

    /// Copies the text, names and captures of the component `name` to `copy`, a result without
    /// groups.
    fn copy_component(
        &self,
        alloc: Global,
        name: ComponentName,
        copy: &mut UrlPatternComponentResult,
    ) -> Result<(), OutOfMemory>
        requires { HasNoGroups copy.old.groups }
        ensures same { IfOk result (λ _.
            IsSameResult (component_result_view copy.new) (pattern_captures_view self.now name)) }
    {
        copy.fill(
            alloc,
            self.input(name),
            self.names.get(name),
            self.captures.get(name).as_slice(),
        )
    }
}

/// Returns an owned copy of a match, as `UrlPatternCaptures::to_result` does, within `Some`. A
/// result is large, so the `Option` is filled in place.
#[inline(always)]
pub fn copy_found(
    alloc: Global,
    captures: &UrlPatternCaptures<'_, '_>,
) -> Result<Option<UrlPatternResult>, Error>
    ensures same { IfOk result (λ found. IsSomeAnd found (IsCopyOfMatch captures.now)) }
    ensures memory { OnlyOutOfMemory result }
{
    let mut found = Ok(Some(empty_result(alloc)));
    if let Ok(Some(copy)) = &mut found {
        if captures.copy_to(alloc, copy).is_err() {
            drop(found);
            return Err(Error::OutOfMemory);
        }
    }
    found
}

/// Returns what the group `group` captures, where `names` and `captures` are in one order.
/// `Some(None)`: the group took no part. `None`: no name is `group`. The last of equal names
/// counts.
fn group_named<'u>(
    names: &[String],
    captures: &[Option<&'u str>],
    group: &str,
) -> Option<Option<&'u str>>
    ensures { option_map option_text result
        ≡ group_of (texts_of names.now) (map option_text captures.now) (chars group.now) }
{
    let mut found = None;
    for (name, capture) in names.iter().zip(captures) {
        if group == name.as_str() {
            found = Some(*capture);
        }
    }
    found
}

/// Why a call of an engine returned no captures.
#[derive(Drop)]
pub enum NoCaptures {
    /// The engine does not match the text.
    Unmatched,
    /// The engine ran out of memory.
    OutOfMemory,
}

impl From<OutOfMemory> for NoCaptures {
    ghost from_gives = { λ _ missed. missed ≡ all_missed.OutOfMemory };

    fn from(_error: OutOfMemory) -> NoCaptures {
        NoCaptures::OutOfMemory
    }
}

/// What the groups of a component capture, in order.
#[derive(Debug, Clone, Drop)]
pub enum GroupCaptures<'u> {
    /// No groups.
    Nothing,
    /// What a single group captures.
    One(Option<&'u str>),
    /// The captures that an engine returned.
    Groups(Vec<Option<&'u str>>),
}

impl<'u> GroupCaptures<'u> {
    /// Returns what a component captures of its text, and calls the engine that `look` asks for, if
    /// any. `look` is what the component's matcher sees in the text before an engine is called.
    #[inline(always)]
    pub fn of_look<R: RegExp>(alloc: Global, look: Look<'_, 'u, R>) -> Result<Self, NoCaptures>
        ensures { IsCapturedOf R.answer look.entry result }
    {
        match look {
            Look::Matched => Ok(GroupCaptures::Nothing),
            Look::Captured(text) => Ok(GroupCaptures::One(Some(text))),
            Look::Asks { engine, middle } => match engine.matches(alloc, middle)? {
                Some(captures) => Ok(GroupCaptures::Groups(captures)),
                None => Err(NoCaptures::Unmatched),
            },
        }
    }

    /// Returns the captures as a slice, in order.
    fn as_slice(&self) -> &[Option<&'u str>]
        ensures { map option_text result.now ≡ captures_of self.now }
    {
        match self {
            GroupCaptures::Nothing => &[],
            GroupCaptures::One(capture) => slice::from_ref(capture),
            GroupCaptures::Groups(captures) => captures.as_slice(),
        }
    }
}
