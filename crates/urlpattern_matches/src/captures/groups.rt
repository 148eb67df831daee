//! Iterators over the groups of a match.

use super::UrlPatternCaptures;
use std::slice;
use urlpattern_components::{COMPONENTS, ComponentName};

/// An iterator over the groups of a component, in order: each name with its capture. A capture is
/// `None` if the group took no part.
///
/// `UrlPatternCaptures::groups` returns this iterator.
///
/// The groups of the path `/users/123`, which `/users/:id{/files/:file}?` matches:
///
/// ```rust groups
/// let mut groups = found.groups(ComponentName::Pathname);
/// let id = groups.next();
/// let file = groups.next();
/// ```
#[derive(Drop)]
pub struct UrlPatternGroups<'c, 'p, 'u> {
    names: slice::Iter<'p, String>,
    captures: slice::Iter<'c, Option<&'u str>>,
}

impl<'c, 'p, 'u> UrlPatternGroups<'c, 'p, 'u> {
    ghost use Rattle.std.specs.Prelude.{◌≡◌, map, zip};
    ghost use Rattle.urlpattern_matches.specs.BorrowedMatches.{groups_left};
    ghost use Rattle.urlpattern_matches.specs.GroupTexts.{texts_of};
    ghost use Rattle.urlpattern_syntax.specs.Text.{option_text};

    /// Returns an iterator over the groups with these names and captures, which are in one order.
    pub(super) fn new(names: &'p [String], captures: &'c [Option<&'u str>]) -> Self
        ensures { groups_left result ≡ zip (texts_of names.now) (map option_text captures.now) }
    {
        Self {
            names: names.iter(),
            captures: captures.iter(),
        }
    }
}

impl<'c, 'p, 'u> Iterator for UrlPatternGroups<'c, 'p, 'u> {
    ghost use Rattle.std.specs.Iterator.{YieldsFirstBy, item_count};
    ghost use Rattle.urlpattern_matches.specs.BorrowedMatches.{group_text, groups_left};

    type Item = (&'p str, Option<&'u str>);

    ghost next_gives = { YieldsFirstBy group_text groups_left };

    ghost remaining = { item_count groups_left };

    fn next(&mut self) -> Option<(&'p str, Option<&'u str>)> {
        let name = self.names.next()?;
        let capture = self.captures.next()?;
        Some((name.as_str(), *capture))
    }
}

/// An iterator over the groups of all components, in the order of the standard: component, name and
/// capture. A capture is `None` if the group took no part.
///
/// `UrlPatternCaptures::iter` returns this iterator.
///
/// ```rust all_groups
/// let mut all_groups = found.iter();
/// let first = all_groups.next();
/// ```
#[derive(Drop)]
pub struct UrlPatternCapturesIter<'c, 'p, 'u> {
    captures: &'c UrlPatternCaptures<'p, 'u>,
    /// The components whose groups are still to come.
    components: slice::Iter<'static, ComponentName>,
    /// The component whose groups are being returned.
    component: ComponentName,
    groups: UrlPatternGroups<'c, 'p, 'u>,
}

impl<'c, 'p, 'u> UrlPatternCapturesIter<'c, 'p, 'u> {
    ghost use Rattle.std.specs.Prelude.{◌≡◌};
    ghost use Rattle.urlpattern_matches.specs.BorrowedMatches.{all_groups_left, all_groups_view};
    ghost use Rattle.urlpattern_components.specs.Eight.{components};

    /// Returns an iterator over the groups of all components of a match.
    pub(super) fn new(captures: &'c UrlPatternCaptures<'p, 'u>) -> Self
        ensures { all_groups_left result ≡ all_groups_view captures.now components }
    {
        let mut components = COMPONENTS.iter();
        components.next();
        Self {
            captures: &*captures,
            components,
            component: ComponentName::Protocol,
            groups: captures.groups(ComponentName::Protocol),
        }
    }
}

impl<'c, 'p, 'u> Iterator for UrlPatternCapturesIter<'c, 'p, 'u> {
    ghost use Rattle.std.specs.Iterator.{YieldsFirstBy, item_count};
    ghost use Rattle.urlpattern_matches.specs.BorrowedMatches.{all_groups_left, named_group_text};

    type Item = (ComponentName, &'p str, Option<&'u str>);

    ghost next_gives = { YieldsFirstBy named_group_text all_groups_left };

    ghost remaining = { item_count all_groups_left };

    fn next(&mut self) -> Option<(ComponentName, &'p str, Option<&'u str>)> {
        loop {
            if let Some((name, capture)) = self.groups.next() {
                return Some((self.component, name, capture));
            }
            self.component = *self.components.next()?;
            self.groups = self.captures.groups(self.component);
        }
    }
}
