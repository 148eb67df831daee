//! The iterator over the values of an `Eight`.

use super::{COMPONENTS, ComponentName, Eight};
use std::slice;

/// An iterator over the values of an `Eight` in the order of the standard, each with the name of
/// its component.
#[derive(Drop)]
pub struct NamedValues<'a, T> {
    values: &'a Eight<T>,
    names: slice::Iter<'static, ComponentName>,
}

impl<'a, T> NamedValues<'a, T> {
    ghost use Rattle.std.specs.Prelude.{◌≡◌};
    ghost use Rattle.urlpattern_components.specs.Eight.{components, named_values};
    ghost use Rattle.urlpattern_components.specs.NamedValues.{values_left};

    /// Returns an iterator over all values.
    pub(super) fn new(values: &'a Eight<T>) -> Self
        ensures { values_left result ≡ named_values values.now components }
    {
        Self {
            values,
            names: COMPONENTS.iter(),
        }
    }
}

impl<'a, T> Iterator for NamedValues<'a, T> {
    ghost use Rattle.std.specs.Iterator.{YieldsFirstBy, item_count};
    ghost use Rattle.urlpattern_components.specs.NamedValues.{named_value, values_left};

    type Item = (ComponentName, &'a T);

    ghost next_gives = { YieldsFirstBy named_value values_left };

    ghost remaining = { item_count values_left };

    fn next(&mut self) -> Option<(ComponentName, &'a T)> {
        let name = *self.names.next()?;
        Some((name, self.values.get(name)))
    }
}
