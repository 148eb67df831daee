//! Copies of components.

ghost use Rattle.std.specs.Prelude.{◌≡◌, IfOk};
ghost use Rattle.urlpattern_matcher.specs.Components.{component_view};

use crate::engine::{CloneRegExp, copied_engine};
use crate::matcher::copied_matcher;
use std::alloc::AllocError;
use urlpattern_matcher::component::Component;

/// Returns a copy of a component.
pub fn copied_component<R: CloneRegExp>(
    component: &Component<R>,
) -> Result<Component<R>, AllocError>
    ensures { IfOk result (λ copy. component_view copy ≡ component_view component.now) }
{
    Ok(Component {
        pattern_string: component.pattern_string.clone()?,
        regexp: copied_engine(&component.regexp)?,
        group_name_list: component.group_name_list.clone()?,
        matcher: copied_matcher(&component.matcher)?,
        has_regexp_group: component.has_regexp_group,
    })
}
