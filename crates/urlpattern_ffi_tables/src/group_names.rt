//! The names of the groups of routes.
ghost use Rattle.std.specs.Map.{keys_of};
ghost use Rattle.std.specs.Prelude.{◌≡◌, encode_utf8_all};
ghost use Rattle.std.specs.Str.{chars};
ghost use Rattle.urlpattern_ffi.specs.TextBuffers.{group_name_at, IsGroupNameWritten};
ghost use Rattle.urlpattern_ffi_tables.specs.KeptRouters.{boxed_router};
ghost use Rattle.urlpattern_syntax.specs.Text.{option_text};

use crate::router_box::{RouterBox, pattern_of_route};
use urlpattern_ffi::{Status, write};
use urlpattern_ffi_links::component_of;

/// Writes the name of a group of the route at an index, given the number of its component and its
/// number in the component. `NoPattern`: there is no such group.
pub fn write_route_group_name(
    kept: &Option<Box<RouterBox>>,
    index: usize,
    component: u32,
    group: usize,
    buffer: &mut [u8],
    needed: &mut usize,
) -> Status
    ensures { IsGroupNameWritten (keys_of (boxed_router kept.now).routes) index component group
        buffer.old buffer.new needed.new result }
{
    match group_name(kept, index, component, group) {
        Some(name) => write(in_utf8(name), buffer, needed),
        None => Status::NoPattern,
    }
}

/// Returns a text, whose bytes are those of its characters in UTF-8.
fn in_utf8(text: &str) -> &str
    ensures { result.now ≡ encode_utf8_all (chars text.now) }
{
    text
}

/// The name of a group of the route at an index, given the number of its component and its number
/// in the component. `None`: there is no such group.
fn group_name(
    kept: &Option<Box<RouterBox>>,
    index: usize,
    component: u32,
    group: usize,
) -> Option<&str>
    ensures { option_text result
        ≡ group_name_at (keys_of (boxed_router kept.now).routes) index component group }
{
    let pattern = pattern_of_route(kept, index)?;
    let name = component_of(component)?;
    let group = pattern.get(name).group_name_list.get(group)?;
    Some(group.as_str())
}
