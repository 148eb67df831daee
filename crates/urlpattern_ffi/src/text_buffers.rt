//! Writes texts to memory that C owns.
ghost use Rattle.std.specs.Prelude.{◌≡◌, encode_utf8_all, length};
ghost use Rattle.std.specs.Str.{chars};
ghost use Rattle.urlpattern.specs.Patterns.{pattern_view};
ghost use Rattle.urlpattern_ffi.specs.KeptPatterns.{boxed_patterns};
ghost use Rattle.urlpattern_ffi.specs.TextBuffers.{group_name_at, IsComponentWritten, IsGroupNameWritten, IsWrittenTo};
ghost use Rattle.urlpattern_syntax.specs.Text.{option_text};

use crate::pattern_box::{PatternBox, pattern_at};
use crate::status::Status;
use urlpattern::regexp::PatternRegexp;
use urlpattern::{ComponentName, UrlPattern};
use urlpattern_ffi_links::component_of;

/// Writes a text to the start of a buffer, and its length in bytes to `needed`. `TooSmall`: the
/// text does not fit, and the buffer is unchanged.
pub fn write(text: &str, buffer: &mut [u8], needed: &mut usize) -> Status
    ensures written { IsWrittenTo text.now buffer.old buffer.new result }
    ensures needed { needed.new ≡ length text.now }
{
    let count = text.len();
    *needed = count;
    if buffer.len() < count {
        return Status::TooSmall;
    }
    buffer[..count].copy_from_slice(text.as_bytes());
    Status::Done
}

/// Writes the pattern text of a component of the pattern at an index. `component` is the number of
/// the component. `NoPattern`: there is no such pattern or component.
pub fn write_component(
    kept: &Option<Box<PatternBox>>,
    index: usize,
    component: u32,
    buffer: &mut [u8],
    needed: &mut usize,
) -> Status
    ensures { IsComponentWritten (boxed_patterns kept.now) index component buffer.old buffer.new
        needed.new result }
{
    let Some(pattern) = pattern_at(kept, index) else {
        return Status::NoPattern;
    };
    let Some(name) = component_of(component) else {
        return Status::NoPattern;
    };
    write(pattern_text(pattern, name), buffer, needed)
}

/// The pattern text of a component of a pattern.
fn pattern_text(pattern: &UrlPattern<PatternRegexp>, name: ComponentName) -> &str
    ensures { chars result.now ≡ (pattern_view pattern.now name).pattern_string }
{
    &pattern.get(name).pattern_string
}

/// Writes the name of a group of the pattern at an index, given the number of its component and its
/// number in the component. `NoPattern`: there is no such group.
pub fn write_group_name(
    kept: &Option<Box<PatternBox>>,
    index: usize,
    component: u32,
    group: usize,
    buffer: &mut [u8],
    needed: &mut usize,
) -> Status
    ensures { IsGroupNameWritten (boxed_patterns kept.now) index component group buffer.old
        buffer.new needed.new result }
{
    match group_name(kept, index, component, group) {
        Some(name) => write(in_utf8(name), buffer, needed),
        None => Status::NoPattern,
    }
}

/// Returns a text, whose bytes are those of its characters in UTF-8.
fn in_utf8(text: &str) -> &str
    ensures { result.now ≡ encode_utf8_all (chars text.now) }
{
    text
}

/// The name of a group of the pattern at an index, given the number of its component and its number
/// in the component. `None`: there is no such group.
fn group_name(
    kept: &Option<Box<PatternBox>>,
    index: usize,
    component: u32,
    group: usize,
) -> Option<&str>
    ensures { option_text result ≡ group_name_at (boxed_patterns kept.now) index component group }
{
    let pattern = pattern_at(kept, index)?;
    let name = component_of(component)?;
    let group = pattern.get(name).group_name_list.get(group)?;
    Some(group.as_str())
}
