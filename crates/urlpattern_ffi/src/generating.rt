//! Writes the text of one component of a pattern with given groups.
ghost use Rattle.urlpattern_ffi.specs.KeptPatterns.{boxed_patterns};
ghost use Rattle.urlpattern_ffi.specs.WrittenTexts.{IsComponentGenerated, IsRefusalWritten, IsTextGenerated};

use crate::pattern_box::{PatternBox, pattern_at};
use crate::status::Status;
use crate::text_buffers::write;
use std::alloc::Global;
use urlpattern::regexp::PatternRegexp;
use urlpattern::{ComponentName, GenerateError, UrlPattern};
use urlpattern_ffi_links::{GivenBytes, Ungenerated, component_of};

/// Writes the text of a component of the pattern at an index, with the groups that `given` cuts out
/// of `text`, to `buffer`, and its length in bytes to `needed`. `component` is the number of the
/// component. `Refused`: there is no such text, and the reason is written in its place.
/// `NoPattern`: there is no such pattern or component, or an element of `given` gives no group.
pub fn generate(
    alloc: Global,
    kept: &Option<Box<PatternBox>>,
    index: usize,
    component: u32,
    text: &[u8],
    given: &[GivenBytes],
    buffer: &mut [u8],
    needed: &mut usize,
) -> Status
    ensures { IsTextGenerated (boxed_patterns kept.now) index component text.now given.now
        buffer.old buffer.new needed.new result }
{
    let Some(pattern) = pattern_at(kept, index) else {
        return Status::NoPattern;
    };
    let Some(name) = component_of(component) else {
        return Status::NoPattern;
    };
    generate_component(alloc, pattern, name, text, given, buffer, needed)
}

/// Writes the text of a component of a pattern, with the groups that `given` cuts out of `text`, to
/// `buffer`, and its length in bytes to `needed`. `Refused`: there is no such text, and the reason
/// is written in its place. `NoPattern`: an element of `given` gives no group.
fn generate_component(
    alloc: Global,
    pattern: &UrlPattern<PatternRegexp>,
    component: ComponentName,
    text: &[u8],
    given: &[GivenBytes],
    buffer: &mut [u8],
    needed: &mut usize,
) -> Status
    ensures { IsComponentGenerated pattern.now component text.now given.now buffer.old buffer.new
        needed.new result }
{
    match urlpattern_ffi_links::generate(alloc, pattern, component, text, given) {
        Ok(made) => write(&made, buffer, needed),
        Err(Ungenerated::NoText(reason)) => write_refusal(alloc, &reason, buffer, needed),
        Err(Ungenerated::Given) => Status::NoPattern,
        Err(Ungenerated::OutOfMemory) => Status::OutOfMemory,
    }
}

/// Writes to `buffer` why there is no text, and the length of that in bytes to `needed`. `Refused`:
/// the reason is written.
fn write_refusal(
    alloc: Global,
    reason: &GenerateError,
    buffer: &mut [u8],
    needed: &mut usize,
) -> Status
    ensures { IsRefusalWritten reason.now buffer.old buffer.new needed.new result }
{
    let Ok(text) = reason.to_string(alloc) else {
        return Status::OutOfMemory;
    };
    match write(&text, buffer, needed) {
        Status::Done => Status::Refused,
        status => status,
    }
}
