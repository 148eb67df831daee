//! Which component does not match, and whether a pattern has custom regular expressions.
ghost use Rattle.std.specs.Prelude.{◌≡◌, ◌<◌, slice_get, Some};
ghost use Rattle.urlpattern.specs.Eight.{components};
ghost use Rattle.urlpattern.specs.Patterns.{pattern_view};
ghost use Rattle.urlpattern_ffi.specs.KeptPatterns.{boxed_patterns};
ghost use Rattle.urlpattern_ffi.specs.Mismatches.{component_number, IsCustomReported, IsMismatchReported, IsUrlMismatched};

use crate::pattern_box::{PatternBox, pattern_at};
use crate::status::Status;
use crate::url_inputs::url_of;
use std::alloc::Global;
use urlpattern::regexp::PatternRegexp;
use urlpattern::{ComponentName, UrlPattern};

/// The number that is written in place of a component if there is none.
pub(crate) const NO_COMPONENT: u32 = 8;

/// Matches the pattern at an index against a URL, and writes the number of the first component that
/// does not match, or `NO_COMPONENT` if none is found: each matches, there is no URL or no pattern,
/// or memory ran out.
pub fn mismatch(
    alloc: Global,
    kept: &Option<Box<PatternBox>>,
    index: usize,
    url: &[u8],
    base: &[u8],
    component: &mut u32,
) -> Status
    ensures { IsMismatchReported (boxed_patterns kept.now) index url.now base.now component.new
        result }
{
    match pattern_at(kept, index) {
        Some(pattern) => pattern_mismatch(alloc, pattern, url, base, component),
        None => {
            *component = NO_COMPONENT;
            Status::NoPattern
        }
    }
}

/// Matches a pattern against a URL, and writes the number of the first component that does not
/// match, or `NO_COMPONENT` if none is found: each matches, there is no URL, or memory ran out.
fn pattern_mismatch(
    alloc: Global,
    pattern: &UrlPattern<PatternRegexp>,
    url: &[u8],
    base: &[u8],
    component: &mut u32,
) -> Status
    ensures { IsUrlMismatched (pattern_view pattern.now) url.now base.now component.new result }
{
    *component = NO_COMPONENT;
    let url = match url_of(alloc, url, base) {
        Ok(url) => url,
        Err(status) => return status,
    };
    match pattern.mismatch(alloc, &url) {
        Ok(None) => Status::Done,
        Ok(Some(name)) => {
            *component = component_number(name);
            Status::NoMatch
        }
        Err(_) => Status::OutOfMemory,
    }
}

/// The number of a component, in the order of the standard.
pub(crate) fn component_number(name: ComponentName) -> u32
    ensures number { result ≡ component_number name }
    ensures small { result < 8 }
    ensures place { slice_get components result ≡ Some name }
{
    match name {
        ComponentName::Protocol => 0,
        ComponentName::Username => 1,
        ComponentName::Password => 2,
        ComponentName::Hostname => 3,
        ComponentName::Port => 4,
        ComponentName::Pathname => 5,
        ComponentName::Search => 6,
        ComponentName::Hash => 7,
    }
}

/// Whether the pattern at an index has a custom regular expression: `Done` if it has one, `NoMatch`
/// if it has none, `NoPattern` if there is no such pattern.
pub fn has_regexp_groups(kept: &Option<Box<PatternBox>>, index: usize) -> Status
    ensures { IsCustomReported (boxed_patterns kept.now) index result }
{
    match pattern_at(kept, index) {
        Some(pattern) => {
            if pattern.has_regexp_groups() {
                Status::Done
            } else {
                Status::NoMatch
            }
        }
        None => Status::NoPattern,
    }
}
