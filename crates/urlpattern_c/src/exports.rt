//! The functions that C calls. Each returns the number of a `Status`, apart from `urlpattern_free`
//! and `urlpattern_version`. A URL is parsed under a base URL unless `base` is empty.
ghost use Rattle.std.specs.Prelude.{◌≡◌, None};
ghost use Rattle.urlpattern_c.specs.Handles.{patterns_in};
ghost use Rattle.urlpattern_c.specs.Returns.{ReportsCaptures, ReportsFirstMatch, ReportsGroupName, ReportsLink};
ghost use Rattle.urlpattern_ffi.specs.Calls.{IsAdded, IsFirstReported, IsTested, ReturnsStatus};
ghost use Rattle.urlpattern_ffi.specs.ReportedCoverings.{IsCoveringReported};
ghost use Rattle.urlpattern_ffi.specs.ReportedDiagnoses.{IsDiagnosed, IsInitDiagnosed};
ghost use Rattle.urlpattern_ffi.specs.ReportedMeanings.{IsMeaningReported};
ghost use Rattle.urlpattern_ffi.specs.Inits.{IsInitAdded};
ghost use Rattle.urlpattern_ffi.specs.Mismatches.{IsCustomReported, IsMismatchReported};
ghost use Rattle.urlpattern_ffi.specs.TextBuffers.{IsComponentWritten, IsExecReported};

use crate::patterns::Patterns;
use std::alloc::Global;
use urlpattern_ffi::{
    GivenBytes, GroupSpan, Place, Sizes, add, add_init, captures, covers, diagnose, diagnose_init,
    execute, first, first_captures, has_meaning, has_regexp_groups, link, mismatch, test, version,
    write_component, write_group_name,
};

/// Compiles a constructor string, under a base URL unless `base` is empty, and appends the pattern.
/// If an error occurs, the patterns are unchanged.
#[unsafe(no_mangle)]
pub extern "C" fn urlpattern_add(
    alloc: Global,
    patterns: &mut Patterns,
    text: &[u8],
    base: &[u8],
    ignore_case: bool,
) -> u32
    ensures { ReturnsStatus (IsAdded (patterns_in patterns.old) text.now base.now ignore_case
        (patterns_in patterns.new)) result }
{
    let mut kept = patterns.take(alloc);
    let status = add(alloc, &mut kept, text, base, ignore_case);
    patterns.put(kept);
    status.number()
}

/// Compiles an init, a JSON object with the texts of components and of a base URL, and appends the
/// pattern. If an error occurs, the patterns are unchanged.
#[unsafe(no_mangle)]
pub extern "C" fn urlpattern_add_init(
    alloc: Global,
    patterns: &mut Patterns,
    json: &[u8],
    ignore_case: bool,
) -> u32
    ensures { ReturnsStatus
        (IsInitAdded (patterns_in patterns.old) json.now ignore_case (patterns_in patterns.new))
        result }
{
    let mut kept = patterns.take(alloc);
    let status = add_init(alloc, &mut kept, json, ignore_case);
    patterns.put(kept);
    status.number()
}

/// Frees the patterns, unless another handle has them. The handle is then empty, and freeing it
/// again does nothing.
#[unsafe(no_mangle)]
pub extern "C" fn urlpattern_free(alloc: Global, patterns: &mut Patterns)
    ensures { patterns.new.slot.held ≡ None }
{
    drop(patterns.take(alloc));
}

/// Whether the pattern at an index matches a URL: 1 if it matches, 0 if it does not.
#[unsafe(no_mangle)]
pub extern "C" fn urlpattern_test(
    alloc: Global,
    patterns: &mut Patterns,
    index: usize,
    url: &[u8],
    base: &[u8],
) -> u32
    ensures answer { ReturnsStatus (IsTested (patterns_in patterns.old) index url.now base.now)
        result }
    ensures unchanged { patterns_in patterns.new ≡ patterns_in patterns.old }
{
    let kept = patterns.take(alloc);
    let status = test(alloc, &kept, index, url, base);
    patterns.put(kept);
    status.number()
}

/// Finds the first pattern that matches a URL, and writes its index. Returns 0 if no pattern
/// matches.
#[unsafe(no_mangle)]
pub extern "C" fn urlpattern_first(
    alloc: Global,
    patterns: &mut Patterns,
    url: &[u8],
    base: &[u8],
    index: &mut usize,
) -> u32
    ensures answer { ReturnsStatus
        (IsFirstReported (patterns_in patterns.old) url.now base.now index.old index.new) result }
    ensures unchanged { patterns_in patterns.new ≡ patterns_in patterns.old }
{
    let kept = patterns.take(alloc);
    let status = first(alloc, &kept, url, base, index);
    patterns.put(kept);
    status.number()
}

/// Matches the pattern at an index against a URL, and writes the number of the first component that
/// does not match, or 8 if none is found: each matches, there is no URL or no pattern, or memory
/// ran out.
#[unsafe(no_mangle)]
pub extern "C" fn urlpattern_mismatch(
    alloc: Global,
    patterns: &mut Patterns,
    index: usize,
    url: &[u8],
    base: &[u8],
    component: &mut u32,
) -> u32
    ensures answer { ReturnsStatus
        (IsMismatchReported (patterns_in patterns.old) index url.now base.now component.new)
        result }
    ensures unchanged { patterns_in patterns.new ≡ patterns_in patterns.old }
{
    let kept = patterns.take(alloc);
    let status = mismatch(alloc, &kept, index, url, base, component);
    patterns.put(kept);
    status.number()
}

/// Writes the match of a URL by the pattern at an index to `buffer`, as JSON, and the length of the
/// JSON in bytes to `needed`.
#[unsafe(no_mangle)]
pub extern "C" fn urlpattern_exec(
    alloc: Global,
    patterns: &mut Patterns,
    index: usize,
    url: &[u8],
    base: &[u8],
    buffer: &mut [u8],
    needed: &mut usize,
) -> u32
    ensures answer { ReturnsStatus (IsExecReported (patterns_in patterns.old) index url.now base.now
        buffer.old buffer.new needed.new) result }
    ensures unchanged { patterns_in patterns.new ≡ patterns_in patterns.old }
{
    let kept = patterns.take(alloc);
    let status = execute(alloc, &kept, index, url, base, buffer, needed);
    patterns.put(kept);
    status.number()
}

/// Matches the pattern at an index against a URL. If it matches, writes the captures of its groups
/// to `buffer`, a span for each group to `spans`, and the room that both need to `needed`.
#[unsafe(no_mangle)]
pub extern "C" fn urlpattern_captures(
    alloc: Global,
    patterns: &mut Patterns,
    index: usize,
    url: &[u8],
    base: &[u8],
    buffer: &mut [u8],
    spans: &mut [GroupSpan],
    needed: &mut Sizes,
) -> u32
    ensures answer { ReportsCaptures patterns.old index url.now base.now buffer.old buffer.new
        spans.old spans.new needed.new result }
    ensures unchanged { patterns_in patterns.new ≡ patterns_in patterns.old }
{
    let kept = patterns.take(alloc);
    let status = captures(alloc, &kept, index, url, base, buffer, spans, needed);
    patterns.put(kept);
    status.number()
}

/// Finds the first pattern that matches a URL. If there is one, writes its index, the captures of
/// its groups to `buffer`, a span for each group to `spans`, and the room that both need to
/// `needed`.
#[unsafe(no_mangle)]
pub extern "C" fn urlpattern_first_captures(
    alloc: Global,
    patterns: &mut Patterns,
    url: &[u8],
    base: &[u8],
    index: &mut usize,
    buffer: &mut [u8],
    spans: &mut [GroupSpan],
    needed: &mut Sizes,
) -> u32
    ensures answer { ReportsFirstMatch patterns.old url.now base.now index.old index.new buffer.old
        buffer.new spans.old spans.new needed.new result }
    ensures unchanged { patterns_in patterns.new ≡ patterns_in patterns.old }
{
    let kept = patterns.take(alloc);
    let status = first_captures(alloc, &kept, url, base, index, buffer, spans, needed);
    patterns.put(kept);
    status.number()
}

/// Writes to `buffer` the URL of the pattern at an index, with the groups that `given` cuts out of
/// `text`, and its length in bytes to `needed`. Returns 6 if there is no URL, and then writes the
/// reason in its place.
#[unsafe(no_mangle)]
pub extern "C" fn urlpattern_link(
    alloc: Global,
    patterns: &mut Patterns,
    index: usize,
    text: &[u8],
    given: &[GivenBytes],
    buffer: &mut [u8],
    needed: &mut usize,
) -> u32
    ensures answer { ReportsLink patterns.old index text.now given.now buffer.old buffer.new
        needed.new result }
    ensures unchanged { patterns_in patterns.new ≡ patterns_in patterns.old }
{
    let kept = patterns.take(alloc);
    let status = link(alloc, &kept, index, text, given, buffer, needed);
    patterns.put(kept);
    status.number()
}

/// Writes the name of a group of the pattern at an index to `buffer`, and its length in bytes to
/// `needed`, given the number of its component and its number in the component.
#[unsafe(no_mangle)]
pub extern "C" fn urlpattern_group_name(
    alloc: Global,
    patterns: &mut Patterns,
    index: usize,
    component: u32,
    group: usize,
    buffer: &mut [u8],
    needed: &mut usize,
) -> u32
    ensures answer { ReportsGroupName patterns.old index component group buffer.old buffer.new
        needed.new result }
    ensures unchanged { patterns_in patterns.new ≡ patterns_in patterns.old }
{
    let kept = patterns.take(alloc);
    let status = write_group_name(&kept, index, component, group, buffer, needed);
    patterns.put(kept);
    status.number()
}

/// Writes the pattern text of a component of the pattern at an index to `buffer`, and its length in
/// bytes to `needed`. `component` is the number of the component.
#[unsafe(no_mangle)]
pub extern "C" fn urlpattern_component(
    alloc: Global,
    patterns: &mut Patterns,
    index: usize,
    component: u32,
    buffer: &mut [u8],
    needed: &mut usize,
) -> u32
    ensures answer { ReturnsStatus (IsComponentWritten (patterns_in patterns.old) index component
        buffer.old buffer.new needed.new) result }
    ensures unchanged { patterns_in patterns.new ≡ patterns_in patterns.old }
{
    let kept = patterns.take(alloc);
    let status = write_component(&kept, index, component, buffer, needed);
    patterns.put(kept);
    status.number()
}

/// Whether the pattern at an index has a custom regular expression: 1 if it has one, 0 if it has
/// none, 8 if there is no such pattern.
#[unsafe(no_mangle)]
pub extern "C" fn urlpattern_has_regexp_groups(
    alloc: Global,
    patterns: &mut Patterns,
    index: usize,
) -> u32
    ensures answer { ReturnsStatus (IsCustomReported (patterns_in patterns.old) index) result }
    ensures unchanged { patterns_in patterns.new ≡ patterns_in patterns.old }
{
    let kept = patterns.take(alloc);
    let status = has_regexp_groups(&kept, index);
    patterns.put(kept);
    status.number()
}

/// Whether each component of the pattern at an index has a meaning: its custom regular expressions
/// are simple, and if it has one, its case is kept. 1 if each has one, 0 if not, 8 if there is no
/// such pattern.
#[unsafe(no_mangle)]
pub extern "C" fn urlpattern_has_meaning(
    alloc: Global,
    patterns: &mut Patterns,
    index: usize,
) -> u32
    ensures answer { ReturnsStatus (IsMeaningReported (patterns_in patterns.old) index) result }
    ensures unchanged { patterns_in patterns.new ≡ patterns_in patterns.old }
{
    let kept = patterns.take(alloc);
    let status = has_meaning(alloc, &kept, index);
    patterns.put(kept);
    status.number()
}

/// Whether the pattern at `index` covers the asked one, the pattern at `asked` of the same handle:
/// 1 if it does, 0 if not, 10 if it is not known. Writes the number of a component in which the two
/// differ, or because of which it is not known, or else 8.
#[unsafe(no_mangle)]
pub extern "C" fn urlpattern_covers_within(
    alloc: Global,
    patterns: &mut Patterns,
    index: usize,
    asked: usize,
    component: &mut u32,
) -> u32
    ensures answer { ReturnsStatus (IsCoveringReported (patterns_in patterns.old) index
        (patterns_in patterns.old) asked component.new) result }
    ensures unchanged { patterns_in patterns.new ≡ patterns_in patterns.old }
{
    let kept = patterns.take(alloc);
    let status = covers(alloc, &kept, index, &kept, asked, component);
    patterns.put(kept);
    status.number()
}

/// Whether the pattern at `index` covers the asked one, the pattern of `others` at `asked`: 1 if it
/// does, 0 if not, 10 if it is not known. Writes the number of a component in which the two differ,
/// or because of which it is not known, or else 8.
#[unsafe(no_mangle)]
pub extern "C" fn urlpattern_covers_between(
    alloc: Global,
    patterns: &mut Patterns,
    index: usize,
    others: &mut Patterns,
    asked: usize,
    component: &mut u32,
) -> u32
    ensures answer { ReturnsStatus (IsCoveringReported (patterns_in patterns.old) index
        (patterns_in others.old) asked component.new) result }
    ensures unchanged { patterns_in patterns.new ≡ patterns_in patterns.old }
    ensures others_unchanged { patterns_in others.new ≡ patterns_in others.old }
{
    let kept = patterns.take(alloc);
    let other_kept = others.take(alloc);
    let status = covers(alloc, &kept, index, &other_kept, asked, component);
    others.put(other_kept);
    patterns.put(kept);
    status.number()
}

/// Writes to `buffer` why a constructor string or its base URL is rejected, the length of that in
/// bytes to `needed`, and to `place` where the fault is. Returns 0 if neither is rejected.
#[unsafe(no_mangle)]
pub extern "C" fn urlpattern_diagnose(
    alloc: Global,
    text: &[u8],
    base: &[u8],
    ignore_case: bool,
    buffer: &mut [u8],
    needed: &mut usize,
    place: &mut Place,
) -> u32
    ensures { ReturnsStatus
        (IsDiagnosed text.now base.now ignore_case buffer.old buffer.new needed.new place.new)
        result }
{
    diagnose(alloc, text, base, ignore_case, buffer, needed, place).number()
}

/// Writes to `buffer` why an init in JSON is rejected, the length of that in bytes to `needed`, and
/// to `place` in which of its texts and where the fault is. Returns 0 if the init is not rejected,
/// 6 if the JSON is not an init or its base URL is rejected.
#[unsafe(no_mangle)]
pub extern "C" fn urlpattern_diagnose_init(
    alloc: Global,
    json: &[u8],
    ignore_case: bool,
    buffer: &mut [u8],
    needed: &mut usize,
    place: &mut Place,
) -> u32
    ensures { ReturnsStatus
        (IsInitDiagnosed json.now ignore_case buffer.old buffer.new needed.new place.new) result }
{
    diagnose_init(alloc, json, ignore_case, buffer, needed, place).number()
}

/// The version of the interface: 1,000 times its first number, plus its second.
#[unsafe(no_mangle)]
pub extern "C" fn urlpattern_version() -> u32
    ensures { result ≡ 2000 }
{
    version()
}
