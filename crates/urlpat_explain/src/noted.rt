//! What `explain` notes of single components: whether they have a meaning, and whether their custom
//! expressions have groups of their own.

ghost use Rattle.std.specs.Prelude.{◌≡◌, ◌↔◌, IfOk, IsTrue};
ghost use Rattle.std.specs.Str.{chars};
ghost use Rattle.urlpat_explain.specs.Noted.{AreNoted, HasOwnGroups, IsNoted, has_groups, have_groups, part_has_groups};
ghost use Rattle.urlpattern_syntax.specs.{Parts.part_view, Parts.parts_view};

use regex_syntax::{Config, ErrorKind};
use std::alloc::Global;
use urlpattern_components::{ComponentName, Eight};
use urlpattern_engine::PatternRegexp;
use urlpattern_pattern::UrlPattern;
use urlpattern_syntax::error::OutOfMemory;
use urlpattern_syntax::parser::{Part, PartType};

/// What is noted of a component.
#[derive(Clone, Copy)]
pub struct Noted {
    /// Whether the component has a meaning: each custom expression is simple, and if there is one,
    /// case is kept.
    pub has_meaning: bool,
    /// Whether a custom expression of the component has groups of its own, which shift the names
    /// after it.
    pub has_own_groups: bool,
}

/// Returns what is noted of each component of a pattern.
///
/// The only error is that memory ran out.
pub fn noted_of(
    alloc: Global,
    pattern: &UrlPattern<PatternRegexp>,
) -> Result<Eight<Noted>, OutOfMemory>
    ensures { IfOk result (AreNoted pattern.now) }
{
    let noted = |name: ComponentName| -> Result<Noted, OutOfMemory>
        ensures { IfOk result (IsNoted pattern.entry.now name) }
    { component_noted(alloc, pattern, name) };
    Eight::try_from_fn(noted)
}

/// Returns what is noted of the component `name`.
fn component_noted(
    alloc: Global,
    pattern: &UrlPattern<PatternRegexp>,
    name: ComponentName,
) -> Result<Noted, OutOfMemory>
    ensures { IfOk result (IsNoted pattern.now name) }
{
    let has_meaning = pattern.component_has_meaning_by_case(alloc, name)?;
    let has_own_groups = has_own_groups(alloc, pattern, name)?;
    Ok(Noted {
        has_meaning,
        has_own_groups,
    })
}

/// Whether a custom expression of the component `name` has groups of its own. `false` for a pattern
/// that was put together by hand, which has no parts.
fn has_own_groups(
    alloc: Global,
    pattern: &UrlPattern<PatternRegexp>,
    name: ComponentName,
) -> Result<bool, OutOfMemory>
    ensures { IfOk result (λ found. IsTrue found ↔ HasOwnGroups pattern.now name) }
{
    match pattern.parts() {
        Some(parts) => have_groups(alloc, &parts.components.get(name).parts),
        None => Ok(false),
    }
}

/// Whether a custom expression of `parts` has groups of its own.
fn have_groups(alloc: Global, parts: &[Part]) -> Result<bool, OutOfMemory>
    ensures { IfOk result (λ found. found ≡ have_groups (parts_view parts.now)) }
{
    for part in parts {
        if part_has_groups(alloc, part)? {
            return Ok(true);
        }
    }
    Ok(false)
}

/// Whether the part is custom, and its expression has groups of its own.
fn part_has_groups(alloc: Global, part: &Part) -> Result<bool, OutOfMemory>
    ensures { IfOk result (λ found.
        found ≡ part_has_groups part.now.kind (part_view part.now).value) }
{
    match part.kind {
        PartType::Regexp => has_groups(alloc, &part.value),
        _ => Ok(false),
    }
}

/// Whether the grammar of `regex` reads a custom expression with a group that captures.
fn has_groups(alloc: Global, expression: &str) -> Result<bool, OutOfMemory>
    ensures { IfOk result (λ found. found ≡ has_groups (chars expression.now)) }
{
    match regex_syntax::parse(alloc, expression, &Config::default()) {
        Ok(parsed) => {
            let found = parsed.names.len() > 1;
            drop(parsed);
            Ok(found)
        }
        Err(error) => match error.kind {
            ErrorKind::OutOfMemory => Err(OutOfMemory),
            _ => Ok(false),
        },
    }
}
