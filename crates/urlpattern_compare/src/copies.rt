//! Copies of the parts of a pattern.

ghost use Rattle.std.specs.Prelude.{◌≡◌, IfOk};
ghost use Rattle.urlpattern_compare.specs.EqualParts.{AreEqual, AreEqualParts};
ghost use Rattle.urlpattern_components.specs.Eight.{at};
ghost use Rattle.urlpattern_syntax.specs.Options.{options_view};
ghost use Rattle.urlpattern_syntax.specs.Parts.{part_view, parts_view};

use crate::pattern_parts::PatternParts;
use std::alloc::{AllocError, Global};
use urlpattern_components::{ComponentName, Eight};
use urlpattern_syntax::ComponentParts;
use urlpattern_syntax::parser::{Options, Part, PartType};

/// Returns a copy of the parts of a pattern.
pub fn copy_of(alloc: Global, parts: &PatternParts) -> Result<PatternParts, AllocError>
    ensures { IfOk result (AreEqualParts parts.now) }
{
    let copy = |name: ComponentName| -> Result<ComponentParts, AllocError>
        ensures { IfOk result (AreEqual (at parts.entry.now.components name)) }
    { copied_component(alloc, parts.components.get(name)) };
    let components = Eight::try_from_fn(copy)?;
    Ok(PatternParts { components })
}

/// Returns a copy of the options and of the parts of a component.
fn copied_component(alloc: Global, component: &ComponentParts) -> Result<ComponentParts, AllocError>
    ensures { IfOk result (AreEqual component.now) }
{
    let options = copied_options(&component.options)?;
    let mut parts = Vec::new(alloc);
    for part in &component.parts {
        let copy = copied_part(part)?;
        parts.push(copy)?;
    }
    Ok(ComponentParts {
        options,
        parts,
        honours_case: component.honours_case,
    })
}

/// Returns a copy of the options.
fn copied_options(options: &Options) -> Result<Options, AllocError>
    ensures { IfOk result (λ copy. options_view options.now ≡ options_view copy) }
{
    let prefix_code_point = options.prefix_code_point.clone()?;
    Ok(Options {
        delimiter_code_point: options.delimiter_code_point,
        prefix_code_point,
        regex_syntax: options.regex_syntax,
        ignore_case: options.ignore_case,
    })
}

/// Returns a copy of the part.
fn copied_part(part: &Part) -> Result<Part, AllocError>
    ensures { IfOk result (λ copy. part_view part.now ≡ part_view copy) }
{
    let value = part.value.clone()?;
    let name = part.name.clone()?;
    let prefix = part.prefix.clone()?;
    let suffix = part.suffix.clone()?;
    Ok(Part {
        kind: copied_kind(&part.kind),
        value,
        modifier: part.modifier,
        name,
        prefix,
        suffix,
    })
}

/// Returns a copy of the kind.
fn copied_kind(kind: &PartType) -> PartType
    ensures { result ≡ kind.now }
{
    match kind {
        PartType::FixedText => PartType::FixedText,
        PartType::Regexp => PartType::Regexp,
        PartType::SegmentWildcard => PartType::SegmentWildcard,
        PartType::FullWildcard => PartType::FullWildcard,
    }
}
