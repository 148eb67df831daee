//! Single components compared by their parts.

ghost use Rattle.std.specs.Prelude.{◌≡◌, ◌↔◌, [], ◌∷◌, IfNone, IfOk, IfSome, IsTrue, false};
ghost use Rattle.urlpattern_compare.specs.Comparing.{AreSame, IsCaseKeptOrGenerated, IsComponentCovering, IsComponentOverlap, IsExample, IsKnown, IsReasonFor, IsReasonToShare, IsUnknownBy, anything_part, misses_case, unnamed, unnamed_view};
ghost use Rattle.urlpattern_compare.specs.ComparingSteps.{DecidesEveryLine, IsCoveringByMeaning};
ghost use Rattle.urlpattern_syntax.specs.Options.{default_options, options_view};
ghost use Rattle.urlpattern_syntax.specs.Parts.{parts_view};
ghost use Rattle.urlpattern_syntax.specs.Text.{text_of};

use crate::coverage::{Covering, Overlap, Reason, covers_known, overlaps_known};
use crate::examples::example_of;
use crate::known_parts::unknown_parts;
use std::alloc::{AllocError, Global};
use urlpattern_expressions::has_custom;
use urlpattern_syntax::ComponentParts;
use urlpattern_syntax::parser::{Options, Part, PartModifier, PartType};

/// Returns a component that is a full wildcard alone, which matches each text without line feed.
fn anything(alloc: Global) -> Result<ComponentParts, AllocError>
    ensures options { IfOk result (λ component. options_view component.options ≡ default_options) }
    ensures parts { IfOk result (λ component.
        parts_view component.parts.items ≡ anything_part ∷ []) }
{
    let mut parts = Vec::new(alloc);
    parts.push(Part {
        kind: PartType::FullWildcard,
        value: String::new(alloc),
        modifier: PartModifier::None,
        name: String::new(alloc),
        prefix: String::new(alloc),
        suffix: String::new(alloc),
    })?;
    Ok(ComponentParts {
        options: Options::default(alloc),
        parts,
        honours_case: true,
    })
}

/// Returns why the parts of `component` do not tell which texts it matches: a custom regular
/// expression is not simple, or case is ignored, and a part is custom, or an engine keeps case.
/// `None`: the parts tell.
pub(crate) fn unknown(
    alloc: Global,
    component: &ComponentParts,
) -> Result<Option<Reason>, AllocError>
    ensures known { IfOk result (λ found. IfNone found (IsKnown component.now)) }
    ensures reason { IfOk result (λ found. IfSome found (IsUnknownBy component.now)) }
{
    if misses_case(component) {
        return Ok(Some(Reason::IgnoredCase));
    }
    match unknown_parts(alloc, &component.options, &component.parts)? {
        Some(reason) => Ok(Some(reason)),
        None => Ok(None),
    }
}

/// Whether a match keeps case where the options ignore it: an engine matches the component that
/// does not honour the flag `i`.
fn misses_case(component: &ComponentParts) -> bool
    ensures { result ≡ misses_case component.now }
{
    component.options.ignore_case && !component.honours_case
}

/// Returns why the parts of two components do not tell which texts each matches. `None`: the parts
/// tell.
fn unknown_with(
    alloc: Global,
    component: &ComponentParts,
    other: &ComponentParts,
) -> Result<Option<Reason>, AllocError>
    ensures known { IfOk result (λ found.
        IfNone found (IsKnown component.now × IsKnown other.now)) }
    ensures reason { IfOk result (λ found. IfSome found (IsReasonFor component.now other.now)) }
    ensures shared { IfOk result (λ found.
        IfSome found (IsReasonToShare component.now other.now)) }
{
    match unknown(alloc, component)? {
        Some(reason) => Ok(Some(reason)),
        None => unknown(alloc, other),
    }
}

/// Whether `component` is known to match each text without line feed. `false`: a text does not
/// match, or nothing is known.
fn matches_every_line(alloc: Global, component: &ComponentParts) -> Result<bool, AllocError>
    ensures { IfOk result (DecidesEveryLine component.now) }
{
    match unknown(alloc, component)? {
        Some(_) => Ok(false),
        None => covers_anything(alloc, component),
    }
}

/// Whether `component`, whose parts tell which texts it matches, is known to match each text
/// without line feed. `false`: a text does not match, or the comparison is given up (`TooMany`).
fn covers_anything(alloc: Global, component: &ComponentParts) -> Result<bool, AllocError>
    requires { IsKnown component.now }
    ensures { IfOk result (DecidesEveryLine component.now) }
{
    let anything = anything(alloc)?;
    let covering = covers_known(
        alloc,
        &component.options,
        &component.parts,
        &anything.options,
        &anything.parts,
    )?;
    match covering {
        Covering::Covered => Ok(true),
        Covering::NotCovered(text) => {
            drop(text);
            Ok(false)
        }
        Covering::Unknown(_) => Ok(false),
    }
}

/// Whether two components are equal but for the names of groups, and match alike: both honour the
/// flag `i` or neither does, and case is kept, or no part is a custom regular expression.
pub(crate) fn is_same(component: &ComponentParts, other: &ComponentParts) -> bool
    ensures { IsTrue result ↔ AreSame component.now other.now }
{
    is_case_kept_or_generated(component)
        && are_same_options(&component.options, &other.options)
        && are_same_parts(&component.parts, &other.parts)
        && component.honours_case == other.honours_case
}

/// Whether case is kept in `component`, or no part is a custom regular expression.
fn is_case_kept_or_generated(component: &ComponentParts) -> bool
    ensures { IsTrue result ↔ IsCaseKeptOrGenerated component.now }
{
    !component.options.ignore_case || !has_custom(&component.parts)
}

/// Returns whether `component` matches each text without line feed that `asked` matches. `Covered`
/// is also the result for two components that `is_same` finds equal, even with custom regular
/// expressions, and where `component` is known to match each text without line feed.
pub(crate) fn component_covers(
    alloc: Global,
    component: &ComponentParts,
    asked: &ComponentParts,
) -> Result<Covering, AllocError>
    ensures { IfOk result (IsComponentCovering component.now asked.now) }
{
    if is_same(component, asked) {
        return Ok(Covering::Covered);
    }
    match covers_by_meaning(alloc, component, asked)? {
        Covering::Covered => Ok(Covering::Covered),
        Covering::NotCovered(text) => Ok(Covering::NotCovered(text)),
        Covering::Unknown(reason) => {
            if matches_every_line(alloc, component)? {
                Ok(Covering::Covered)
            } else {
                Ok(Covering::Unknown(reason))
            }
        }
    }
}

/// Returns whether `component` matches each text without line feed that `asked` matches, if the
/// parts of both tell which texts they match.
fn covers_by_meaning(
    alloc: Global,
    component: &ComponentParts,
    asked: &ComponentParts,
) -> Result<Covering, AllocError>
    ensures { IfOk result (IsCoveringByMeaning component.now asked.now) }
{
    match unknown_with(alloc, component, asked)? {
        None => covers_known(
            alloc,
            &component.options,
            &component.parts,
            &asked.options,
            &asked.parts,
        ),
        Some(reason) => Ok(Covering::Unknown(reason)),
    }
}

/// Returns whether a text without line feed exists that both components match, and which.
pub(crate) fn component_overlaps(
    alloc: Global,
    component: &ComponentParts,
    other: &ComponentParts,
) -> Result<Overlap, AllocError>
    ensures { IfOk result (IsComponentOverlap component.now other.now) }
{
    match unknown_with(alloc, component, other)? {
        None => overlaps_known(
            alloc,
            &component.options,
            &component.parts,
            &other.options,
            &other.parts,
        ),
        Some(reason) => Ok(Overlap::Unknown(reason)),
    }
}

/// Returns as `Common` a text without line feed that `component` matches. `Apart`: no such text
/// exists.
pub(crate) fn component_example(
    alloc: Global,
    component: &ComponentParts,
) -> Result<Overlap, AllocError>
    ensures { IfOk result (IsExample component.now) }
{
    match unknown(alloc, component)? {
        None => common_with_anything(alloc, component),
        Some(reason) => Ok(Overlap::Unknown(reason)),
    }
}

/// Returns as `Common` a text without line feed that `component`, whose parts tell which texts it
/// matches, does match. `Apart`: no such text exists.
fn common_with_anything(alloc: Global, component: &ComponentParts) -> Result<Overlap, AllocError>
    requires { IsKnown component.now }
    ensures { IfOk result (IsExample component.now) }
{
    if let Some(text) = example_of(alloc, &component.options, &component.parts)? {
        return Ok(Overlap::Common(text));
    }
    let anything = anything(alloc)?;
    overlaps_known(
        alloc,
        &component.options,
        &component.parts,
        &anything.options,
        &anything.parts,
    )
}

/// Whether two options are equal.
pub(crate) fn are_same_options(options: &Options, others: &Options) -> bool
    ensures { IsTrue result ↔ options_view options.now ≡ options_view others.now }
{
    options.delimiter_code_point == others.delimiter_code_point
        && is_same_text(&options.prefix_code_point, &others.prefix_code_point)
        && options.regex_syntax == others.regex_syntax
        && options.ignore_case == others.ignore_case
}

/// Whether two lists of parts are equal but for the names of their groups.
fn are_same_parts(parts: &[Part], others: &[Part]) -> bool
    ensures { IsTrue result ↔ unnamed parts.now ≡ unnamed others.now }
{
    if parts.len() != others.len() {
        return false;
    }
    for index in 0..parts.len() {
        if !is_same_part(&parts[index], &others[index]) {
            return false;
        }
    }
    true
}

/// Whether two parts are equal but for the names of their groups.
fn is_same_part(part: &Part, other: &Part) -> bool
    ensures { IsTrue result ↔ unnamed_view part.now ≡ unnamed_view other.now }
{
    part.kind == other.kind
        && part.modifier == other.modifier
        && is_same_text(&part.value, &other.value)
        && is_same_text(&part.prefix, &other.prefix)
        && is_same_text(&part.suffix, &other.suffix)
}

/// Whether two texts are equal.
pub(crate) fn is_same_text(text: &String, other: &String) -> bool
    ensures { IsTrue result ↔ text_of text.now ≡ text_of other.now }
{
    text == other
}
