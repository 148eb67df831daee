//! Patterns that match texts of no URL.
ghost use Rattle.std.specs.Prelude.{◌≡◌, IfOk, OnOk, ◌++◌, ◌∷◌, []};
ghost use Rattle.std.specs.Str.{chars};
ghost use Rattle.urlpattern_compare.specs.CommonTexts.{AreAutomata};
ghost use Rattle.urlpattern_compare.specs.Comparing.{anything_part};
ghost use Rattle.urlpattern_syntax.specs.Parts.{parts_view};
ghost use Rattle.urlpattern_urls.specs.Unlike.{AreUnlike, IsMadeOf, IsUnlike, IsUnlikeIn, NoUrlIsUnlike, own_component, own_parts, part_of, web_parts};
ghost use Rattle.urlpattern_urls.specs.declared.unlike.Unlike.TheVariants as ways;

use std::alloc::{AllocError, Global};
use urlpattern_compare::{PatternAutomata, PatternParts};
use urlpattern_components::{ComponentName, Eight};
use urlpattern_syntax::ComponentParts;
use urlpattern_syntax::parser::{Options, Part, PartModifier, PartType};

/// How eight texts may be unlike those of any URL.
#[derive(Clone, Copy, Debug, PartialEq, Eq)]
pub(crate) enum Unlike {
    /// The protocol is empty.
    NoProtocol,
    /// Under `http` or `https`, the hostname is empty.
    NoHostname,
    /// Under `http` or `https`, the pathname is empty.
    NoPathname,
    /// Under `http` or `https`, the pathname begins with another character than a slash.
    NoSlash,
}

/// What is known of the texts of each URL, made once for any number of questions: four patterns
/// that match texts of no URL.
///
/// The texts have an empty protocol or, under `http` and `https`, an empty hostname, an empty
/// pathname, or a pathname that begins with another character than a slash.
#[derive(Debug, Drop)]
pub struct UrlFacts {
    /// The automata of the four patterns, in the order in which the texts are named above.
    pub patterns: Vec<PatternAutomata>,
}

impl UrlFacts {
    /// Makes the automata of the four patterns.
    pub fn new(alloc: Global) -> Result<Self, AllocError>
        ensures { IfOk result (λ it. AreUnlike it.patterns.items) }
    {
        let protocol = automata_of(alloc, Unlike::NoProtocol)?;
        let hostname = automata_of(alloc, Unlike::NoHostname)?;
        let pathname = automata_of(alloc, Unlike::NoPathname)?;
        let slash = automata_of(alloc, Unlike::NoSlash)?;
        let mut patterns = Vec::with_capacity(alloc, 4)?;
        patterns.push(protocol)?;
        patterns.push(hostname)?;
        patterns.push(pathname)?;
        patterns.push(slash)?;
        Ok(UrlFacts { patterns })
    }
}

/// No URL has eight texts that one of the patterns of [`UrlFacts`] matches.
pub fn no_url_is_unlike()
    ensures { NoUrlIsUnlike }
{}

/// Returns the automata of the pattern for texts that are unlike those of a URL in this way.
fn automata_of(alloc: Global, way: Unlike) -> Result<PatternAutomata, AllocError>
    ensures automata { IfOk result AreAutomata }
    ensures parts { IfOk result (λ it. IsUnlike way it.parts) }
{
    let component = |name: ComponentName| -> Result<ComponentParts, AllocError>
        ensures { IfOk result (IsUnlikeIn way name) }
    { component_of(alloc, way, name) };
    let components = Eight::try_from_fn(component)?;
    PatternAutomata::new(alloc, PatternParts { components })
}

/// Returns the component `name` of the pattern.
fn component_of(
    alloc: Global,
    way: Unlike,
    name: ComponentName,
) -> Result<ComponentParts, AllocError>
    ensures { IfOk result (IsUnlikeIn way name) }
{
    if name == own_component(way) {
        return own(alloc, way);
    }
    match name {
        ComponentName::Protocol => web(alloc),
        _ => anything(alloc),
    }
}

/// Returns the component in which texts are unlike those of a URL.
fn own_component(way: Unlike) -> ComponentName
    ensures { result ≡ own_component way }
{
    match way {
        Unlike::NoProtocol => ComponentName::Protocol,
        Unlike::NoHostname => ComponentName::Hostname,
        Unlike::NoPathname | Unlike::NoSlash => ComponentName::Pathname,
    }
}

/// Returns the component of the pattern in which texts are unlike those of a URL.
fn own(alloc: Global, way: Unlike) -> Result<ComponentParts, AllocError>
    ensures { IfOk result (IsMadeOf (own_parts way)) }
{
    match way {
        Unlike::NoSlash => no_slash(alloc),
        Unlike::NoProtocol | Unlike::NoHostname | Unlike::NoPathname => Ok(empty(alloc)),
    }
}

/// Returns the component that matches the empty text.
fn empty(alloc: Global) -> ComponentParts
    ensures { IsMadeOf [] result }
{
    made_of(alloc, Vec::new(alloc))
}

/// Returns the component that matches a text with another character than a slash in front.
fn no_slash(alloc: Global) -> Result<ComponentParts, AllocError>
    ensures { IfOk result (IsMadeOf (own_parts ways.NoSlash)) }
{
    let mut parts = Vec::new(alloc);
    push_part(
        alloc,
        &mut parts,
        PartType::SegmentWildcard,
        "",
        PartModifier::None,
    )?;
    push_part(
        alloc,
        &mut parts,
        PartType::FullWildcard,
        "",
        PartModifier::None,
    )?;
    Ok(made_of(alloc, parts))
}

/// Returns the component that matches `http` and `https`.
fn web(alloc: Global) -> Result<ComponentParts, AllocError>
    ensures { IfOk result (IsMadeOf web_parts) }
{
    let mut parts = Vec::new(alloc);
    push_part(
        alloc,
        &mut parts,
        PartType::FixedText,
        "http",
        PartModifier::None,
    )?;
    push_part(
        alloc,
        &mut parts,
        PartType::FixedText,
        "s",
        PartModifier::Optional,
    )?;
    Ok(made_of(alloc, parts))
}

/// Returns the component that matches any text without line feed.
fn anything(alloc: Global) -> Result<ComponentParts, AllocError>
    ensures { IfOk result (IsMadeOf (anything_part ∷ [])) }
{
    let mut parts = Vec::new(alloc);
    push_part(
        alloc,
        &mut parts,
        PartType::FullWildcard,
        "",
        PartModifier::None,
    )?;
    Ok(made_of(alloc, parts))
}

/// Appends a part without name, prefix and suffix.
pub fn push_part(
    alloc: Global,
    parts: &mut Vec<Part>,
    kind: PartType,
    value: &str,
    modifier: PartModifier,
) -> Result<(), AllocError>
    ensures { OnOk result (parts_view parts.new.items
        ≡ parts_view parts.old.items ++ part_of kind (chars value.now) modifier ∷ []) }
{
    parts.push(Part {
        kind,
        value: String::from_str(alloc, value)?,
        modifier,
        name: String::new(alloc),
        prefix: String::new(alloc),
        suffix: String::new(alloc),
    })?;
    Ok(())
}

/// Returns the component of these parts, with a slash as its delimiter.
pub fn made_of(alloc: Global, parts: Vec<Part>) -> ComponentParts
    ensures { IsMadeOf (parts_view parts.items) result }
{
    let options = Options {
        delimiter_code_point: Some('/'),
        ..Options::default(alloc)
    };
    ComponentParts {
        options,
        parts,
        honours_case: true,
    }
}
