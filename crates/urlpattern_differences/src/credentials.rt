//! Rules that deny a user name and a password.
ghost use Rattle.std.specs.Prelude.{IfOk, OnErr, OnOk};
ghost use Rattle.urlpattern_compare.specs.CommonTexts.{AreAutomata};
ghost use Rattle.urlpattern_differences.specs.Deciding.{HasSameRules};
ghost use Rattle.urlpattern_differences.specs.Credentials.{DeniesCredentials, IsWildcard, IsWildcardOf, IsWritten, WrittenMatch};

use crate::rules::{Effect, PolicyAutomata};
use std::alloc::{AllocError, Global};
use urlpattern_compare::{PatternAutomata, PatternParts};
use urlpattern_components::{ComponentName, Eight};
use urlpattern_syntax::ComponentParts;
use urlpattern_syntax::parser::{Options, Part, PartModifier, PartType};

impl PolicyAutomata {
    /// Appends two rules, which deny URLs with a user name and URLs with a password. If memory runs
    /// out, the rules are unchanged.
    ///
    /// A policy that denies credentials before any rule calls this before it appends others.
    pub fn deny_credentials(&mut self, alloc: Global) -> Result<(), AllocError>
        ensures denied { OnOk result (DeniesCredentials self.old self.new) }
        ensures unchanged { OnErr result (HasSameRules self.old self.new) }
    {
        let username = written(alloc, ComponentName::Username)?;
        let password = written(alloc, ComponentName::Password)?;
        self.reserve(2)?;
        self.append(username, Effect::Deny);
        self.append(password, Effect::Deny);
        Ok(())
    }
}

/// The pattern for a component matches eight texts without line feeds exactly if the text of that
/// component is not empty.
pub fn written_match_what_is_written()
    ensures { WrittenMatch }
{}

/// Returns the automata of a pattern that matches eight texts if that of the component is not
/// empty.
fn written(alloc: Global, component: ComponentName) -> Result<PatternAutomata, AllocError>
    ensures automata { IfOk result AreAutomata }
    ensures parts { IfOk result (λ it. IsWritten component it.parts) }
{
    let parts = written_parts(alloc, component)?;
    PatternAutomata::new(alloc, parts)
}

/// Returns the parts of a pattern that matches eight texts if that of the component is not empty.
fn written_parts(alloc: Global, component: ComponentName) -> Result<PatternParts, AllocError>
    ensures { IfOk result (IsWritten component) }
{
    let part = |name: ComponentName| -> Result<ComponentParts, AllocError>
        ensures { IfOk result (IsWildcardOf component name) }
    { wildcard_of(alloc, component, name) };
    let components = Eight::try_from_fn(part)?;
    Ok(PatternParts { components })
}

/// Returns the component `name`: for `component` a wildcard that does not match the empty text.
fn wildcard_of(
    alloc: Global,
    component: ComponentName,
    name: ComponentName,
) -> Result<ComponentParts, AllocError>
    ensures { IfOk result (IsWildcardOf component name) }
{
    if name == component {
        wildcard(alloc, PartType::SegmentWildcard)
    } else {
        wildcard(alloc, PartType::FullWildcard)
    }
}

/// Returns a component that is a wildcard of this kind alone.
fn wildcard(alloc: Global, kind: PartType) -> Result<ComponentParts, AllocError>
    ensures { IfOk result (IsWildcard kind) }
{
    let mut parts = Vec::new(alloc);
    parts.push(Part {
        kind,
        value: String::new(alloc),
        modifier: PartModifier::None,
        name: String::new(alloc),
        prefix: String::new(alloc),
        suffix: String::new(alloc),
    })?;
    Ok(ComponentParts {
        options: Options::default(alloc),
        parts,
        honours_case: true,
    })
}
