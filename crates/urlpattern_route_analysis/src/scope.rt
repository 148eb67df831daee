//! Requests of service workers: their attributes, and those that no worker with a scope gets.

ghost use Rattle.std.specs.Prelude.{◌≡◌, ◌∷◌, [], IfOk, OnOk, length};
ghost use Rattle.std.specs.Str.{chars};
ghost use Rattle.urlpattern_compare.specs.CommonTexts.{AreAutomata};
ghost use Rattle.urlpattern_components.specs.Eight.{at};
ghost use Rattle.urlpattern_route_analysis.specs.CasePatterns.{AreWithin};
ghost use Rattle.urlpattern_route_analysis.specs.Deciding.{IsReady};
ghost use Rattle.urlpattern_route_analysis.specs.Formulas.{formula_view, of_atom, of_name};
ghost use Rattle.urlpattern_route_analysis.specs.Making.{Keeps};
ghost use Rattle.urlpattern_route_analysis.specs.Scopes.{AddsScope, AreRouteAttributes, IsAttributeOf, IsPrefixIn, is_method, is_open, outside_of, scope_text};
ghost use Rattle.urlpattern_init.specs.Inheritance as inherited;

use crate::analysis::Analysis;
use crate::formula::{Atom, Formula, push};
use crate::names::Attribute;
use std::alloc::{AllocError, Global};
use url::Url;
use urlpattern_compare::{PatternAutomata, PatternParts};
use urlpattern_components::{ComponentName, Eight};
use urlpattern_init::url_text;
use urlpattern_routes::RouterAttribute;
use urlpattern_syntax::ComponentParts;
use urlpattern_syntax::parser::{PartModifier, PartType};
use urlpattern_urls::{made_of, push_part};

/// Returns the attributes of a service worker's requests, in the order of conditions of
/// `urlpattern_route_rules`: a request may have any method, and the other names that are listed,
/// without the destinations of requests that reach no rule.
pub fn route_attributes() -> [Attribute<'static>; 4]
    ensures { AreRouteAttributes result }
{
    [
        route_attribute(RouterAttribute::Method),
        route_attribute(RouterAttribute::Mode),
        route_attribute(RouterAttribute::Destination),
        route_attribute(RouterAttribute::RunningStatus),
    ]
}

/// Returns the names that an attribute of a service worker's request may have.
fn route_attribute(attribute: RouterAttribute) -> Attribute<'static>
    ensures { IsAttributeOf attribute result }
{
    Attribute {
        names: attribute.names(),
        is_open: is_method(attribute),
    }
}

/// Whether the attribute is the method.
fn is_method(attribute: RouterAttribute) -> bool
    ensures { result ≡ is_method attribute }
{
    match attribute {
        RouterAttribute::Method => true,
        RouterAttribute::Mode | RouterAttribute::Destination | RouterAttribute::RunningStatus => {
            false
        }
    }
}

impl Analysis<'_> {
    /// Returns the formula of the requests that no worker with this scope gets: navigations, and
    /// scripts of workers, whose URL does not begin with the scope. Adds the pattern of URLs that
    /// do. Other requests are those of pages and workers within the scope, whatever their URL.
    ///
    /// A URL without a query counts as one with an empty query, also under the scope `/a?`. The
    /// laws of [`crate::laws`] are about formulas of conditions, not about this one.
    pub fn outside(&mut self, scope: &Url) -> Result<Formula, AllocError>
        ensures kept { Keeps self.old self.new }
        ensures ready { IsReady self.old → IsReady self.new }
        ensures pattern { OnOk result
            (AddsScope scope.now self.old.patterns.items self.new.patterns.items) }
        ensures made { IfOk result (λ formula.
            formula_view formula ≡ outside_of (length self.old.patterns.items)) }
        ensures within { IfOk result (λ formula.
            AreWithin self.new.patterns.items (formula_view formula ∷ [])) }
    {
        let index = self.patterns.len();
        let formula = outside_at(self.alloc, index)?;
        let automata = scope_automata(self.alloc, scope)?;
        push(&mut self.patterns, automata)?;
        Ok(formula)
    }
}

/// Returns the formula of the requests that no worker gets, by the index of the pattern of URLs
/// that begin with its scope.
fn outside_at(alloc: Global, index: usize) -> Result<Formula, AllocError>
    ensures { IfOk result (λ formula. formula_view formula ≡ outside_of index) }
{
    let navigation = name(alloc, 1, "navigate")?;
    let worker = name(alloc, 2, "worker")?;
    let shared = name(alloc, 2, "sharedworker")?;
    let inner = vec![in alloc; navigation, worker, shared]?;
    let inside = Formula::Atom(Atom::Url(index));
    let outer = vec![in alloc; inside, Formula::NoneOf(inner)]?;
    Ok(Formula::NoneOf(outer))
}

/// Returns the formula that an attribute has a name.
fn name(alloc: Global, attribute: usize, name: &str) -> Result<Formula, AllocError>
    ensures { IfOk result (λ made. formula_view made ≡ of_atom (of_name attribute name.now)) }
{
    Ok(Formula::Atom(Atom::Name(attribute, String::from_str(alloc, name)?)))
}

/// Returns the automata of the pattern that matches URLs that begin with the scope.
fn scope_automata(alloc: Global, scope: &Url) -> Result<PatternAutomata, AllocError>
    ensures automata { IfOk result AreAutomata }
    ensures parts { IfOk result (λ it. (name : ComponentName)
        → IsPrefixIn scope.now name (at it.parts.components name)) }
{
    let component = |name: ComponentName| -> Result<ComponentParts, AllocError>
        ensures { IfOk result (IsPrefixIn scope.entry.now name) }
    { component_of(alloc, scope, name) };
    let components = Eight::try_from_fn(component)?;
    PatternAutomata::new(alloc, PatternParts { components })
}

/// Returns the component of texts that URLs that begin with the scope have.
fn component_of(
    alloc: Global,
    scope: &Url,
    name: ComponentName,
) -> Result<ComponentParts, AllocError>
    ensures { IfOk result (IsPrefixIn scope.now name) }
{
    let mut parts = Vec::new(alloc);
    push_part(
        alloc,
        &mut parts,
        PartType::FixedText,
        scope_text(scope, name),
        PartModifier::None,
    )?;
    if !is_open(name, scope.query().is_some()) {
        return Ok(made_of(alloc, parts));
    }
    push_part(
        alloc,
        &mut parts,
        PartType::FullWildcard,
        "",
        PartModifier::None,
    )?;
    Ok(made_of(alloc, parts))
}

/// Returns the text of a scope in a component. Its fragment does not count.
fn scope_text(scope: &Url, name: ComponentName) -> &str
    ensures { chars result.now ≡ scope_text name (inherited.url_text name scope.now) }
{
    match name {
        ComponentName::Hash => "",
        _ => url_text(scope, name),
    }
}

/// Whether URLs that begin with a scope may have more in the component than the scope.
fn is_open(name: ComponentName, has_query: bool) -> bool
    ensures { result ≡ is_open name has_query }
{
    match name {
        ComponentName::Hash | ComponentName::Search => true,
        ComponentName::Pathname => !has_query,
        ComponentName::Protocol
        | ComponentName::Username
        | ComponentName::Password
        | ComponentName::Hostname
        | ComponentName::Port => false,
    }
}
