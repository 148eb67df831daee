//! The result of a match: the text of each component, and what its groups capture.
ghost use Rattle.std.specs.Cmp.Lexicographic.{slice_cmp};
ghost use Rattle.std.specs.HashMap.{IsUnique, get_by_text, keys};
ghost use Rattle.std.specs.Ordering.{nat_cmp};
ghost use Rattle.std.specs.Prelude.{◌≡◌, map, option_copied, option_map, string_bytes, string_eq, IfOk, IsPermutation, IsSorted, OnOk};
ghost use Rattle.std.specs.Str.{chars};
ghost use Rattle.serde_json.specs.View.{view};
ghost use Rattle.urlpattern_inputs.specs.ReadResults.{ReturnsRead};
ghost use Rattle.urlpattern_inputs.specs.Trees.{member_read};
ghost use Rattle.urlpattern_matches.specs.BorrowedMatches.{all_listed_groups, borrowed_group, listed_groups, texts_captured, AddsParticipating, HasDistinctGroups};
ghost use Rattle.urlpattern_matches.specs.GroupTexts.{captured_bytes, borrowed_bytes, texts_of, AreGroups, HasNoGroups, IsWithoutGroups};
ghost use Rattle.urlpattern_matches.specs.ResultJson.{component_result_read, plain_result_view, plain_results_view, result_read, GainsComponent, IsComponentTree, IsResultTree};
ghost use Rattle.urlpattern_matches.specs.ResultViews.{captured_text, component_result_view, result_view, results_of, IsCopy};
ghost use Rattle.urlpattern_components.specs.Eight.{at, components};
ghost use Rattle.urlpattern_components.specs.declared.eight.ComponentName.{ComponentName as Name};
ghost use Rattle.urlpattern_syntax.specs.Errors.{OnlyOutOfMemory};
ghost use Rattle.urlpattern_syntax.specs.Text.{text_of, option_text};

use crate::group_maps::{Groups, add_groups};
use crate::groups_json::{groups_field, groups_tree};
use serde_json::{Map, Value};
use std::alloc::{AllocError, Global};
use std::collections::HashMap;
use urlpattern_components::{ComponentName, Eight, field_of, with_fields};
use urlpattern_inputs::json_reading::{Unread, member, read_or_none, text_field};
use urlpattern_inputs::json_writing::put_text;
use urlpattern_syntax::Error;
use urlpattern_syntax::error::OutOfMemory;

/// The result of a match: the result of each component.
///
/// The group of the path `/users/123`, which `/users/:id` matches:
///
/// ```rust result
/// let id = found.get(ComponentName::Pathname, "id");
/// ```
///
/// <https://urlpattern.spec.whatwg.org/#dictdef-urlpatternresult>
#[derive(Debug, PartialEq, Eq, Drop)]
pub struct UrlPatternResult {
    /// The result of the protocol.
    pub protocol: UrlPatternComponentResult,
    /// The result of the username.
    pub username: UrlPatternComponentResult,
    /// The result of the password.
    pub password: UrlPatternComponentResult,
    /// The result of the hostname.
    pub hostname: UrlPatternComponentResult,
    /// The result of the port.
    pub port: UrlPatternComponentResult,
    /// The result of the pathname.
    pub pathname: UrlPatternComponentResult,
    /// The result of the search.
    pub search: UrlPatternComponentResult,
    /// The result of the hash.
    pub hash: UrlPatternComponentResult,
}

/// The result of a match for one component.
///
/// With the result of a match:
///
/// ```rust sorted_names
/// let names = found.pathname.sorted_names(alloc)?;
/// ```
///
/// <https://urlpattern.spec.whatwg.org/#dictdef-urlpatterncomponentresult>
#[derive(Debug, PartialEq, Eq, Drop)]
pub struct UrlPatternComponentResult {
    /// The text of the component, which was matched.
    pub input: String,
    /// The captures, by the names of the groups. `None`: the group took no part. The last of equal
    /// names counts.
    pub groups: HashMap<String, Option<String>>,
}

/// Returns a result in which each text is empty and no component has groups. Does not allocate.
pub(crate) fn empty_result(alloc: Global) -> UrlPatternResult
    ensures { IsWithoutGroups result }
{
    UrlPatternResult {
        protocol: UrlPatternComponentResult::empty(alloc),
        username: UrlPatternComponentResult::empty(alloc),
        password: UrlPatternComponentResult::empty(alloc),
        hostname: UrlPatternComponentResult::empty(alloc),
        port: UrlPatternComponentResult::empty(alloc),
        pathname: UrlPatternComponentResult::empty(alloc),
        search: UrlPatternComponentResult::empty(alloc),
        hash: UrlPatternComponentResult::empty(alloc),
    }
}

/// A copy has equal texts and equal groups.
impl Clone for UrlPatternResult {
    ghost is_clone = { λ result copy.
        (name : Name) → IsCopy (at (results_of result) name) (at (results_of copy) name) };

    fn clone(&self) -> Result<Self, AllocError> {
        let components = Eight::try_from_fn(|name| self.component(name).clone())?;
        Ok(Self::from_eight(components))
    }
}

impl UrlPatternResult {
    /// Returns the result with the results of these components.
    pub fn from_eight(components: Eight<UrlPatternComponentResult>) -> Self
        ensures { results_of result ≡ components }
    {
        with_fields!(Self, components)
    }

    /// Returns the results of the components, by value.
    pub fn into_eight(self) -> Eight<UrlPatternComponentResult>
        ensures { result ≡ results_of self }
    {
        with_fields!(Eight, self)
    }

    /// Returns the result of a component.
    pub fn component(&self, component: ComponentName) -> &UrlPatternComponentResult
        ensures { result.now ≡ at (results_of self.now) component }
    {
        field_of!(self, component)
    }

    /// Returns what the group `name` of a component captured. `None`: the component has no such
    /// group, or the group took no part.
    pub fn get(&self, component: ComponentName, name: &str) -> Option<&str>
        ensures { option_text result
            ≡ captured_text (result_view self.now component) (chars name.now) }
    {
        self.component(component).get(name)
    }

    /// Returns the groups that took part: component, name and capture, as `UrlPattern::link` and
    /// `generate` expect them.
    ///
    /// Components are in the order of the standard, and the groups of each component in any order.
    pub fn to_groups(&self, alloc: Global) -> Result<Vec<(ComponentName, &str, &str)>, Error>
        ensures all { IfOk result (λ groups.
            map borrowed_group groups.items
            ≡ texts_captured (all_listed_groups self.now components)) }
        ensures differ { IfOk result (λ groups.
            (component : Name) → HasDistinctGroups self.now component) }
        ensures memory { OnlyOutOfMemory result }
    {
        let mut taken = Vec::new(alloc);
        for component in ComponentName::all() {
            add_participating(&mut taken, component, &self.component(component).groups)?;
        }
        Ok(taken)
    }

    /// Returns the JSON of the result: an object whose members, by the names of the components, are
    /// the JSON of the components' results.
    pub fn to_json_value(&self, alloc: Global) -> Result<Value, Error>
        ensures tree { IfOk result (λ tree.
            IsResultTree (plain_results_view self.now) (view tree)) }
        ensures memory { OnlyOutOfMemory result }
    {
        let mut members = Map::new(alloc);
        put_component(&mut members, alloc, "protocol", &self.protocol)?;
        put_component(&mut members, alloc, "username", &self.username)?;
        put_component(&mut members, alloc, "password", &self.password)?;
        put_component(&mut members, alloc, "hostname", &self.hostname)?;
        put_component(&mut members, alloc, "port", &self.port)?;
        put_component(&mut members, alloc, "pathname", &self.pathname)?;
        put_component(&mut members, alloc, "search", &self.search)?;
        put_component(&mut members, alloc, "hash", &self.hash)?;
        Ok(Value::Object(members))
    }

    /// Reads a result from JSON: an object with a member for each component, by the component's
    /// name. Other keys are ignored. `None`: the JSON has another shape.
    pub fn from_json_value(alloc: Global, value: &Value) -> Result<Option<Self>, Error>
        ensures read { IfOk result (λ found.
            option_map plain_results_view found ≡ result_read (view value.now)) }
        ensures memory { OnlyOutOfMemory result }
    {
        match Eight::try_from_fn(|name| component_field(alloc, value, name.as_str())) {
            Ok(components) => Ok(Some(Self::from_eight(components))),
            Err(Unread::Shape) => Ok(None),
            Err(Unread::OutOfMemory) => Err(Error::OutOfMemory),
        }
    }
}

/// A copy has an equal text and equal groups.
impl Clone for UrlPatternComponentResult {
    ghost is_clone = { IsCopy };

    fn clone(&self) -> Result<Self, AllocError> {
        let input = self.input.clone()?;
        let groups = self.groups.clone()?;
        Ok(Self { input, groups })
    }
}

impl UrlPatternComponentResult {
    /// Returns what the group `name` captured. `None`: there is no such group, or the group took no
    /// part.
    pub fn get(&self, name: &str) -> Option<&str>
        ensures { option_text result
            ≡ captured_text (component_result_view self.now) (chars name.now) }
    {
        capture_of(&self.groups, name)
    }

    /// Returns the names of the groups, in the order of their bytes.
    pub fn sorted_names(&self, alloc: Global) -> Result<Vec<&str>, Error>
        ensures differ { IfOk result (λ names. IsUnique string_eq self.now.groups) }
        ensures all { IfOk result (λ names.
            IsPermutation (map (λ name. string_bytes name) (keys self.now.groups))
            (borrowed_bytes names.items)) }
        ensures in_order { IfOk result (λ names.
            IsSorted (slice_cmp nat_cmp) (borrowed_bytes names.items)) }
        ensures memory { OnlyOutOfMemory result }
    {
        let mut names = names_of(alloc, &self.groups)?;
        names.sort_unstable();
        Ok(names)
    }

    /// Returns a result with an empty text and without groups. Does not allocate.
    fn empty(alloc: Global) -> Self
        ensures { HasNoGroups result.groups }
    {
        Self {
            input: String::new(alloc),
            groups: HashMap::new(alloc),
        }
    }

    /// Sets the text of a result without groups to a copy of `text`, and adds copies of the groups
    /// with these names and captures, which are in one order. The last of equal names counts.
    pub(crate) fn fill(
        &mut self,
        alloc: Global,
        text: &str,
        names: &[String],
        captures: &[Option<&str>],
    ) -> Result<(), OutOfMemory>
        requires { HasNoGroups self.old.groups }
        ensures input { IfOk result (λ _. text_of self.new.input ≡ chars text.now) }
        ensures groups { IfOk result (λ _.
            AreGroups (texts_of names.now) (map option_text captures.now) self.new.groups) }
    {
        self.input = String::from_str(alloc, text)?;
        add_groups(alloc, &mut self.groups, names, captures)
    }

    /// Returns the JSON of the result: an object with the text `input` and the object `groups`,
    /// which has the capture of each group, or null if the group took no part.
    pub fn to_json_value(&self, alloc: Global) -> Result<Value, Error>
        ensures tree { IfOk result (λ tree.
            IsComponentTree (plain_result_view self.now) (view tree)) }
        ensures memory { OnlyOutOfMemory result }
    {
        let groups = groups_tree(alloc, &self.groups)?;
        let mut members = Map::new(alloc);
        put_text(&mut members, alloc, "input", &self.input)?;
        serde_json::put(&mut members, alloc, "groups", groups)?;
        Ok(Value::Object(members))
    }

    /// Reads a result from JSON: an object with the text `input` and the object `groups`, whose
    /// members are texts and nulls. Other keys are ignored. `None`: the JSON has another shape.
    pub fn from_json_value(alloc: Global, value: &Value) -> Result<Option<Self>, Error>
        ensures read { IfOk result (λ found.
            option_map plain_result_view found ≡ component_result_read (view value.now)) }
        ensures memory { OnlyOutOfMemory result }
    {
        read_or_none(Self::read(alloc, value))
    }

    /// Reads a result from JSON, as `from_json_value` does. The error `Shape` says that the JSON
    /// has another shape.
    #[tactic(auto, unfolding(crate::specs::ResultJson::component_result_read))]
    fn read(alloc: Global, value: &Value) -> Result<Self, Unread>
        ensures { ReturnsRead plain_result_view result (component_result_read (view value.now)) }
    {
        let input = text_field(alloc, value, "input")?;
        let groups = groups_field(alloc, value, "groups")?;
        Ok(Self { input, groups })
    }
}

/// Appends to `taken` the groups of `groups` that took part: component, name and capture.
fn add_participating<'r>(
    taken: &mut Vec<(ComponentName, &'r str, &'r str)>,
    component: ComponentName,
    groups: &'r Groups,
) -> Result<(), AllocError>
    ensures added { OnOk result
        (AddsParticipating taken.old.items taken.new.items component (listed_groups groups.now)) }
    ensures differ { OnOk result (IsUnique string_eq groups.now) }
{
    for (name, capture) in groups {
        if let Some(text) = capture {
            taken.push((component, name.as_str(), text.as_str()))?;
        }
    }
    Ok(())
}

/// Returns the names of the groups, in any order.
fn names_of(alloc: Global, groups: &Groups) -> Result<Vec<&str>, AllocError>
    ensures all { IfOk result (λ names.
        borrowed_bytes names.items ≡ map (λ name. string_bytes name) (keys groups.now)) }
    ensures differ { IfOk result (λ names. IsUnique string_eq groups.now) }
{
    let mut names = Vec::with_capacity(alloc, groups.len())?;
    for name in groups.keys() {
        names.push(name.as_str())?;
    }
    Ok(names)
}

/// Returns what the group `name` captured. `None`: there is no such group, or the group took no
/// part.
fn capture_of<'a>(groups: &'a Groups, name: &str) -> Option<&'a str>
    ensures { option_copied result ≡ captured_bytes (get_by_text groups.now name.now) }
{
    match groups.get(name) {
        Some(Some(capture)) => Some(capture),
        _ => None,
    }
}

/// Adds a member to an object: the JSON of a component's result, at the key `name`.
fn put_component(
    members: &mut Map<String, Value>,
    alloc: Global,
    name: &str,
    component: &UrlPatternComponentResult,
) -> Result<(), Error>
    ensures put { OnOk result (GainsComponent members.old.entries members.new.entries name.now
        (plain_result_view component.now)) }
    ensures memory { OnlyOutOfMemory result }
{
    let tree = component.to_json_value(alloc)?;
    Ok(serde_json::put(members, alloc, name, tree)?)
}

/// Reads the result of a component from the member `name` of the object `tree`. The error `Shape`
/// says that the member is missing or has another shape, or that `tree` is no object.
fn component_field(
    alloc: Global,
    tree: &Value,
    name: &str,
) -> Result<UrlPatternComponentResult, Unread>
    ensures { ReturnsRead plain_result_view result
        (member_read component_result_read name.now (view tree.now)) }
{
    UrlPatternComponentResult::read(alloc, member(tree, name)?)
}
