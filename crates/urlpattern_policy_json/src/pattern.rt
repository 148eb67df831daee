//! Reads the pattern of a rule.
ghost use Rattle.std.specs.Prelude.{◌≡◌, IfOk, option_map};
ghost use Rattle.std.specs.List.{list_any};
ghost use Rattle.std.specs.Str.{bytes_eq};
ghost use Rattle.serde_json.specs.View.{members_view, view};
ghost use Rattle.urlpattern_inputs.specs.InputValues.{input_view};
ghost use Rattle.urlpattern_policy_json.specs.ReadPolicies.{are_init_members, has_init_members, is_init_member, is_init_name, pattern_read};

use crate::Made;
use serde_json::{Map, Value};
use std::alloc::{AllocError, Global};
use urlpattern_inputs::StringOrInit;

/// The members that a pattern may have.
const INIT_NAMES: [&str; 9] = [
    "protocol", "username", "password", "hostname", "port", "pathname", "search", "hash", "baseURL",
];

/// Reads a pattern: a text, or an object of texts for components and the base URL. `None`: the
/// value is none of these.
pub(crate) fn read_pattern(alloc: Global, tree: &Value) -> Made<Option<StringOrInit<'static>>>
    ensures { IfOk result (λ read. option_map input_view read ≡ pattern_read (view tree.now)) }
{
    if !has_init_members(tree) {
        return Ok(None);
    }
    match StringOrInit::from_json_value(alloc, tree) {
        Ok(read) => Ok(read),
        Err(_) => Err(AllocError),
    }
}

/// Whether each member of an object may be one of a pattern.
fn has_init_members(tree: &Value) -> bool
    ensures { result ≡ has_init_members (view tree.now) }
{
    match tree.as_object() {
        Some(members) => are_init_members(members),
        None => true,
    }
}

/// Whether each of the members may be one of a pattern.
fn are_init_members(members: &Map<String, Value>) -> bool
    ensures { result ≡ are_init_members (members_view members.now.entries) }
{
    for (name, tree) in members {
        if !is_init_member(name, tree) {
            return false;
        }
    }
    true
}

/// Whether a member may be one of a pattern: a text with the name of a component, or `baseURL`.
fn is_init_member(name: &str, tree: &Value) -> bool
    ensures { result ≡ is_init_member name.now (view tree.now) }
{
    is_init_name(name) && tree.is_string()
}

/// Whether a pattern may have a member with this name.
fn is_init_name(name: &str) -> bool
    ensures { result ≡ is_init_name name.now }
{
    is_among(&INIT_NAMES, name)
}

/// Whether a text is one of the names.
fn is_among(names: &[&str], text: &str) -> bool
    ensures { result ≡ list_any (λ known. bytes_eq known.now text.now) names.now }
{
    names.iter().any(|known| *known == text)
}
