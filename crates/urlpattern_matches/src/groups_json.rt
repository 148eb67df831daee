//! The groups of a result as JSON. In what reads them, the error `Shape` says that the JSON has
//! another shape.
ghost use Rattle.std.specs.Prelude.{◌≡◌, IfOk, Some, option_map, string_bytes};
ghost use Rattle.serde_json.specs.View.{members_view, view};
ghost use Rattle.urlpattern_inputs.specs.ReadResults.{ReturnsRead};
ghost use Rattle.urlpattern_inputs.specs.Trees.{member_read};
ghost use Rattle.urlpattern_matches.specs.ResultJson.{captured_read, groups_by_name, groups_of_members, groups_read};

use crate::group_maps::Groups;
use serde_json::{Map, Value};
use std::alloc::{AllocError, Global};
use std::collections::HashMap;
use urlpattern_inputs::json_reading::{Unread, member};

/// Returns a JSON object with a member for each group: the capture, or null if the group took no
/// part.
pub(crate) fn groups_tree(alloc: Global, groups: &Groups) -> Result<Value, AllocError>
    ensures { IfOk result (λ tree. groups_read (view tree) ≡ Some (groups_by_name groups.now)) }
{
    let mut members = Map::new(alloc);
    for (name, capture) in groups {
        serde_json::put(&mut members, alloc, name, captured_tree(alloc, capture)?)?;
    }
    Ok(Value::Object(members))
}

/// Returns a capture as a JSON text, or as null if the group took no part.
fn captured_tree(alloc: Global, capture: &Option<String>) -> Result<Value, AllocError>
    ensures { IfOk result (λ tree.
        captured_read (view tree) ≡ Some (option_map string_bytes capture.now)) }
{
    match capture {
        Some(text) => Value::try_from_str(alloc, text),
        None => Ok(Value::Null),
    }
}

/// Reads groups from the member `name` of the object `tree`.
pub(crate) fn groups_field(alloc: Global, tree: &Value, name: &str) -> Result<Groups, Unread>
    ensures { ReturnsRead groups_by_name result (member_read groups_read name.now (view tree.now)) }
{
    read_groups(alloc, member(tree, name)?)
}

/// Reads groups from a JSON object: each member is a capture, or null if the group took no part.
#[tactic(auto, unfolding(crate::specs::ResultJson::groups_read))]
fn read_groups(alloc: Global, tree: &Value) -> Result<Groups, Unread>
    ensures { ReturnsRead groups_by_name result (groups_read (view tree.now)) }
{
    match tree.as_object() {
        Some(members) => groups_of_members(alloc, members),
        None => Err(Unread::Shape),
    }
}

/// Reads groups from the members of an object: each has to be a text, the capture, or null.
fn groups_of_members(alloc: Global, members: &Map<String, Value>) -> Result<Groups, Unread>
    ensures { ReturnsRead groups_by_name result
        (groups_of_members (members_view members.now.entries)) }
{
    let mut groups = HashMap::new(alloc);
    for (name, tree) in members {
        drop(groups.insert(name.clone()?, read_capture(alloc, tree)?)?);
    }
    Ok(groups)
}

/// Reads a capture from a JSON text, or from null, where `None` is returned: the group took no
/// part.
fn read_capture(alloc: Global, tree: &Value) -> Result<Option<String>, Unread>
    ensures { ReturnsRead (option_map string_bytes) result (captured_read (view tree.now)) }
{
    if tree.is_null() {
        return Ok(None);
    }
    match tree.as_str() {
        Some(text) => Ok(Some(String::from_str(alloc, text)?)),
        None => Err(Unread::Shape),
    }
}
