//! Writes rules as JSON.

ghost use Rattle.std.specs.Prelude.{◌≡◌, IfOk, OnOk, codes, map, option_map};
ghost use Rattle.urlpattern_inputs.specs.{InputJson.input_tree, InputValues.input_view, Trees.Gain};
ghost use Rattle.serde_json.specs.View.{items_view, view};
ghost use Rattle.urlpattern_routes.specs.ReadBack.{RulesAreReadBack};
ghost use Rattle.urlpattern_routes.specs.Trees.{condition_tree, request_tree, rule_tree, rules_tree, source_tree, tree_items};
ghost use Rattle.urlpattern_routes.specs.Views.{condition_view, listed, request_view, rule_view, source_view};

use crate::Made;
use crate::condition::{RouterCondition, RouterRequest};
use crate::rule::RouterRule;
use crate::source::RouterSource;
use serde_json::{Map, Value, put};
use std::alloc::{AllocError, Global};
use urlpattern_inputs::StringOrInit;
use urlpattern_inputs::json_writing::{put_optional, put_text};

/// Returns the JSON of rules, an array.
///
/// Rules that were read without a fault are read again as the same rules, as
/// [`rules_are_read_back`] says. Other rules may be written as JSON that is rejected, or that is
/// read as others.
pub fn rules_to_json(alloc: Global, rules: &[RouterRule]) -> Result<Value, AllocError>
    ensures { IfOk result (λ tree. view tree ≡ rules_tree (map rule_view rules.now)) }
{
    let mut items = Vec::new(alloc);
    for rule in rules {
        items.push(rule_json(alloc, rule)?)?;
    }
    Ok(Value::Array(items))
}

/// Rules that were read without a fault are also read, under the same limits, from the JSON that
/// [`rules_to_json`] returns for them: the same rules, without a fault.
pub fn rules_are_read_back()
    ensures { RulesAreReadBack }
{}

/// Returns the JSON of a rule.
fn rule_json(alloc: Global, rule: &RouterRule) -> Made<Value>
    ensures { IfOk result (λ tree. view tree ≡ rule_tree (rule_view rule.now)) }
{
    let mut members = Map::new(alloc);
    let condition = condition_json(&rule.condition, alloc)?;
    put(&mut members, alloc, "condition", condition)?;
    let source = source_json(alloc, &rule.source)?;
    put(&mut members, alloc, "source", source)?;
    Ok(Value::Object(members))
}

/// Returns the JSON of a condition.
#[cycle(writing)]
fn condition_json(condition: &RouterCondition, alloc: Global) -> Made<Value>
    ensures { IfOk result (λ tree. view tree ≡ condition_tree (condition_view condition.now)) }
{
    let mut members = Map::new(alloc);
    match condition {
        RouterCondition::Request(request) => request_json(alloc, request),
        RouterCondition::Or(conditions) => {
            let items = conditions_json(conditions, alloc)?;
            put(&mut members, alloc, "or", Value::Array(items))?;
            Ok(Value::Object(members))
        }
        RouterCondition::Not(one) => {
            put(&mut members, alloc, "not", condition_json(one, alloc)?)?;
            Ok(Value::Object(members))
        }
    }
}

/// Returns the JSON of conditions.
#[cycle(writing)]
fn conditions_json(conditions: &Vec<RouterCondition>, alloc: Global) -> Made<Vec<Value>>
    ensures { IfOk result (λ items.
        items_view items.items ≡ tree_items (listed (map condition_view conditions.now.items))) }
{
    let mut items = Vec::new(alloc);
    for condition in conditions {
        items.push(condition_json(condition, alloc)?)?;
    }
    Ok(items)
}

/// Returns the JSON of what a condition asks of a request.
fn request_json(alloc: Global, request: &RouterRequest) -> Made<Value>
    ensures { IfOk result (λ tree. view tree ≡ request_tree (request_view request.now)) }
{
    let mut members = Map::new(alloc);
    put_pattern(&mut members, alloc, &request.url_pattern)?;
    let method = request.method.as_deref();
    put_optional(&mut members, alloc, "requestMethod", method)?;
    let mode = request.mode.as_deref();
    put_optional(&mut members, alloc, "requestMode", mode)?;
    let destination = request.destination.as_deref();
    put_optional(&mut members, alloc, "requestDestination", destination)?;
    let status = request.running_status.as_deref();
    put_optional(&mut members, alloc, "runningStatus", status)?;
    Ok(Value::Object(members))
}

/// Puts a pattern into the members of a condition, if there is a pattern.
fn put_pattern(
    members: &mut Map<String, Value>,
    alloc: Global,
    given: &Option<StringOrInit<'static>>,
) -> Made<()>
    ensures { OnOk result (Gain members.old.entries members.new.entries (codes "urlPattern")
        (option_map (λ input. input_tree (input_view input)) given.now)) }
{
    let Some(given) = given else {
        return Ok(());
    };
    match given.to_json_value(alloc) {
        Ok(pattern) => put(members, alloc, "urlPattern", pattern),
        Err(_) => Err(AllocError),
    }
}

/// Returns the JSON of a source.
fn source_json(alloc: Global, source: &RouterSource) -> Made<Value>
    ensures { IfOk result (λ tree. view tree ≡ source_tree (source_view source.now)) }
{
    let RouterSource::NamedCache(name) = source else {
        return Ok(Value::try_from_str(alloc, source.as_str())?);
    };
    let mut members = Map::new(alloc);
    put_text(&mut members, alloc, "cacheName", name)?;
    Ok(Value::Object(members))
}
