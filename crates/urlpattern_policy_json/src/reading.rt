//! Reads policies from JSON, with all faults of their shape.
ghost use Rattle.std.specs.Prelude.{◌≡◌, ◌++◌, IfOk, OnOk, Some, map, option_copied, option_map};
ghost use Rattle.serde_json.specs.Data.{object};
ghost use Rattle.serde_json.specs.View.{members_view, view};
ghost use Rattle.urlpattern_policy_json.specs.PolicyViews.{Member, fault_view, reading_view, settings_view};
ghost use Rattle.urlpattern_policy_json.specs.ReadPolicies.{choice_fault, effect_named, fault_at, faults_of, items_in, member_fault, member_faults, parts_of_rule, rule_read, rules_in, says, settings_read, unless};
ghost use Rattle.urlpattern_inputs.specs.Trees.{text_read};

use crate::Made;
use crate::fault::{JsonFault, JsonPlace, JsonReason, ShapeFault};
use crate::given::{GivenRule, GivenSettings};
use crate::pattern::read_pattern;
use serde_json::{Map, Value};
use std::alloc::{AllocError, Global};
use urlpattern_differences::Effect;

/// Returns what the JSON of a policy says apart from its rules: the members `base`, a URL;
/// `default`, `allow` or `deny`; `spelling`, `plain` or `exact`; and `credentials`, `deny` or
/// `rules`. What is missing or at fault is as in a new policy.
pub fn settings_in(tree: &Value) -> GivenSettings<'_>
    ensures { settings_view result ≡ settings_read (view tree.now) }
{
    GivenSettings {
        base: text_in(tree, "base"),
        default: if says(tree, "default", "allow") {
            Effect::Allow
        } else {
            Effect::Deny
        },
        plain_spelling: !says(tree, "spelling", "exact"),
        denies_credentials: says(tree, "credentials", "deny"),
    }
}

/// Returns the text of a member. `None`: there is no such member, or it is no text.
fn text_in<'v>(tree: &'v Value, name: &str) -> Option<&'v str>
    ensures { option_copied result ≡ text_read name.now (view tree.now) }
{
    match tree.get(name) {
        Some(member) => member.as_str(),
        None => None,
    }
}

/// Whether the member with this name is this text.
fn says(tree: &Value, name: &str, value: &str) -> bool
    ensures { result ≡ says name.now value.now (view tree.now) }
{
    match text_in(tree, name) {
        Some(text) => text == value,
        None => false,
    }
}

/// Returns the faults of a policy's JSON apart from those of its rules, in the order of the names
/// of its members.
pub fn faults_of_members(alloc: Global, tree: &Value) -> Result<Vec<JsonFault>, AllocError>
    ensures { IfOk result (λ found. map fault_view found.items ≡ member_faults (view tree.now)) }
{
    let mut found = Vec::new(alloc);
    match tree.as_object() {
        Some(members) => push_faults(alloc, &mut found, members)?,
        None => found.push(JsonFault {
            place: JsonPlace::Whole,
            reason: JsonReason::Shape(ShapeFault::NotAnObject),
        })?,
    }
    Ok(found)
}

/// Appends the faults of members.
fn push_faults(alloc: Global, found: &mut Vec<JsonFault>, members: &Map<String, Value>) -> Made<()>
    ensures { OnOk result (map fault_view found.new.items
        ≡ map fault_view found.old.items ++ faults_of (members_view members.now.entries)) }
{
    for (name, tree) in members {
        push_fault(alloc, found, name, tree)?;
    }
    Ok(())
}

/// Appends the fault of a member, if it has one.
fn push_fault(alloc: Global, found: &mut Vec<JsonFault>, name: &str, tree: &Value) -> Made<()>
    ensures { OnOk result (map fault_view found.new.items
        ≡ map fault_view found.old.items
        ++ fault_at (Member name.now) (member_fault name.now (view tree.now))) }
{
    let Some(fault) = member_fault(name, tree) else {
        return Ok(());
    };
    let place = JsonPlace::Member(String::from_str(alloc, name)?);
    found.push(JsonFault {
        place,
        reason: JsonReason::Shape(fault),
    })?;
    Ok(())
}

/// Returns the fault of the member of a policy with this name, apart from those of its rules.
fn member_fault(name: &str, tree: &Value) -> Option<ShapeFault>
    ensures { result ≡ member_fault name.now (view tree.now) }
{
    match name {
        "base" => unless(tree.is_string(), ShapeFault::NotAText),
        "credentials" => choice_fault(tree.as_str(), "deny", "rules"),
        "default" => choice_fault(tree.as_str(), "allow", "deny"),
        "rules" => unless(tree.is_array(), ShapeFault::NotAnArray),
        "spelling" => choice_fault(tree.as_str(), "plain", "exact"),
        _ => Some(ShapeFault::UnknownMember),
    }
}

/// Returns the fault of a value that is to be one of two texts.
fn choice_fault(text: Option<&str>, one: &str, other: &str) -> Option<ShapeFault>
    ensures { result ≡ choice_fault one.now other.now (option_copied text.entry) }
{
    match text {
        Some(text) => unless(text == one || text == other, ShapeFault::UnknownValue),
        None => Some(ShapeFault::NotAText),
    }
}

/// Returns the fault, unless the test is met.
fn unless(is_met: bool, fault: ShapeFault) -> Option<ShapeFault>
    ensures { result ≡ unless is_met fault }
{
    if is_met { None } else { Some(fault) }
}

/// Returns the rules of a policy, in JSON: the items of the member `rules`.
pub fn rules_in(tree: &Value) -> &[Value]
    ensures { map view result.now ≡ rules_in (view tree.now) }
{
    match tree.get("rules") {
        Some(rules) => items_in(rules),
        None => &[],
    }
}

/// Returns the items of an array. Other values have none.
fn items_in(tree: &Value) -> &[Value]
    ensures { map view result.now ≡ items_in (Some (view tree.now)) }
{
    match tree.as_array() {
        Some(items) => items,
        None => &[],
    }
}

/// Reads a rule from JSON, or returns its fault. A rule is an object with one member, `allow` or
/// `deny`, which is a pattern: a constructor string, or an object with texts for components and
/// for `baseURL`.
pub fn read_rule(alloc: Global, tree: &Value) -> Result<Result<GivenRule, ShapeFault>, AllocError>
    ensures { IfOk result (λ read. reading_view read ≡ rule_read (view tree.now)) }
{
    let Some((effect, pattern)) = parts_of_rule(tree) else {
        return Ok(Err(ShapeFault::NotARule));
    };
    match read_pattern(alloc, pattern)? {
        Some(pattern) => Ok(Ok(GivenRule { effect, pattern })),
        None => Ok(Err(ShapeFault::NotAPattern)),
    }
}

/// Returns the effect of a rule, and its pattern in JSON. `None`: the value is no object with one
/// member, whose name is that of an effect.
fn parts_of_rule(tree: &Value) -> Option<(Effect, &Value)>
    ensures { option_map (λ parts. (parts.0, view parts.1.now)) result
        ≡ parts_of_rule (view tree.now) }
{
    match tree.as_object() {
        Some(members) => parts_of_members(members),
        None => None,
    }
}

/// Returns the effect of a rule with these members, and its pattern in JSON.
fn parts_of_members(members: &Map<String, Value>) -> Option<(Effect, &Value)>
    ensures { option_map (λ parts. (parts.0, view parts.1.now)) result
        ≡ parts_of_rule (object (members_view members.now.entries)) }
{
    if members.len() != 1 {
        return None;
    }
    match members.first_key_value() {
        Some((name, pattern)) => match effect_named(name) {
            Some(effect) => Some((effect, pattern)),
            None => None,
        },
        None => None,
    }
}

/// Returns the effect with this name.
fn effect_named(name: &str) -> Option<Effect>
    ensures { result ≡ effect_named name.now }
{
    match name {
        "allow" => Some(Effect::Allow),
        "deny" => Some(Effect::Deny),
        _ => None,
    }
}
