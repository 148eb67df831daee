//! Writes policies as JSON.
ghost use Rattle.std.specs.Prelude.{◌≡◌, IfOk, map, string_bytes};
ghost use Rattle.serde_json.specs.Data.{array};
ghost use Rattle.serde_json.specs.View.{items_view, items_of, view};
ghost use Rattle.urlpattern_policy_json.specs.PolicyTrees.{credentials_text, effect_text, policy_tree, rule_tree, spelling_text};
ghost use Rattle.urlpattern_policy_json.specs.PolicyViews.{rule_view, settings_view};

use crate::Made;
use crate::given::{GivenRule, GivenSettings};
use serde_json::{Map, Value, put};
use std::alloc::{AllocError, Global};
use urlpattern_differences::Effect;
use urlpattern_inputs::json_writing::{put_optional, put_text};

/// Returns the JSON of a policy, which is read as the same policy.
pub fn policy_to_json(
    alloc: Global,
    settings: GivenSettings<'_>,
    rules: &[GivenRule],
) -> Result<Value, AllocError>
    ensures { IfOk result (λ tree. view tree
        ≡ policy_tree (settings_view settings.entry) (map rule_view rules.now)) }
{
    let mut members = Map::new(alloc);
    put_optional(&mut members, alloc, "base", settings.base)?;
    let credentials = credentials_text(settings.denies_credentials);
    put_text(&mut members, alloc, "credentials", credentials)?;
    put_text(
        &mut members,
        alloc,
        "default",
        effect_text(settings.default),
    )?;
    put(
        &mut members,
        alloc,
        "rules",
        Value::Array(rules_json(alloc, rules)?),
    )?;
    let spelling = spelling_text(settings.plain_spelling);
    put_text(&mut members, alloc, "spelling", spelling)?;
    Ok(Value::Object(members))
}

/// Returns whether credentials are denied, in words.
fn credentials_text(denied: bool) -> &'static str
    ensures { result.now ≡ credentials_text denied }
{
    if denied { "deny" } else { "rules" }
}

/// Returns whether URLs are brought to their plain spelling, in words.
fn spelling_text(plain: bool) -> &'static str
    ensures { result.now ≡ spelling_text plain }
{
    if plain { "plain" } else { "exact" }
}

/// Returns an effect in words.
fn effect_text(effect: Effect) -> &'static str
    ensures { result.now ≡ effect_text effect }
{
    match effect {
        Effect::Allow => "allow",
        Effect::Deny => "deny",
    }
}

/// Returns the JSON of rules.
fn rules_json(alloc: Global, rules: &[GivenRule]) -> Made<Vec<Value>>
    ensures { IfOk result (λ items.
        items_view items.items ≡ items_of (map rule_tree (map rule_view rules.now))) }
{
    let mut items = Vec::new(alloc);
    for rule in rules {
        items.push(rule_json(alloc, rule)?)?;
    }
    Ok(items)
}

/// Returns the JSON of a rule.
fn rule_json(alloc: Global, rule: &GivenRule) -> Made<Value>
    ensures { IfOk result (λ tree. view tree ≡ rule_tree (rule_view rule.now)) }
{
    let Ok(pattern) = rule.pattern.to_json_value(alloc) else {
        return Err(AllocError);
    };
    let mut members = Map::new(alloc);
    put(&mut members, alloc, effect_text(rule.effect), pattern)?;
    Ok(Value::Object(members))
}
