//! Reads conditions from JSON.

ghost use Rattle.std.specs.Prelude.{◌≡◌, ◌++◌, IfOk, OnOk, flat_map, is_some, map};
ghost use Rattle.serde_json.specs.Find.{get};
ghost use Rattle.serde_json.specs.View.{view};
ghost use Rattle.urlpattern_routes.specs.Conditions.{condition_faults, condition_of, has_own_member, is_or_alone, items_of, list_faults};
ghost use Rattle.urlpattern_routes.specs.Readers.{Finds};
ghost use Rattle.urlpattern_routes.specs.Rules.{condition_of_rule, condition_of_rule_faults};
ghost use Rattle.urlpattern_routes.specs.Views.{condition_view};
ghost use Rattle.urlpattern_routes.specs.declared.fault.RouterMember.TheVariants as members;

use super::Reader;
use crate::Made;
use crate::condition::RouterCondition;
use crate::fault::{RouterMember, RouterReason};
use serde_json::Value;

impl Reader {
    /// Reads the condition of a rule, and appends its faults.
    pub(super) fn condition_of_rule(&mut self, depth: usize, rule: &Value) -> Made<RouterCondition>
        ensures read { IfOk result (λ read.
            condition_view read ≡ condition_of_rule depth (view rule.now)) }
        ensures faults { OnOk result
            (Finds self.old self.new (condition_of_rule_faults depth (view rule.now))) }
    {
        if let Some(tree) = rule.get("condition") {
            return self.condition_of(depth, RouterMember::Condition, tree);
        }
        self.expect(false, RouterMember::Condition, RouterReason::Missing)?;
        Ok(RouterCondition::Or(Vec::new(self.alloc)))
    }

    /// Reads a condition, the member `member` of a rule or of a condition, and appends its faults.
    /// `depth` is how many conditions may be within each other, with this one.
    #[cycle(conditions)]
    fn condition_of(
        &mut self,
        depth: usize,
        member: RouterMember,
        tree: &Value,
    ) -> Made<RouterCondition>
        ensures read { IfOk result (λ read.
            condition_view read ≡ condition_of depth (view tree.now)) }
        ensures faults { OnOk result
            (Finds self.old self.new (condition_faults depth member (view tree.now))) }
    {
        if depth == 0 {
            self.expect(false, member, RouterReason::TooDeep)?;
            return Ok(RouterCondition::Or(Vec::new(self.alloc)));
        }
        if let Some(list) = tree.get("or") {
            self.expect(is_or_alone(tree), RouterMember::Or, RouterReason::NotAlone)?;
            return Ok(RouterCondition::Or(self.conditions_of(depth - 1, list)?));
        }
        if let Some(one) = tree.get("not") {
            self.expect(
                !has_own_member(tree),
                RouterMember::Not,
                RouterReason::NotAlone,
            )?;
            let one = self.condition_of(depth - 1, RouterMember::Not, one)?;
            return Ok(RouterCondition::Not(Box::new(self.alloc, one)?));
        }
        self.expect(has_own_member(tree), member, RouterReason::Empty)?;
        Ok(RouterCondition::Request(self.request_of(tree)?))
    }

    /// Reads the conditions of `or`, and appends their faults.
    #[cycle(conditions)]
    fn conditions_of(&mut self, depth: usize, list: &Value) -> Made<Vec<RouterCondition>>
        ensures read { IfOk result (λ read. map condition_view read.items
            ≡ map (λ one. condition_of depth one) (items_of (view list.now))) }
        ensures faults { OnOk result (Finds self.old self.new (list_faults (view list.now)
            ++ flat_map (condition_faults depth members.Or) (items_of (view list.now)))) }
    {
        let mut conditions = Vec::new(self.alloc);
        let Some(items) = list.as_array() else {
            self.expect(false, RouterMember::Or, RouterReason::NotAnArray)?;
            return Ok(conditions);
        };
        for item in items {
            conditions.push(self.condition_of(depth, RouterMember::Or, item)?)?;
        }
        Ok(conditions)
    }
}

/// Whether `or` is the only member of a condition that is known.
fn is_or_alone(tree: &Value) -> bool
    ensures { result ≡ is_or_alone (view tree.now) }
{
    !has_own_member(tree) && tree.get("not").is_none()
}

/// Whether a condition has a member that names what it asks of a request.
fn has_own_member(tree: &Value) -> bool
    ensures { result ≡ has_own_member (view tree.now) }
{
    has(tree, "urlPattern")
        || has(tree, "requestMethod")
        || has(tree, "requestMode")
        || has(tree, "requestDestination")
        || has(tree, "runningStatus")
}

/// Whether an object has a member with this name.
fn has(tree: &Value, name: &str) -> bool
    ensures { result ≡ is_some (get name.now (view tree.now)) }
{
    tree.get(name).is_some()
}
