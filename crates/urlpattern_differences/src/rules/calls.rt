//! Calls on lists of rules.
ghost use Rattle.std.specs.Prelude.{◌≡◌, ◌+◌, [], ℕ, OnErr, OnOk, Some};
ghost use Rattle.urlpattern_differences.specs.Deciding.{AppendsRule, HasRoom, HasSameRules, effect_of, rule_at};

use super::{Effect, PolicyAutomata};
use std::alloc::{AllocError, Global};
use urlpattern_compare::PatternAutomata;

impl PolicyAutomata {
    /// Returns a policy without rules. Does not allocate.
    pub fn new(alloc: Global, default: Effect) -> Self
        ensures patterns { result.patterns.items ≡ [] }
        ensures effects { result.effects.items ≡ [] }
        ensures default { result.default ≡ default }
    {
        Self {
            patterns: Vec::new(alloc),
            effects: Vec::new(alloc),
            default,
        }
    }

    /// Appends a rule. If memory runs out, the pattern is dropped, and the rules are unchanged.
    pub fn push(&mut self, pattern: PatternAutomata, effect: Effect) -> Result<(), AllocError>
        ensures appended { OnOk result (AppendsRule self.old pattern effect self.new) }
        ensures unchanged { OnErr result (HasSameRules self.old self.new) }
    {
        self.reserve(1)?;
        self.append(pattern, effect);
        Ok(())
    }

    /// Makes room for `count` more rules.
    pub(crate) fn reserve(&mut self, count: usize) -> Result<(), AllocError>
        ensures unchanged { HasSameRules self.old self.new }
        ensures room { OnOk result (HasRoom count self.new) }
    {
        self.patterns.reserve(count)?;
        self.effects.reserve(count)?;
        Ok(())
    }

    /// Appends a rule, for which there is room.
    pub(crate) fn append(&mut self, pattern: PatternAutomata, effect: Effect)
        requires { HasRoom 1 self.old }
        ensures appended { AppendsRule self.old pattern effect self.new }
        ensures room { (others : ℕ) → HasRoom (1 + others) self.old → HasRoom others self.new }
    {
        match self.patterns.push(pattern) {
            Ok(()) => {}
            Err(_) => unreachable!(),
        }
        match self.effects.push(effect) {
            Ok(()) => {}
            Err(_) => unreachable!(),
        }
    }

    /// Returns what the rule at an index decides. `None`: what is decided where no rule matches.
    pub fn effect_of(&self, rule: Option<usize>) -> Effect
        ensures { result ≡ effect_of self.now rule }
    {
        match rule {
            Some(index) => self.effect_at(index),
            None => self.default,
        }
    }

    /// Returns what the rule at an index decides, or the default where there is no such rule.
    fn effect_at(&self, index: usize) -> Effect
        ensures { result ≡ effect_of self.now (Some index) }
    {
        if index < self.effects.len() {
            self.effects[index]
        } else {
            self.default
        }
    }
}

/// Returns the rule at a place among `count` rules. `None`: the place is after the last rule, that
/// of the default.
pub(crate) fn rule_at(count: usize, place: usize) -> Option<usize>
    ensures { result ≡ rule_at count place }
{
    if place < count { Some(place) } else { None }
}
