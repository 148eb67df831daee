//! Tables of rules, each with a condition.
ghost use Rattle.std.specs.Prelude.{◌≡◌, IfErr, IfOk, [], ◌∷◌, ◌++◌, OnErr, OnOk};
ghost use Rattle.urlpattern_conditions.specs.Requests.{request_view};
ghost use Rattle.urlpattern_conditions.specs.Tables.{AsksEngineFirst, DecidesBy, rule_conditions};
ghost use Rattle.urlpattern_syntax.specs.Errors.{OnlyOutOfMemory};

use crate::condition::Condition;
use crate::request::Request;
use std::alloc::Global;
use urlpattern_matcher::regexp::RegExp;
use urlpattern_syntax::Error;

/// A rule: what is decided about the requests of which its condition holds.
#[derive(Debug, Drop)]
pub struct Rule<V, R: RegExp = regex::Regex> {
    /// The condition on a request.
    pub condition: Condition<R>,
    /// What the rule decides.
    pub value: V,
}

/// Rules in order. The first rule whose condition holds decides.
#[derive(Debug, Drop)]
pub struct ConditionTable<V, R: RegExp = regex::Regex> {
    /// The rules.
    pub rules: Vec<Rule<V, R>>,
}

impl<V, R: RegExp> ConditionTable<V, R> {
    /// Returns a table without rules. Does not allocate.
    pub fn new(alloc: Global) -> Self
        ensures { result.rules.items ≡ [] }
    {
        Self {
            rules: Vec::new(alloc),
        }
    }

    /// Returns the index of the first rule whose condition holds of a request, and what the rule
    /// decides. `None`: no rule's condition holds.
    ///
    /// Only an engine allocates.
    pub fn decide(&self, alloc: Global, request: &Request<'_>) -> Result<Option<(usize, &V)>, Error>
        ensures first { IfOk result
            (DecidesBy R.answer (request_view request.now) self.now.rules.items) }
        ensures memory { OnlyOutOfMemory result }
        ensures asked { IfErr result (λ _.
            AsksEngineFirst R.answer (request_view request.now)
            (rule_conditions self.now.rules.items)) }
    {
        for (index, rule) in self.rules.iter().enumerate() {
            if rule.condition.holds(alloc, request)? {
                return Ok(Some((index, &rule.value)));
            }
        }
        Ok(None)
    }
}
