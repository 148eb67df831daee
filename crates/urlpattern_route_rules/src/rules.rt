//! The rules of a service worker.

ghost use Rattle.std.specs.Prelude.{◌≡◌, IfOk, [], length, map};
ghost use Rattle.serde_json.specs.View.{view};
ghost use Rattle.url.specs.Parts.{serialize};
ghost use Rattle.urlpattern_conditions.specs.Tables.{DecidesBy};
ghost use Rattle.urlpattern_matches.specs.GroupTexts.{borrowed_texts};
ghost use Rattle.urlpattern_route_rules.specs.Adding.{Adds, CompilesCall, CompilesFrom, number_faults};
ghost use Rattle.urlpattern_route_rules.specs.Fetches.{fetch_view, request_with, status};
ghost use Rattle.urlpattern_routes.specs.Rules.{reading_of};
ghost use Rattle.urlpattern_syntax.specs.Errors.{OnlyOutOfMemory};

use crate::compiled::compiled_rule;
use crate::fault::{RouteFault, RoutesError};
use crate::request::RouterFetch;
use serde_json::Value;
use std::alloc::{AllocError, Global};
use url::Url;
use urlpattern_components::Eight;
use urlpattern_conditions::{ConditionTable, Request, Rule};
use urlpattern_matcher::regexp::RegExp;
use urlpattern_matches::url_texts;
use urlpattern_routes::{RouterLimits, RouterRule, normalized_method, rules_in};
use urlpattern_syntax::Error;

/// The rules of a service worker, in the order in which they were added. The first one whose
/// condition holds of a request decides where its response comes from.
#[derive(Debug, Drop)]
pub struct RouterRules<R: RegExp = regex::Regex> {
    /// The URL of the worker's script, without a fragment, the base URL of patterns.
    pub script: Url,
    /// The rules as they are given, each with its compiled condition.
    pub table: ConditionTable<RouterRule, R>,
}

impl<R: RegExp> RouterRules<R> {
    /// Returns the rules of a worker that has none yet. `script` is the URL of its script, which is
    /// the base URL of patterns. Does not allocate.
    pub fn new(alloc: Global, script: Url) -> Self
        ensures script { result.script ≡ script }
        ensures rules { result.table.rules.items ≡ [] }
    {
        Self {
            script,
            table: ConditionTable::new(alloc),
        }
    }

    /// Adds the rules of a call, in JSON: an array of rules, or a single rule.
    ///
    /// If the call is rejected, all of its faults are returned, and no rule is added.
    pub fn add(
        &mut self,
        alloc: Global,
        json: &Value,
        limits: &RouterLimits,
    ) -> Result<(), RoutesError>
        ensures script { self.new.script ≡ self.old.script }
        ensures rules { Adds R.RegExp (serialize self.old.script) limits.now (view json.now)
            self.old.table.rules.items self.new.table.rules.items result }
    {
        let (mut added, faults) = self.compiled(alloc, json, limits)?;
        if !faults.is_empty() {
            return Err(RoutesError::Rejected(faults));
        }
        self.table.rules.append(&mut added)?;
        Ok(())
    }

    /// Compiles the rules of a call, and returns them with all of their faults.
    fn compiled(
        &self,
        alloc: Global,
        json: &Value,
        limits: &RouterLimits,
    ) -> Result<(Vec<Rule<RouterRule, R>>, Vec<RouteFault>), AllocError>
        ensures { IfOk result (λ made. CompilesCall R.RegExp (serialize self.now.script) limits.now
            (view json.now) made.0.items made.1.items) }
    {
        let items = rules_in(json);
        let mut faults = number_faults(alloc, limits.rules, items.len())?;
        let (rules, mut inner) = self.compiled_rules(alloc, items, limits)?;
        faults.append(&mut inner)?;
        Ok((rules, faults))
    }

    /// Compiles rules, of which the first is at the index 0, and returns them with their faults.
    fn compiled_rules(
        &self,
        alloc: Global,
        items: &[Value],
        limits: &RouterLimits,
    ) -> Result<(Vec<Rule<RouterRule, R>>, Vec<RouteFault>), AllocError>
        ensures { IfOk result (λ made. CompilesFrom R.RegExp (serialize self.now.script) 0
            (map (λ item. reading_of limits.now (view item)) items.now)
            made.0.items made.1.items) }
    {
        let script = self.script.as_str();
        let mut rules = Vec::new(alloc);
        let mut faults = Vec::new(alloc);
        for (index, item) in items.iter().enumerate() {
            let (rule, mut own) = compiled_rule(alloc, index, item, limits, script)?;
            rules.push(rule)?;
            faults.append(&mut own)?;
        }
        Ok((rules, faults))
    }

    /// Returns the index of the rule that decides about a request, among the rules of all calls,
    /// and the rule as it is given. `None`: no rule's condition holds, and the handler of the event
    /// `fetch` gets the request, or the network if there is none.
    pub fn decide(
        &self,
        alloc: Global,
        request: &RouterFetch<'_>,
    ) -> Result<Option<(usize, &RouterRule)>, Error>
        ensures first { IfOk result
            (DecidesBy R.answer (fetch_view request.now) self.now.table.rules.items) }
        ensures memory { OnlyOutOfMemory result }
    {
        let method = normalized_method(alloc, request.method)?;
        let status = status(request.is_running);
        let texts = url_texts(request.url);
        self.decide_with(
            alloc,
            &texts,
            &method,
            request.mode,
            request.destination,
            status,
        )
    }

    /// Decides about the request with these texts and attributes.
    fn decide_with<'a>(
        &self,
        alloc: Global,
        texts: &'a Eight<&'a str>,
        method: &'a str,
        mode: &'a str,
        destination: &'a str,
        status: &'a str,
    ) -> Result<Option<(usize, &RouterRule)>, Error>
        ensures first { IfOk result (DecidesBy R.answer
            (request_with (borrowed_texts texts.now) method.now mode.now destination.now status.now)
            self.now.table.rules.items) }
        ensures memory { OnlyOutOfMemory result }
    {
        let names = [method, mode, destination, status];
        let names = &names;
        self.table.decide(alloc, &Request { texts, names })
    }
}

/// Returns the fault of a call with more rules than the limit, if it has more.
fn number_faults(alloc: Global, most: usize, count: usize) -> Result<Vec<RouteFault>, AllocError>
    ensures { IfOk result (λ faults. faults.items ≡ number_faults most count) }
{
    let mut faults = Vec::new(alloc);
    if most < count {
        faults.push(RouteFault::TooManyRules)?;
    }
    Ok(faults)
}

/// Returns how `runningStatus` names whether the worker is running.
fn status(is_running: bool) -> &'static str
    ensures { result.now ≡ status is_running }
{
    if is_running { "running" } else { "not-running" }
}
