//! The use of each rule: whether it decides about requests that the worker gets.

ghost use Rattle.std.specs.Prelude.{◌≡◌, ◌<◌, IfErr, IfOk, Some, false, length};
ghost use Rattle.urlpattern_route_analysis.specs.CasePatterns.{AreWithin};
ghost use Rattle.urlpattern_route_analysis.specs.Deciding.{IsReady, is_found, is_found_one};
ghost use Rattle.urlpattern_route_analysis.specs.Formulas.{formula_views};
ghost use Rattle.urlpattern_route_analysis.specs.Making.{IsLacking};
ghost use Rattle.urlpat_routes.specs.RouteUses.{AreTakers, AreUses, AreUsesBy, IsUnused, IsUse, is_noted, is_noted_one, lack_parts};

use std::alloc::{AllocError, Global};
use std::slice;
use url::Url;
use urlpattern_compare::USUAL_LIMITS;
use urlpattern_matcher::regexp::RegExp;
use urlpattern_pattern::CompareError;
use urlpattern_route_analysis::{
    Analysis, CaseLimits, Decisions, Formula, JointDecision, route_attributes,
};
use urlpattern_route_rules::RouterRules;
use urlpattern_urls::CommonUrl;

/// How far rules are compared: enough for files with as many rules as browsers accept.
pub(crate) const CASE_LIMITS: CaseLimits = CaseLimits {
    cases: 1_000_000,
    question: USUAL_LIMITS,
};

/// Which requests a rule decides about.
#[derive(Drop)]
pub enum RuleUse {
    /// Some that the worker gets.
    Decides,
    /// Only such that the worker does not get, since their URL is outside of its scope.
    Outside,
    /// None that the worker gets, and none is known that it does not get. Has which of the rules
    /// before this one decide about requests for which its condition holds.
    Never(Decisions),
    /// Not known.
    Unknown,
}

/// Finds the use of each rule of a worker with this scope.
pub(crate) fn uses_of<R: RegExp>(
    alloc: Global,
    scope: &Url,
    rules: &RouterRules<R>,
) -> Result<Vec<RuleUse>, CompareError>
    ensures uses { IfOk result (λ uses.
        AreUses R.RegExp scope.now rules.now.table.rules.items uses.items) }
    ensures missing { IfErr result (IsLacking (lack_parts rules.now.table.rules.items)) }
{
    let attributes = route_attributes();
    let mut analysis = Analysis::new(alloc, &attributes, CASE_LIMITS)?;
    let formulas = analysis.formulas(&rules.table)?;
    let outside = [analysis.outside(scope)?];
    let reach = analysis.decisions(&formulas, &outside)?;
    let uses = uses_by(alloc, &analysis, &formulas, &reach)?;
    Ok(uses)
}

/// Returns the use of each rule. `reach` is which rules decide about requests that the worker gets,
/// and about others.
fn uses_by(
    alloc: Global,
    analysis: &Analysis<'_>,
    formulas: &[Formula],
    reach: &Decisions,
) -> Result<Vec<RuleUse>, AllocError>
    requires ready { IsReady analysis.now }
    requires within { AreWithin analysis.now.patterns.items (formula_views formulas.now) }
    ensures { IfOk result (λ uses.
        AreUsesBy analysis.now (formula_views formulas.now) reach.now uses.items) }
{
    let mut uses = Vec::new(alloc);
    for index in 0..formulas.len() {
        let one = use_by(analysis, formulas, reach, index)?;
        uses.push(one)?;
    }
    Ok(uses)
}

/// Returns the use of the rule at this index.
fn use_by(
    analysis: &Analysis<'_>,
    formulas: &[Formula],
    reach: &Decisions,
    index: usize,
) -> Result<RuleUse, AllocError>
    requires index { index < length formulas.now }
    requires ready { IsReady analysis.now }
    requires within { AreWithin analysis.now.patterns.items (formula_views formulas.now) }
    ensures is { IfOk result (IsUse analysis.now (formula_views formulas.now) reach.now index) }
    ensures memory { IfErr result (λ _. IsUnused reach.now index
        × (is_found reach.now.found.items (Some index) (Some 0) ≡ false)) }
{
    let rule = Some(index);
    if is_found(&reach.found, rule, None) {
        return Ok(RuleUse::Decides);
    }
    if !reach.is_complete || is_noted(&reach.found, rule, None) {
        return Ok(RuleUse::Unknown);
    }
    if is_found(&reach.found, rule, Some(0)) {
        return Ok(RuleUse::Outside);
    }
    Ok(RuleUse::Never(takers_of(analysis, formulas, index)?))
}

/// Finds which of the rules before the one at this index decide about requests for which its
/// condition holds.
fn takers_of(
    analysis: &Analysis<'_>,
    formulas: &[Formula],
    index: usize,
) -> Result<Decisions, AllocError>
    requires index { index < length formulas.now }
    requires ready { IsReady analysis.now }
    requires within { AreWithin analysis.now.patterns.items (formula_views formulas.now) }
    ensures { IfOk result (AreTakers analysis.now (formula_views formulas.now) index) }
{
    let one = slice::from_ref(&formulas[index]);
    let found = analysis.decisions(&formulas[..index], one)?;
    Ok(found)
}

/// Whether a request is known about which these two rules decide.
pub(crate) fn is_found(found: &[JointDecision], one: Option<usize>, other: Option<usize>) -> bool
    ensures { result ≡ is_found found.now one other }
{
    found.iter().any(|it| is_found_one(it, one, other))
}

/// Whether this is a request about which these two rules decide.
fn is_found_one(it: &JointDecision, one: Option<usize>, other: Option<usize>) -> bool
    ensures { result ≡ is_found_one one other it.now }
{
    matches!(it.url, CommonUrl::Url(_)) && it.one == one && it.other == other
}

/// Whether anything is noted of requests about which these two rules decide.
fn is_noted(found: &[JointDecision], one: Option<usize>, other: Option<usize>) -> bool
    ensures { result ≡ is_noted found.now one other }
{
    found.iter().any(|it| is_noted_one(it, one, other))
}

/// Whether these are the two rules.
pub(crate) fn is_noted_one(it: &JointDecision, one: Option<usize>, other: Option<usize>) -> bool
    ensures { result ≡ is_noted_one one other it.now }
{
    it.one == one && it.other == other
}
