//! Conditions brought to formulas.

ghost use Rattle.std.specs.List.{list_any};
ghost use Rattle.std.specs.Prelude.{IfErr, IfOk, is_none};
ghost use Rattle.urlpattern_conditions.specs.ConditionViews.{condition_view, conditions_view};
ghost use Rattle.urlpattern_pattern.specs.Patterns.{pattern_view};
ghost use Rattle.urlpattern_route_analysis.specs.CasePatterns.{AreWithin};
ghost use Rattle.urlpattern_route_analysis.specs.Deciding.{IsReady};
ghost use Rattle.urlpattern_route_analysis.specs.Formulas.{formula_view, formula_views};
ghost use Rattle.urlpattern_route_analysis.specs.Making.{AddsPattern, Formulates, FormulatesEach, FormulatesTable, IsEmpty, IsLacking, Keeps, lacks_parts};

use crate::decisions::CaseLimits;
use crate::formula::{Atom, Formula, opposite, opposite_if, push};
use crate::names::Attribute;
use std::alloc::{AllocError, Global};
use urlpattern_compare::PatternAutomata;
use urlpattern_conditions::{Condition, ConditionTable};
use urlpattern_matcher::regexp::RegExp;
use urlpattern_pattern::{CompareError, UrlPattern};
use urlpattern_urls::UrlFacts;

/// The patterns of tables of rules with conditions, of which it is asked what they decide.
#[derive(Debug, Drop)]
pub struct Analysis<'a> {
    /// Allocates what is made.
    pub(crate) alloc: Global,
    /// The attributes of requests, in the order of the indices that conditions have.
    pub attributes: &'a [Attribute<'a>],
    /// How far the analysis goes.
    pub limits: CaseLimits,
    /// What is known of the texts of each URL.
    pub facts: UrlFacts,
    /// The automata of the patterns.
    pub patterns: Vec<PatternAutomata>,
}

impl<'a> Analysis<'a> {
    /// Returns an analysis without patterns.
    pub fn new(
        alloc: Global,
        attributes: &'a [Attribute<'a>],
        limits: CaseLimits,
    ) -> Result<Self, AllocError>
        ensures empty { IfOk result (IsEmpty attributes.now limits) }
        ensures ready { IfOk result IsReady }
    {
        Ok(Self {
            alloc,
            attributes,
            limits,
            facts: UrlFacts::new(alloc)?,
            patterns: Vec::new(alloc),
        })
    }

    /// Returns the conditions of a table's rules as formulas, in order, and adds their patterns.
    ///
    /// The error is `NoParts` only if a pattern was put together by hand.
    pub fn formulas<V, R: RegExp>(
        &mut self,
        table: &ConditionTable<V, R>,
    ) -> Result<Vec<Formula>, CompareError>
        ensures kept { Keeps self.old self.new }
        ensures ready { IsReady self.old → IsReady self.new }
        ensures made { IfOk result (λ formulas. FormulatesTable R.RegExp self.old.patterns.items
            self.new.patterns.items table.now.rules.items (formula_views formulas.items)) }
        ensures within { IfOk result (λ formulas.
            AreWithin self.new.patterns.items (formula_views formulas.items)) }
        ensures missing { IfErr result
            (IsLacking (list_any (λ rule. lacks_parts rule.condition) table.now.rules.items)) }
    {
        let mut formulas = Vec::new(self.alloc);
        for rule in &table.rules {
            let one = self.formula(&rule.condition)?;
            push(&mut formulas, one)?;
        }
        Ok(formulas)
    }

    /// Returns a condition as a formula, and adds its patterns.
    #[cycle(formula)]
    fn formula<R: RegExp>(&mut self, condition: &Condition<R>) -> Result<Formula, CompareError>
        ensures kept { Keeps self.old self.new }
        ensures made { IfOk result (λ formula. Formulates R.RegExp self.old.patterns.items
            self.new.patterns.items (condition_view condition.now) (formula_view formula)) }
        ensures missing { IfErr result (IsLacking (lacks_parts condition.now)) }
    {
        let alloc = self.alloc;
        match condition {
            Condition::Url(pattern) => Ok(Formula::Atom(Atom::Url(self.index_of(pattern)?))),
            Condition::Name(attribute, name) => {
                Ok(Formula::Atom(Atom::Name(*attribute, name.clone()?)))
            }
            Condition::All(conditions) => Ok(Formula::NoneOf(self.each(conditions, true)?)),
            Condition::Any(conditions) => {
                Ok(opposite(alloc, Formula::NoneOf(self.each(conditions, false)?))?)
            }
            Condition::Not(condition) => Ok(opposite(alloc, self.formula(condition)?)?),
        }
    }

    /// Returns conditions as formulas, or the opposite of each, and adds their patterns.
    #[cycle(formula)]
    fn each<R: RegExp>(
        &mut self,
        conditions: &Vec<Condition<R>>,
        is_opposite: bool,
    ) -> Result<Vec<Formula>, CompareError>
        ensures kept { Keeps self.old self.new }
        ensures made { IfOk result (λ formulas. FormulatesEach R.RegExp self.old.patterns.items
            self.new.patterns.items (conditions_view conditions.now.items) is_opposite
            (formula_views formulas.items)) }
        ensures missing { IfErr result
            (IsLacking (list_any lacks_parts conditions.now.items)) }
    {
        let mut formulas = Vec::new(self.alloc);
        for condition in conditions {
            let formula = self.formula(condition)?;
            let one = opposite_if(self.alloc, formula, is_opposite)?;
            push(&mut formulas, one)?;
        }
        Ok(formulas)
    }

    /// Returns the index of automata of a pattern with equal parts, which may be added.
    fn index_of<R: RegExp>(&mut self, pattern: &UrlPattern<R>) -> Result<usize, CompareError>
        ensures kept { Keeps self.old self.new }
        ensures added { IfOk result (AddsPattern R.RegExp self.old.patterns.items
            self.new.patterns.items (pattern_view pattern.now)) }
        ensures missing { IfErr result (IsLacking (is_none pattern.now.parts)) }
    {
        let Some(parts) = pattern.parts() else {
            return Err(CompareError::NoParts);
        };
        for index in 0..self.patterns.len() {
            let known = &self.patterns[index];
            if parts.is_same(&known.parts) {
                return Ok(index);
            }
        }
        let index = self.patterns.len();
        let automata = PatternAutomata::of(self.alloc, parts)?;
        push(&mut self.patterns, automata)?;
        Ok(index)
    }
}
