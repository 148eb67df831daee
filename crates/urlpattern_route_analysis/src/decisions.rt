//! Which rules of two tables decide about the same request.

ghost use Rattle.std.specs.Prelude.{◌≡◌, IfOk, OnOk, map, option_copied};
ghost use Rattle.urlpattern_route_analysis.specs.Cases.{asked_view, known_both, literal_view, literal_views};
ghost use Rattle.urlpattern_route_analysis.specs.CasePatterns.{AreWithin, pattern_of, patterns_in};
ghost use Rattle.urlpattern_route_analysis.specs.Deciding.{AreDecisions, IsReady, IsUrlIn, Notes, is_found, is_found_one};
ghost use Rattle.urlpattern_route_analysis.specs.Formulas.{formula_views};

use crate::analysis::Analysis;
use crate::case::{Literal, known_first, turn};
use crate::formula::{Atom, Formula};
use crate::names::names_of;
use std::alloc::AllocError;
use urlpattern_compare::{Limits, PatternAutomata};
use urlpattern_urls::CommonUrl;

/// How far an analysis goes.
#[derive(Debug, Clone, Copy)]
pub struct CaseLimits {
    /// How many cases are looked at, those on the way to others included.
    ///
    /// If each rule has at most one pattern, there are at most `2 * n * (a + 1) * (b + 1)`: `a` and
    /// `b` are the numbers of rules, and `n` is the product, over the attributes, of the number of
    /// their names in the rules and one more.
    pub cases: usize,
    /// How far the question about patterns goes in each case.
    pub question: Limits,
}

/// A rule of one table and a rule of another that decide about the same request, or may. `None`: no
/// rule of the table does.
#[derive(Debug, Drop)]
pub struct JointDecision {
    /// The index of the rule in the first table.
    pub one: Option<usize>,
    /// The index of the rule in the second table.
    pub other: Option<usize>,
    /// The names of the request's attributes.
    pub names: Vec<String>,
    /// The URL of the request, or why it is not known whether there is one. Never `Nothing`.
    pub url: CommonUrl,
}

/// Which rules of two tables decide about the same request.
#[derive(Debug, Drop)]
pub struct Decisions {
    /// For each two rules that do, one request. For each two that may, why that is not known, for
    /// each case in which it is not. Two rules may have both.
    pub found: Vec<JointDecision>,
    /// Whether these are all. `false`: there are more cases than [`CaseLimits`] allows.
    pub is_complete: bool,
}

impl Analysis<'_> {
    /// Finds which rules of two tables, with these formulas, decide about the same request.
    ///
    /// What is required holds of an analysis and of formulas that its calls returned.
    pub fn decisions(&self, ones: &[Formula], others: &[Formula]) -> Result<Decisions, AllocError>
        requires ready { IsReady self.now }
        requires ones { AreWithin self.now.patterns.items (formula_views ones.now) }
        requires others { AreWithin self.now.patterns.items (formula_views others.now) }
        ensures { IfOk result
            (AreDecisions self.now (formula_views ones.now) (formula_views others.now)) }
    {
        let mut found = Vec::new(self.alloc);
        let mut literals = Vec::new(self.alloc);
        for _ in 0..self.limits.cases {
            match known_both(ones, others, &literals) {
                Err(atom) => literals.push(Literal { atom, holds: true })?,
                Ok((one, other)) => {
                    self.note(&mut found, one, other, &literals)?;
                    if !turn(&mut literals)? {
                        return Ok(Decisions {
                            found,
                            is_complete: true,
                        });
                    }
                }
            }
        }
        Ok(Decisions {
            found,
            is_complete: false,
        })
    }

    /// Appends what is found of these two rules in the case of the literals, unless a request is
    /// known already.
    fn note(
        &self,
        found: &mut Vec<JointDecision>,
        one: Option<usize>,
        other: Option<usize>,
        literals: &[Literal<'_>],
    ) -> Result<(), AllocError>
        requires ready { IsReady self.now }
        ensures { OnOk result (Notes self.now one other (literal_views literals.now)
            found.old.items found.new.items) }
    {
        if is_found(found, one, other) {
            return Ok(());
        }
        let Some(names) = names_of(self.alloc, literals, self.attributes)? else {
            return Ok(());
        };
        match self.url_in(literals)? {
            CommonUrl::Nothing => Ok(()),
            url => {
                found.push(JointDecision {
                    one,
                    other,
                    names,
                    url,
                })?;
                Ok(())
            }
        }
    }

    /// Finds a URL in the case of the literals.
    fn url_in(&self, literals: &[Literal<'_>]) -> Result<CommonUrl, AllocError>
        requires ready { IsReady self.now }
        ensures { IfOk result (IsUrlIn self.now (literal_views literals.now)) }
    {
        let matched = self.patterns_in(literals, true)?;
        let unmatched = self.patterns_in(literals, false)?;
        self.facts
            .find_common(self.alloc, &matched, &unmatched, self.limits.question)
    }

    /// Returns the patterns that match in the case of the literals, or those that do not.
    fn patterns_in(
        &self,
        literals: &[Literal<'_>],
        holds: bool,
    ) -> Result<Vec<&PatternAutomata>, AllocError>
        ensures { IfOk result (λ found. map (λ it. it.now) found.items
            ≡ patterns_in self.now.patterns.items holds (literal_views literals.now)) }
    {
        let mut found = Vec::new(self.alloc);
        for literal in literals {
            if let Some(pattern) = self.pattern_of(literal, holds) {
                found.push(pattern)?;
            }
        }
        Ok(found)
    }

    /// Returns the pattern of the literal, if it is of one and says `holds`.
    fn pattern_of(&self, literal: &Literal<'_>, holds: bool) -> Option<&PatternAutomata>
        ensures { option_copied result
            ≡ pattern_of self.now.patterns.items holds (literal_view literal.now) }
    {
        match literal.atom {
            Atom::Url(index) if literal.holds == holds => self.patterns.get(*index),
            _ => None,
        }
    }
}

/// Returns the rules of both tables that decide where the literals hold, or an atom for which this
/// has to be known.
fn known_both<'a>(
    ones: &'a [Formula],
    others: &'a [Formula],
    literals: &[Literal<'a>],
) -> Result<(Option<usize>, Option<usize>), &'a Atom>
    ensures { asked_view result ≡ known_both (literal_views literals.now) (formula_views ones.now)
        (formula_views others.now) }
{
    let one = known_first(ones, literals)?;
    let other = known_first(others, literals)?;
    Ok((one, other))
}

/// Whether a request is known about which these two rules decide.
fn is_found(found: &[JointDecision], one: Option<usize>, other: Option<usize>) -> bool
    ensures { result ≡ is_found found.now one other }
{
    found.iter().any(|each| is_found_one(each, one, other))
}

/// Whether this is a request about which these two rules decide.
fn is_found_one(each: &JointDecision, one: Option<usize>, other: Option<usize>) -> bool
    ensures { result ≡ is_found_one one other each.now }
{
    matches!(each.url, CommonUrl::Url(_)) && each.one == one && each.other == other
}
