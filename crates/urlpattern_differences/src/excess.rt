//! Eight texts that one list of rules allows and another one denies.
ghost use Rattle.std.specs.Prelude.{◌≡◌, All, IfOk, length};
ghost use Rattle.urlpattern_compare.specs.CommonTexts.{AreAutomata};
ghost use Rattle.urlpattern_differences.specs.Deciding.{IsRule, effect_of};
ghost use Rattle.urlpattern_differences.specs.Excess.{IsExcess, IsExcessOf, IsExcessWith, found_or};
ghost use Rattle.urlpattern_differences.specs.declared.rules.Effect.TheVariants as effects;

use crate::question::ask;
use crate::rules::{Effect, PolicyAutomata, rule_at};
use crate::shared::are_settled;
use std::alloc::{AllocError, Global};
use urlpattern_compare::{Common, Doubt, Limits};
use urlpattern_components::Eight;

/// Whether eight texts exist that one list of rules allows and another one denies.
#[derive(Debug, Drop)]
pub enum Excess {
    /// The one allows these texts, and the other denies them.
    Texts(ExcessTexts),
    /// No such texts without line feeds exist.
    Nothing,
    /// Not known, for this reason.
    Unknown(PairDoubt),
}

/// Eight texts that one list of rules allows and another one denies, and the rules that decide.
#[derive(Debug, Drop)]
pub struct ExcessTexts {
    /// The texts, without line feeds.
    pub texts: Eight<String>,
    /// The rule that allows. `None`: no rule matches the texts, which is allowed.
    pub allowing: Option<usize>,
    /// The rule that denies. `None`: no rule matches the texts, which is denied.
    pub denying: Option<usize>,
}

/// Why it is not known whether eight texts exist that one rule allows and another one denies.
#[derive(Clone, Copy, Debug, PartialEq, Eq)]
pub struct PairDoubt {
    /// The rule that allows. `None`: no rule matches, which is allowed.
    pub allowing: Option<usize>,
    /// The rule that denies. `None`: no rule matches, which is denied.
    pub denying: Option<usize>,
    /// The doubt. Its `all_of` are the patterns of the two rules, and `none_of` are those before
    /// the rule that allows, and then those before the one that denies.
    pub doubt: Doubt,
}

/// Finds eight texts without line feeds that `one` allows and `other` denies.
///
/// Each rule that allows is compared with each rule that denies: whether texts exist that both
/// match, and none of the rules before them does. What is required holds of automata that
/// `PatternAutomata::new` made.
pub fn find_excess(
    alloc: Global,
    one: &PolicyAutomata,
    other: &PolicyAutomata,
    limits: Limits,
) -> Result<Excess, AllocError>
    requires one { All AreAutomata one.now.patterns.items }
    requires other { All AreAutomata other.now.patterns.items }
    ensures { IfOk result (IsExcess limits one.now other.now) }
{
    let count = one.patterns.len();
    let mut doubt = None;
    for place in 0..count + 1 {
        let found = excess_of(alloc, one, other, rule_at(count, place), limits)?;
        match found {
            Excess::Texts(shown) => return Ok(Excess::Texts(shown)),
            Excess::Nothing => {}
            Excess::Unknown(another) => {
                doubt = Some(another);
            }
        }
    }
    Ok(found_or_nothing(doubt))
}

/// Finds eight texts of which `first` is the first rule of `one` that matches, if that allows, and
/// which `other` denies.
fn excess_of(
    alloc: Global,
    one: &PolicyAutomata,
    other: &PolicyAutomata,
    first: Option<usize>,
    limits: Limits,
) -> Result<Excess, AllocError>
    requires one { All AreAutomata one.now.patterns.items }
    requires other { All AreAutomata other.now.patterns.items }
    requires rule { IsRule one.now.patterns.items first }
    ensures { IfOk result (IsExcessOf limits one.now other.now first) }
{
    match one.effect_of(first) {
        Effect::Allow => excess_of_allowing(alloc, one, other, first, limits),
        Effect::Deny => Ok(Excess::Nothing),
    }
}

/// Finds eight texts of which `first`, which allows, is the first rule of `one` that matches, and
/// which `other` denies.
fn excess_of_allowing(
    alloc: Global,
    one: &PolicyAutomata,
    other: &PolicyAutomata,
    first: Option<usize>,
    limits: Limits,
) -> Result<Excess, AllocError>
    requires one { All AreAutomata one.now.patterns.items }
    requires other { All AreAutomata other.now.patterns.items }
    requires rule { IsRule one.now.patterns.items first }
    requires allows { effect_of one.now first ≡ effects.Allow }
    ensures { IfOk result (IsExcessOf limits one.now other.now first) }
{
    let count = other.patterns.len();
    let mut doubt = None;
    for place in 0..count + 1 {
        let found = excess_with(alloc, one, other, first, rule_at(count, place), limits)?;
        match found {
            Excess::Texts(shown) => return Ok(Excess::Texts(shown)),
            Excess::Nothing => {}
            Excess::Unknown(another) => {
                doubt = Some(another);
            }
        }
    }
    Ok(found_or_nothing(doubt))
}

/// Returns the doubt, if there is one, or `Nothing`.
fn found_or_nothing(doubt: Option<PairDoubt>) -> Excess
    ensures { result ≡ found_or doubt }
{
    match doubt {
        Some(doubt) => Excess::Unknown(doubt),
        None => Excess::Nothing,
    }
}

/// Finds eight texts of which `first`, which allows, is the first rule of `one` that matches, and
/// `second`, if that denies, the first of `other`.
fn excess_with(
    alloc: Global,
    one: &PolicyAutomata,
    other: &PolicyAutomata,
    first: Option<usize>,
    second: Option<usize>,
    limits: Limits,
) -> Result<Excess, AllocError>
    requires one { All AreAutomata one.now.patterns.items }
    requires other { All AreAutomata other.now.patterns.items }
    requires first_rule { IsRule one.now.patterns.items first }
    requires second_rule { IsRule other.now.patterns.items second }
    requires allows { effect_of one.now first ≡ effects.Allow }
    ensures { IfOk result (IsExcessWith limits one.now other.now first second) }
{
    match other.effect_of(second) {
        Effect::Allow => Ok(Excess::Nothing),
        Effect::Deny => excess_unless_settled(alloc, one, other, first, second, limits),
    }
}

/// Finds eight texts of which `first`, which allows, is the first rule of `one` that matches, and
/// `second`, which denies, the first of `other`, unless it is plain that there are none.
fn excess_unless_settled(
    alloc: Global,
    one: &PolicyAutomata,
    other: &PolicyAutomata,
    first: Option<usize>,
    second: Option<usize>,
    limits: Limits,
) -> Result<Excess, AllocError>
    requires one { All AreAutomata one.now.patterns.items }
    requires other { All AreAutomata other.now.patterns.items }
    requires first_rule { IsRule one.now.patterns.items first }
    requires second_rule { IsRule other.now.patterns.items second }
    requires allows { effect_of one.now first ≡ effects.Allow }
    requires denies { effect_of other.now second ≡ effects.Deny }
    ensures { IfOk result (IsExcessWith limits one.now other.now first second) }
{
    if are_settled(one, other, first, second) {
        return Ok(Excess::Nothing);
    }
    excess_of_pair(alloc, one, other, first, second, limits)
}

/// Finds eight texts of which `first`, which allows, is the first rule of `one` that matches, and
/// `second`, which denies, the first of `other`.
fn excess_of_pair(
    alloc: Global,
    one: &PolicyAutomata,
    other: &PolicyAutomata,
    first: Option<usize>,
    second: Option<usize>,
    limits: Limits,
) -> Result<Excess, AllocError>
    requires one { All AreAutomata one.now.patterns.items }
    requires other { All AreAutomata other.now.patterns.items }
    requires first_rule { IsRule one.now.patterns.items first }
    requires second_rule { IsRule other.now.patterns.items second }
    requires allows { effect_of one.now first ≡ effects.Allow }
    requires denies { effect_of other.now second ≡ effects.Deny }
    ensures { IfOk result (IsExcessWith limits one.now other.now first second) }
{
    let common = ask(alloc, one, other, first, second, limits)?;
    match common {
        Common::Texts(texts) => Ok(Excess::Texts(ExcessTexts {
            texts,
            allowing: first,
            denying: second,
        })),
        Common::Nothing => Ok(Excess::Nothing),
        Common::Unknown(doubt) => Ok(Excess::Unknown(PairDoubt {
            allowing: first,
            denying: second,
            doubt,
        })),
    }
}
