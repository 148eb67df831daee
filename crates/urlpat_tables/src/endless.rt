//! Rules that lead from one to another without end.

ghost use Rattle.std.specs.Prelude.{◌≡◌, ◌↔◌, ◌<◌, ℕ, All, Contains, IfNone, IfOk, IfSome, IsTrue, MatchBool, [], length, map};
ghost use Rattle.urlpat_tables.specs.RewriteRules.{AreRanked, LeadsAmong, LeadsOutside};

use std::alloc::{AllocError, Global};

/// The rules that lead from one to another without end, by their indices: each leads to one of
/// them. If there are none, each rule has a rank, and leads only to rules of lower ranks.
///
/// `leads` has for each rule the indices of those to which it leads.
pub(crate) fn endless_among(alloc: Global, leads: &[Vec<usize>]) -> Result<Vec<usize>, AllocError>
    ensures ranked { IfOk result (λ rest. rest.items ≡ []
        → AreRanked (map (λ it. it.items) leads.now)) }
    ensures endless { IfOk result (λ rest.
        All (LeadsAmong (map (λ it. it.items) leads.now) rest.items) rest.items) }
{
    let mut rest = indices(alloc, leads.len())?;
    for round in 0..leads.len() {
        match ended_in(leads, &rest) {
            Some(place) => {
                rest.remove(place);
            }
            None => return Ok(rest),
        }
    }
    Ok(rest)
}

/// The place in `rest` of the first rule that leads to none of `rest`. `None`: each leads to one.
fn ended_in(leads: &[Vec<usize>], rest: &[usize]) -> Option<usize>
    requires { All (λ rule. rule < length leads.now) rest.now }
    ensures ended { IfSome result (λ place.
        LeadsOutside (map (λ it. it.items) leads.now) rest.now place) }
    ensures none { IfNone result
        (All (LeadsAmong (map (λ it. it.items) leads.now) rest.now) rest.now) }
{
    for place in 0..rest.len() {
        let index = rest[place];
        if !leads_among(&leads[index], rest) {
            return Some(place);
        }
    }
    None
}

/// Whether one of the rules to which a rule leads is one of `rest`.
fn leads_among(others: &[usize], rest: &[usize]) -> bool
    ensures { MatchBool result
        ((next : ℕ) × Contains others.now next × Contains rest.now next)
        ((next : ℕ) → Contains others.now next → ¬ Contains rest.now next) }
{
    for next in others {
        if has(rest, *next) {
            return true;
        }
    }
    false
}

/// Whether a list has a number.
fn has(numbers: &[usize], number: usize) -> bool
    ensures { IsTrue result ↔ Contains numbers.now number }
{
    numbers.contains(&number)
}

/// The numbers below `count`.
fn indices(alloc: Global, count: usize) -> Result<Vec<usize>, AllocError>
    ensures length { IfOk result (λ all. length all.items ≡ count) }
    ensures all { IfOk result (λ all. (index : ℕ) → index < count → Contains all.items index) }
    ensures within { IfOk result (λ all. All (λ index. index < count) all.items) }
{
    let mut all = Vec::with_capacity(alloc, count)?;
    for index in 0..count {
        all.push(index)?;
    }
    Ok(all)
}
