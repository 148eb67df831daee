//! Cases of tables: atoms that hold, and atoms that do not.

ghost use Rattle.std.specs.Prelude.{◌≡◌, true, IfOk, Ok};
ghost use Rattle.urlpattern_route_analysis.specs.Cases.{IsTurned, asked_view, known, known_atom, known_first, known_none, literal_view, literal_views, preferred, told, told_name};
ghost use Rattle.urlpattern_route_analysis.specs.Formulas.{atom_view, formula_view, formula_views, listed};

use crate::formula::{Atom, Formula};
use std::alloc::AllocError;

/// An atom, and whether it holds.
#[derive(Debug, Clone, Copy)]
pub(crate) struct Literal<'a> {
    /// The atom.
    pub(crate) atom: &'a Atom,
    /// Whether the atom holds.
    pub(crate) holds: bool,
}

/// Returns the first rule whose formula holds where the literals do, or an atom for which this has
/// to be known.
pub(crate) fn known_first<'a>(
    formulas: &'a [Formula],
    literals: &[Literal<'a>],
) -> Result<Option<usize>, &'a Atom>
    ensures { asked_view result ≡ known_first (literal_views literals.now)
        (formula_views formulas.now) }
{
    for index in 0..formulas.len() {
        if known(&formulas[index], literals)? {
            return Ok(Some(index));
        }
    }
    Ok(None)
}

/// Returns whether a formula holds where the literals do, or an atom for which this has to be
/// known.
#[cycle(known)]
fn known<'a>(formula: &'a Formula, literals: &[Literal<'a>]) -> Result<bool, &'a Atom>
    ensures { asked_view result ≡ known (literal_views literals.now) (formula_view formula.now) }
{
    match formula {
        Formula::Atom(atom) => known_atom(literals, atom).ok_or(atom),
        Formula::NoneOf(formulas) => known_none(formulas, literals),
    }
}

/// Returns whether none of the formulas holds where the literals do, or an atom for which this has
/// to be known.
#[cycle(known)]
fn known_none<'a>(formulas: &'a Vec<Formula>, literals: &[Literal<'a>]) -> Result<bool, &'a Atom>
    ensures { asked_view result ≡ known_none (literal_views literals.now) (Ok true)
        (listed (formula_views formulas.now.items)) }
{
    let mut so_far = Ok(true);
    for formula in formulas {
        match known(formula, literals) {
            Ok(true) => return Ok(false),
            Ok(false) => {}
            Err(atom) => so_far = Err(preferred(so_far, atom)),
        }
    }
    so_far
}

/// Returns the atom that is asked for first: a name before a pattern, else the earlier one.
fn preferred<'a>(so_far: Result<bool, &'a Atom>, atom: &'a Atom) -> &'a Atom
    ensures { atom_view result.now ≡ preferred (asked_view so_far.entry) (atom_view atom.now) }
{
    match (so_far, atom) {
        (Ok(_), _) | (Err(Atom::Url(_)), Atom::Name(_, _)) => atom,
        (Err(first), _) => first,
    }
}

/// Returns whether an atom holds where the literals do. `None`: it is not known.
fn known_atom(literals: &[Literal<'_>], atom: &Atom) -> Option<bool>
    ensures { result ≡ known_atom (literal_views literals.now) (atom_view atom.now) }
{
    for literal in literals {
        if let Some(holds) = told(literal, atom) {
            return Some(holds);
        }
    }
    None
}

/// Returns whether an atom holds where the literal does. `None`: it is not known.
fn told(literal: &Literal<'_>, atom: &Atom) -> Option<bool>
    ensures { result ≡ told (literal_view literal.now) (atom_view atom.now) }
{
    match (literal.atom, atom) {
        (Atom::Url(own), Atom::Url(other)) if *own == *other => Some(literal.holds),
        (Atom::Name(own, name), Atom::Name(other, asked)) if *own == *other => {
            told_name(name == asked, literal.holds)
        }
        _ => None,
    }
}

/// Returns whether an attribute has a name, by a name that it has or does not have: this one or
/// another one. `None`: it is not known.
fn told_name(is_same: bool, holds: bool) -> Option<bool>
    ensures { result ≡ told_name is_same holds }
{
    if is_same || holds {
        Some(is_same && holds)
    } else {
        None
    }
}

/// Goes on to the next case: the last atom that holds does not, and the atoms after it are left
/// out. Returns whether there is one.
pub(crate) fn turn(literals: &mut Vec<Literal<'_>>) -> Result<bool, AllocError>
    ensures { IfOk result
        (IsTurned (literal_views literals.old.items) (literal_views literals.new.items)) }
{
    while let Some(Literal { atom, holds }) = literals.pop() {
        if holds {
            literals.push(Literal { atom, holds: false })?;
            return Ok(true);
        }
    }
    Ok(false)
}
