//! Conditions as formulas.

ghost use Rattle.std.specs.Prelude.{◌≡◌, ◌++◌, ◌∷◌, [], IfOk, OnErr, OnOk};
ghost use Rattle.urlpattern_route_analysis.specs.Formulas.{formula_view, opposite, opposite_if};

use std::alloc::{AllocError, Global};

/// What a formula asks of a request.
#[derive(Debug, Drop)]
pub enum Atom {
    /// The pattern at this index matches the URL.
    Url(usize),
    /// The attribute at this index has this name.
    Name(usize, String),
}

/// A condition in which patterns have indices.
#[derive(Debug, Drop)]
pub enum Formula {
    /// The atom holds.
    Atom(Atom),
    /// None of the formulas holds.
    NoneOf(Vec<Formula>),
}

/// Returns the formula that holds where the other does not.
pub(crate) fn opposite(alloc: Global, formula: Formula) -> Result<Formula, AllocError>
    ensures { IfOk result (λ made. formula_view made ≡ opposite (formula_view formula)) }
{
    Ok(Formula::NoneOf(vec![in alloc; formula]?))
}

/// Returns the formula, or the one that holds where it does not.
pub(crate) fn opposite_if(
    alloc: Global,
    formula: Formula,
    is_opposite: bool,
) -> Result<Formula, AllocError>
    ensures { IfOk result (λ made.
        formula_view made ≡ opposite_if is_opposite (formula_view formula)) }
{
    if is_opposite {
        opposite(alloc, formula)
    } else {
        Ok(formula)
    }
}

/// Appends an item.
pub(crate) fn push<T: Drop>(items: &mut Vec<T>, item: T) -> Result<(), AllocError>
    ensures appended { OnOk result (items.new.items ≡ items.old.items ++ item ∷ []) }
    ensures unchanged { OnErr result (items.new.items ≡ items.old.items) }
{
    items.push(item)?;
    Ok(())
}
