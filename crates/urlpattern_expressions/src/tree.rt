//! Trees: the texts that a simple expression matches, character by character.

ghost use Rattle.std.specs.Prelude.{◌≡◌, [], ◌∷◌, IfOk};
ghost use Rattle.urlpattern_expressions.specs.Shapes.{allowed, choice, copied, one_of, optional, repeated, sequence, several, shape, spelled, up_to};

use std::alloc::{AllocError, Global};
use urlpattern_syntax::parser::PartModifier;

/// A tree, which stands for a set of texts.
#[derive(Drop)]
pub enum Tree {
    /// The empty text.
    Nothing,
    /// A character of these ranges, each with both its ends.
    One(Vec<(u32, u32)>),
    /// A text of the first, and then one of the second.
    Then(Box<Tree>, Box<Tree>),
    /// A text of the first, or one of the second.
    Either(Box<Tree>, Box<Tree>),
    /// Texts in a row, at least one.
    Several(Box<Tree>),
}

/// Why there is no tree.
#[derive(Debug, Drop)]
pub(crate) enum NoTree {
    /// The tree would be too large, or the pattern has an assertion, a byte, or a literal that is
    /// not ASCII.
    Unfit,
    /// Memory ran out.
    OutOfMemory,
}

impl From<AllocError> for NoTree {
    ghost use Rattle.urlpattern_expressions.specs.declared.tree.NoTree.TheVariants as lacking;

    ghost from_gives = { λ _ lack. lack ≡ lacking.OutOfMemory };

    fn from(_error: AllocError) -> NoTree {
        NoTree::OutOfMemory
    }
}

/// Takes one node off those that are left.
fn spend(left: &mut usize) -> Result<(), NoTree> {
    if *left == 0 {
        return Err(NoTree::Unfit);
    }
    *left -= 1;
    Ok(())
}

/// Puts a tree into a box.
fn boxed(alloc: Global, tree: Tree) -> Result<Box<Tree>, NoTree>
    ensures { IfOk result (λ inner. shape inner.value ≡ shape tree) }
{
    match Box::new(alloc, tree) {
        Ok(inner) => Ok(inner),
        Err(_) => Err(NoTree::OutOfMemory),
    }
}

/// Returns the tree of one character of the ranges.
pub(crate) fn one(alloc: Global, ranges: &[(u32, u32)], left: &mut usize) -> Result<Tree, NoTree>
    ensures { IfOk result (λ tree. shape tree ≡ one_of ranges.now) }
{
    spend(left)?;
    Ok(Tree::One(Vec::from_slice(alloc, ranges)?))
}

/// Returns the tree of a text of `first`, and then one of `second`.
pub(crate) fn sequence(
    alloc: Global,
    first: Tree,
    second: Tree,
    left: &mut usize,
) -> Result<Tree, NoTree>
    ensures { IfOk result (λ tree. shape tree ≡ sequence (shape first) (shape second)) }
{
    spend(left)?;
    Ok(Tree::Then(boxed(alloc, first)?, boxed(alloc, second)?))
}

/// Returns the tree of a text of `first`, or one of `second`.
pub(crate) fn choice(
    alloc: Global,
    first: Tree,
    second: Tree,
    left: &mut usize,
) -> Result<Tree, NoTree>
    ensures { IfOk result (λ tree. shape tree ≡ choice (shape first) (shape second)) }
{
    spend(left)?;
    Ok(Tree::Either(boxed(alloc, first)?, boxed(alloc, second)?))
}

/// Returns the tree of one or more texts of `inner`.
fn several(alloc: Global, inner: Tree, left: &mut usize) -> Result<Tree, NoTree>
    ensures { IfOk result (λ tree. shape tree ≡ several (shape inner)) }
{
    spend(left)?;
    Ok(Tree::Several(boxed(alloc, inner)?))
}

/// Copies a tree.
fn copy(alloc: Global, tree: &Tree, left: &mut usize) -> Result<Tree, NoTree>
    ensures { IfOk result (λ new. shape new ≡ shape tree.now) }
{
    match tree {
        Tree::Nothing => Ok(Tree::Nothing),
        Tree::One(ranges) => one(alloc, ranges, left),
        Tree::Then(first, second) => {
            let one = copy(alloc, first, left)?;
            let other = copy(alloc, second, left)?;
            sequence(alloc, one, other, left)
        }
        Tree::Either(first, second) => {
            let one = copy(alloc, first, left)?;
            let other = copy(alloc, second, left)?;
            choice(alloc, one, other, left)
        }
        Tree::Several(inner) => {
            let one = copy(alloc, inner, left)?;
            several(alloc, one, left)
        }
    }
}

/// Returns the tree of `tree`, or of the empty text.
fn optional(alloc: Global, greedy: bool, tree: Tree, left: &mut usize) -> Result<Tree, NoTree>
    ensures { IfOk result (λ new. shape new ≡ optional greedy (shape tree)) }
{
    if greedy {
        choice(alloc, tree, Tree::Nothing, left)
    } else {
        choice(alloc, Tree::Nothing, tree, left)
    }
}

/// Returns the tree of `count` copies of `tree`, and then `last`.
#[tactic(auto, using(crate::proofs::RepeatedShapes::copied_more))]
fn copied(
    alloc: Global,
    count: u32,
    tree: &Tree,
    last: Tree,
    left: &mut usize,
) -> Result<Tree, NoTree>
    ensures { IfOk result (λ new. shape new ≡ copied count (shape tree.now) (shape last)) }
{
    let mut found = last;
    for _ in 0..count {
        let one = copy(alloc, tree, left)?;
        found = sequence(alloc, one, found, left)?;
    }
    Ok(found)
}

/// Returns the tree of at most `count` copies of `tree`.
#[tactic(auto, using(crate::proofs::RepeatedShapes::up_to_more))]
fn up_to(
    alloc: Global,
    greedy: bool,
    count: u32,
    tree: &Tree,
    left: &mut usize,
) -> Result<Tree, NoTree>
    ensures { IfOk result (λ new. shape new ≡ up_to greedy count (shape tree.now)) }
{
    let mut found = Tree::Nothing;
    for _ in 0..count {
        let one = copy(alloc, tree, left)?;
        let more = sequence(alloc, one, found, left)?;
        found = optional(alloc, greedy, more, left)?;
    }
    Ok(found)
}

/// Returns the tree of at least `min` copies of `tree` and, if there is a `max`, at most so many.
pub(crate) fn repeated(
    alloc: Global,
    min: u32,
    max: Option<u32>,
    greedy: bool,
    tree: &Tree,
    left: &mut usize,
) -> Result<Tree, NoTree>
    ensures { IfOk result (λ new. shape new ≡ repeated min max greedy (shape tree.now)) }
{
    if let Some(max) = max {
        let more = up_to(alloc, greedy, max.saturating_sub(min), tree, left)?;
        return copied(alloc, min, tree, more, left);
    }
    let inner = copy(alloc, tree, left)?;
    let more = several(alloc, inner, left)?;
    if min == 0 {
        optional(alloc, greedy, more, left)
    } else {
        copied(alloc, min - 1, tree, more, left)
    }
}

/// Returns the tree of the text with these codes.
pub(crate) fn spelled(alloc: Global, codes: &[u32], left: &mut usize) -> Result<Tree, NoTree>
    ensures { IfOk result (λ tree. shape tree ≡ spelled codes.now) }
{
    let mut found = Tree::Nothing;
    for index in (0..codes.len()).rev() {
        let code = codes[index];
        let first = one(alloc, &[(code, code)], left)?;
        found = sequence(alloc, first, found, left)?;
    }
    Ok(found)
}

/// Returns the tree of as many texts of `tree`, one after the other, as the modifier allows.
pub(crate) fn allowed(
    alloc: Global,
    modifier: &PartModifier,
    tree: Tree,
    left: &mut usize,
) -> Result<Tree, NoTree>
    ensures { IfOk result (λ new. shape new ≡ allowed modifier.now (shape tree)) }
{
    match modifier {
        PartModifier::None => Ok(tree),
        PartModifier::Optional => optional(alloc, true, tree, left),
        PartModifier::OneOrMore => several(alloc, tree, left),
        PartModifier::ZeroOrMore => {
            let more = several(alloc, tree, left)?;
            optional(alloc, true, more, left)
        }
    }
}
