//! The states and edges of trees, which stand for the texts of custom parts.

ghost use Rattle.std.specs.Prelude.{◌≡◌, ◌≤◌, ◌+◌, ◌++◌, IfOk, OnOk, min};
ghost use Rattle.urlpattern_compare.specs.Making.{begins, edges_within, heads, shape_edges, shape_size, takes_empty};
ghost use Rattle.urlpattern_expressions.specs.Shapes.{shape};

use crate::parts_automaton::{Edge, Test, add_edges};
use std::alloc::{AllocError, Global};
use urlpattern_expressions::Tree;

/// Returns the number of states of the tree, at most `usize::MAX`.
pub(crate) fn size_of(tree: &Tree) -> usize
    ensures { result ≡ min (shape_size (shape tree.now)) usize.MAX }
{
    match tree {
        Tree::Nothing => 0,
        Tree::One(_) => 1,
        Tree::Then(one, other) => size_of(one).saturating_add(size_of(other)),
        Tree::Either(one, other) => size_of(one).saturating_add(size_of(other)),
        Tree::Several(inner) => size_of(inner),
    }
}

/// Whether the tree has the empty text.
fn takes_empty(tree: &Tree) -> bool
    ensures { result ≡ takes_empty (shape tree.now) }
{
    match tree {
        Tree::Nothing => true,
        Tree::One(_) => false,
        Tree::Then(one, other) => takes_empty(one) && takes_empty(other),
        Tree::Either(one, other) => takes_empty(one) || takes_empty(other),
        Tree::Several(inner) => takes_empty(inner),
    }
}

/// Appends to `found` the states at which the texts of the tree begin that are not empty, if its
/// first state is `count`.
fn add_heads(found: &mut Vec<usize>, tree: &Tree, count: usize) -> Result<(), AllocError>
    requires { count + shape_size (shape tree.now) ≤ usize.MAX }
    ensures { OnOk result (found.new.items ≡ found.old.items ++ heads (shape tree.now) count) }
{
    match tree {
        Tree::Nothing => Ok(()),
        Tree::One(_) => {
            found.push(count)?;
            Ok(())
        }
        Tree::Then(one, other) => {
            add_heads(found, one, count + size_of(other))?;
            if takes_empty(one) {
                add_heads(found, other, count)
            } else {
                Ok(())
            }
        }
        Tree::Either(one, other) => {
            add_heads(found, one, count)?;
            add_heads(found, other, count + size_of(one))
        }
        Tree::Several(inner) => add_heads(found, inner, count),
    }
}

/// Returns the states at which the texts of the tree begin that are followed by a text from one of
/// `starts`, if its first state is `count`.
pub(crate) fn begins(
    alloc: Global,
    tree: &Tree,
    count: usize,
    starts: &[usize],
) -> Result<Vec<usize>, AllocError>
    requires { count + shape_size (shape tree.now) ≤ usize.MAX }
    ensures { IfOk result (λ found. found.items ≡ begins (shape tree.now) count starts.now) }
{
    let mut found = Vec::new(alloc);
    add_heads(&mut found, tree, count)?;
    if takes_empty(tree) {
        found.extend_from_slice(starts)?;
    }
    Ok(found)
}

/// Adds the edges of the tree, whose first state is `count`, and which is followed by a text from
/// one of `starts`.
pub(crate) fn add_tree(
    alloc: Global,
    edges: &mut Vec<Edge>,
    tree: &Tree,
    count: usize,
    starts: &[usize],
) -> Result<(), AllocError>
    requires { count + shape_size (shape tree.now) ≤ usize.MAX }
    ensures { OnOk result
        (edges.new.items ≡ edges.old.items ++ shape_edges (shape tree.now) count starts.now) }
{
    match tree {
        Tree::Nothing => Ok(()),
        Tree::One(ranges) => add_ranges(edges, count, ranges, starts),
        Tree::Then(one, other) => {
            add_tree(alloc, edges, other, count, starts)?;
            let middle = begins(alloc, other, count, starts)?;
            add_tree(alloc, edges, one, count + size_of(other), &middle)
        }
        Tree::Either(one, other) => {
            add_tree(alloc, edges, one, count, starts)?;
            add_tree(alloc, edges, other, count + size_of(one), starts)
        }
        Tree::Several(inner) => {
            let mut more = Vec::from_slice(alloc, starts)?;
            add_heads(&mut more, inner, count)?;
            add_tree(alloc, edges, inner, count, &more)
        }
    }
}

/// Adds edges from `from` to each of `others`, by characters of the ranges.
fn add_ranges(
    edges: &mut Vec<Edge>,
    from: usize,
    ranges: &[(u32, u32)],
    others: &[usize],
) -> Result<(), AllocError>
    ensures { OnOk result
        (edges.new.items ≡ edges.old.items ++ edges_within from ranges.now others.now) }
{
    for range in ranges {
        add_edges(edges, from, Test::Within(range.0, range.1), others)?;
    }
    Ok(())
}
