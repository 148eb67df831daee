//! The tree of a custom expression, from what the crate `regex_syntax` reads.

ghost use Rattle.std.specs.Prelude.{◌≡◌, IfOk, IfSome, IsTrue, map};
ghost use Rattle.std.specs.Str.{chars};
ghost use Rattle.std.specs.{Char.is_ascii, List.list_all};
ghost use Rattle.regex_hir.specs.Meaning.{alt_all, cat_all, meaning};
ghost use Rattle.urlpattern_expressions.specs.Shapes.{IsShapeOf, pattern_shape, reads_characters, shape, spelled};

use crate::simple::config_for;
use crate::tree::{NoTree, Tree, choice, one, repeated, sequence, spelled};
use regex_hir::Hir;
use regex_syntax::ErrorKind;
use std::alloc::{AllocError, Global};
use urlpattern_syntax::error::OutOfMemory;

/// How many nodes may be made of an expression, not counting `Nothing`, and as many again for the
/// rest of its part.
pub(crate) const MOST_NODES: usize = 2_000;

/// Returns the tree of a custom regular expression, where case is kept: it stands for the texts
/// that the expression matches.
///
/// `None`: the grammar of `regex` does not read the expression, it has an assertion, as `^`, a
/// byte, or a literal that is not ASCII, or the tree would be too large.
///
/// The only error is that memory ran out.
pub(crate) fn expression_tree(alloc: Global, expression: &str) -> Result<Option<Tree>, OutOfMemory>
    ensures { IfOk result (λ found. IfSome found (λ tree.
        IsShapeOf (chars expression.now) (shape tree))) }
{
    match regex_syntax::parse(alloc, expression, &config_for(false)) {
        Ok(parsed) => tree_within(alloc, &parsed.hir),
        Err(error) => match error.kind {
            ErrorKind::OutOfMemory => Err(OutOfMemory),
            _ => Ok(None),
        },
    }
}

/// Returns the tree of what was read, of at most `MOST_NODES` nodes.
fn tree_within(alloc: Global, hir: &Hir) -> Result<Option<Tree>, OutOfMemory>
    ensures shape { IfOk result (λ found. IfSome found (λ tree.
        shape tree ≡ pattern_shape (meaning hir.now))) }
    ensures reads { IfOk result (λ found. IfSome found (λ tree.
        IsTrue (reads_characters (meaning hir.now)))) }
{
    let mut left = MOST_NODES;
    match tree_of(alloc, hir, &mut left) {
        Ok(tree) => Ok(Some(tree)),
        Err(NoTree::Unfit) => Ok(None),
        Err(NoTree::OutOfMemory) => Err(OutOfMemory),
    }
}

/// Returns the tree of what was read, of at most `left` nodes.
#[cycle(tree_of)]
fn tree_of(alloc: Global, hir: &Hir, left: &mut usize) -> Result<Tree, NoTree>
    ensures shape { IfOk result (λ tree. shape tree ≡ pattern_shape (meaning hir.now)) }
    ensures reads { IfOk result (λ tree. IsTrue (reads_characters (meaning hir.now))) }
{
    match hir {
        Hir::Empty => Ok(Tree::Nothing),
        Hir::Literal(bytes) => ascii(alloc, bytes, left),
        Hir::Bytes(class) => if class.ranges.is_empty() {
            one(alloc, &class.ranges, left)
        } else {
            Err(NoTree::Unfit)
        },
        Hir::Chars(class) => one(alloc, &class.ranges, left),
        Hir::Look(_) => Err(NoTree::Unfit),
        Hir::Repetition {
            min,
            max,
            greedy,
            sub,
        } => {
            let inner = tree_of(alloc, sub, left)?;
            repeated(alloc, *min, *max, *greedy, &inner, left)
        }
        Hir::Capture { index: _, sub } => tree_of(alloc, sub, left),
        Hir::Concat(subs) => tree_of_all(alloc, subs, left),
        Hir::Alternation(subs) => tree_of_any(alloc, subs, left),
    }
}

/// Returns the tree of `subs`, one after the other.
#[cycle(tree_of)]
fn tree_of_all(alloc: Global, subs: &[Hir], left: &mut usize) -> Result<Tree, NoTree>
    ensures shape { IfOk result (λ tree.
        shape tree ≡ pattern_shape (cat_all (map meaning subs.now))) }
    ensures reads { IfOk result (λ tree.
        IsTrue (reads_characters (cat_all (map meaning subs.now)))) }
{
    let mut found = Tree::Nothing;
    for index in (0..subs.len()).rev() {
        let first = tree_of(alloc, &subs[index], left)?;
        found = sequence(alloc, first, found, left)?;
    }
    Ok(found)
}

/// Returns the tree of one of `subs`.
#[cycle(tree_of)]
fn tree_of_any(alloc: Global, subs: &[Hir], left: &mut usize) -> Result<Tree, NoTree>
    ensures shape { IfOk result (λ tree.
        shape tree ≡ pattern_shape (alt_all (map meaning subs.now))) }
    ensures reads { IfOk result (λ tree.
        IsTrue (reads_characters (alt_all (map meaning subs.now)))) }
{
    let mut found = one(alloc, &[], left)?;
    for index in (0..subs.len()).rev() {
        let first = tree_of(alloc, &subs[index], left)?;
        found = choice(alloc, first, found, left)?;
    }
    Ok(found)
}

/// Returns the tree of the text of these bytes, if they are ASCII.
fn ascii(alloc: Global, bytes: &[u8], left: &mut usize) -> Result<Tree, NoTree>
    ensures shape { IfOk result (λ tree. shape tree ≡ spelled bytes.now) }
    ensures reads { IfOk result (λ tree. IsTrue (list_all is_ascii bytes.now)) }
{
    if !are_ascii(bytes) {
        return Err(NoTree::Unfit);
    }
    let codes = codes_of(alloc, bytes)?;
    spelled(alloc, &codes, left)
}

/// Whether the bytes are ASCII.
fn are_ascii(bytes: &[u8]) -> bool
    ensures { result ≡ list_all is_ascii bytes.now }
{
    bytes.iter().all(|byte| is_ascii(*byte))
}

/// Returns the bytes as codes.
fn codes_of(alloc: Global, bytes: &[u8]) -> Result<Vec<u32>, AllocError>
    ensures { IfOk result (λ codes. codes.items ≡ bytes.now) }
{
    let mut codes = Vec::new(alloc);
    for byte in bytes {
        codes.push(u32::from(*byte))?;
    }
    Ok(codes)
}

/// Whether the byte is ASCII.
fn is_ascii(byte: u8) -> bool
    ensures { result ≡ is_ascii byte }
{
    byte.is_ascii()
}
