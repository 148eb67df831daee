//! The tree of a part with a custom expression.

ghost use Rattle.std.specs.Prelude.{◌≡◌, IfOk, IfSome};
ghost use Rattle.std.specs.Str.{chars};
ghost use Rattle.urlpattern_expressions.specs.Shapes.{IsShapeOfPart, part_shape, shape, spelled};
ghost use Rattle.urlpattern_syntax.specs.Parts.{part_view};
ghost use Rattle.urlpattern_syntax.specs.declared.parser.PartType.{PartType};

use crate::expression_trees::{MOST_NODES, expression_tree};
use crate::tree::{NoTree, Tree, allowed, sequence, spelled};
use std::alloc::{AllocError, Global};
use urlpattern_syntax::error::OutOfMemory;
use urlpattern_syntax::parser::Part;

/// Returns the tree of a part with a custom regular expression, where case is kept: it stands for
/// the texts that the part matches.
///
/// `None`: the expression has no tree, or that of the part would be too large.
///
/// The only error is that memory ran out.
pub fn part_tree(alloc: Global, part: &Part) -> Result<Option<Tree>, OutOfMemory>
    requires { part.now.kind ≡ PartType.Regexp }
    ensures { IfOk result (λ found. IfSome found (λ tree.
        IsShapeOfPart (part_view part.now) (shape tree))) }
{
    let Some(inner) = expression_tree(alloc, &part.value)? else {
        return Ok(None);
    };
    let mut left = MOST_NODES;
    match wrapped(alloc, part, inner, &mut left) {
        Ok(tree) => Ok(Some(tree)),
        Err(NoTree::Unfit) => Ok(None),
        Err(NoTree::OutOfMemory) => Err(OutOfMemory),
    }
}

/// Returns the tree of the part, `inner` being that of its expression.
fn wrapped(alloc: Global, part: &Part, inner: Tree, left: &mut usize) -> Result<Tree, NoTree>
    ensures { IfOk result (λ tree. shape tree ≡ part_shape (part_view part.now) (shape inner)) }
{
    let suffix = spelled_text(alloc, &part.suffix, left)?;
    let ended = sequence(alloc, inner, suffix, left)?;
    let prefix = spelled_text(alloc, &part.prefix, left)?;
    let copy = sequence(alloc, prefix, ended, left)?;
    allowed(alloc, &part.modifier, copy, left)
}

/// Returns the tree of the text.
fn spelled_text(alloc: Global, text: &str, left: &mut usize) -> Result<Tree, NoTree>
    ensures { IfOk result (λ tree. shape tree ≡ spelled (chars text.now)) }
{
    let codes = codes_of(alloc, text)?;
    spelled(alloc, &codes, left)
}

/// Returns the codes of the characters of the text.
fn codes_of(alloc: Global, text: &str) -> Result<Vec<u32>, AllocError>
    ensures { IfOk result (λ codes. codes.items ≡ chars text.now) }
{
    let mut codes = Vec::new(alloc);
    for c in text.chars() {
        codes.push(u32::from(c))?;
    }
    Ok(codes)
}
