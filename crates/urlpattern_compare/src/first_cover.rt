//! The first pattern of a list that covers another one.

ghost use Rattle.std.specs.Prelude.{map, IfOk};
ghost use Rattle.urlpattern_compare.specs.Comparing.{IsFirstCovering, DecidesCovering};

use crate::pattern_parts::{PatternCovering, PatternParts};
use std::alloc::{AllocError, Global};

/// Returns the index of the first of `patterns` that is known to cover `asked`. `None`: no pattern
/// is known to.
///
/// Each pattern before the index does not match some eight texts that `asked` matches, or whether
/// it covers `asked` is not known.
pub fn first_covering(
    alloc: Global,
    patterns: &[&PatternParts],
    asked: &PatternParts,
) -> Result<Option<usize>, AllocError>
    ensures { IfOk result (IsFirstCovering (map (λ pattern. pattern.now) patterns.now) asked.now) }
{
    for index in 0..patterns.len() {
        let covers = is_known_to_cover(alloc, patterns[index], asked)?;
        if covers {
            return Ok(Some(index));
        }
    }
    Ok(None)
}

/// Whether `pattern` is known to cover `asked`. `false`: the pattern does not, or that is not
/// known.
fn is_known_to_cover(
    alloc: Global,
    pattern: &PatternParts,
    asked: &PatternParts,
) -> Result<bool, AllocError>
    ensures { IfOk result (DecidesCovering pattern.now asked.now) }
{
    let covering = pattern.covers(alloc, asked)?;
    match covering {
        PatternCovering::Covered => Ok(true),
        PatternCovering::NotCovered(parting) => {
            drop(parting);
            Ok(false)
        }
        PatternCovering::Unknown(_, _) => Ok(false),
    }
}
