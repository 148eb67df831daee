//! Patterns that cover another one together.

ghost use Rattle.std.specs.Prelude.{◌≡◌, ◌<◌, ◌++◌, ◌∷◌, [], All, IfOk, OnOk, map, take};
ghost use Rattle.urlpattern_compare.specs.CommonTexts.{AreAutomata};
ghost use Rattle.urlpattern_compare.specs.CoveringTogether.{AreCovering, DecidesTogether, IsFewest, IsLeastCover, at_each, before_last, with_last};

use crate::candidates::Limits;
use crate::common_texts::{Common, PatternAutomata, find_common};
use std::alloc::{AllocError, Global};

/// Returns the indices of some of `patterns`, in order, that cover `asked` together. All of them
/// together do.
///
/// None of the indices can be left out: without it, the patterns at the later ones and all that are
/// before it are not known to cover `asked`.
pub(crate) fn least_cover<'a>(
    alloc: Global,
    patterns: &[&'a PatternAutomata],
    asked: &'a PatternAutomata,
    limits: Limits,
) -> Result<Vec<usize>, AllocError>
    requires patterns { All AreAutomata (map (λ it. it.now) patterns.now) }
    requires asked { AreAutomata asked.now }
    requires covered { AreCovering (map (λ it. it.now) patterns.now) asked.now }
    ensures { IfOk result (λ by.
        IsLeastCover limits (map (λ it. it.now) patterns.now) asked.now by.items) }
{
    let mut by = Vec::new(alloc);
    let mut end = patterns.len();
    while end > 0 {
        let count = fewest(alloc, patterns, asked, limits, &by, end)?;
        let last = insert_last(&mut by, count)?;
        end = last;
    }
    Ok(by)
}

/// Inserts the index of the last of `count` patterns before the indices `by`, and returns that
/// index. 0 if there is no pattern.
fn insert_last(by: &mut Vec<usize>, count: usize) -> Result<usize, AllocError>
    ensures by { OnOk result (by.new.items ≡ with_last count by.old.items) }
    ensures last { IfOk result (λ last. last ≡ before_last count) }
{
    if count == 0 {
        return Ok(0);
    }
    by.insert(0, count - 1)?;
    Ok(count - 1)
}

/// Returns how many of the first `end` patterns cover `asked` together with those at the indices
/// `by`, where one fewer are not known to. All `end` do.
fn fewest<'a>(
    alloc: Global,
    patterns: &[&'a PatternAutomata],
    asked: &'a PatternAutomata,
    limits: Limits,
    by: &[usize],
    end: usize,
) -> Result<usize, AllocError>
    requires patterns { All AreAutomata (map (λ it. it.now) patterns.now) }
    requires asked { AreAutomata asked.now }
    requires some { 0 < end }
    requires covered { AreCovering (take end (map (λ it. it.now) patterns.now)
        ++ at_each (map (λ it. it.now) patterns.now) by.now) asked.now }
    ensures { IfOk result
        (IsFewest limits (map (λ it. it.now) patterns.now) asked.now by.now end) }
{
    let covers = do_cover(alloc, patterns, asked, limits, 0, by)?;
    if covers {
        return Ok(0);
    }
    let mut low = 0;
    let mut high = end;
    while low + 1 < high {
        let middle = low + (high - low) / 2;
        let covers = do_cover(alloc, patterns, asked, limits, middle, by)?;
        if covers {
            high = middle;
        } else {
            low = middle;
        }
    }
    Ok(high)
}

/// Whether the first `count` of `patterns` and those at the indices `by` are known to cover `asked`
/// together. `false`: they do not, or that is not known.
fn do_cover<'a>(
    alloc: Global,
    patterns: &[&'a PatternAutomata],
    asked: &'a PatternAutomata,
    limits: Limits,
    count: usize,
    by: &[usize],
) -> Result<bool, AllocError>
    requires patterns { All AreAutomata (map (λ it. it.now) patterns.now) }
    requires asked { AreAutomata asked.now }
    ensures { IfOk result
        (DecidesTogether limits (take count (map (λ it. it.now) patterns.now)
        ++ at_each (map (λ it. it.now) patterns.now) by.now) asked.now) }
{
    let some = first_and_at(alloc, patterns, count, by)?;
    are_covering(alloc, &some, asked, limits)
}

/// Whether `patterns` are known to cover `asked` together. `false`: they do not, or that is not
/// known.
fn are_covering<'a>(
    alloc: Global,
    patterns: &[&'a PatternAutomata],
    asked: &'a PatternAutomata,
    limits: Limits,
) -> Result<bool, AllocError>
    requires patterns { All AreAutomata (map (λ it. it.now) patterns.now) }
    requires asked { AreAutomata asked.now }
    ensures { IfOk result
        (DecidesTogether limits (map (λ it. it.now) patterns.now) asked.now) }
{
    let common = find_common(alloc, &[asked], patterns, limits)?;
    match common {
        Common::Nothing => Ok(true),
        Common::Texts(texts) => {
            drop(texts);
            Ok(false)
        }
        Common::Unknown(_) => Ok(false),
    }
}

/// Returns the first `count` of `patterns`, and those at the indices `by`.
fn first_and_at<'a>(
    alloc: Global,
    patterns: &[&'a PatternAutomata],
    count: usize,
    by: &[usize],
) -> Result<Vec<&'a PatternAutomata>, AllocError>
    ensures { IfOk result (λ some.
        some.items ≡ take count patterns.now ++ at_each patterns.now by.now) }
{
    let mut some = Vec::new(alloc);
    for first in 0..count {
        push_at(&mut some, patterns, first)?;
    }
    for index in by {
        push_at(&mut some, patterns, *index)?;
    }
    Ok(some)
}

/// Appends the pattern at the index, if there is one.
fn push_at<'a>(
    some: &mut Vec<&'a PatternAutomata>,
    patterns: &[&'a PatternAutomata],
    index: usize,
) -> Result<(), AllocError>
    ensures { OnOk result
        (some.new.items ≡ some.old.items ++ at_each patterns.now (index ∷ [])) }
{
    if index < patterns.len() {
        some.push(patterns[index])?;
        Ok(())
    } else {
        Ok(())
    }
}
