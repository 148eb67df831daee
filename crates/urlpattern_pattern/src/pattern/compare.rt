//! Compares patterns by the parts that they were made of.
ghost use Rattle.std.specs.Prelude.{◌≡◌, ◌↔◌, IfErr, IfOk, IsTrue, Some};
ghost use Rattle.urlpattern_components.specs.Eight.{at};
ghost use Rattle.urlpattern_pattern.specs.PatternComparing.{HaveParts, LackParts, OfPartsOfBoth, compare_error_text};
ghost use Rattle.urlpattern_pattern.specs.declared.pattern.compare.CompareError.TheVariants as errors;
ghost use Rattle.urlpattern_compare.specs.Comparing.{IsPatternCovering, IsPatternOverlap};
ghost use Rattle.urlpattern_compare.specs.EqualParts.{AreEqualParts};
ghost use Rattle.urlpattern_compare.specs.Order.{parts_cmp};

use super::UrlPattern;
use std::alloc::{AllocError, Global};
use std::cmp::Ordering;
use std::{error, fmt};
use urlpattern_compare::{PatternCovering, PatternOverlap, PatternParts};
use urlpattern_components::ComponentName;
use urlpattern_matcher::regexp::RegExp;

/// Why two patterns cannot be compared.
#[derive(Debug, Clone, Copy, PartialEq, Eq)]
pub enum CompareError {
    /// A pattern was put together by hand and has no parts.
    NoParts,
    /// The allocator had no memory.
    OutOfMemory,
}

/// Prints the reason, in one line.
impl fmt::Display for CompareError {
    ghost output = { λ error. Some (compare_error_text error) };

    fn fmt<W: fmt::Write>(&self, f: &mut fmt::Formatter<W>) -> fmt::Result {
        match self {
            Self::NoParts => f.write_str("a pattern that was put together by hand has no parts"),
            Self::OutOfMemory => f.write_str("out of memory"),
        }
    }
}

impl error::Error for CompareError {}

impl From<AllocError> for CompareError {
    ghost from_gives = { λ _ error. error ≡ errors.OutOfMemory };

    fn from(_error: AllocError) -> CompareError {
        CompareError::OutOfMemory
    }
}

impl<R: RegExp> UrlPattern<R> {
    /// Returns whether this pattern covers `asked`: whether this pattern's parts match each
    /// combination of eight texts, one for each component, that the parts of `asked` match. Texts
    /// with a line feed are left out.
    ///
    /// Compares the parts of the two patterns as `PatternParts::covers` does.
    ///
    /// The error is that a pattern was put together by hand and has no parts, or that memory ran
    /// out.
    pub fn covers(&self, alloc: Global, asked: &Self) -> Result<PatternCovering, CompareError>
        ensures covering { IfOk result (λ covering.
            OfPartsOfBoth self.now asked.now (λ parts others.
            IsPatternCovering parts others covering)) }
        ensures missing { IfErr result (LackParts self.now asked.now) }
    {
        let (parts, others) = self.both_parts(asked)?;
        Ok(parts.covers(alloc, others)?)
    }

    /// Returns whether this pattern and `other` overlap: whether eight texts without line feeds,
    /// one for each component, exist that the parts of both patterns match, and which.
    ///
    /// Compares the parts of the two patterns as `PatternParts::overlaps` does.
    ///
    /// The error is that a pattern was put together by hand and has no parts, or that memory ran
    /// out.
    pub fn overlaps(&self, alloc: Global, other: &Self) -> Result<PatternOverlap, CompareError>
        ensures overlap { IfOk result (λ overlap. OfPartsOfBoth self.now other.now (λ parts others.
            IsPatternOverlap parts others overlap)) }
        ensures missing { IfErr result (LackParts self.now other.now) }
    {
        let (parts, others) = self.both_parts(other)?;
        Ok(parts.overlaps(alloc, others)?)
    }

    /// Compares the component `component` of two patterns, by its parts: the pattern with the more
    /// specific parts is the greater.
    ///
    /// Compares the two lists of parts as `compare_parts` does, and does not allocate.
    ///
    /// The error is `NoParts`: a pattern was put together by hand.
    pub fn compare_component(
        component: ComponentName,
        left: &Self,
        right: &Self,
    ) -> Result<Ordering, CompareError>
        ensures order { IfOk result (λ order. OfPartsOfBoth left.now right.now (λ parts others.
            order
            ≡ parts_cmp (at parts.components component).parts.items
            (at others.components component).parts.items)) }
        ensures missing { IfErr result (λ error.
            (error ≡ errors.NoParts) × LackParts left.now right.now error) }
    {
        match left.both_parts(right) {
            Ok((parts, others)) => Ok(PatternParts::compare_component(component, parts, others)),
            Err(_) => Err(CompareError::NoParts),
        }
    }

    /// Whether each component has equal options and equal parts in this pattern and in `other`,
    /// names of groups included.
    ///
    /// Compares the parts of the two patterns as `PatternParts::is_same` does, and does not
    /// allocate.
    ///
    /// The error is `NoParts`: a pattern was put together by hand.
    pub fn is_same(&self, other: &Self) -> Result<bool, CompareError>
        ensures same { IfOk result (λ same. OfPartsOfBoth self.now other.now (λ parts others.
            IsTrue same ↔ AreEqualParts parts others)) }
        ensures missing { IfErr result (λ error.
            (error ≡ errors.NoParts) × LackParts self.now other.now error) }
    {
        match self.both_parts(other) {
            Ok((parts, others)) => Ok(parts.is_same(others)),
            Err(_) => Err(CompareError::NoParts),
        }
    }

    /// Returns the parts of this pattern and those of `other`.
    ///
    /// The error is `NoParts`: a pattern was put together by hand.
    fn both_parts<'p>(
        &'p self,
        other: &'p Self,
    ) -> Result<(&'p PatternParts, &'p PatternParts), CompareError>
        ensures parts { IfOk result (λ both. HaveParts self.now other.now both.0.now both.1.now) }
        ensures missing { IfErr result (λ error.
            (error ≡ errors.NoParts) × LackParts self.now other.now error) }
    {
        match (self.parts(), other.parts()) {
            (Some(parts), Some(others)) => Ok((parts, others)),
            _ => Err(CompareError::NoParts),
        }
    }
}
