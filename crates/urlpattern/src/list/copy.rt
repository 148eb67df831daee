//! Copies of a list.
ghost use Rattle.std.specs.List.{AllZip};
ghost use Rattle.std.specs.Prelude.{IfOk};
ghost use Rattle.urlpattern_pattern.specs.PatternCopies.{IsPatternCopy};

use super::UrlPatternList;
use std::alloc::{AllocError, Global};
use urlpattern_copies::CloneRegExp;
use urlpattern_pattern::UrlPattern;

/// A copy has copies of the patterns, in order. No expression is compiled again.
impl<R: CloneRegExp> Clone for UrlPatternList<R> {
    ghost is_clone = { λ list copy. AllZip IsPatternCopy list copy };

    fn clone(&self) -> Result<Self, AllocError> {
        let copy = copies_of(*self.patterns.allocator(), &self.patterns)?;
        Ok(copy)
    }
}

/// Returns a list of copies of the patterns, in order.
fn copies_of<R: CloneRegExp>(
    alloc: Global,
    patterns: &[UrlPattern<R>],
) -> Result<UrlPatternList<R>, AllocError>
    ensures { IfOk result (λ copies. AllZip IsPatternCopy patterns.now copies) }
{
    let mut copies = UrlPatternList::new(alloc);
    for pattern in patterns {
        match copies.push(pattern.clone()?) {
            Ok(()) => {}
            Err(_) => return Err(AllocError),
        }
    }
    Ok(copies)
}
