//! Copies of a map.
ghost use Rattle.std.specs.List.{AllZip};
ghost use Rattle.urlpattern.specs.Copies.{IsEntryCopy};

use super::UrlPatternMap;
use std::alloc::AllocError;
use urlpattern_copies::CloneRegExp;

/// A copy has copies of the patterns and of their values, in order. No expression is compiled
/// again.
impl<T: Clone, R: CloneRegExp> Clone for UrlPatternMap<T, R> {
    ghost is_clone = { λ map copy. AllZip (IsEntryCopy T.is_clone) map copy };

    fn clone(&self) -> Result<Self, AllocError> {
        let patterns = self.patterns.clone()?;
        let values = self.values.clone()?;
        Ok(Self { patterns, values })
    }
}
