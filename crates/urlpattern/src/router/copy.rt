//! Copies of a router and of its routes.
ghost use Rattle.std.specs.List.{AllZip};
ghost use Rattle.std.specs.Prelude.{◌≡◌};
ghost use Rattle.urlpattern.specs.Copies.{IsEntryCopy, IsRouteCopy};

use super::{Route, UrlPatternRouter};
use std::alloc::AllocError;
use urlpattern_copies::CloneRegExp;

/// A copy has copies of the routes, in order, and the same setting of `head_as_get`. No expression
/// is compiled again.
impl<T: Clone, R: CloneRegExp> Clone for UrlPatternRouter<T, R> {
    ghost is_clone = { λ router copy.
        AllZip (IsEntryCopy (IsRouteCopy T.is_clone)) router.routes copy.routes
        × (copy.head_as_get ≡ router.head_as_get) };

    fn clone(&self) -> Result<Self, AllocError> {
        Ok(Self {
            routes: self.routes.clone()?,
            head_as_get: self.head_as_get,
        })
    }
}

/// A copy has an equal name and method, and a copy of the value.
impl<T: Clone> Clone for Route<T> {
    ghost is_clone = { IsRouteCopy T.is_clone };

    fn clone(&self) -> Result<Self, AllocError> {
        Ok(Self {
            name: self.name.clone()?,
            method: self.method.clone()?,
            value: self.value.clone()?,
        })
    }
}
