//! Values on the heap that copies share.

ghost use Rattle.std.specs.Prelude.{◌≡◌, IfOk};

use std::alloc::{AllocError, Global};
use std::marker::Model;
use std::sync::Arc;

/// A value on the heap that copies share. Clauses see the value.
#[derive(Drop)]
pub(crate) struct Shared<T> {
    value: Arc<T>,
}

impl<T> Model for Shared<T> {
    ghost use Rattle.std.specs.Arc.{arc_value};

    ghost Value = { T };

    ghost coded = { T.code };

    ghost view = { λ shared. arc_value shared.value };
}

impl<T: Drop> Shared<T> {
    /// Moves a value to the heap.
    pub(crate) fn new(alloc: Global, value: T) -> Result<Shared<T>, AllocError>
        ensures { IfOk result (λ shared. shared ≡ value) }
    {
        match Arc::new(alloc, value) {
            Ok(value) => Ok(Shared { value }),
            Err(error) => Err(AllocError::from(error)),
        }
    }
}

impl<T> Shared<T> {
    /// Returns the value.
    pub(crate) fn get(&self) -> &T
        ensures { result.now ≡ self.now }
    {
        &self.value
    }
}

/// A copy shares the value.
impl<T: Drop> Clone for Shared<T> {
    ghost is_clone = { λ shared copy. copy ≡ shared };

    fn clone(&self) -> Result<Shared<T>, AllocError> {
        Ok(Shared {
            value: self.value.clone()?,
        })
    }
}
