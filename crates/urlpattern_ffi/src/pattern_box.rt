//! The patterns that a handle keeps. `None` is an empty handle.
ghost use Rattle.std.specs.Prelude.{◌≡◌, ◌≢◌, ◌∷◌, [], option_copied, slice_get, IfNone, IfOk, IfSome};
ghost use Rattle.std.specs.Arc.{arc_value};
ghost use Rattle.urlpattern_ffi.specs.KeptPatterns.{boxed_patterns};

use std::alloc::{AllocError, Global};
use std::sync::Arc;
use urlpattern::regexp::PatternRegexp;
use urlpattern::{UrlPattern, UrlPatternList};

/// The patterns of a handle, in order, which several handles may share. A handle keeps them in a
/// box.
#[derive(Drop)]
pub struct PatternBox {
    pub(crate) list: Arc<UrlPatternList<PatternRegexp>, Global>,
}

/// The patterns of a handle. `None`: the handle has none.
pub fn list_of(kept: &Option<Box<PatternBox>>) -> Option<&UrlPatternList<PatternRegexp>>
    ensures some { IfSome result (λ list.
        (list.now ≡ boxed_patterns kept.now) × (list.now ≢ [])) }
    ensures none { IfNone result (boxed_patterns kept.now ≡ []) }
{
    match kept {
        Some(kept) => {
            let list: &UrlPatternList<PatternRegexp> = &kept.list;
            if list.is_empty() { None } else { Some(list) }
        }
        None => None,
    }
}

/// The pattern at an index. `None`: the index is out of range, or the handle is empty.
pub fn pattern_at(
    kept: &Option<Box<PatternBox>>,
    index: usize,
) -> Option<&UrlPattern<PatternRegexp>>
    ensures { option_copied result ≡ slice_get (boxed_patterns kept.now) index }
{
    match kept {
        Some(kept) => kept.list.get(index),
        None => None,
    }
}

/// Puts a pattern into a box, by itself.
pub(crate) fn boxed_pattern(
    alloc: Global,
    pattern: UrlPattern<PatternRegexp>,
) -> Result<Box<PatternBox>, AllocError>
    ensures { IfOk result (λ kept. arc_value kept.value.list ≡ pattern ∷ []) }
{
    let mut list = UrlPatternList::new(alloc);
    if let Err(_) = list.try_push(pattern) {
        return Err(AllocError);
    }
    match Arc::new(alloc, list) {
        Ok(list) => boxed(alloc, list),
        Err(failed) => {
            drop(failed);
            Err(AllocError)
        }
    }
}

/// Puts patterns into a box.
fn boxed(
    alloc: Global,
    list: Arc<UrlPatternList<PatternRegexp>, Global>,
) -> Result<Box<PatternBox>, AllocError>
    ensures { IfOk result (λ kept. arc_value kept.value.list ≡ arc_value list) }
{
    match Box::new(alloc, PatternBox { list }) {
        Ok(kept) => Ok(kept),
        Err(failed) => {
            drop(failed);
            Err(AllocError)
        }
    }
}

/// Returns what another handle has that shares the patterns of one, which stay where they are.
pub fn share(
    alloc: Global,
    kept: &Option<Box<PatternBox>>,
) -> Result<Option<Box<PatternBox>>, AllocError>
    ensures { IfOk result (λ shared. boxed_patterns shared ≡ boxed_patterns kept.now) }
{
    match kept {
        Some(kept) => {
            let list = Arc::try_clone(&kept.list)?;
            match boxed(alloc, list) {
                Ok(shared) => Ok(Some(shared)),
                Err(error) => Err(error),
            }
        }
        None => Ok(None),
    }
}
