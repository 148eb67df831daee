//! Copies of a pattern.

ghost use Rattle.std.specs.Prelude.{◌≡◌, IfOk};
ghost use Rattle.urlpattern_matcher.specs.Components.{component_view};
ghost use Rattle.urlpattern_pattern.specs.PatternCopies.{IsPatternCopy};
ghost use Rattle.urlpattern_pattern.specs.Patterns.{pattern_view};

use super::UrlPattern;
use std::alloc::AllocError;
use urlpattern_compare::copy_of;
use urlpattern_components::{ComponentName, Eight};
use urlpattern_copies::{CloneRegExp, copied_component};
use urlpattern_matcher::component::Component;

/// A copy has equal components and equal parts, and its matchers return the same captures. Values
/// of the engine are copied too, so that no expression is compiled again.
impl<R: CloneRegExp> Clone for UrlPattern<R> {
    ghost is_clone = { IsPatternCopy };

    fn clone(&self) -> Result<Self, AllocError> {
        let copied = |name: ComponentName| -> Result<Component<R>, AllocError>
            ensures { IfOk result (λ copy. component_view copy ≡ pattern_view self.entry.now name) }
        { copied_component(self.get(name)) };
        let components = Eight::try_from_fn(copied)?;
        match self.parts() {
            Some(parts) => {
                let alloc = *parts.components.protocol.parts.allocator();
                let copy = copy_of(alloc, parts)?;
                Ok(Self::with_parts(components, copy))
            }
            None => Ok(Self::from_eight(components)),
        }
    }
}
