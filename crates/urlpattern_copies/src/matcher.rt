//! Copies of matchers.

ghost use Rattle.std.specs.Prelude.{◌≡◌, IfOk};
ghost use Rattle.urlpattern_matcher.specs.Matchers.{inner_view, matcher_view};

use crate::engine::{CloneRegExp, copied_engine};
use std::alloc::AllocError;
use urlpattern_matcher::matcher::{InnerMatcher, Matcher};

/// Returns a copy of a matcher.
pub(crate) fn copied_matcher<R: CloneRegExp>(matcher: &Matcher<R>) -> Result<Matcher<R>, AllocError>
    ensures { IfOk result (λ copy. matcher_view copy ≡ matcher_view matcher.now) }
{
    Ok(Matcher {
        prefix: matcher.prefix.clone()?,
        suffix: matcher.suffix.clone()?,
        inner: copied_inner(&matcher.inner)?,
        ignore_case: matcher.ignore_case,
    })
}

/// Returns a copy of what is between the prefix and the suffix of a matcher.
fn copied_inner<R: CloneRegExp>(inner: &InnerMatcher<R>) -> Result<InnerMatcher<R>, AllocError>
    ensures { IfOk result (λ copy. inner_view copy ≡ inner_view inner.now) }
{
    match inner {
        InnerMatcher::Literal { literal } => {
            let literal = literal.clone()?;
            Ok(InnerMatcher::Literal { literal })
        }
        InnerMatcher::SingleCapture {
            filter,
            allow_empty,
        } => Ok(InnerMatcher::SingleCapture {
            filter: *filter,
            allow_empty: *allow_empty,
        }),
        InnerMatcher::RegExp { regexp } => {
            let regexp = copied_engine(regexp)?;
            Ok(InnerMatcher::RegExp { regexp })
        }
    }
}
