//! A permission check: which URLs may be seen, and why others may not.

// docs: permission
ghost use Rattle.std.specs.Prelude.{IfNone, IfOk, IfSome};
ghost use Rattle.urlpattern.specs.Errors.{OnlyOutOfMemory};
ghost use Rattle.urlpattern.specs.Inheritance.{texts_of_url};
ghost use Rattle.urlpattern.specs.Match.{HasMatch};
ghost use Rattle.urlpattern.specs.Mismatch.{IsMismatch};
ghost use Rattle.urlpattern.specs.Patterns.{pattern_view};
ghost use Rattle.urlpattern.specs.UrlPatternMatchInput.TheVariants as inputs;

use std::alloc::Global;
use url::Url;
use urlpattern::laws::tests_agree_with_matches;
use urlpattern::regexp::RegExp;
use urlpattern::{ComponentName, Error, UrlPattern};

/// Why a URL may not be seen: the first component that the pattern does not match. `None`: it may
/// be seen.
///
/// The error is that memory ran out, which says nothing about the URL. Don't take it for a
/// permission.
pub fn refusal<R: RegExp>(
    alloc: Global,
    permitted: &UrlPattern<R>,
    url: &Url,
) -> Result<Option<ComponentName>, Error>
    ensures permitted { IfOk result (λ refused.
        IfNone refused (HasMatch R.answer (pattern_view permitted.now) (inputs.Url url.now))) }
    ensures refused { IfOk result (λ refused. IfSome refused (λ _.
        ¬ HasMatch R.answer (pattern_view permitted.now) (inputs.Url url.now))) }
    ensures first { IfOk result (λ refused.
        IfSome refused (IsMismatch R.answer (pattern_view permitted.now) (texts_of_url url.now))) }
    ensures memory { OnlyOutOfMemory result }
{
    // By a law of the library, which costs nothing to call, a pattern that matches a URL has no
    // component that does not match.
    tests_agree_with_matches::<R>();
    permitted.mismatch(alloc, url)
}
// docs: end
