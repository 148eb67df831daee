//! The errors of comparing policies.
ghost use Rattle.std.specs.Map.{keys_of};
ghost use Rattle.std.specs.Prelude.{◌≡◌, ◌∷◌, []};
ghost use Rattle.urlpattern.specs.Reached.{LacksParts};
ghost use Rattle.urlpattern_policy_differences.specs.Comparing.{first_error, lacks_parts_at};

use urlpattern::UrlPatternMap;
use urlpattern_differences::Effect;
use urlpattern_matcher::regexp::RegExp;
use urlpattern_pattern::{CompareError, UrlPattern};

/// Returns the error of comparing the rules: `NoParts` if a pattern has no parts, else
/// `OutOfMemory`.
pub(super) fn error_of<R: RegExp>(rules: &UrlPatternMap<Effect, R>) -> CompareError
    ensures { LacksParts (keys_of rules.now) result }
{
    for index in 0..rules.len() {
        if lacks_parts_at(rules, index) {
            return CompareError::NoParts;
        }
    }
    CompareError::OutOfMemory
}

/// Whether there is a pattern at the index, and it has no parts.
fn lacks_parts_at<R: RegExp>(rules: &UrlPatternMap<Effect, R>, index: usize) -> bool
    ensures { result ≡ lacks_parts_at (keys_of rules.now) index }
{
    match rules.get(index) {
        Some((pattern, _)) => pattern.parts().is_none(),
        None => false,
    }
}

/// Returns the error of comparing the pattern: `NoParts` if it has no parts, else `OutOfMemory`.
pub(super) fn error_of_pattern<R: RegExp>(pattern: &UrlPattern<R>) -> CompareError
    ensures { LacksParts (pattern.now ∷ []) result }
{
    if pattern.parts().is_none() {
        CompareError::NoParts
    } else {
        CompareError::OutOfMemory
    }
}

/// Returns the error of comparing two lists of patterns with these errors.
pub(super) fn first_error(error: CompareError, other: CompareError) -> CompareError
    ensures { result ≡ first_error error other }
{
    match error {
        CompareError::NoParts => CompareError::NoParts,
        CompareError::OutOfMemory => other,
    }
}
