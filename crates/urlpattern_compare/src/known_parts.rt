//! Whether parts tell which texts they match.

ghost use Rattle.std.specs.Prelude.{◌≡◌, IfNone, IfOk, IfSome, IsTrue, false};
ghost use Rattle.urlpattern_compare.specs.Answers.{AreKnown, AreUnknownBy};
ghost use Rattle.urlpattern_compare.specs.declared.coverage.Reason.TheVariants as reasons;
ghost use Rattle.urlpattern_meaning.specs.PartMeaning.{AreGenerated};
ghost use Rattle.urlpattern_syntax.specs.{Options.options_view, Parts.parts_view};

use crate::coverage::Reason;
use std::alloc::{AllocError, Global};
use urlpattern_expressions::{are_simple, has_custom};
use urlpattern_syntax::error::OutOfMemory;
use urlpattern_syntax::parser::{Options, Part};

/// Returns why `parts` do not tell which texts they match: a custom regular expression is not
/// simple, or case is ignored. `None`: the parts tell.
pub(crate) fn unknown_parts(
    alloc: Global,
    options: &Options,
    parts: &[Part],
) -> Result<Option<Reason>, AllocError>
    ensures known { IfOk result (λ found.
        IfNone found (AreKnown (options_view options.now) (parts_view parts.now))) }
    ensures reason { IfOk result (λ found.
        IfSome found (AreUnknownBy (options_view options.now) (parts_view parts.now))) }
{
    if options.ignore_case {
        return Ok(reason_of_ignored_case(parts));
    }
    match are_simple(alloc, parts, false) {
        Ok(are_simple) => Ok(reason_unless_simple(are_simple)),
        Err(OutOfMemory) => Err(AllocError),
    }
}

/// Returns why parts do not tell which texts they match where case is kept: a custom regular
/// expression is not simple.
fn reason_unless_simple(are_simple: bool) -> Option<Reason>
    ensures known { IfNone result (IsTrue are_simple) }
    ensures reason { IfSome result (λ reason.
        (are_simple ≡ false) × (reason ≡ reasons.CustomExpression)) }
{
    if are_simple {
        None
    } else {
        Some(Reason::CustomExpression)
    }
}

/// Returns why `parts` do not tell which texts they match where case is ignored: one is custom.
fn reason_of_ignored_case(parts: &[Part]) -> Option<Reason>
    ensures known { IfNone result (AreGenerated (parts_view parts.now)) }
    ensures custom { IfSome result (λ reason.
        (¬ AreGenerated (parts_view parts.now)) × (reason ≡ reasons.IgnoredCase)) }
{
    if has_custom(parts) {
        Some(Reason::IgnoredCase)
    } else {
        None
    }
}
