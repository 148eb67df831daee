//! How the commands that compare patterns compile a constructor string: to the parts of its
//! pattern.

ghost use Rattle.std.specs.Prelude.{◌≡◌, option_copied, IfSome};
ghost use Rattle.urlpat_commands.specs.Coverings.{ArePartsOf};

use std::alloc::Global;
use std::io::Write;
use urlpat_matching::{GivenPattern, compiled_or_report};
use urlpattern::rules::PatternParts;

/// The parts of the pattern of a constructor string, compiled with the engine `PatternRegexp`.
/// `None`: the pattern or its base is rejected, or memory ran out, which is reported.
pub fn parts_or_report<Err: Write>(
    alloc: Global,
    text: &str,
    base: Option<&str>,
    ignore_case: bool,
    err: &mut Err,
) -> Option<PatternParts>
    ensures parts { IfSome result (ArePartsOf ignore_case text.now (option_copied base.entry)) }
    ensures quiet { IfSome result (λ parts. err.new ≡ err.old) }
{
    let text = GivenPattern::Text(text);
    let pattern = compiled_or_report(alloc, None, text, base, ignore_case, err)?;
    match pattern.into_parts() {
        Some(parts) => Some(parts),
        None => unreachable!(),
    }
}
