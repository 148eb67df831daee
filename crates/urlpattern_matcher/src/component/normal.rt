//! The normal form of a list of parts.

ghost use Rattle.std.specs.Prelude.{IfErr, IfOk};
ghost use Rattle.urlpattern_printing.specs.NormalForms.{FailsIfPrintable, IsJoinedIfKept, IsReadFrom, RejectsPrinted};
ghost use Rattle.urlpattern_syntax.specs.{Options.options_view, Parts.parts_view, Reading.encoding_by};

use std::alloc::Global;
use urlpattern_parser::parser::parse_pattern_string;
use urlpattern_printing::generate_pattern_string;
use urlpattern_syntax::Error;
use urlpattern_syntax::parser::{Options, Part};

/// Returns the normal form of a list of parts: the parts that its pattern string is parsed to.
///
/// Parts that match alike may be cut in several ways: `a{}?b` is parsed to two fixed texts, and
/// `ab` to one. If the parts are printable, as those that were parsed under the standard's options
/// are, and the callback changes none of their texts, the normal form is these parts with adjacent
/// fixed texts without modifier joined. The error for printable parts is one of the callback's, or
/// that memory ran out; for other parts, the pattern string may also be rejected.
pub fn normalize_part_list<F: Fn(&str) -> Result<String, Error> + Drop>(
    alloc: Global,
    part_list: &[Part],
    options: &Options,
    encoding_callback: F,
) -> Result<Vec<Part>, Error>
    requires { F.IsAlwaysCallable encoding_callback }
    ensures same { IfOk result (IsJoinedIfKept (options_view options.now)
        (encoding_by F.Fn encoding_callback) (parts_view part_list.now)) }
    ensures fails { IfErr result (FailsIfPrintable (options_view options.now)
        (encoding_by F.Fn encoding_callback) (parts_view part_list.now)) }
    ensures reads { IfOk result (IsReadFrom (options_view options.now)
        (encoding_by F.Fn encoding_callback) (parts_view part_list.now)) }
    ensures refuses { IfErr result (RejectsPrinted (options_view options.now)
        (encoding_by F.Fn encoding_callback) (parts_view part_list.now)) }
{
    let text = generate_pattern_string(alloc, part_list, options)?;
    parse_pattern_string(alloc, &text, options, encoding_callback)
}
