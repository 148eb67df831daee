//! A pattern that is printed and read again, as if it had been stored in a file.

ghost use Rattle.example.specs.Same.{AreJoined, KeepMeaning};
ghost use Rattle.std.specs.Prelude.{◌≡◌, string_bytes, IfOk, MatchResult};
ghost use Rattle.urlpattern.specs.Errors.{OnlyOutOfMemory};
ghost use Rattle.urlpattern.specs.Options.{options_view};
ghost use Rattle.urlpattern.specs.Parts.{parts_view};
ghost use Rattle.urlpattern.specs.RoundTrip.{IsPrintable};

use std::alloc::Global;
use urlpattern::Error;
use urlpattern::component::normalize_part_list;
use urlpattern::laws::joining_keeps_meaning;
use urlpattern::parser::{Options, Part};

/// Prints parts, and reads the text again.
///
/// For printable parts the result is `parts` with neighbouring plain fixed texts joined, which
/// means the same texts with the same captures, and the only error is that memory ran out. Parts
/// are printable if they were read under the standard's options, no fixed text is empty, and no
/// text has a tab or a line end.
pub fn printed_and_read(
    alloc: Global,
    parts: &[Part],
    options: &Options,
) -> Result<Vec<Part>, Error>
    ensures same { IsPrintable (options_view options.now) (parts_view parts.now)
        → IfOk result (AreJoined parts.now) }
    ensures meaning { IsPrintable (options_view options.now) (parts_view parts.now)
        → IfOk result (KeepMeaning options.now parts.now) }
    ensures memory { IsPrintable (options_view options.now) (parts_view parts.now)
        → OnlyOutOfMemory result }
{
    joining_keeps_meaning();
    let unchanged = |text: &str| -> Result<String, Error>
        ensures { MatchResult result (λ copy. string_bytes copy ≡ text.now) (λ error.
            error ≡ Error.OutOfMemory) }
    { Ok(String::from_str(alloc, text)?) };
    normalize_part_list(alloc, parts, options, unchanged)
}
