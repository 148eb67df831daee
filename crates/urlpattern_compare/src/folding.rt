//! The case of characters.

ghost use Rattle.std.specs.Prelude.{◌≡◌};
ghost use Rattle.urlpattern_meaning.specs.Matching.{folded_character};

/// Returns the character, in lower case if it is an ASCII letter and `ignore_case` is set.
pub(crate) fn folded_character(ignore_case: bool, c: char) -> char
    ensures { result ≡ folded_character ignore_case c }
{
    if ignore_case {
        c.to_ascii_lowercase()
    } else {
        c
    }
}
