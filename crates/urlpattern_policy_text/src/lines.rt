//! The lines of a text, and columns in them.
ghost use Rattle.std.specs.List.{count_by};
ghost use Rattle.std.specs.Prelude.{◌≡◌, ◌||◌, IfOk, map, nat_le, nat_lt, take};
ghost use Rattle.std.specs.Str.Lines.{lines};
ghost use Rattle.urlpattern_policy_text.specs.Statements.{begins_character, column_of};

use std::alloc::{AllocError, Global};

/// Returns the lines of a text, without their ends.
pub(crate) fn lines_of(alloc: Global, text: &str) -> Result<Vec<&str>, AllocError>
    ensures { IfOk result (λ all. map (λ line. line.now) all.items ≡ lines text.now) }
{
    text.lines().collect(alloc)
}

/// Returns the column of a line, from 1 on, at the byte index `into` of `part`, with which the line
/// ends before the white space at its end.
pub fn column_of(line: &str, part: &str, into: usize) -> usize
    ensures { result ≡ column_of line.now part.now into }
{
    let before = line.trim_end().len().saturating_sub(part.len());
    characters_in(line, before) + characters_in(part, into) + 1
}

/// Returns how many characters begin in the first `count` bytes of a text.
fn characters_in(text: &str, count: usize) -> usize
    ensures { result ≡ count_by begins_character (take count text.now) }
{
    let end = count.min(text.len());
    let front = &text.as_bytes()[..end];
    front.iter().filter(|byte| begins_character(**byte)).count()
}

/// Whether a byte begins a character.
fn begins_character(byte: u8) -> bool
    ensures { result ≡ begins_character byte }
{
    byte < 128 || byte >= 192
}
