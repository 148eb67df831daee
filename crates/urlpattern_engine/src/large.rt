//! Bounds the size of the automaton of an expression.

ghost use Rattle.std.specs.Prelude.{◌≡◌, ◌≤◌, true, map, sum};
ghost use Rattle.std.specs.Str.{chars};
ghost use Rattle.urlpattern_engine.specs.ExpressionFaults.{IsLarge, copies_in, number_from, room_of};

use crate::automaton::SIZE_LIMIT;
use urlpattern_syntax::text::split_first;

/// Whether the automaton of an expression may exceed `SIZE_LIMIT`, by the product of two bounds:
/// for the characters, each once, and for their repetitions.
pub(crate) fn is_large(regexp: &str) -> bool
    ensures { result ≡ true → IsLarge (chars regexp.now) }
{
    copies(regexp).saturating_mul(room(regexp)) > SIZE_LIMIT
}

/// A bound in bytes for the automaton of the characters of an expression, each once.
fn room(regexp: &str) -> usize
    ensures { result ≤ sum (map room_of (chars regexp.now)) }
{
    let mut room: usize = 0;
    let mut rest = regexp;
    while let Some((c, remaining)) = split_first(rest) {
        room = room.saturating_add(if c == '\\' { 1 << 14 } else { 1 << 8 });
        rest = remaining;
    }
    room
}

/// A bound for the number of copies of a piece of an expression: the product of the numbers after
/// each `{` and each comma, as in `{2,30}`, where 0 or no number counts as 1.
fn copies(regexp: &str) -> usize
    ensures { result ≤ copies_in (chars regexp.now) }
{
    let mut copies: usize = 1;
    let mut rest = regexp;
    while let Some((c, remaining)) = split_first(rest) {
        if matches!(c, '{' | ',') {
            copies = copies.saturating_mul(number(remaining).max(1));
        }
        rest = remaining;
    }
    copies
}

/// The number that a text begins with, or 0. A number that overflows is returned as the largest
/// `usize`.
fn number(text: &str) -> usize
    ensures { result ≤ number_from 0 (chars text.now) }
{
    let mut number: usize = 0;
    let mut rest = text;
    while let Some((c, remaining)) = split_first(rest) {
        let Some(digit) = c.to_digit(10) else {
            break;
        };
        number = number.saturating_mul(10).saturating_add(digit as usize);
        rest = remaining;
    }
    number
}
