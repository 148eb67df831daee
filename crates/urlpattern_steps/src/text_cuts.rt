//! Cuts texts, and compares characters, up to ASCII case if it is ignored.

ghost use Rattle.std.specs.Prelude.{◌≡◌, ◌≢◌, ◌∷◌, ◌++◌, [], ℕ, ◌<◌, List, length, IfNone, IfSome};
ghost use Rattle.std.specs.Char.{IsScalar, encode_utf8};
ghost use Rattle.std.specs.Str.{chars, IsUtf8};
ghost use Rattle.urlpattern_steps.specs.Walk.{BeginsAs, from_first, up_to_first};
ghost use Rattle.urlpattern_meaning.specs.Matching.{is_same_character};

use urlpattern_syntax::text::{before, split_first};

/// Returns the text without its first character, if that is `c`. Otherwise `None`.
pub fn after(text: &str, c: char) -> Option<&str>
    ensures cut { IfSome result (λ rest. chars text.now ≡ c ∷ chars rest.now) }
    ensures other { IfNone result ((rest : List ℕ) → chars text.now ≢ c ∷ rest) }
    ensures len { IfSome result (λ rest. length rest.now < length text.now) }
{
    let (first, rest) = split_first(text)?;
    if first == c { Some(rest) } else { None }
}

/// Whether two characters are equal; with `ignore_case`, up to the case of ASCII letters.
pub fn is_same(c: char, other: char, ignore_case: bool) -> bool
    ensures { result ≡ is_same_character ignore_case c other }
{
    c == other || (ignore_case && c.eq_ignore_ascii_case(&other))
}

/// Returns the text without its first character, if `is_same` finds that equal to `c`. Otherwise
/// `None`.
pub fn after_same(text: &str, c: char, ignore_case: bool) -> Option<&str>
    ensures cut { IfSome result (λ rest.
        BeginsAs ignore_case (c ∷ []) (chars text.now) (chars rest.now)) }
    ensures other { IfNone result
        ((rest : List ℕ) → ¬ BeginsAs ignore_case (c ∷ []) (chars text.now) rest) }
    ensures len { IfSome result (λ rest. length rest.now < length text.now) }
{
    let (first, rest) = split_first(text)?;
    if is_same(first, c, ignore_case) {
        Some(rest)
    } else {
        None
    }
}

/// Returns the text without `front`, with which it begins.
pub fn after_prefix<'a>(text: &'a str, front: &str) -> &'a str
    requires { (rest : List ℕ) × IsUtf8 rest × (text.now ≡ front.now ++ rest) }
    ensures { text.now ≡ front.now ++ result.now }
{
    &text[front.len()..]
}

/// Splits a text after its first `count` bytes, which end where a character does.
pub fn split_at_boundary(text: &str, count: usize) -> (&str, &str)
    requires { (front rest : List ℕ) × IsUtf8 front
        × IsUtf8 rest
        × (text.now ≡ front ++ rest)
        × (length front ≡ count) }
    ensures cut { text.now ≡ result.0.now ++ result.1.now }
    ensures count { length result.0.now ≡ count }
{
    (&text[..count], &text[count..])
}

/// Returns the text without its last character. `None`: the text is empty.
pub fn without_last(text: &str) -> Option<&str>
    ensures empty { IfNone result (text.now ≡ []) }
    ensures cut { IfSome result (λ front.
        (c : ℕ) × IsScalar c × (text.now ≡ front.now ++ encode_utf8 c)) }
    ensures len { IfSome result (λ front. length front.now < length text.now) }
{
    let mut characters = text.chars();
    let Some(_) = characters.next_back() else {
        return None;
    };
    Some(characters.as_str())
}

/// Splits a text before the first character that `is_same` finds equal to `c`, or at the end.
pub fn split_at_first(text: &str, c: char, ignore_case: bool) -> (&str, &str)
    ensures front { chars result.0.now ≡ up_to_first ignore_case c (chars text.now) }
    ensures rest { chars result.1.now ≡ from_first ignore_case c (chars text.now) }
{
    let rest = skip_to_first(text, c, ignore_case);
    (before(text, rest), rest)
}

/// Returns the text from the first character on that `is_same` finds equal to `c`. Empty if the
/// text has none.
fn skip_to_first(text: &str, c: char, ignore_case: bool) -> &str
    ensures { chars result.now ≡ from_first ignore_case c (chars text.now) }
{
    let mut rest = text;
    while let Some((first, remaining)) = split_first(rest) {
        if is_same(first, c, ignore_case) {
            break;
        }
        rest = remaining;
    }
    rest
}
