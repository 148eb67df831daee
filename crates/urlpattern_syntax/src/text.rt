//! Splitting a text in two.
ghost use Rattle.std.specs.Prelude.{◌≡◌, ◌<◌, List, ℕ, ◌∷◌, ◌++◌, [], length, IfNone, IfSome};
ghost use Rattle.std.specs.Str.{chars};

/// Returns `text` without `end`, which has to be a suffix of `text`.
pub fn before<'a>(text: &'a str, end: &str) -> &'a str
    requires { (front : List ℕ) × (chars text.now ≡ front ++ chars end.now) }
    ensures { chars text.now ≡ chars result.now ++ chars end.now }
{
    &text[..text.len() - end.len()]
}

/// Returns the first character and the rest of the text. `None`: the text is empty.
pub fn split_first(text: &str) -> Option<(char, &str)>
    ensures empty { IfNone result (chars text.now ≡ []) }
    ensures cut { IfSome result (λ found. chars text.now ≡ found.0 ∷ chars found.1.now) }
    ensures len { IfSome result (λ found. length found.1.now < length text.now) }
{
    let mut characters = text.chars();
    let first = characters.next()?;
    Some((first, characters.as_str()))
}
