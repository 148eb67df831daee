//! Single characters at the start or the end of a text.
ghost use Rattle.std.specs.Prelude.{◌≡◌, ◌<◌, ◌≤◌, ◌==◌, slice_index, length};
ghost use Rattle.std.specs.Str.{chars};
ghost use Rattle.url.specs.Ascii.{colon, slash};
ghost use Rattle.urlpattern_syntax.specs.Text.{begins_with};
ghost use Rattle.urlpattern_canonical.specs.Canonical.{without_first, without_last};

/// Whether the text begins with a slash.
pub fn begins_with_slash(text: &str) -> bool
    ensures bytes { result ≡ (slice_index text.now 0 == slash) }
    ensures text { result ≡ begins_with (λ c. c == slash) (chars text.now) }
{
    matches!(text.as_bytes(), [b'/', ..])
}

/// Returns the text without its first character if that is `mark`, an ASCII character other than
/// NUL.
pub fn without_first(text: &str, mark: u8) -> &str
    requires { (0 < mark) × (mark < 128) }
    ensures value { chars result.now ≡ without_first mark (chars text.now) }
    ensures shorter { length result.now ≤ length text.now }
{
    match text.as_bytes() {
        [first, ..] if *first == mark => &text[1..],
        _ => text,
    }
}

/// Returns the text without its last character if that is a colon.
pub(super) fn without_colon(text: &str) -> &str
    ensures value { chars result.now ≡ without_last colon (chars text.now) }
    ensures shorter { length result.now ≤ length text.now }
{
    match text.as_bytes() {
        [.., b':'] => &text[..text.len() - 1],
        _ => text,
    }
}
