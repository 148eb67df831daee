//! The bracket that begins an IPv6 address.
ghost use Rattle.std.specs.Prelude.{◌≡◌, ◌==◌, codes, slice_index};
ghost use Rattle.std.specs.Str.{chars};
ghost use Rattle.urlpattern_syntax.specs.Text.{begins_with};

/// Whether the text begins with an opening square bracket.
pub fn begins_with_bracket(text: &str) -> bool
    ensures { result ≡ begins_with (λ c. c == slice_index (codes "[") 0) (chars text.now) }
{
    matches!(text.as_bytes(), [b'[', ..])
}
