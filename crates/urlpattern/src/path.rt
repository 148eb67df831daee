//! Paths that are not from a `Url`.
ghost use Rattle.std.specs.Prelude.{◌≡◌, ◌↔◌, IsTrue};
ghost use Rattle.std.specs.Str.{chars};
ghost use Rattle.urlpattern.specs.PatternKeys.{address_of};
ghost use Rattle.urlpattern.specs.Paths.{IsPath};
ghost use Rattle.urlpattern_index.specs.Keys.{hashes_of, hashes_view};
ghost use Rattle.urlpattern_matches.specs.MatchInput.{pathname_alone};

use urlpattern_canonical::canonicalize_and_process::begins_with_slash;
use urlpattern_index::AddressHashes;

/// Whether a text is a path by itself: whether it begins with `/`, and has no `?`, no `#` and no
/// line feed.
pub fn is_path(text: &str) -> bool
    ensures { IsTrue result ↔ IsPath (chars text.now) }
{
    if !begins_with_slash(text) {
        return false;
    }
    text.chars().all(|c| c != '\n' && c != '?' && c != '#')
}

/// Fills `hashes` with those of a path alone. If true, the text is a path, and `hashes` are those
/// of the path; false for a path that is not ASCII or has more segments than are hashed.
#[inline(always)]
pub(crate) fn is_plain_path(path: &str, hashes: &mut AddressHashes) -> bool
    ensures path { IsTrue result → IsPath (chars path.now) }
    ensures hashes { IsTrue result → hashes_view hashes.new
        ≡ hashes_of (address_of (pathname_alone (chars path.now))) }
{
    if !begins_with_slash(path) {
        return false;
    }
    hashes.fill_path(path)
}
