//! The eight texts of an input, borrowed.
ghost use Rattle.std.specs.Prelude.{◌≡◌, ◌↔◌, IfOk, IsTrue};
ghost use Rattle.std.specs.Str.{chars};
ghost use Rattle.urlpattern_init.specs.Inheritance as inherited;
ghost use Rattle.urlpattern_init.specs.Inheritance.{texts_of_url};
ghost use Rattle.urlpattern_init.specs.UrlTexts.{EachIsLine, IsLine};
ghost use Rattle.urlpattern_matches.specs.MatchInput.{pathname_alone, texts_view};
ghost use Rattle.urlpattern_matches.specs.GroupTexts.{borrowed_texts, IsTextCopied};
ghost use Rattle.urlpattern_components.specs.Eight.{at};

use std::alloc::{AllocError, Global};
use url::Url;
use urlpattern_components::{ComponentName, Eight};
use urlpattern_init::url_text;
use urlpattern_inputs::MatchInput;

/// Returns the eight texts of a URL, borrowed, without the characters that separate them: the
/// protocol without `:`, the search without `?`, the hash without `#`.
pub fn url_texts(url: &Url) -> Eight<&str>
    ensures { borrowed_texts result ≡ texts_of_url url.now }
{
    let text = |name: ComponentName| -> &str
        ensures { chars result.now ≡ inherited.url_text name url.entry.now }
    { url_text(url, name) };
    Eight::from_fn(text)
}

/// Returns eight texts of which only the pathname is not empty. The pathname is not made canonical.
pub fn pathname_texts(pathname: &str) -> Eight<&str>
    ensures { borrowed_texts result ≡ pathname_alone (chars pathname.now) }
{
    Eight {
        protocol: "",
        username: "",
        password: "",
        hostname: "",
        port: "",
        pathname,
        search: "",
        hash: "",
    }
}

/// Returns the eight texts of an input, borrowed.
pub fn input_texts(input: &MatchInput) -> Eight<&str>
    ensures { borrowed_texts result ≡ texts_view input.now }
{
    let text = |name: ComponentName| -> &str
        ensures { chars result.now ≡ at (texts_view input.entry.now) name }
    { input.get(name) };
    Eight::from_fn(text)
}

/// Whether a text has no line feed. No text of a `Url` has one.
///
/// What a pattern means is promised for such texts alone. With a line feed between `a` and `/b`,
/// `/*` matches `/a/b`, and `/*/*` does not.
///
/// A path that is not from a `Url`:
///
/// ```rust line
/// if !is_line(path) {
///     return Ok(None);
/// }
/// ```
pub fn is_line(text: &str) -> bool
    ensures { IsTrue result ↔ IsLine (chars text.now) }
{
    text.chars().all(|c| c != '\n')
}

/// Whether none of eight texts has a line feed, as those of a `Url`.
pub fn are_lines(texts: &Eight<&str>) -> bool
    ensures { IsTrue result ↔ EachIsLine (borrowed_texts texts.now) }
{
    for name in ComponentName::all() {
        if !is_line(texts.get(name)) {
            return false;
        }
    }
    true
}

/// Returns an owned copy of eight texts.
pub(crate) fn copied(alloc: Global, texts: &Eight<&str>) -> Result<MatchInput, AllocError>
    ensures { IfOk result (λ copies. texts_view copies ≡ borrowed_texts texts.now) }
{
    let copy = |name: ComponentName| -> Result<String, AllocError>
        ensures { IsTextCopied (at (borrowed_texts texts.entry.now) name) result }
    { String::from_str(alloc, *texts.get(name)) };
    Ok(MatchInput::from_eight(Eight::try_from_fn(copy)?))
}
