//! The URLs by which values are made canonical.
ghost use Rattle.std.specs.Prelude.{◌≡◌, None, Ok, IfOk, IfErr, MatchResult};
ghost use Rattle.url.specs.Parser.{parse_url};
ghost use Rattle.urlpattern_syntax.specs.Errors.{MemoryOr, OnlyOutOfMemory};
ghost use Rattle.urlpattern_canonical.specs.Canonical.{Reports, dummy_of_scheme, dummy_url, opaque_url, path_of};

use super::Canonicalizer;
use super::rejections::reported;
use std::alloc::Global;
use url::Url;
use urlpattern_syntax::Error;

/// The URL on which most values are set to make them canonical.
const DUMMY_URL: &str = "http://dummy.test";

/// The URL on which opaque paths are set.
const OPAQUE_URL: &str = "data:dummy,test";

impl Canonicalizer {
    /// Makes a canonicalizer for a single value: the URL is parsed when needed.
    pub fn new(alloc: Global) -> Self {
        Self { alloc, dummy: None }
    }

    /// Makes a canonicalizer for several values: the URL is parsed at once, and copied for each
    /// value that is set on it.
    pub fn shared(alloc: Global) -> Result<Self, Error>
        ensures { OnlyOutOfMemory result }
    {
        let url = parse_dummy(alloc)?;
        Ok(Self {
            alloc,
            dummy: Some(url),
        })
    }

    /// Returns `DUMMY_URL`, parsed, on which most values are set: a copy of the kept one, if there
    /// is one.
    pub(super) fn dummy(&self) -> Result<Url, Error>
        ensures ok { IfOk result (λ url. dummy_url ≡ Ok url) }
        ensures memory { OnlyOutOfMemory result }
    {
        match &self.dummy {
            Some(url) => Ok(url.clone()?),
            None => parse_dummy(self.alloc),
        }
    }

    /// Returns `DUMMY_URL` with the path set to `path`. The value that `path` was made of has
    /// `bytes` bytes, by which an overflow is reported.
    pub(super) fn dummy_with_path(&self, path: &str, bytes: usize) -> Result<Url, Error>
        ensures { MatchResult result (λ url. path_of dummy_url path.now ≡ Ok url.path)
            (MemoryOr (Reports (path_of dummy_url path.now) bytes)) }
    {
        let mut url = self.dummy()?;
        reported(url.set_path(path), bytes)?;
        Ok(url)
    }
}

/// Parses `OPAQUE_URL`, on which opaque paths are set.
pub(super) fn parse_opaque(alloc: Global) -> Result<Url, Error>
    ensures ok { IfOk result (λ url. opaque_url ≡ Ok url) }
    ensures memory { OnlyOutOfMemory result }
{
    parse(alloc, OPAQUE_URL, 0)
}

/// Parses `DUMMY_URL`, on which most values are set to make them canonical.
fn parse_dummy(alloc: Global) -> Result<Url, Error>
    ensures ok { IfOk result (λ url. dummy_url ≡ Ok url) }
    ensures memory { OnlyOutOfMemory result }
{
    parse(alloc, DUMMY_URL, 0)
}

/// Parses the URL `{scheme}://dummy.test`, which makes the scheme canonical, and on which a port is
/// set. Scheme and port have at most `bytes` bytes each, by which an overflow is reported.
pub(super) fn parse_under(alloc: Global, scheme: &str, bytes: usize) -> Result<Url, Error>
    ensures ok { IfOk result (λ url. dummy_of_scheme scheme.now ≡ Ok url) }
    ensures err { IfErr result (MemoryOr (Reports (dummy_of_scheme scheme.now) bytes)) }
{
    let text = format!(in alloc; "{scheme}://dummy.test")?;
    parse(alloc, &text, bytes)
}

/// Parses the text of a URL by which a value is made canonical. An overflow is reported by `bytes`,
/// the most bytes that a caller's value has, or 0 for a text without such a value.
fn parse(alloc: Global, text: &str, bytes: usize) -> Result<Url, Error>
    ensures ok { IfOk result (λ url. parse_url None text.now ≡ Ok url) }
    ensures err { IfErr result (MemoryOr (Reports (parse_url None text.now) bytes)) }
{
    reported(Url::parse(alloc, text), bytes)
}
