//! The URLs of texts, under a base URL if there is one.

ghost use Rattle.std.specs.Prelude.{◌≡◌, None, Ok, length, option_copied, IfErr, IfOk};
ghost use Rattle.url.specs.Parser.{Gives, parse_url};
ghost use Rattle.urlpattern_canonical.specs.BaseUrls.{FindsUrl, FindsUrlUnder, IsUrlUnder, base_view, kept_base, parsed_base, read_under, text_bytes};
ghost use Rattle.urlpattern_canonical.specs.Canonical.{Reports};
ghost use Rattle.urlpattern_syntax.specs.Errors.{MemoryOr, OnlyOutOfMemory};

use crate::canonicalize_and_process::reported;
use std::alloc::Global;
use url::{ParseResult, Url};
use urlpattern_syntax::Error;

/// A parsed base URL, relative to which texts are read as URLs, or the absence of a base URL.
#[derive(Drop)]
pub struct BaseUrl {
    url: Option<Url>,
    /// The length of the text that was parsed, in bytes; 0 without a base URL.
    bytes: usize,
}

impl BaseUrl {
    /// Parses the text of a base URL. Without a text there is no base URL.
    ///
    /// Fails with `Error::Url` if `url` rejects the text.
    pub fn parse(alloc: Global, text: Option<&str>) -> Result<Self, Error>
        ensures read { IfOk result (λ base. kept_base base ≡ base_view (option_copied text.entry)) }
        ensures refused { IfErr result (MemoryOr (Reports (parsed_base (option_copied text.entry))
            (text_bytes (option_copied text.entry)))) }
    {
        let bytes = match text {
            Some(text) => text.len(),
            None => 0,
        };
        let url = parse_base(alloc, text)?;
        Ok(Self { url, bytes })
    }

    /// Parses a text as a URL, relative to the base URL if there is one. `None`: `url` rejects the
    /// text.
    pub fn find(&self, alloc: Global, text: &str) -> Result<Option<Url>, Error>
        ensures found { IfOk result (FindsUrlUnder text.now (kept_base self.now)) }
        ensures memory { OnlyOutOfMemory result }
    {
        match self.read(alloc, text, text.len().max(self.bytes)) {
            Ok(url) => Ok(Some(url)),
            Err(Error::Url(_)) => Ok(None),
            Err(_) => Err(Error::OutOfMemory),
        }
    }

    /// Parses a text as a URL, relative to the base URL if there is one. `bytes` is the length of
    /// the longest text that `url` reads: below 16 MB, its `Overflow` is reported as `OutOfMemory`.
    ///
    /// Fails with `Error::Url` if `url` rejects the text.
    fn read(&self, alloc: Global, text: &str, bytes: usize) -> Result<Url, Error>
        ensures ok { IfOk result (IsUrlUnder text.now (kept_base self.now)) }
        ensures err { IfErr result
            (MemoryOr (Reports (read_under (kept_base self.now) text.now) bytes)) }
    {
        reported(self.joined_url(alloc, text), bytes)
    }

    /// Calls `url` to parse a text, relative to the base URL if there is one.
    fn joined_url(&self, alloc: Global, text: &str) -> ParseResult<Url>
        ensures { Gives result (read_under (kept_base self.now) text.now) }
    {
        match &self.url {
            Some(url) => url.join(text),
            None => Url::parse(alloc, text),
        }
    }
}

/// Parses `text` as a URL, relative to the URL of the text `base` if there is one. `None`: `url`
/// rejects either text.
pub fn find_url(alloc: Global, text: &str, base: Option<&str>) -> Result<Option<Url>, Error>
    ensures found { IfOk result (FindsUrl text.now (option_copied base.entry)) }
    ensures memory { OnlyOutOfMemory result }
{
    match BaseUrl::parse(alloc, base) {
        Ok(base) => base.find(alloc, text),
        Err(Error::Url(_)) => Ok(None),
        Err(_) => Err(Error::OutOfMemory),
    }
}

/// Parses the text of a base URL, if there is a text.
///
/// Fails with `Error::Url` if `url` rejects the text.
pub fn parse_base(alloc: Global, text: Option<&str>) -> Result<Option<Url>, Error>
    ensures ok { IfOk result (λ base. parsed_base (option_copied text.entry) ≡ Ok base) }
    ensures err { IfErr result (MemoryOr (Reports (parsed_base (option_copied text.entry))
        (text_bytes (option_copied text.entry)))) }
{
    match text {
        Some(text) => Ok(Some(parse_url(alloc, text)?)),
        None => Ok(None),
    }
}

/// Parses the text of a URL.
///
/// Fails with `Error::Url` if `url` rejects the text.
fn parse_url(alloc: Global, text: &str) -> Result<Url, Error>
    ensures ok { IfOk result (λ url. parse_url None text.now ≡ Ok url) }
    ensures err { IfErr result (MemoryOr (Reports (parse_url None text.now) (length text.now))) }
{
    reported(Url::parse(alloc, text), text.len())
}
