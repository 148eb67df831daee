//! The URLs that patterns are matched against.
ghost use Rattle.std.specs.Prelude.{IfErr, IfOk};
ghost use Rattle.urlpattern_ffi.specs.Calls.{IsNoUrl, IsUrlUnderBase};

use crate::adding::given_base;
use crate::status::Status;
use std::alloc::Global;
use std::str;
use url::Url;
use urlpattern_canonical::find_url;

/// From how many bytes on a text is too long.
pub(crate) const LONG_TEXT: usize = 1 << 24;

/// Parses `text` as a URL, under a base URL unless `base` is empty.
///
/// The error is the status that says why there is no URL: `TooLong`, `NotUtf8`, `NoUrl` if `url`
/// rejects a text, or `OutOfMemory`.
pub fn url_of(alloc: Global, text: &[u8], base: &[u8]) -> Result<Url, Status>
    ensures found { IfOk result (λ url. IsUrlUnderBase text.now base.now url) }
    ensures missing { IfErr result (IsNoUrl text.now base.now) }
{
    if text.len().max(base.len()) >= LONG_TEXT {
        return Err(Status::TooLong);
    }
    let Ok(text) = str::from_utf8(text) else {
        return Err(Status::NotUtf8);
    };
    let Ok(base) = str::from_utf8(base) else {
        return Err(Status::NotUtf8);
    };
    match find_url(alloc, text, given_base(base)) {
        Ok(Some(url)) => Ok(url),
        Ok(None) => Err(Status::NoUrl),
        Err(_) => Err(Status::OutOfMemory),
    }
}
