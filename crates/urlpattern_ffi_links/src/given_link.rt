//! The URL of a pattern with given groups.
ghost use Rattle.std.specs.Prelude.{IfErr, IfOk};
ghost use Rattle.urlpattern_ffi_links.specs.GivenLinks.{IsLinkOfBytes, IsUnlinked};

use crate::given::{GivenBytes, groups_of};
use std::alloc::Global;
use url::Url;
use urlpattern_engine::PatternRegexp;
use urlpattern_generate::NoLink;
use urlpattern_pattern::UrlPattern;

/// The reason why there is no URL of a pattern with given groups.
#[derive(Drop)]
pub enum Unlinked {
    /// An element of `given` gives no group: no component has the number that it names, or a part
    /// is out of range or not UTF-8.
    Given,
    /// The pattern has no URL with these groups.
    NoLink(NoLink),
    /// Memory ran out. Each element of `given` gives a group.
    OutOfMemory,
}

/// Returns a URL that the pattern matches, with the groups that `given` cuts out of `text`, as
/// `UrlPattern::link` does.
///
/// The error is the reason why there is no URL.
pub fn link(
    alloc: Global,
    pattern: &UrlPattern<PatternRegexp>,
    text: &[u8],
    given: &[GivenBytes],
) -> Result<Url, Unlinked>
    ensures linked { IfOk result (IsLinkOfBytes pattern.now text.now given.now) }
    ensures refused { IfErr result (IsUnlinked pattern.now text.now given.now) }
{
    let groups = match groups_of(alloc, text, given) {
        Ok(groups) => groups,
        Err(error) => return Err(error),
    };
    match pattern.link(alloc, &groups) {
        Ok(url) => Ok(url),
        Err(NoLink::OutOfMemory) => Err(Unlinked::OutOfMemory),
        Err(error) => Err(Unlinked::NoLink(error)),
    }
}
