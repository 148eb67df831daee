//! Orders by their URLs, with contracts about URLs alone.

ghost use Rattle.example.specs.Orders.{IsNoOrder, IsOrder};
ghost use Rattle.example.specs.Sites.{IsOnSite};
ghost use Rattle.std.specs.Prelude.{IfErr, IfNone, IfOk, IfSome};
ghost use Rattle.std.specs.Str.{chars};
ghost use Rattle.urlpattern.specs.Errors.{OnlyOutOfMemory};

use crate::router;
use std::alloc::Global;
use std::marker::Model;
use url::Url;
use urlpattern::laws::texts_are_lines;
use urlpattern::regexp::PatternRegexp;
use urlpattern::{Error, UrlPattern, UrlPatternOptions};

/// The pattern of orders. The group `id` matches digits between `/orders/` and the end of the path.
const PATTERN: &str = "https://example.com/orders/:id(\\d+)";

/// The orders under `https://example.com/orders/`, with the pattern of their URLs, which is
/// compiled once.
#[derive(Drop)]
pub struct Orders {
    pattern: UrlPattern<PatternRegexp>,
}

// The pattern is compiled from `PATTERN`. No contract mentions the pattern.
impl Model for Orders {
    ghost use Rattle.example.specs.Orders.{orders_text};
    ghost use Rattle.example.specs.Sites.{IsPatternOf};
    ghost use Rattle.std.specs.Prelude.{⊤};

    ghost Value = { ⊤ };

    ghost view = { λ orders. tt };

    ghost invariant = { λ orders. IsPatternOf orders_text orders.pattern };
}

impl Orders {
    /// Compiles the pattern.
    ///
    /// The error is that of `UrlPattern::from_constructor_string`.
    pub fn new(alloc: Global) -> Result<Self, Error> {
        let options = UrlPatternOptions::default();
        let pattern = UrlPattern::from_constructor_string(alloc, PATTERN, None, options)?;
        Ok(Self { pattern })
    }

    /// The id of the order with this URL, borrowed from the URL. `None`: no order has this URL.
    ///
    /// The URL of an order is `https://example.com/orders/` and the id, which is one or more ASCII
    /// digits. The port is empty. User name, password, query and fragment may be anything, since
    /// the pattern does not restrict them.
    ///
    /// The expression needs an engine, which may run out of memory. It is called only for a URL of
    /// `https://example.com`.
    pub fn id<'u>(&self, alloc: Global, url: &'u Url) -> Result<Option<&'u str>, Error>
        ensures some { IfOk result (λ found. IfSome found (λ id. IsOrder url.now (chars id.now))) }
        ensures none { IfOk result (λ found. IfNone found (IsNoOrder url.now)) }
        ensures memory { OnlyOutOfMemory result }
        ensures asked { IfErr result (λ _. IsOnSite url.now) }
    {
        // A law of the library: each text of a URL is of characters without line feed.
        texts_are_lines(url);
        // The router returns the group `id` of the path, whatever the rest of the pattern is.
        router::user(alloc, &self.pattern, url)
    }
}
