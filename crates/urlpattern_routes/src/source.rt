//! Sources of responses.

ghost use Rattle.std.specs.Prelude.{◌≡◌};
ghost use Rattle.urlpattern_routes.specs.Sources.{source_text};
ghost use Rattle.urlpattern_routes.specs.Views.{source_view};

/// Where the response to a request comes from.
#[derive(Debug, Drop)]
pub enum RouterSource {
    /// The network.
    Network,
    /// The handler of the event `fetch`.
    FetchEvent,
    /// The oldest cache that has the URL.
    Cache,
    /// The cache with this name.
    NamedCache(String),
    /// The network and the handler, whichever is first.
    RaceNetworkAndFetchHandler,
}

impl RouterSource {
    /// Returns the name of the source in JSON, or that of its cache.
    pub fn as_str(&self) -> &str
        ensures { result.now ≡ source_text (source_view self.now) }
    {
        match self {
            Self::Network => "network",
            Self::FetchEvent => "fetch-event",
            Self::Cache => "cache",
            Self::NamedCache(name) => name,
            Self::RaceNetworkAndFetchHandler => "race-network-and-fetch-handler",
        }
    }
}
