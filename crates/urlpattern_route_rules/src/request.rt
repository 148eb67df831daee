//! Requests that a service worker gets.

use url::Url;

/// A request that a service worker gets.
#[derive(Debug, Clone, Copy)]
pub struct RouterFetch<'a> {
    /// The URL.
    pub url: &'a Url,
    /// The method.
    pub method: &'a str,
    /// The mode, such as `navigate`.
    pub mode: &'a str,
    /// The destination, such as `image`. It is empty for a call of `fetch`.
    pub destination: &'a str,
    /// Whether the service worker is running. A worker that is starting is not.
    pub is_running: bool,
}
