//! What a router returns for a request.

use super::allowed_methods::AllowedMethods;
use urlpattern_matcher::regexp::RegExp;
use urlpattern_matches::UrlPatternCaptures;

/// What a router returns for a request.
#[derive(Drop)]
pub enum Routed<'m, 'u, T, R: RegExp> {
    /// The route that serves the request: its index, its value, and the match.
    Found(usize, &'m T, UrlPatternCaptures<'m, 'u>),
    /// Some route matches, but none that serves this method: the methods of those that match, as
    /// for the status 405 and its header `Allow`.
    MethodNotAllowed(AllowedMethods<'m, 'u, T, R>),
    /// No route matches, as for the status 404.
    NotFound,
}
