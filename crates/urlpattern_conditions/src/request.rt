//! Requests, as conditions see them.
ghost use Rattle.std.specs.Prelude.{◌≡◌, Some, MatchBool, slice_get};
ghost use Rattle.urlpattern_conditions.specs.Requests.{request_view};

use urlpattern_components::Eight;

/// A request: the eight texts of its URL, and a name for each of its attributes, such as `GET` for
/// the method.
#[derive(Debug, Clone, Copy)]
pub struct Request<'a> {
    /// The texts of the URL, as `url_texts` returns them.
    pub texts: &'a Eight<&'a str>,
    /// The name of each attribute, in an order of the caller's choice.
    pub names: &'a [&'a str],
}

impl Request<'_> {
    /// Whether the attribute at this index has this name.
    pub fn has_name(&self, attribute: usize, name: &str) -> bool
        ensures { MatchBool result
            (slice_get (request_view self.now).names attribute ≡ Some name.now)
            (¬ (slice_get (request_view self.now).names attribute ≡ Some name.now)) }
    {
        match self.names.get(attribute) {
            Some(own) => *own == name,
            None => false,
        }
    }
}
