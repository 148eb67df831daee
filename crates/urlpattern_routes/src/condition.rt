//! Conditions as they are given.

use urlpattern_inputs::StringOrInit;

/// A condition of a rule, as it is given.
#[derive(Debug, Drop)]
pub enum RouterCondition {
    /// Each member that is given holds of the request.
    Request(RouterRequest),
    /// At least one of the conditions holds.
    Or(Vec<RouterCondition>),
    /// The condition does not hold.
    Not(Box<RouterCondition>),
}

/// What a condition asks of a request. `None`: the condition has no such member.
#[derive(Debug, Drop)]
pub struct RouterRequest {
    /// The pattern of the URL: a constructor string or an init.
    pub url_pattern: Option<StringOrInit<'static>>,
    /// The method. A method that was read is in capitals if `fetch` puts it in capitals.
    pub method: Option<String>,
    /// The mode.
    pub mode: Option<String>,
    /// The destination.
    pub destination: Option<String>,
    /// Whether the service worker is running.
    pub running_status: Option<String>,
}
