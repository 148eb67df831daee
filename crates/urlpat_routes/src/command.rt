//! The commands on static routes, with their arguments.

/// A command on static routes. Each list of rules is named by the file that has it.
#[derive(Clone, Copy, Debug)]
pub enum RouteCommand<'w> {
    /// Finds the faults of the file, or else rules that are of no use to a worker with this scope.
    Check(&'w str, Option<&'w str>),
    /// Decides about a request.
    Decide(&'w str, AskedRequest<'w>),
    /// Compares the old rules and the new ones.
    Diff(&'w str, &'w str),
}

/// A request that is asked about.
#[derive(Clone, Copy, Debug)]
pub struct AskedRequest<'w> {
    /// The method.
    pub method: &'w str,
    /// The URL, relative to that of the worker's script.
    pub url: &'w str,
    /// The mode.
    pub mode: &'w str,
    /// The destination.
    pub destination: &'w str,
    /// Whether the service worker is running.
    pub is_running: bool,
}
