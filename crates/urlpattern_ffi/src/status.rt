//! The outcome of a call, as C sees it.
ghost use Rattle.std.specs.Prelude.{◌≡◌};
ghost use Rattle.urlpattern_ffi.specs.Statuses.{status_number};

/// The outcome of a call.
#[derive(Clone, Copy)]
pub enum Status {
    /// The pattern does not match, or no pattern of the handle does. Also the status of a pattern
    /// that does not cover the asked one, has no custom regular expression, has no meaning in a
    /// component, or is not rejected.
    NoMatch,
    /// The call succeeded, or the pattern matches, covers the asked one, has a custom regular
    /// expression, or has a meaning in each component.
    Done,
    /// A text is not a URL, or the text of its base URL is not one.
    NoUrl,
    /// A text is not a path.
    NoPath,
    /// A URL, the text of its base URL or an init that is matched has 2^24 bytes or more.
    TooLong,
    /// A text is not UTF-8.
    NotUtf8,
    /// The pattern is rejected, the JSON is not an init, or the pattern has no URL with the given
    /// groups.
    Refused,
    /// Memory ran out.
    OutOfMemory,
    /// The handle has no pattern at this index, or none at all, there is no such component or
    /// group, or an element of `given` gives no group.
    NoPattern,
    /// A buffer is too small, for bytes or for spans.
    TooSmall,
    /// A comparison of two patterns is not decided.
    Unknown,
    /// The patterns are those of another handle too, and none is appended.
    Shared,
    /// Some route matches, but none that serves the method of the request.
    NotAllowed,
    /// A route is not appended, since another one has its name.
    NameTaken,
    /// A route is not appended, since its method is no token of HTTP, or it has a name and no
    /// method.
    NotAMethod,
}

impl Status {
    /// The number of the status for C.
    pub fn number(self) -> u32
        ensures { result ≡ status_number self }
    {
        match self {
            Status::NoMatch => 0,
            Status::Done => 1,
            Status::NoUrl => 2,
            Status::NoPath => 3,
            Status::TooLong => 4,
            Status::NotUtf8 => 5,
            Status::Refused => 6,
            Status::OutOfMemory => 7,
            Status::NoPattern => 8,
            Status::TooSmall => 9,
            Status::Unknown => 10,
            Status::Shared => 11,
            Status::NotAllowed => 12,
            Status::NameTaken => 14,
            Status::NotAMethod => 15,
        }
    }
}
