//! The special schemes, and their default ports.
ghost use Rattle.std.specs.Prelude.{◌≡◌, option_copied};
ghost use Rattle.std.specs.Str.{chars};
ghost use Rattle.urlpattern_canonical.specs.Canonical.{default_port, is_special};

/// Whether the scheme is special.
///
/// <https://url.spec.whatwg.org/#special-scheme>
pub fn is_special_scheme(scheme: &str) -> bool
    ensures { result ≡ is_special (chars scheme.now) }
{
    matches!(scheme, "http" | "https" | "ws" | "wss" | "ftp" | "file")
}

/// Returns the default port of a scheme. `None`: the scheme is not special, or is `file`.
///
/// <https://url.spec.whatwg.org/#default-port>
pub fn special_scheme_default_port(scheme: &str) -> Option<&'static str>
    ensures { option_copied result ≡ default_port (chars scheme.now) }
{
    match scheme {
        "http" | "ws" => Some("80"),
        "https" | "wss" => Some("443"),
        "ftp" => Some("21"),
        _ => None,
    }
}
