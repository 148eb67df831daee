//! Whether a pattern is written in plain spelling.
ghost use Rattle.std.specs.Prelude.{◌↔◌, IsTrue};
ghost use Rattle.urlpattern_policy.specs.PlainPatterns.{pattern_texts};
ghost use Rattle.urlpattern_policy.specs.Spellings.{ArePlain};

use crate::spelled_texts::are_plain;
use urlpattern_components::Eight;
use urlpattern_matcher::regexp::RegExp;
use urlpattern_pattern::UrlPattern;

/// Whether each of the eight pattern strings of a pattern is in plain spelling.
///
/// A pattern of which one isn't, such as `/%c3%a9/*` or `/%7Euser/*`, matches fewer URLs in plain
/// spelling than it seems to, and mostly none. As a rule of a policy it decides about no others.
pub fn is_plain_pattern<R: RegExp>(pattern: &UrlPattern<R>) -> bool
    ensures { IsTrue result ↔ ArePlain (pattern_texts pattern.now) }
{
    are_plain(&Eight {
        protocol: pattern.protocol.pattern_string.as_str(),
        username: pattern.username.pattern_string.as_str(),
        password: pattern.password.pattern_string.as_str(),
        hostname: pattern.hostname.pattern_string.as_str(),
        port: pattern.port.pattern_string.as_str(),
        pathname: pattern.pathname.pattern_string.as_str(),
        search: pattern.search.pattern_string.as_str(),
        hash: pattern.hash.pattern_string.as_str(),
    })
}
