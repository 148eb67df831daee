//! The fixed texts of a pattern: what every input that it matches has in common.
ghost use Rattle.urlpattern.specs.PatternKeys.{AreFixed};
ghost use Rattle.urlpattern_index.specs.FixedTexts.{fixed_texts};
ghost use Rattle.urlpattern_pattern.specs.Patterns.{pattern_view};

use urlpattern_components::ComponentName;
use urlpattern_index::{Fixed, fixed_text, known_path};
use urlpattern_matcher::regexp::RegExp;
use urlpattern_pattern::UrlPattern;

/// Returns what the parts of a pattern say of every input that the pattern matches: the protocol
/// and the hostname, where they are fixed, and what is known of the path. Nothing is fixed if the
/// pattern has no parts.
pub(super) fn fixed_of<R: RegExp>(pattern: &UrlPattern<R>) -> Fixed<'_>
    ensures { AreFixed R.answer (pattern_view pattern.now) (fixed_texts result) }
{
    let Some(parts) = pattern.parts() else {
        return Fixed::nothing();
    };
    Fixed {
        protocol: fixed_text(
            &parts.components.protocol,
            pattern.get(ComponentName::Protocol),
        ),
        hostname: fixed_text(
            &parts.components.hostname,
            pattern.get(ComponentName::Hostname),
        ),
        pathname: known_path(
            &parts.components.pathname,
            pattern.get(ComponentName::Pathname),
        ),
    }
}
