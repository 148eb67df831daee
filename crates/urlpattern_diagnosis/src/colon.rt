//! Reasons why no name follows a colon.

use crate::diagnosis::Subject;
use crate::hint::{Hint, next_hint};
use crate::reason::Faulty;
use crate::sentence::Sentence;
use urlpattern_components::ComponentName;

/// Returns why no name follows a colon in a component's pattern, and what to write.
pub(crate) fn colon_sentence<'a>(faulty: &'a Faulty<'_>) -> Sentence<'a> {
    faulty.sentence(colon_words(faulty), "write `\\:` for the character itself")
}

/// Returns the words for a colon that no name follows in a component's pattern, with `#` for how to
/// write a colon, and `~` for the character of the hint.
fn colon_words(faulty: &Faulty<'_>) -> &'static str {
    match (faulty.subject, faulty.hint) {
        _ if faulty.part == "[" => {
            "`[` is not closed: an IPv6 address ends with `]`, and each `:` in it is written `\\:`"
        }
        (Subject::Component(ComponentName::Hostname), Hint::Brackets) => {
            "no name follows `:`: in an IPv6 address each `:` is written `\\:`"
        }
        (Subject::Component(ComponentName::Hostname), Hint::OpenGroup) => {
            "no name follows `:`, and the `{` after it is not closed: a group ends with `}`"
        }
        (Subject::Component(ComponentName::Hostname), _) => {
            "no name follows `:`: a hostname is written without protocol and port, which are components of their own"
        }
        (Subject::Component(ComponentName::Port), _) => {
            "no name follows `:`: a port is a number up to 65535 without a colon, and an IPv6 address is in `[` and `]`, with `\\:` for each `:`"
        }
        (Subject::Component(ComponentName::Protocol), _) => {
            "no name follows `:`: a protocol is written without `://`"
        }
        (_, hint) => name_words(hint),
    }
}

/// Returns the words for a colon before a text that is not a name, with `#` for how to write a
/// colon, and `~` for the character of the hint.
fn name_words(hint: Hint) -> &'static str {
    match hint {
        Hint::NameBegins(_) => {
            "no name follows `:`: a name begins with a letter, `$` or `_`, and not with `~`; #"
        }
        Hint::Expression => {
            "no name follows `:`: a name with an expression is written `:id(\\d+)`, an expression alone `(\\d+)`; #"
        }
        Hint::Word => "no name follows `:`: a name is written `:id`, without brackets; #",
        _ => "no name follows `:`: a name begins with a letter, `$` or `_`; #",
    }
}

/// Returns why the colon at the byte index `place`, or the colon after a backslash there, does not
/// end a protocol: the text before it is a path, a search or a hash.
pub(crate) fn path_colon_sentence(text: &str, place: usize) -> Sentence<'_> {
    let bytes = text.as_bytes();
    let hint = next_hint(bytes.get(place.saturating_add(1)));
    let words = if text.starts_with("//") {
        "a hostname stands after a protocol: write `https:` before `//`"
    } else if bytes.get(place) == Some(&b'\\') {
        "`\\:` ends a protocol, as `:` does: in a pattern without one write `{\\:}` for the character itself"
    } else {
        name_words(hint)
    };
    Sentence {
        words,
        text,
        other: "in a pattern without a protocol write `{\\:}` for the character itself",
        sign: hint.sign().unwrap_or(' '),
    }
}
