//! Why a pattern is rejected, in words for its author.

use crate::colon::colon_sentence;
use crate::diagnosis::Subject;
use crate::expression::message;
use crate::hint::Hint;
use crate::host::{host_words, port_words};
use crate::scheme::{base_sentence, is_quoted, missing_words, protocol_words};
use crate::sentence::Sentence;
use crate::wide::ascii_form_of;
use percent_encoding::{CONTROLS, utf8_percent_encode};
use std::alloc::{AllocError, Global};
use url::ParseError;
use urlpattern_components::ComponentName;
use urlpattern_syntax::error::{Error, ParserError, RegexFault, TokenizerError};
use urlpattern_syntax::tokenizer::TokenType;

/// What the reason of a rejection is about.
#[derive(Clone, Copy)]
pub(crate) struct Faulty<'a> {
    /// What is at fault.
    pub(crate) subject: Subject,
    /// The part at fault.
    pub(crate) part: &'a str,
    /// The part with which the part at fault conflicts, or an earlier token that is at fault too.
    pub(crate) earlier: Option<&'a str>,
    /// What else explains the fault.
    pub(crate) hint: Hint,
}

impl Faulty<'_> {
    /// Returns the sentence of `words`, which have `@` for the part at fault, `#` for `other`, and
    /// `~` for the sign of the hint, or else for the ASCII form of a full-width part.
    pub(crate) fn sentence<'a>(&'a self, words: &'static str, other: &'a str) -> Sentence<'a> {
        let sign = match self.hint.sign() {
            Some(sign) => sign,
            None => ascii_form_of(self.part).unwrap_or(' '),
        };
        Sentence {
            words,
            text: self.part,
            other,
            sign,
        }
    }
}

/// Returns why a pattern is rejected with `error`, and mostly what to do, in one line.
pub(crate) fn reason_of(
    alloc: Global,
    error: &Error,
    faulty: &Faulty<'_>,
) -> Result<String, AllocError> {
    let mut reason = String::new(alloc);
    append_reason(alloc, &mut reason, error, faulty)?;
    Ok(reason)
}

/// Appends why a pattern is rejected with `error`, and mostly what to do.
fn append_reason(
    alloc: Global,
    out: &mut String,
    error: &Error,
    faulty: &Faulty<'_>,
) -> Result<(), AllocError> {
    match error {
        _ if matches!(faulty.hint, Hint::Colon) => {
            faulty
                .sentence(missing_words(faulty.part), "")
                .append_to(out)
        }
        Error::BaseUrlRequired => base_sentence(faulty.part).append_to(out),
        Error::BaseUrlWithInit => {
            out.push_str("components have their own base URL: leave out the one beside them")
        }
        Error::Tokenizer(fault, _) => append_token_reason(alloc, out, fault, faulty),
        Error::Parser(ParserError::ExpectedToken(expected, found, _)) => faulty
            .sentence(stop_words(*expected, *found, faulty.hint), "")
            .append_to(out),
        Error::Parser(ParserError::DuplicateName(name)) => {
            faulty
                .sentence(repeated_name_words(faulty.hint), name)
                .append_to(out)
        }
        Error::Url(reason) => append_url_reason(alloc, out, *reason, faulty),
        Error::RegExp(()) => append_engine_reason(alloc, out, faulty),
        Error::OutOfMemory => out.push_str("out of memory"),
    }
}

/// Appends why no token begins at the part at fault, and which earlier token is at fault too, if
/// any.
fn append_token_reason(
    alloc: Global,
    out: &mut String,
    fault: &TokenizerError,
    faulty: &Faulty<'_>,
) -> Result<(), AllocError> {
    match fault {
        TokenizerError::IncompleteEscapeCode => {
            out.push_str("`\\` at the end escapes nothing: write `\\\\` for the character itself")?
        }
        TokenizerError::InvalidName => colon_sentence(faulty).append_to(out)?,
        TokenizerError::InvalidRegex(_) if !faulty.part.is_ascii() => {
            append_ascii_reason(alloc, out, faulty)?
        }
        TokenizerError::InvalidRegex(fault) => faulty
            .sentence(expression_words(*fault, faulty.hint), "")
            .append_to(out)?,
    }
    match faulty.earlier {
        Some(token) if token != "(" => append_earlier(out, token),
        _ => Ok(()),
    }
}

/// Appends that an earlier token is at fault too.
fn append_earlier(out: &mut String, token: &str) -> Result<(), AllocError> {
    Sentence {
        words: "; `@` is at fault too",
        text: token,
        other: "",
        sign: ' ',
    }
    .append_to(out)
}

/// Appends that a custom expression has only ASCII characters, and mostly what to write for the
/// part at fault, such as its percent-encoding.
fn append_ascii_reason(
    alloc: Global,
    out: &mut String,
    faulty: &Faulty<'_>,
) -> Result<(), AllocError> {
    let bare = faulty.part.trim_start_matches('\\');
    let mut encoded = String::new(alloc);
    utf8_percent_encode(bare, CONTROLS).append_to(&mut encoded)?;
    faulty
        .sentence(ascii_words(faulty), &encoded)
        .append_to(out)
}

/// Returns the words for a character in a custom expression that is not ASCII, with `@` for the
/// character, `#` for its percent-encoding, and `~` for the ASCII form of a full-width one.
fn ascii_words(faulty: &Faulty<'_>) -> &'static str {
    match (faulty.subject, faulty.hint) {
        (_, Hint::Wide(_)) => {
            "a custom expression has only ASCII characters, and `@` is full-width: write `~`"
        }
        (Subject::Component(ComponentName::Hostname), _) => {
            "a custom expression has only ASCII characters, and `@` is none: URLs have such a label in Punycode, which begins with `xn--`"
        }
        (Subject::Component(ComponentName::Protocol | ComponentName::Port), _) => {
            "a custom expression has only ASCII characters, and `@` is none"
        }
        (_, Hint::Repeated) => {
            "a custom expression has only ASCII characters: write `(?:#)` for the repeated `@`, as URLs have it"
        }
        (_, Hint::Brackets) => {
            "a custom expression has only ASCII characters: URLs have `#` for `@`, so write `(?:#|e)` for the class `[@e]`"
        }
        _ => "a custom expression has only ASCII characters: write `#` for `@`, as URLs have it",
    }
}

/// Returns the words for a parenthesis that does not begin a custom expression, by the fault of the
/// tokenizer and the hint.
fn expression_words(fault: RegexFault, hint: Hint) -> &'static str {
    match (fault, hint) {
        (_, Hint::ClosedBy(_)) => {
            "`(` is not closed: a custom expression ends with `)`, and here `~` is in its place"
        }
        (_, Hint::LookAround) => {
            "a custom expression does not begin with `?`, and look-around is not supported: match more, and compare what the group captures"
        }
        (_, Hint::Flag) => {
            "a custom expression does not begin with `?`: write `((?i:a))` to ignore case in an expression, or `\\(` for the character itself"
        }
        (RegexFault::BadCharacter | RegexFault::BadEscape, _) | (_, Hint::QuestionMark) => {
            "a custom expression does not begin with `?`: write `(a)` for `(?:a)` and `:year(\\d+)` for `(?<year>\\d+)`, or `\\(` for the character itself"
        }
        (RegexFault::NestedGroupCaptures | RegexFault::NestedGroupNotClosed, Hint::Brackets) => {
            "`(` begins a group also in a class: write `\\(` for the character itself"
        }
        (RegexFault::NestedGroupNotClosed, _) => {
            "`)` is missing: the first `(` is not closed, and the second one ends the pattern"
        }
        (_, Hint::Open) => {
            "`)` is missing: the first `(` is not closed before the second one; within an expression write `(?:` for a group"
        }
        (RegexFault::NestedGroupCaptures, _) => {
            "a custom expression has no captures of its own: write `(?:` for the group in it"
        }
        (RegexFault::MissingClose, Hint::Search) => {
            "`(` is not closed: a custom expression ends with `)`, or write `\\(` for the character itself; the `?` after it begins the search"
        }
        (RegexFault::MissingClose, Hint::Escaped) => {
            "`(` is not closed: `\\)` is the character itself, and a custom expression ends with `)`"
        }
        (RegexFault::MissingClose, _) => {
            "`(` is not closed: a custom expression ends with `)`, or write `\\(` for the character itself"
        }
        (RegexFault::Empty, _) => {
            "nothing is between `(` and `)`: write an expression there, or `\\(` for the character itself"
        }
    }
}

/// Returns the words for a name that occurs twice, with `#` for the name, and `~` for the character
/// after it, if the hint has one.
fn repeated_name_words(hint: Hint) -> &'static str {
    match hint {
        Hint::NameEnds(_) => {
            "the name `#` occurs twice: first here, and here; a name ends before `~`: write `_` in its place, or rename one of them"
        }
        _ => "the name `#` occurs twice: first here, and here; rename one of them",
    }
}

/// Returns the words for a token of the kind `found`, where one of the kind `expected` has to be.
fn stop_words(expected: TokenType, found: TokenType, hint: Hint) -> &'static str {
    let is_in_group = matches!(expected, TokenType::Close);
    match found {
        TokenType::OtherModifier => modifier_words(is_in_group, hint),
        _ if is_in_group => group_words(found, hint),
        TokenType::Close => "`}` closes no group: write `\\}` for the character itself",
        _ => "`@` is not expected here",
    }
}

/// Returns the words for a token of the kind `found` in a group that has to end before it.
fn group_words(found: TokenType, hint: Hint) -> &'static str {
    match (found, hint) {
        (TokenType::End, Hint::Search) => {
            "`{` is not closed: a group ends with `}`, or write `\\{` for the character itself; the `?` after it begins the search"
        }
        (TokenType::End, _) => {
            "`{` is not closed: a group ends with `}`, or write `\\{` for the character itself"
        }
        (TokenType::Open, Hint::Repeated) => {
            "groups do not nest: a name is written `:id`, without braces; write `\\{` for the character itself"
        }
        (TokenType::Open, _) => {
            "groups do not nest: close the first one before this `{`, or write `\\{` for the character itself"
        }
        _ => {
            "a group has one name, expression or `*` at most: this is its second, so end the group before it"
        }
    }
}

/// Returns the words for a misplaced modifier; `is_in_group` says whether it is within a group.
fn modifier_words(is_in_group: bool, hint: Hint) -> &'static str {
    match hint {
        Hint::Word => {
            "`@` is within a group: a modifier follows the `}`, and a name is written `:id@`; write `\\@` for the character itself"
        }
        Hint::Nothing if is_in_group => {
            "`@` is within a group: a modifier follows the `}`, or write `\\@` for the character itself"
        }
        Hint::SecondModifier => {
            "`@` is a second modifier: a name, an expression, `*` or a group has only one; write `\\@` for the character itself"
        }
        Hint::Expression => {
            "`@` repeats a regular expression only within `(` and `)`: write it as in `(\\d+)`, or `\\@` for the character itself"
        }
        Hint::NameEnds(_) => {
            "`@` follows nothing that it could repeat: a name ends before `~`; write `_` in its place, or `\\@` for the character itself"
        }
        Hint::Brackets => {
            "`@` follows nothing that it could repeat; `)` ends an expression also in a class: write `\\)` for the character itself"
        }
        Hint::Wide(_) => {
            "`@` follows nothing that it could repeat: the `~` before it is full-width; write it in ASCII"
        }
        Hint::OpenGroup => {
            "`@` follows nothing that it could repeat: write `\\@` for the character itself; the `{` after it is not closed"
        }
        Hint::Scheme => {
            "`?` follows nothing that it could repeat: write `http{s}?` for both protocols"
        }
        _ => {
            "`@` follows nothing that it could repeat: it is a modifier after a name, an expression, `*` or `}`; write `\\@` for the character itself"
        }
    }
}

/// Appends why `url` rejects the part at fault, as a component, a URL or a part of either.
fn append_url_reason(
    alloc: Global,
    out: &mut String,
    reason: ParseError,
    faulty: &Faulty<'_>,
) -> Result<(), AllocError> {
    let detail = reason.to_string(alloc)?;
    faulty
        .sentence(url_words(reason, faulty), &detail)
        .append_to(out)
}

/// Returns the words for a part at fault that `url` rejects, with `@` for the part, `~` for its
/// ASCII form and `#` for the reason of `url`.
fn url_words(reason: ParseError, faulty: &Faulty<'_>) -> &'static str {
    let part = faulty.part;
    match (faulty.subject, reason) {
        (Subject::Component(ComponentName::Port), _) => port_words(part),
        (Subject::Component(ComponentName::Protocol), _) => protocol_words(part),
        (Subject::Component(ComponentName::Hostname), _) => host_words(part),
        (Subject::Base, ParseError::InvalidPort) => {
            "`@` is no base URL: a port is a number up to 65535"
        }
        (Subject::Base, _) if part.is_empty() => {
            "the base URL is empty: give one that begins with `https://`, or none"
        }
        (Subject::Base, ParseError::RelativeUrlWithoutBase) if is_quoted(part) => {
            "`@` is no base URL: it is written without quotes around it"
        }
        (Subject::Base, ParseError::RelativeUrlWithoutBase) => {
            "`@` is no base URL: begin it with a protocol, as `https://`"
        }
        (Subject::Base, ParseError::IdnaError) if part.contains(' ') => {
            "`@` is no base URL: a hostname has no space"
        }
        (Subject::Base, _) => "`@` is no base URL: #",
        _ => "`@` is refused: #",
    }
}

/// Appends why an engine rejects an expression, in the words of the crate `regex`, and what to do.
fn append_engine_reason(
    alloc: Global,
    out: &mut String,
    faulty: &Faulty<'_>,
) -> Result<(), AllocError> {
    let expression = faulty.earlier.unwrap_or(faulty.part);
    let found = message(alloc, expression, faulty.hint)?;
    let (message, advice) = found.unwrap_or(("it may be too large", ""));
    let sentence = Sentence {
        words: "the engine refuses the expression `@`: #",
        text: expression,
        other: message,
        sign: ' ',
    };
    sentence.append_to(out)?;
    out.push_str(advice)
}
