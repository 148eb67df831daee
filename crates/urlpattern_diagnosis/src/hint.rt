//! Hints: what explains a fault, apart from the part at fault. Hints decide the words of a reason.

use crate::around::{
    has_cut_class, has_escaped_close, is_after_expression, is_after_modifier, is_after_word,
    is_in_class, is_unclosed, sign_at, stray_bracket, wide_mark,
};
use crate::diagnosis::Subject;
use crate::fault::Fault;
use crate::pattern_offset::PatternOffset;
use crate::span::Span;
use crate::wide::ascii_form_of;
use urlpattern_components::ComponentName;
use urlpattern_syntax::error::{Error, ParserError, RegexFault, TokenizerError};
use urlpattern_syntax::tokenizer::TokenType;

/// What explains a fault, apart from the part at fault.
#[derive(Clone, Copy)]
pub(crate) enum Hint {
    /// Nothing.
    Nothing,
    /// A `?` after the pattern begins the search.
    Search,
    /// A `?` follows the `(` at fault; after a `(` at the end of the pattern the `?` begins the
    /// search.
    QuestionMark,
    /// A `?` follows the `(` at fault, as in look-around.
    LookAround,
    /// A `?` follows the `(` at fault, as in a flag that ignores case.
    Flag,
    /// The fault is in square brackets, those of an IPv6 address or of a class, or a `)` cuts a
    /// class.
    Brackets,
    /// The colon after a scheme is missing, or `;` is in its place.
    Colon,
    /// The custom expression that contains the `(` at fault has no `)` of its own.
    Open,
    /// A custom expression is not closed before this bracket, which closes nothing.
    ClosedBy(char),
    /// A custom expression is not closed, and the pattern has an escaped `)`.
    Escaped,
    /// A colon is followed by this character, with which no name begins.
    NameBegins(char),
    /// A name is followed by this character, which no name contains.
    NameEnds(char),
    /// A regular expression is not in parentheses, or follows a colon.
    Expression,
    /// A quantifier follows the character at fault in a custom expression, or the brace at fault is
    /// right after another brace.
    Repeated,
    /// The modifier at fault follows another modifier.
    SecondModifier,
    /// The full-width form of this character is at fault, or before the modifier at fault.
    Wide(char),
    /// A name is in brackets, as in other template languages: only a word is before the modifier at
    /// fault in its group, or a bracket follows a colon.
    Word,
    /// A group after the fault is not closed.
    OpenGroup,
    /// The pattern is `https?`, as in a regular expression.
    Scheme,
}

impl Hint {
    /// Returns the character of the hint, if it has one.
    pub(crate) fn sign(self) -> Option<char> {
        match self {
            Hint::ClosedBy(sign)
            | Hint::NameBegins(sign)
            | Hint::NameEnds(sign)
            | Hint::Wide(sign) => Some(sign),
            _ => None,
        }
    }

    /// Returns the hint for `fault`, which `Fault::of_url` found in `text`, a text that is rejected
    /// as a whole: `Colon` if the fault is the place of a missing or mistyped colon, `Nothing` if
    /// the fault is the whole text.
    pub(crate) fn of_url(text: &str, fault: Fault) -> Self {
        if fault == Fault::whole(text) {
            Hint::Nothing
        } else {
            Hint::Colon
        }
    }

    /// Returns the hint for `fault`, a fault of `pattern`, the pattern of `subject`, which is
    /// rejected with `error`: by what is around the fault, and by what follows the pattern in
    /// `text`, where the pattern is at `place`, if the text has it.
    pub(crate) fn of_part(
        error: &Error,
        subject: Subject,
        text: &str,
        pattern: &str,
        fault: Fault,
        place: Option<PatternOffset>,
    ) -> Self {
        let search = search_after(text, pattern, place);
        match error {
            Error::Tokenizer(TokenizerError::InvalidName, _) => {
                colon_hint(subject, pattern, fault.span.end)
            }
            Error::Tokenizer(TokenizerError::InvalidRegex(reason), _) => {
                expression_hint(*reason, text, pattern, fault, search)
            }
            Error::Parser(ParserError::DuplicateName(_)) => name_hint(pattern, fault),
            Error::Parser(ParserError::ExpectedToken(_, TokenType::Open, _)) => brace_hint(fault),
            Error::Parser(ParserError::ExpectedToken(expected, TokenType::OtherModifier, _)) => {
                modifier_hint(pattern, fault, *expected == TokenType::Close)
            }
            Error::RegExp(()) if has_cut_class(pattern, outer(fault).start, pattern.len()) => {
                Hint::Brackets
            }
            _ => match search {
                Some(_) => Hint::Search,
                None => Hint::Nothing,
            },
        }
    }
}

/// Returns the hint for a colon that no name follows; `place` is where the part at fault ends.
fn colon_hint(subject: Subject, pattern: &str, place: usize) -> Hint {
    match subject {
        Subject::Component(ComponentName::Hostname) if is_in_class(pattern, 0, place) => {
            Hint::Brackets
        }
        Subject::Component(ComponentName::Hostname) if is_unclosed(pattern, place, b'{', b'}') => {
            Hint::OpenGroup
        }
        _ => next_hint(pattern.as_bytes().get(place)),
    }
}

/// Returns the hint for a colon that no name follows, by the byte after the colon; `None`: the text
/// ends there.
pub(crate) fn next_hint(next: Option<&u8>) -> Hint {
    match next {
        Some(b'\\' | b'[' | b'(') => Hint::Expression,
        Some(b'{' | b'<') => Hint::Word,
        Some(
            byte @ (b'0'..=b'9'
            | b'-'
            | b'^'
            | b'.'
            | b'~'
            | b'@'
            | b'&'
            | b'='
            | b' '
            | b'\''
            | b'"'),
        ) => Hint::NameBegins(char::from(*byte)),
        _ => Hint::Nothing,
    }
}

/// Returns the hint for a group that begins within a group: `Repeated` if the two braces are
/// adjacent.
fn brace_hint(fault: Fault) -> Hint {
    match fault.earlier {
        Some(open) if open.end == fault.span.start => Hint::Repeated,
        _ => Hint::Nothing,
    }
}

/// Returns the hint for a parenthesis that does not begin a custom expression, for `reason`.
/// `search` is the place in `text` of the `?` right after `pattern`, if there is one.
fn expression_hint(
    reason: RegexFault,
    text: &str,
    pattern: &str,
    fault: Fault,
    search: Option<usize>,
) -> Hint {
    match (reason, fault.earlier) {
        (RegexFault::MissingClose, _) => match (stray_bracket(pattern, fault.span.end), search) {
            (Some(bracket), _) => Hint::ClosedBy(bracket),
            (_, Some(sign)) if fault.span.end == pattern.len() => question_hint(text, sign),
            (_, Some(_)) => Hint::Search,
            _ if has_escaped_close(pattern, fault.span.end) => Hint::Escaped,
            _ => Hint::Nothing,
        },
        (RegexFault::NestedGroupCaptures | RegexFault::NestedGroupNotClosed, Some(open))
            if is_in_class(pattern, open.start, fault.span.start) => { Hint::Brackets }
        (RegexFault::NestedGroupCaptures | RegexFault::NestedGroupNotClosed, Some(open))
            if is_unclosed(pattern, open.start, b'(', b')') => { Hint::Open }
        (RegexFault::BadCharacter, None) => {
            question_hint(pattern, fault.span.end.saturating_sub(1))
        }
        (RegexFault::BadCharacter | RegexFault::BadEscape, Some(_)) => letter_hint(pattern, fault),
        _ => Hint::Nothing,
    }
}

/// Returns the hint for a `?` at a place, after a `(`: what it is meant for, by the bytes after it.
fn question_hint(text: &str, place: usize) -> Hint {
    let bytes = text.as_bytes();
    let next = bytes.get(place.saturating_add(1));
    let after_next = bytes.get(place.saturating_add(2));
    match (next, after_next) {
        (Some(b'=' | b'!'), _) | (Some(b'<'), Some(b'=' | b'!')) => Hint::LookAround,
        (Some(b'i'), _) => Hint::Flag,
        _ => Hint::QuestionMark,
    }
}

/// Returns the hint for a character of a custom expression that is not ASCII: full-width, in a
/// class, or repeated.
fn letter_hint(pattern: &str, fault: Fault) -> Hint {
    let letter = pattern.get(fault.span.start..fault.span.end).unwrap_or("");
    if let Some(sign) = ascii_form_of(letter) {
        return Hint::Wide(sign);
    }
    match pattern.as_bytes().get(fault.span.end) {
        _ if is_in_class(pattern, 0, fault.span.start) => Hint::Brackets,
        Some(b'*' | b'+' | b'?' | b'{') => Hint::Repeated,
        _ => Hint::Nothing,
    }
}

/// Returns the hint for a name that occurs twice: `NameEnds` if `-` or `^` follows the first or the
/// second.
fn name_hint(pattern: &str, fault: Fault) -> Hint {
    let first = fault.earlier.unwrap_or(fault.span);
    match sign_at(pattern, first.end).or(sign_at(pattern, fault.span.end)) {
        Some(sign) => Hint::NameEnds(sign),
        None => Hint::Nothing,
    }
}

/// Returns the hint for a modifier that follows nothing that it could repeat. `is_in_group` says
/// whether the modifier is within a group.
fn modifier_hint(pattern: &str, fault: Fault, is_in_group: bool) -> Hint {
    let place = fault.span.start;
    if !is_in_group && is_after_modifier(pattern, place) {
        return Hint::SecondModifier;
    }
    if pattern == "https?" {
        return Hint::Scheme;
    }
    if is_in_group && is_after_word(pattern, fault) {
        return Hint::Word;
    }
    let mut sign = None;
    let mut is_after_name = false;
    for (index, byte) in pattern.as_bytes().iter().take(place).enumerate() {
        match *byte {
            b':' => {
                is_after_name = true;
                sign = None;
            }
            b'-' | b'^' if is_after_name => sign = sign.or(sign_at(pattern, index)),
            b'a'..=b'z' | b'A'..=b'Z' | b'0'..=b'9' | b'_' | b'$' | 0x80.. => {}
            _ => {
                is_after_name = false;
                sign = None;
            }
        }
    }
    match sign {
        Some(sign) => Hint::NameEnds(sign),
        None => misplaced_modifier_hint(pattern, place),
    }
}

/// Returns the hint for a misplaced modifier, by what is before it: a class with a `)`, a
/// full-width mark, or a regular expression without parentheses; or by an unclosed group after it.
fn misplaced_modifier_hint(pattern: &str, place: usize) -> Hint {
    if has_cut_class(pattern, pattern.find('(').unwrap_or(place), place) {
        return Hint::Brackets;
    }
    match wide_mark(pattern, place) {
        Some(mark) => Hint::Wide(mark),
        None if is_after_expression(pattern, place) => Hint::Expression,
        None if is_unclosed(pattern, place, b'{', b'}') => Hint::OpenGroup,
        None => Hint::Nothing,
    }
}

/// Returns the span of the whole expression that an engine rejects: the part at fault, or the
/// earlier part if the fault is a place in it.
fn outer(fault: Fault) -> Span {
    fault.earlier.unwrap_or(fault.span)
}

/// Returns the place of a `?` right after `pattern`, which is at `place` in `text`.
/// `None`: another character follows, or the text lacks the pattern.
fn search_after(text: &str, pattern: &str, place: Option<PatternOffset>) -> Option<usize> {
    let PatternOffset { start, missing } = place?;
    let end = start.saturating_add(pattern.len().saturating_sub(missing));
    match text.as_bytes().get(end) {
        Some(b'?') => Some(end),
        _ => None,
    }
}
