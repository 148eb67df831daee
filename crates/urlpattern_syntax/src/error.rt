//! The errors of building and matching patterns.

ghost use Rattle.std.specs.Prelude.{◌≡◌, Some};
ghost use Rattle.urlpattern_syntax.specs.declared.error.Error.TheVariants as errors;
ghost use Rattle.urlpattern_syntax.specs.declared.error.RegExpError.TheVariants as regexp_errors;
ghost use Rattle.urlpattern_syntax.specs.ErrorText.{error_text, fault_text, parser_error_text};
ghost use Rattle.urlpattern_syntax.specs.Errors as view;
ghost use Rattle.urlpattern_syntax.specs.Errors.{error_view, regexp_error_view};
ghost use Rattle.urlpattern_syntax.specs.{UrlErrors.url_error, Tokens.fault_view};

use crate::tokenizer::TokenType;
use std::alloc::{AllocError, AllocFailed};
use std::{error, fmt};

/// Why a pattern could not be built or matched.
///
/// An error is printed by its `Display`:
///
/// ```rust write_line
/// fn write_line<W: Write>(out: &mut W, line: Result<String, Error>) -> io::Result<()> {
///     match line {
///         Ok(line) => writeln!(out, "{line}"),
///         Err(error) => writeln!(out, "{error}"),
///     }
/// }
/// ```
#[derive(Debug, PartialEq, Eq, Drop)]
pub enum Error {
    /// A constructor string has no protocol, and no base URL was given.
    BaseUrlRequired,
    /// An init and a separate base URL were both given.
    BaseUrlWithInit,
    /// No token begins at a place of a pattern text, for this reason. The number is the byte index
    /// of the place.
    Tokenizer(TokenizerError, usize),
    /// The tokens of a pattern text do not form a pattern.
    Parser(ParserError),
    /// A URL, or the value of a component, is not valid.
    Url(url::ParseError),
    /// The engine rejected a regular expression.
    RegExp(()),
    /// Memory ran out.
    OutOfMemory,
}

/// Prints the message; for an error of the tokenizer also the byte index in the pattern text.
impl fmt::Display for Error {
    ghost output = { λ error. error_text (error_view error) };

    fn fmt<W: fmt::Write>(&self, f: &mut fmt::Formatter<W>) -> fmt::Result {
        match self {
            Self::BaseUrlRequired => {
                f.write_str("a relative input without ")?;
                f.write_str("a base URL is not valid")
            }
            Self::BaseUrlWithInit => {
                f.write_str("specifying both an init object, ")?;
                f.write_str("and a separate base URL is not valid")
            }
            Self::Tokenizer(error, place) => {
                write!(f, "tokenizer error: {error} (at char {place})")
            }
            Self::Parser(error) => write!(f, "parser error: {error}"),
            Self::Url(error) => fmt::Display::fmt(error, f),
            Self::RegExp(()) => f.write_str("regexp error"),
            Self::OutOfMemory => f.write_str("out of memory"),
        }
    }
}

impl error::Error for Error {}

impl From<AllocError> for Error {
    ghost from_gives = { λ _ error. error ≡ errors.OutOfMemory };

    fn from(_error: AllocError) -> Error {
        Error::OutOfMemory
    }
}

impl<T: Drop> From<AllocFailed<T>> for Error {
    ghost from_gives = { λ _ error. error ≡ errors.OutOfMemory };

    fn from(_error: AllocFailed<T>) -> Error {
        Error::OutOfMemory
    }
}

impl From<OutOfMemory> for Error {
    ghost from_gives = { λ _ error. error ≡ errors.OutOfMemory };

    fn from(_error: OutOfMemory) -> Error {
        Error::OutOfMemory
    }
}

/// Converts out of memory to [`Error::OutOfMemory`], any other error of `url` to [`Error::Url`].
impl From<url::ParseError> for Error {
    ghost from_gives = { λ reason error. error_view error ≡ url_error reason };

    fn from(reason: url::ParseError) -> Error {
        match reason {
            url::ParseError::OutOfMemory => Error::OutOfMemory,
            _ => Error::Url(reason),
        }
    }
}

/// Why no token begins at a place of a pattern text.
#[derive(Debug, PartialEq, Eq, Drop)]
pub enum TokenizerError {
    /// A backslash is the last character of the text.
    IncompleteEscapeCode,
    /// A colon is not followed by a name.
    InvalidName,
    /// An opening parenthesis does not begin a custom regular expression, for the reason given.
    InvalidRegex(RegexFault),
}

/// Prints why no token begins, without the place.
impl fmt::Display for TokenizerError {
    ghost output = { λ error. Some (fault_text (fault_view error)) };

    fn fmt<W: fmt::Write>(&self, f: &mut fmt::Formatter<W>) -> fmt::Result {
        match self {
            TokenizerError::IncompleteEscapeCode => f.write_str("incomplete escape code"),
            TokenizerError::InvalidName => f.write_str("invalid name; must be at least length 1"),
            TokenizerError::InvalidRegex(fault) => {
                let reason = fault.as_str();
                write!(f, "invalid regex: {reason}")
            }
        }
    }
}

impl error::Error for TokenizerError {}

/// Why an opening parenthesis does not begin a custom regular expression.
#[derive(Debug, Clone, Copy, PartialEq, Eq)]
pub enum RegexFault {
    /// The expression starts with a question mark, or has a character that is neither ASCII nor
    /// escaped.
    BadCharacter,
    /// A backslash escapes a character that is not ASCII.
    BadEscape,
    /// The text ends with an inner opening parenthesis.
    NestedGroupNotClosed,
    /// A character other than a question mark follows an inner opening parenthesis.
    NestedGroupCaptures,
    /// The text ends before the closing parenthesis.
    MissingClose,
    /// The parentheses are empty.
    Empty,
}

impl RegexFault {
    ghost use Rattle.urlpattern_syntax.specs.Tokens.{regex_fault_text};

    /// Returns the reason in the words of the message of an error.
    pub fn as_str(self) -> &'static str
        ensures { result.now ≡ regex_fault_text self }
    {
        match self {
            RegexFault::BadCharacter => "must not start with ?, and may only contain ascii",
            RegexFault::BadEscape => "non ascii character was escaped",
            RegexFault::NestedGroupNotClosed => "nested groups not closed",
            RegexFault::NestedGroupCaptures => "nested groups must start with ?",
            RegexFault::MissingClose => "missing closing )",
            RegexFault::Empty => "length must be > 0",
        }
    }
}

/// Why the tokens of a pattern text do not form a pattern.
#[derive(Debug, PartialEq, Eq, Drop)]
pub enum ParserError {
    /// The kind of token expected at a place, then the kind and the value of the token found there.
    ExpectedToken(TokenType, TokenType, String),
    /// Two groups have this name.
    DuplicateName(String),
}

/// Prints the expected kind of token, and the value and the kind of the token found; or the name
/// that two groups have.
impl fmt::Display for ParserError {
    ghost output = { λ error. Some (parser_error_text error) };

    #[tactic(auto, using(crate::proofs::StringTexts::text_bytes))]
    fn fmt<W: fmt::Write>(&self, f: &mut fmt::Formatter<W>) -> fmt::Result {
        match self {
            ParserError::ExpectedToken(expected, found, value) => {
                let expected = expected.name();
                let found = found.name();
                write!(
                    f,
                    "expected token {expected}, found '{value}' of type {found}"
                )
            }
            ParserError::DuplicateName(name) => {
                write!(f, "pattern contains duplicate name {name}")
            }
        }
    }
}

impl error::Error for ParserError {}

/// Memory ran out: the error of functions that have no other.
#[derive(Debug, PartialEq, Eq, Drop)]
pub struct OutOfMemory;

/// Prints `out of memory`, as [`Error::OutOfMemory`] does.
impl fmt::Display for OutOfMemory {
    ghost output = { λ error. error_text view.OutOfMemory };

    fn fmt<W: fmt::Write>(&self, f: &mut fmt::Formatter<W>) -> fmt::Result {
        f.write_str("out of memory")
    }
}

impl error::Error for OutOfMemory {}

impl From<AllocError> for OutOfMemory {
    fn from(_error: AllocError) -> OutOfMemory {
        OutOfMemory
    }
}

impl<T: Drop> From<AllocFailed<T>> for OutOfMemory {
    fn from(_error: AllocFailed<T>) -> OutOfMemory {
        OutOfMemory
    }
}

/// Why an engine did not compile a regular expression.
#[derive(Debug, PartialEq, Eq, Drop)]
pub enum RegExpError {
    /// The engine rejected the text.
    Pattern,
    /// Memory ran out.
    OutOfMemory,
}

/// Prints `regexp error` for `Pattern` and `out of memory` for `OutOfMemory`, as [`Error`] does.
impl fmt::Display for RegExpError {
    ghost output = { λ error. error_text (regexp_error_view error) };

    fn fmt<W: fmt::Write>(&self, f: &mut fmt::Formatter<W>) -> fmt::Result {
        match self {
            Self::Pattern => f.write_str("regexp error"),
            Self::OutOfMemory => f.write_str("out of memory"),
        }
    }
}

impl error::Error for RegExpError {}

impl From<AllocError> for RegExpError {
    ghost from_gives = { λ _ error. error ≡ regexp_errors.OutOfMemory };

    fn from(_error: AllocError) -> RegExpError {
        RegExpError::OutOfMemory
    }
}

impl<T: Drop> From<AllocFailed<T>> for RegExpError {
    ghost from_gives = { λ _ error. error ≡ regexp_errors.OutOfMemory };

    fn from(_error: AllocFailed<T>) -> RegExpError {
        RegExpError::OutOfMemory
    }
}
