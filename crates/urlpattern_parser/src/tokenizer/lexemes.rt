//! Reads one token at the beginning of a text, and skips the characters between tokens.
//!
//! <https://urlpattern.spec.whatwg.org/#tokenize>
ghost use Rattle.std.specs.Prelude.{◌≡◌, ◌≤◌, ◌++◌, ℕ, Bool, [], length, codes};
ghost use Rattle.std.specs.Str.{chars};
ghost use Rattle.urlpattern_syntax.specs.Text.{BeginsWith, is_among, is_name_part};
ghost use Rattle.urlpattern_syntax.specs.Tokens.{FaultView, IsFaultAt, IsInvalidChar, Skips, SkipsBy, is_ignored};
ghost use Rattle.urlpattern_parser.specs.Lexemes.{Lexes, LexesUnder};

use super::{TokenType, TokenizePolicy, is_name_part, is_name_start};
use crate::body::split_body;
use urlpattern_syntax::error::{RegexFault, TokenizerError};
use urlpattern_syntax::text::{before, split_first};

/// A token at the beginning of a text, and the text after it.
#[derive(Clone, Copy)]
pub(super) struct Lexeme<'a> {
    pub(super) kind: TokenType,
    pub(super) value: &'a str,
    pub(super) rest: &'a str,
}

/// Reads the token at the beginning of a text that is not empty and begins with no skipped
/// character. Where no token begins there, the lenient policy returns the first character as an
/// `InvalidChar`, and the strict policy the reason as an error.
pub(super) fn next_token<'a>(
    text: &'a str,
    policy: &TokenizePolicy,
) -> Result<Lexeme<'a>, TokenizerError>
    requires characters { ¬ (chars text.now ≡ []) }
    requires counts { ¬ BeginsWith is_ignored (chars text.now) }
    ensures { LexesUnder policy.now (chars text.now) result }
{
    match (next_lexeme(text), policy) {
        (Err(_), TokenizePolicy::Lenient) => Ok(invalid_char(text)),
        (answer, _) => answer,
    }
}

/// Returns the first character of a text as an `InvalidChar`, since no token begins there.
fn invalid_char(text: &str) -> Lexeme<'_>
    requires characters { ¬ (chars text.now ≡ []) }
    requires fault { (fault : FaultView) × IsFaultAt (chars text.now) fault }
    ensures { IsInvalidChar (chars text.now) result.kind (chars result.value.now)
        (chars result.rest.now) }
{
    let (_, rest) = split_first(text).unwrap();
    Lexeme {
        kind: TokenType::InvalidChar,
        value: before(text, rest),
        rest,
    }
}

/// Reads the token at the beginning of a text that is not empty and begins with no skipped
/// character. The error is the reason why no token begins there.
pub(super) fn next_lexeme(text: &str) -> Result<Lexeme<'_>, TokenizerError>
    requires characters { ¬ (chars text.now ≡ []) }
    requires counts { ¬ BeginsWith is_ignored (chars text.now) }
    ensures { Lexes (chars text.now) result }
{
    let Some((first, rest)) = split_first(text) else {
        return Err(TokenizerError::IncompleteEscapeCode);
    };
    let kind = match first {
        '{' => TokenType::Open,
        '}' => TokenType::Close,
        '*' => TokenType::Asterisk,
        '+' | '?' => TokenType::OtherModifier,
        '\\' => return escaped_char(rest),
        ':' => return name(rest),
        '(' => return regexp(rest),
        _ => TokenType::Char,
    };
    Ok(Lexeme {
        kind,
        value: before(text, rest),
        rest,
    })
}

/// Reads the token that ends with the first character of `text`, which follows a backslash.
fn escaped_char(text: &str) -> Result<Lexeme<'_>, TokenizerError>
    ensures { Lexes (codes "\\" ++ chars text.now) result }
{
    match split_first(text) {
        None => Err(TokenizerError::IncompleteEscapeCode),
        Some((_, rest)) => Ok(Lexeme {
            kind: TokenType::EscapedChar,
            value: before(text, rest),
            rest,
        }),
    }
}

/// Reads the token that ends with the name at the beginning of `text`, which follows a colon.
fn name(text: &str) -> Result<Lexeme<'_>, TokenizerError>
    ensures { Lexes (codes ":" ++ chars text.now) result }
{
    match split_first(text) {
        Some((first, rest)) if is_name_start(first) => {
            let rest = skip::<NamePart>(rest);
            Ok(Lexeme {
                kind: TokenType::Name,
                value: before(text, rest),
                rest,
            })
        }
        _ => Err(TokenizerError::InvalidName),
    }
}

/// Reads the token that ends with the body of a custom regular expression and its `)` at the
/// beginning of `text`, which follows a `(`.
fn regexp(text: &str) -> Result<Lexeme<'_>, TokenizerError>
    ensures { Lexes (codes "(" ++ chars text.now) result }
{
    match split_first(text) {
        Some(('?', _)) => Err(TokenizerError::InvalidRegex(RegexFault::BadCharacter)),
        Some((')', _)) => Err(TokenizerError::InvalidRegex(RegexFault::Empty)),
        _ => regexp_body(text),
    }
}

/// Reads the token that ends with the body of a custom regular expression and its `)` at the
/// beginning of `text`, which follows a `(` and begins with neither `?` nor `)`.
fn regexp_body(text: &str) -> Result<Lexeme<'_>, TokenizerError>
    requires { ¬ BeginsWith (is_among (codes "?)")) (chars text.now) }
    ensures { Lexes (codes "(" ++ chars text.now) result }
{
    match split_body(text) {
        Ok((value, rest)) => Ok(Lexeme {
            kind: TokenType::Regexp,
            value,
            rest,
        }),
        Err(refused) => Err(refused.error),
    }
}

/// A kind of characters that `skip` leaves out, as a type.
trait CharKind {
    ghost test: { ℕ → Bool };

    /// Whether the character is of the kind.
    fn has(c: char) -> bool
        ensures { result ≡ test c };
}

/// The tabs, line feeds and carriage returns, which are skipped between tokens.
struct Ignored;

impl CharKind for Ignored {
    ghost test = { is_ignored };

    fn has(c: char) -> bool {
        matches!(c, '\t' | '\n' | '\r')
    }
}

/// The characters that a name may have after its first one.
struct NamePart;

impl CharKind for NamePart {
    ghost test = { is_name_part };

    fn has(c: char) -> bool {
        is_name_part(c)
    }
}

/// Returns the text without the characters of the kind `K` at its beginning.
fn skip<K: CharKind>(text: &str) -> &str
    ensures skips { SkipsBy K.test (chars text.now) (chars result.now) }
    ensures all { ¬ BeginsWith K.test (chars result.now) }
    ensures len { length result.now ≤ length text.now }
{
    let mut rest = text;
    while let Some((first, after)) = split_first(rest) {
        if !K::has(first) {
            break;
        }
        rest = after;
    }
    rest
}

/// Returns the text without the characters at its beginning that are skipped between tokens.
pub(super) fn skip_ignored(text: &str) -> &str
    ensures skips { Skips (chars text.now) (chars result.now) }
    ensures all { ¬ BeginsWith is_ignored (chars result.now) }
    ensures len { length result.now ≤ length text.now }
{
    skip::<Ignored>(text)
}
