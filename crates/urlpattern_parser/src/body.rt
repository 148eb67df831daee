//! Splits a text after the body of a custom regular expression.
ghost use Rattle.std.specs.Prelude.{◌≡◌, ◌++◌, codes, IfErr, IfOk, None, Some};
ghost use Rattle.std.specs.Str.{chars};
ghost use Rattle.urlpattern_parser.specs.Bodies.{IsBodyError};
ghost use Rattle.urlpattern_syntax.specs.declared.error.TokenizerError.TheVariants as errors;
ghost use Rattle.urlpattern_syntax.specs.Text.{BeginsWith, is_among};
ghost use Rattle.urlpattern_syntax.specs.Tokens.{IsLexed};
ghost use Rattle.urlpattern_syntax.specs.declared.tokenizer.TokenType.TheVariants.{Regexp};

use urlpattern_syntax::error::{RegexFault, TokenizerError};
use urlpattern_syntax::text::{before, split_first};

/// Where and why a text does not begin with the body of a custom regular expression.
#[derive(Drop)]
pub struct BodyError<'a> {
    /// The rest of the text from the invalid bytes on, and how many bytes are invalid. `None`: no
    /// byte is invalid, and the text ends before the body does.
    pub invalid_bytes: Option<(&'a str, usize)>,
    /// The error that is reported.
    pub error: TokenizerError,
}

/// Splits a text that follows a `(` into the body of a custom regular expression, which the next
/// unmatched `)` closes, and the text after that parenthesis. The text begins with neither `?` nor
/// `)`.
pub fn split_body(text: &str) -> Result<(&str, &str), BodyError<'_>>
    requires { ¬ BeginsWith (is_among (codes "?)")) (chars text.now) }
    ensures body { IfOk result (λ found.
        IsLexed (codes "(" ++ chars text.now) Regexp (chars found.0.now) (chars found.1.now)) }
    ensures refused { IfErr result (IsBodyError text.now) }
{
    let mut rest = text;
    let mut depth = 0usize;
    while let Some((first, after)) = split_first(rest) {
        match first {
            '\\' => match split_first(after) {
                Some((escaped, next)) if escaped.is_ascii() => rest = next,
                Some((escaped, _)) => {
                    return Err(invalid(rest, 1 + escaped.len_utf8(), RegexFault::BadEscape));
                }
                None => return Err(unfinished(TokenizerError::IncompleteEscapeCode)),
            },
            '(' => match split_first(after) {
                Some(('?', next)) => {
                    rest = next;
                    depth += 1;
                }
                Some(_) => return Err(invalid(rest, 1, RegexFault::NestedGroupCaptures)),
                None => return Err(invalid(rest, 1, RegexFault::NestedGroupNotClosed)),
            },
            ')' => {
                if depth == 0 {
                    return Ok((before(text, rest), after));
                }
                rest = after;
                depth -= 1;
            }
            _ if first.is_ascii() => rest = after,
            _ => return Err(invalid(rest, first.len_utf8(), RegexFault::BadCharacter)),
        }
    }
    let error = TokenizerError::InvalidRegex(RegexFault::MissingClose);
    Err(unfinished(error))
}

/// Returns the refusal of the first `len` bytes of `rest`, for the reason `fault`.
fn invalid(rest: &str, len: usize, fault: RegexFault) -> BodyError<'_>
    ensures { result
        ≡ record { invalid_bytes = Some (rest.entry, len); error = errors.InvalidRegex fault } }
{
    BodyError {
        invalid_bytes: Some((rest, len)),
        error: TokenizerError::InvalidRegex(fault),
    }
}

/// Returns the refusal of a text that ends before its body does, with the error `error`.
fn unfinished<'a>(error: TokenizerError) -> BodyError<'a>
    ensures { result ≡ record { invalid_bytes = None; error = error } }
{
    BodyError {
        invalid_bytes: None,
        error,
    }
}
