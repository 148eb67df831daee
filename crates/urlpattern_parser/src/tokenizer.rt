//! The tokens of a pattern text. A fault of a text is a `TokenizerError`: no token begins at a
//! place of the text.
//!
//! <https://urlpattern.spec.whatwg.org/#tokens>
ghost use Rattle.std.specs.Prelude.{map, IfOk, IfErr};
ghost use Rattle.std.specs.Str.{chars};
ghost use Rattle.urlpattern_syntax.specs.Tokens.{AreTokensUnder, ReportsFaultUnder, token_view};

mod cursors;
mod lexemes;

pub(crate) use cursors::Cursor;
use lexemes::{next_token, skip_ignored};
use std::alloc::Global;
use urlpattern_syntax::error::Error;
pub use urlpattern_syntax::tokenizer::{
    Token, TokenType, TokenizePolicy, is_name_part, is_name_start,
};

/// Cuts a text into tokens, the last of them `End`.
///
/// The error is that memory ran out or, under the strict policy, the first fault of the text with
/// its place in bytes. The lenient policy accepts every text.
///
/// <https://urlpattern.spec.whatwg.org/#tokenize>
pub fn tokenize<'a>(
    alloc: Global,
    input: &'a str,
    policy: TokenizePolicy,
) -> Result<Vec<Token<'a>>, Error>
    ensures tokens { IfOk result (λ tokens.
        AreTokensUnder policy (chars input.now) (map token_view tokens.items)) }
    ensures fault { IfErr result (ReportsFaultUnder policy (chars input.now)) }
{
    let mut tokens = Vec::new(alloc);
    let mut rest = skip_ignored(input);
    while !rest.is_empty() {
        let index = input.len() - rest.len();
        match next_token(rest, &policy) {
            Ok(lexeme) => {
                let token = Token {
                    kind: lexeme.kind,
                    index,
                    value: lexeme.value,
                };
                tokens.push(token)?;
                rest = skip_ignored(lexeme.rest);
            }
            Err(fault) => return Err(Error::Tokenizer(fault, index)),
        }
    }
    let end = Token {
        kind: TokenType::End,
        index: input.len(),
        value: rest,
    };
    tokens.push(end)?;
    Ok(tokens)
}
