//! The strict tokens of a text, one by one. A fault of a text is a `TokenizerError`: no token
//! begins at a place of the text.
ghost use Rattle.std.specs.Prelude.{◌≡◌, ◌≤◌, ◌+◌, List, length, IfOk, IfErr, OnOk};
ghost use Rattle.std.specs.Str.{chars};
ghost use Rattle.urlpattern_syntax.specs.Cursors.{AreCharactersBefore, AreTokensAfter, IsPlace, is_char_token, tokens_left};
ghost use Rattle.urlpattern_parser.specs.CursorTexts.{GivesToken, cursor_rest, cursor_text};
ghost use Rattle.urlpattern_syntax.specs.Text.{BeginsAt};
ghost use Rattle.urlpattern_syntax.specs.Tokens.{Skips, ReportsFault, TokenView};

use super::lexemes::{next_lexeme, skip_ignored};
use super::{Token, TokenType};
use urlpattern_syntax::error::Error;
use urlpattern_syntax::text::{before, split_first};

/// A place between the tokens of a text, from which its strict tokens are read one by one.
///
/// <https://urlpattern.spec.whatwg.org/#tokenizer>
#[derive(Clone, Copy)]
pub(crate) struct Cursor<'a> {
    input: &'a str,
    rest: &'a str,
}

impl<'a> Cursor<'a> {
    /// Returns the place before the first token of a text.
    pub(crate) fn new(input: &'a str) -> Self
        ensures whole { result.input.now ≡ input.now }
        ensures skips { Skips (chars input.now) (chars result.rest.now) }
        ensures place { IsPlace (chars input.now) (chars result.rest.now) }
        ensures len { length result.rest.now ≤ length input.now }
    {
        Cursor {
            input,
            rest: skip_ignored(input),
        }
    }

    /// Returns the token after this place, and moves after it. After the last token every call
    /// returns `End`.
    ///
    /// The error is the first fault of the text. On an error the place stays as it was.
    pub(crate) fn next(&mut self) -> Result<Token<'a>, Error>
        requires { IsPlace (cursor_text self.old) (cursor_rest self.old) }
        ensures whole { self.new.input.now ≡ self.old.input.now }
        ensures place { OnOk result (IsPlace (cursor_text self.old) (cursor_rest self.new)) }
        ensures token { IfOk result (λ token. GivesToken self.old token self.new) }
        ensures len { IfOk result (λ token.
            length self.new.rest.now + tokens_left token.kind ≤ length self.old.rest.now) }
        ensures fault { IfErr result (ReportsFault (cursor_text self.old)) }
    {
        let place = place_of(self.input, self.rest);
        if self.rest.is_empty() {
            return Ok(Token {
                kind: TokenType::End,
                index: place,
                value: self.rest,
            });
        }
        match next_lexeme(self.rest) {
            Ok(lexeme) => {
                let token = Token {
                    kind: lexeme.kind,
                    index: place,
                    value: lexeme.value,
                };
                self.rest = skip_ignored(lexeme.rest);
                Ok(token)
            }
            Err(fault) => Err(Error::Tokenizer(fault, place)),
        }
    }

    /// Consumes the literal characters after this place, except for the last of them, and returns
    /// those that were consumed.
    ///
    /// A literal character is a `Char` token. The result is empty where fewer than two follow.
    pub(crate) fn characters(&mut self) -> &'a str
        requires { IsPlace (cursor_text self.old) (cursor_rest self.old) }
        ensures whole { self.new.input.now ≡ self.old.input.now }
        ensures place { IsPlace (cursor_text self.old) (cursor_rest self.new) }
        ensures before { AreCharactersBefore (cursor_rest self.old) (chars result.now)
            (cursor_rest self.new) }
        ensures len { length self.new.rest.now ≤ length self.old.rest.now }
    {
        let mut last = self.rest;
        let mut rest = self.rest;
        while let Some((first, after)) = split_first(rest) {
            if !is_char_token(first) {
                break;
            }
            last = rest;
            rest = after;
        }
        let characters = before(self.rest, last);
        self.rest = last;
        characters
    }

    /// Reads all tokens after this place, to find a fault. Does not allocate.
    ///
    /// The error is the first fault of the text.
    pub(crate) fn read_to_end(&self) -> Result<(), Error>
        requires { IsPlace (cursor_text self.now) (cursor_rest self.now) }
        ensures tokens { OnOk result ((tokens : List TokenView)
            × AreTokensAfter (cursor_text self.now) (cursor_rest self.now) tokens) }
        ensures fault { IfErr result (ReportsFault (cursor_text self.now)) }
    {
        let mut cursor = *self;
        loop {
            let token = cursor.next()?;
            if token.kind == TokenType::End {
                return Ok(());
            }
        }
    }
}

/// Returns the byte index in `input` at which `rest`, the end of `input`, begins.
fn place_of(input: &str, rest: &str) -> usize
    requires { IsPlace (chars input.now) (chars rest.now) }
    ensures { BeginsAt (chars input.now) (chars rest.now) result }
{
    input.len() - rest.len()
}

/// Whether a character is a `Char` token by itself: it does not begin another token, and is not
/// skipped between tokens.
fn is_char_token(c: char) -> bool
    ensures { result ≡ is_char_token c }
{
    !matches!(
        c,
        '{' | '}' | '*' | '+' | '?' | '\\' | ':' | '(' | '\t' | '\n' | '\r'
    )
}
