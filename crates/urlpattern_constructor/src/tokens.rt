//! A constructor string with its tokens, and the signs among them.
ghost use Rattle.std.specs.Prelude.{◌≡◌, ◌+◌, ◌^◌, ◌<◌, ◌≤◌, ◌∷◌, [], length, Some};
ghost use Rattle.std.specs.Str.{bytes_eq, chars};
ghost use Rattle.urlpattern_constructor.specs.Split.{IsSplitTextBetween, IsTextBetween, implied, passes_at, follows_modified, has_slashes, is_character, is_search_prefix, is_non_special_pattern_char, takes_modifier};
ghost use Rattle.urlpattern_constructor.specs.Splitting.{IsSource, split_text_view, text_of_source, tokens_of};

use urlpattern_syntax::tokenizer::{Token, TokenType};

/// A constructor string and its lenient tokens.
#[derive(Clone, Copy)]
pub struct Source<'t, 'a> {
    pub input: &'a str,
    pub tokens: &'t [Token<'a>],
}

/// The text of a component in a constructor string.
#[derive(Clone, Copy)]
pub struct SplitText<'a> {
    /// The text.
    pub text: &'a str,
    /// The byte at which the string has the text. `None`: the string only implies the text.
    pub start: Option<usize>,
}

impl<'a> SplitText<'a> {
    /// Returns a text that the string implies and does not have.
    pub fn implied(text: &'a str) -> Self
        ensures { Some (split_text_view result) ≡ implied (chars text.now) }
    {
        SplitText { text, start: None }
    }
}

impl<'t, 'a> Source<'t, 'a> {
    /// Whether there is a token at `index` and it is the ASCII character `mark`: literal, escaped,
    /// or one at which no other token begins, such as the colon of `http://`.
    pub fn is_non_special_pattern_char(&self, index: usize, mark: u8) -> bool
        requires { mark < 128 }
        ensures { result
            ≡ passes_at (is_non_special_pattern_char (mark ∷ [])) (tokens_of self.now) index }
    {
        match self.tokens.get(index) {
            Some(token) => is_character(token.kind) && is_mark(token.value, mark),
            None => false,
        }
    }

    /// Whether the token at `index` is a question mark that begins the search: a character, such as
    /// an escaped one, or not a modifier of the token before it.
    ///
    /// <https://urlpattern.spec.whatwg.org/#is-a-search-prefix>
    pub fn is_search_prefix(&self, index: usize) -> bool
        ensures { result ≡ is_search_prefix (tokens_of self.now) index }
    {
        match self.tokens.get(index) {
            Some(token) => {
                is_mark(token.value, b'?')
                    && (is_character(token.kind) || !self.follows_modified(index))
            }
            None => false,
        }
    }

    /// Whether a question mark at `index` would modify the token before it.
    fn follows_modified(&self, index: usize) -> bool
        ensures { result ≡ follows_modified (tokens_of self.now) index }
    {
        if index == 0 {
            return false;
        }
        match self.tokens.get(index - 1) {
            Some(token) => takes_modifier(token.kind),
            None => false,
        }
    }

    /// Whether the two tokens after the token at `index` are slashes.
    ///
    /// <https://urlpattern.spec.whatwg.org/#next-is-authority-slashes>
    pub fn has_slashes(&self, index: usize) -> bool
        requires { index + 2 < 2 ^ 64 }
        ensures { result ≡ has_slashes (tokens_of self.now) index }
    {
        self.is_non_special_pattern_char(index + 1, b'/')
            && self.is_non_special_pattern_char(index + 2, b'/')
    }

    /// Returns the text from the token at index `from` up to the token at index `until`, exclusive,
    /// with where it begins.
    ///
    /// <https://urlpattern.spec.whatwg.org/#make-a-component-string>
    pub fn split_text(&self, from: usize, until: usize) -> SplitText<'a>
        requires source { IsSource self.now }
        requires order { from ≤ until }
        requires within { until < length self.now.tokens.now }
        ensures { IsSplitTextBetween (text_of_source self.now) (tokens_of self.now) from until
            (split_text_view result) }
    {
        SplitText {
            text: self.text_between(from, until),
            start: Some(self.tokens[from].index),
        }
    }

    /// Returns the text from the token at index `from` up to the token at index `until`, exclusive.
    fn text_between(&self, from: usize, until: usize) -> &'a str
        requires source { IsSource self.now }
        requires order { from ≤ until }
        requires within { until < length self.now.tokens.now }
        ensures { IsTextBetween (text_of_source self.now) (tokens_of self.now) from until
            (chars result.now) }
    {
        &self.input[self.tokens[from].index..self.tokens[until].index]
    }
}

/// Whether a token of the kind is a character: literal, escaped, or one at which no other token
/// begins.
///
/// <https://urlpattern.spec.whatwg.org/#is-a-non-special-pattern-char>
fn is_character(kind: TokenType) -> bool
    ensures { result ≡ is_character kind }
{
    matches!(
        kind,
        TokenType::Char | TokenType::EscapedChar | TokenType::InvalidChar
    )
}

/// Whether a question mark after a token of the kind is a modifier.
fn takes_modifier(kind: TokenType) -> bool
    ensures { result ≡ takes_modifier kind }
{
    matches!(
        kind,
        TokenType::Name | TokenType::Regexp | TokenType::Close | TokenType::Asterisk
    )
}

/// Whether the text is the single ASCII character `mark`.
fn is_mark(text: &str, mark: u8) -> bool
    requires { mark < 128 }
    ensures { result ≡ bytes_eq (chars text.now) (mark ∷ []) }
{
    text.as_bytes() == [mark].as_slice()
}
