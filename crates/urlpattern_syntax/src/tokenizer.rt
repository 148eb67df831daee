//! Tokens of a pattern text.
//!
//! <https://urlpattern.spec.whatwg.org/#tokens>
ghost use Rattle.std.specs.Prelude.{◌≡◌};
ghost use Rattle.urlpattern_syntax.specs.Text.{is_name_start, is_name_part};

use unicode::properties::{is_id_continue, is_id_start};

/// The kind of a token.
///
/// <https://urlpattern.spec.whatwg.org/#token-type>
#[derive(Debug, Clone, Copy, PartialEq, Eq)]
pub enum TokenType {
    /// `{`, which begins a group.
    Open,
    /// `}`, which ends a group.
    Close,
    /// A custom regular expression in parentheses.
    Regexp,
    /// A colon and a name.
    Name,
    /// A literal character.
    Char,
    /// A backslash and the character that it escapes.
    EscapedChar,
    /// `+` or `?`.
    OtherModifier,
    /// `*`, a full wildcard or a modifier.
    Asterisk,
    /// The end of the text.
    End,
    /// A character that begins no token.
    InvalidChar,
}

impl TokenType {
    ghost use Rattle.urlpattern_syntax.specs.ErrorText.{kind_name};

    /// Returns the name of the kind, as the message of an error prints the kind.
    pub fn name(&self) -> &'static str
        ensures { result.now ≡ kind_name self.now }
    {
        match self {
            TokenType::Open => "Open",
            TokenType::Close => "Close",
            TokenType::Regexp => "Regexp",
            TokenType::Name => "Name",
            TokenType::Char => "Char",
            TokenType::EscapedChar => "EscapedChar",
            TokenType::OtherModifier => "OtherModifier",
            TokenType::Asterisk => "Asterisk",
            TokenType::End => "End",
            TokenType::InvalidChar => "InvalidChar",
        }
    }
}

/// A token: its kind, its place and its value.
///
/// ```rust tokens
/// let tokens = tokenize(alloc, "/users/:id", TokenizePolicy::Strict)?;
/// ```
///
/// <https://urlpattern.spec.whatwg.org/#token>
#[derive(Debug, Clone, Copy)]
pub struct Token<'a> {
    /// The kind of the token.
    pub kind: TokenType,
    /// The byte index in the pattern text at which the token begins.
    pub index: usize,
    /// The value, a slice of the pattern text: a name without its colon, a custom regular
    /// expression without its parentheses, an escaped character without its backslash, for other
    /// kinds the whole token. `End` has an empty value.
    pub value: &'a str,
}

/// What the tokenizer does at a character at which no token begins.
///
/// <https://urlpattern.spec.whatwg.org/#tokenize-policy>
#[derive(Debug, PartialEq, Eq, Drop)]
pub enum TokenizePolicy {
    /// Returns an error.
    Strict,
    /// Makes the character a token of the kind `InvalidChar` and continues after it.
    Lenient,
}

/// Whether the name of a group may begin with the character: ID_Start, `$` or `_`.
///
/// <https://urlpattern.spec.whatwg.org/#is-a-valid-name-code-point>
#[tactic(auto, using(crate::proofs::NameCharacters::start_ascii, crate::proofs::NameCharacters::start_other))]
pub fn is_name_start(c: char) -> bool
    ensures { result ≡ is_name_start c }
{
    if c.is_ascii() {
        return c.is_ascii_alphabetic() || matches!(c, '$' | '_');
    }
    is_id_start(c)
}

/// Whether the name of a group may have the character after its first one: ID_Continue, `$`, U+200C
/// or U+200D.
#[tactic(auto, using(crate::proofs::NameCharacters::part_ascii, crate::proofs::NameCharacters::part_other))]
pub fn is_name_part(c: char) -> bool
    ensures { result ≡ is_name_part c }
{
    if c.is_ascii() {
        return c.is_ascii_alphanumeric() || matches!(c, '$' | '_');
    }
    is_id_continue(c) || matches!(c, '\u{200C}' | '\u{200D}')
}
