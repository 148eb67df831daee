//! Texts with a backslash before each special character, and the regular expression of a segment
//! wildcard.
ghost use Rattle.std.specs.Prelude.{◌≡◌, ◌∷◌, [], IfOk};
ghost use Rattle.std.specs.Str.{chars};
ghost use Rattle.urlpattern_syntax.specs.{Errors.OnlyOutOfMemory, Options.options_view};
ghost use Rattle.urlpattern_syntax.specs.PatternText.{escaped_pattern, pattern_marks};
ghost use Rattle.urlpattern_syntax.specs.RegexpText.{escaped, escaped_regexp, regexp_marks, segment_wildcard};
ghost use Rattle.urlpattern_syntax.specs.Text.{is_among, text_of};
ghost use Rattle.urlpattern_syntax.specs.Writing.{escaped_text, marks_of};

use crate::error::Error;
use crate::parser::{Options, RegexSyntax};
use crate::text::{before, split_first};
use crate::writing::{Writable, Writer, written};
use std::alloc::Global;

/// Returns the text with a backslash before each character that is special in a pattern.
///
/// <https://urlpattern.spec.whatwg.org/#escape-a-pattern-string>
pub fn escape_pattern_string(alloc: Global, input: &str) -> Result<String, Error>
    ensures escaped { IfOk result (λ text. text_of text ≡ escaped_pattern (chars input.now)) }
    ensures memory { OnlyOutOfMemory result }
{
    Ok(written(alloc, &Escaped::pattern(input))?)
}

/// Which characters get a backslash before them.
#[derive(Clone, Copy)]
pub enum Marks {
    /// The special characters of regular expressions in this syntax.
    Regexp(RegexSyntax),
    /// The special characters of patterns.
    Pattern,
}

impl Marks {
    /// Whether the character gets a backslash before it.
    fn contain(self, c: char) -> bool
        ensures { result ≡ is_among (marks_of self) c }
    {
        match self {
            Self::Regexp(RegexSyntax::Rust) => is_regexp_mark(c),
            Self::Regexp(RegexSyntax::EcmaScript) => is_regexp_mark(c) || c == '/',
            Self::Pattern => is_pattern_mark(c),
        }
    }

    /// Writes the text with a backslash before each character that is among the marks. What is
    /// between two backslashes is written in one call.
    fn write_escaped<W: Writer>(self, text: &str, writer: &mut W)
        requires { W.Fits writer.old (escaped (marks_of self) (chars text.now)) }
        ensures { W.Writes writer.old (escaped (marks_of self) (chars text.now)) writer.new }
    {
        let mut unwritten = text;
        let mut rest = text;
        while let Some((first, after)) = split_first(rest) {
            if self.contain(first) {
                writer.write_str(before(unwritten, rest));
                writer.write_char('\\');
                unwritten = rest;
            }
            rest = after;
        }
        writer.write_str(unwritten);
    }
}

/// Whether the character is special in a regular expression of either syntax. A slash, which is
/// escaped for ECMAScript only, is left to the caller.
fn is_regexp_mark(c: char) -> bool
    ensures { result ≡ is_among regexp_marks c }
{
    matches!(
        c,
        '.' | '+' | '*' | '?' | '^' | '$' | '{' | '}' | '(' | ')' | '[' | ']' | '|' | '\\'
    )
}

/// Whether the character is special in a pattern text.
fn is_pattern_mark(c: char) -> bool
    ensures { result ≡ is_among pattern_marks c }
{
    matches!(c, '+' | '*' | '?' | ':' | '{' | '}' | '(' | ')' | '\\')
}

/// A text that is written with a backslash before each character that is among `marks`.
#[derive(Clone, Copy)]
pub struct Escaped<'a> {
    marks: Marks,
    text: &'a str,
}

impl<'a> Escaped<'a> {
    /// Returns a `Writable` that writes `text` escaped for a regular expression in the syntax of
    /// `options`.
    pub fn regexp(text: &'a str, options: &Options) -> Self
        ensures { escaped_text result ≡ escaped_regexp (options_view options.now) (chars text.now) }
    {
        Self {
            marks: Marks::Regexp(options.regex_syntax),
            text,
        }
    }

    /// Returns a `Writable` that writes `text` escaped for a pattern.
    pub fn pattern(text: &'a str) -> Self
        ensures { escaped_text result ≡ escaped_pattern (chars text.now) }
    {
        Self {
            marks: Marks::Pattern,
            text,
        }
    }
}

impl Writable for Escaped<'_> {
    ghost text = { escaped_text };

    #[tactic(auto, unfolding(crate::specs::Writing::escaped_text))]
    fn write_to<W: Writer>(&self, writer: &mut W) {
        self.marks.write_escaped(self.text, writer);
    }
}

/// Marks, and a character that is written with a backslash before it if it is among the marks.
#[derive(Clone, Copy)]
struct EscapedChar(Marks, char);

impl Writable for EscapedChar {
    ghost text = { λ piece. escaped (marks_of piece.0) (piece.1 ∷ []) };

    fn write_to<W: Writer>(&self, writer: &mut W) {
        if self.0.contain(self.1) {
            ('\\', self.1).write_to(writer);
        } else {
            writer.write_char(self.1);
        }
    }
}

/// The regular expression of a segment wildcard under these options: one or more characters other
/// than the delimiter, or `.+?` without a delimiter.
///
/// <https://urlpattern.spec.whatwg.org/#generate-a-segment-wildcard-regexp>
#[derive(Clone, Copy)]
pub struct SegmentWildcard<'a>(pub &'a Options);

impl Writable for SegmentWildcard<'_> {
    ghost text = { λ wildcard. segment_wildcard (options_view wildcard.0.now) };

    fn write_to<W: Writer>(&self, writer: &mut W) {
        let Some(delimiter) = self.0.delimiter_code_point else {
            return writer.write_str(".+?");
        };
        let delimiter = EscapedChar(Marks::Regexp(self.0.regex_syntax), delimiter);
        ("[^", delimiter, "]+?").write_to(writer);
    }
}
