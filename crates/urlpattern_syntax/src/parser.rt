//! The parts of a pattern text, and the options with which it is parsed.
//!
//! <https://urlpattern.spec.whatwg.org/#parts-and-part-lists>
ghost use Rattle.std.specs.Prelude.{◌≡◌, IfOk, Some};
ghost use Rattle.std.specs.Str.{chars};
ghost use Rattle.urlpattern_syntax.specs.{Errors.OnlyOutOfMemory, Text.text_of};
ghost use Rattle.urlpattern_syntax.specs.Options.{default_options, hostname_options, options_view, pathname_options};
ghost use Rattle.urlpattern_syntax.specs.Parts.{fixed_text, part_view};
ghost use Rattle.urlpattern_syntax.specs.RegexpText.{escaped_regexp, modifier_text, segment_wildcard};

use crate::error::Error;
use crate::escape::{Escaped, SegmentWildcard};
use crate::writing::written;
use serde::{Deserialize, Serialize};
use std::alloc::Global;
use std::fmt;

/// The regular expression of a full wildcard, which is greedy.
///
/// <https://urlpattern.spec.whatwg.org/#full-wildcard-regexp-value>
pub const FULL_WILDCARD_REGEXP_VALUE: &str = ".*";

/// The syntax of generated regular expressions.
///
/// In JSON a syntax is its name. One of the options of a component:
///
/// ```rust syntax
/// regex_syntax: RegexSyntax::EcmaScript,
/// ```
#[derive(Clone, Copy, Debug, Default, PartialEq, Eq, Deserialize, Serialize)]
pub enum RegexSyntax {
    /// The syntax of Rust's crate `regex`, in which a slash is not escaped. The default.
    #[default]
    Rust,
    /// The syntax of ECMAScript, in which a slash is escaped. Whether a custom regular expression
    /// is valid is decided by the engine.
    EcmaScript,
}

/// How a component's pattern text is parsed.
///
/// ```rust options
/// let options = Options {
///     regex_syntax: RegexSyntax::EcmaScript,
///     ignore_case: true,
///     ..Options::pathname(alloc)?
/// };
/// ```
///
/// <https://urlpattern.spec.whatwg.org/#options-header>
#[derive(Debug, Clone, Drop)]
pub struct Options {
    /// The character that ends a segment. A name without a regular expression matches one segment,
    /// or, without a delimiter, any non-empty text without line feed.
    pub delimiter_code_point: Option<char>,
    /// The character that becomes the prefix of a name, a regular expression or an asterisk
    /// directly after it. Empty: no character does.
    pub prefix_code_point: String,
    /// The syntax of the generated regular expression.
    pub regex_syntax: RegexSyntax,
    /// Whether the case of ASCII letters is ignored: by a matcher itself, and by its engine if that
    /// honours the flag `i`.
    pub ignore_case: bool,
}

impl Options {
    /// Returns the options of most components: no delimiter and no prefix code point.
    ///
    /// <https://urlpattern.spec.whatwg.org/#default-options>
    pub fn default(alloc: Global) -> Self
        ensures { options_view result ≡ default_options }
    {
        Self {
            delimiter_code_point: None,
            prefix_code_point: String::new(alloc),
            regex_syntax: RegexSyntax::Rust,
            ignore_case: false,
        }
    }

    /// Returns the options of a hostname: a dot is the delimiter, and there is no prefix code
    /// point.
    ///
    /// <https://urlpattern.spec.whatwg.org/#hostname-options>
    pub fn hostname(alloc: Global) -> Self
        ensures { options_view result ≡ hostname_options }
    {
        Self {
            delimiter_code_point: Some('.'),
            ..Self::default(alloc)
        }
    }

    /// Returns the options of a pathname: a slash is the delimiter and the prefix code point.
    ///
    /// <https://urlpattern.spec.whatwg.org/#pathname-options>
    pub fn pathname(alloc: Global) -> Result<Self, Error>
        ensures ok { IfOk result (λ options. options_view options ≡ pathname_options) }
        ensures memory { OnlyOutOfMemory result }
    {
        Ok(Self {
            delimiter_code_point: Some('/'),
            prefix_code_point: String::from_str(alloc, "/")?,
            regex_syntax: RegexSyntax::Rust,
            ignore_case: false,
        })
    }

    /// Returns the text with a backslash before each character that is special in a regular
    /// expression in the syntax of the options.
    ///
    /// <https://urlpattern.spec.whatwg.org/#escape-a-regexp-string>
    pub fn escape_regexp_string(&self, alloc: Global, input: &str) -> Result<String, Error>
        ensures escaped { IfOk result (λ text.
            text_of text ≡ escaped_regexp (options_view self.now) (chars input.now)) }
        ensures memory { OnlyOutOfMemory result }
    {
        Ok(written(alloc, &Escaped::regexp(input, self))?)
    }

    /// Returns the regular expression of a segment wildcard: one or more characters other than the
    /// delimiter, or `.+?` without a delimiter.
    ///
    /// <https://urlpattern.spec.whatwg.org/#generate-a-segment-wildcard-regexp>
    pub fn generate_segment_wildcard_regexp(&self, alloc: Global) -> Result<String, Error>
        ensures wildcard { IfOk result (λ text.
            text_of text ≡ segment_wildcard (options_view self.now)) }
        ensures memory { OnlyOutOfMemory result }
    {
        Ok(written(alloc, &SegmentWildcard(self))?)
    }
}

/// What a part matches.
///
/// <https://urlpattern.spec.whatwg.org/#part-type>
#[derive(Debug, PartialEq, Eq, Drop)]
pub enum PartType {
    /// The literal text `value` of the part.
    FixedText,
    /// What the custom regular expression `value` matches.
    Regexp,
    /// A non-empty text without the delimiter or, if the options have no delimiter, without line
    /// feed.
    SegmentWildcard,
    /// Any text without line feed, written `.*` in the regular expression.
    FullWildcard,
}

/// How often a part may occur in a row.
///
/// <https://urlpattern.spec.whatwg.org/#part-modifier>
#[derive(Debug, Clone, Copy, PartialEq, Eq)]
pub enum PartModifier {
    /// Once.
    None,
    /// Once or not at all.
    Optional,
    /// Any number of times.
    ZeroOrMore,
    /// At least once.
    OneOrMore,
}

impl PartModifier {
    /// Returns the sign of the modifier in patterns and regular expressions, empty for `None`.
    #[tactic(auto, using(crate::proofs::TextLemmas::modifier_chars))]
    pub fn as_str(&self) -> &'static str
        ensures bytes { result.now ≡ modifier_text self.now }
        ensures text { chars result.now ≡ modifier_text self.now }
    {
        match self {
            Self::None => "",
            Self::Optional => "?",
            Self::ZeroOrMore => "*",
            Self::OneOrMore => "+",
        }
    }
}

/// Writes the sign of the modifier in patterns, nothing for `None`.
///
/// <https://urlpattern.spec.whatwg.org/#convert-a-modifier-to-a-string>
impl fmt::Display for PartModifier {
    ghost output = { λ modifier. Some (modifier_text modifier) };

    fn fmt<W: fmt::Write>(&self, f: &mut fmt::Formatter<W>) -> fmt::Result {
        f.write_str(self.as_str())
    }
}

/// A part of a pattern.
///
/// With `printed_and_read` as a function that prints parts and parses the text again:
///
/// ```rust printed
/// let options = Options::pathname(alloc)?;
/// let copied = |text: &str| -> Result<String, Error> { Ok(String::from_str(alloc, text)?) };
/// let parts = parse_pattern_string(alloc, "/users/:id([^/]+?)/edit", &options, copied)?;
/// let again = printed::printed_and_read(alloc, &parts, &options)?;
/// generate_pattern_string(alloc, &again, &options)
/// ```
///
/// <https://urlpattern.spec.whatwg.org/#part>
#[derive(Debug, Drop)]
pub struct Part {
    /// What the part matches.
    pub kind: PartType,
    /// The literal text of a fixed text, the text of a custom regular expression, otherwise empty.
    pub value: String,
    /// How often the part may occur.
    pub modifier: PartModifier,
    /// The name of the group, a number if the pattern text gives none; empty for a fixed text.
    pub name: String,
    /// The text before each occurrence, empty for a fixed text.
    pub prefix: String,
    /// The text after each occurrence, empty for a fixed text.
    pub suffix: String,
}

impl Part {
    /// Returns a part that matches the literal text `value`, as often as the modifier allows. Does
    /// not allocate.
    pub fn fixed(alloc: Global, value: String, modifier: PartModifier) -> Self
        ensures { part_view result ≡ fixed_text (text_of value) modifier }
    {
        Part {
            kind: PartType::FixedText,
            value,
            modifier,
            name: String::new(alloc),
            prefix: String::new(alloc),
            suffix: String::new(alloc),
        }
    }
}
