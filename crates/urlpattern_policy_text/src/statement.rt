//! What the lines of a policy's text say.
ghost use Rattle.std.specs.List.{list_any};
ghost use Rattle.std.specs.Prelude.{◌≡◌};
ghost use Rattle.urlpattern_policy_text.specs.Statements.{after_word, begins_comment, chosen, has_comment, is_comment_next, is_control, is_skipped, is_unclear, said_by, setting_view, statement_of, statement_view, with_text, with_value, word_of};

use urlpattern_differences::Effect;

/// What a line of a policy's text says.
#[derive(Debug, Clone, Copy, PartialEq, Eq)]
pub enum Statement<'t> {
    /// Nothing: the line is empty, or a comment.
    Nothing,
    /// The URLs that the pattern with this text matches are denied or allowed.
    Rule(Effect, &'t str),
    /// A setting of the whole policy.
    Setting(Setting<'t>),
    /// Nothing that is understood.
    Fault(WordFault),
}

/// A setting of a policy, which holds for the whole text.
#[derive(Debug, Clone, Copy, PartialEq, Eq)]
pub enum Setting<'t> {
    /// What is decided about a URL that no rule matches.
    Default(Effect),
    /// The base URL of the patterns.
    Base(&'t str),
    /// Whether a URL is brought to its plain spelling before it is matched.
    PlainSpelling(bool),
    /// Whether a URL with a user name or a password is denied, whatever the rules say.
    DeniesCredentials(bool),
}

/// Why a line of a policy's text is not understood.
#[derive(Debug, Clone, Copy, PartialEq, Eq)]
pub enum WordFault {
    /// The first word is none of those that begin a line.
    UnknownWord,
    /// Nothing follows the word.
    MissingValue,
    /// What follows the word is none of its two values.
    UnknownValue,
    /// The pattern or the base URL has a control character, or a space before `#`: a comment needs
    /// a line of its own.
    UnclearValue,
}

/// Returns what a line says. White space at both ends is left out.
///
/// A line that is empty, or begins with `#`, says nothing. In any other the first word says what
/// follows it: the pattern of a rule that is allowed or denied, the base URL of the patterns, or
/// one of the two values of a setting.
pub fn statement_of(line: &str) -> Statement<'_>
    ensures { statement_view result ≡ statement_of line.now }
{
    let content = line.trim();
    if is_skipped(content) {
        return Statement::Nothing;
    }
    said_by(word_of(content), after_word(content))
}

/// Whether a line without white space at its ends says nothing.
fn is_skipped(content: &str) -> bool
    ensures { result ≡ is_skipped content.now }
{
    match content.as_bytes() {
        [] => true,
        [first, ..] => *first == b'#',
    }
}

/// Returns the first word, which ends before the first space.
fn word_of(content: &str) -> &str
    ensures { result.now ≡ word_of content.now }
{
    match content.split_once(' ') {
        Some((word, _)) => word,
        None => content,
    }
}

/// Returns what follows the first word, without white space at both ends.
pub(crate) fn after_word(content: &str) -> &str
    ensures { result.now ≡ after_word content.now }
{
    let rest = match content.split_once(' ') {
        Some((_, rest)) => rest,
        None => "",
    };
    rest.trim()
}

/// Returns what a word and its value say.
fn said_by<'t>(word: &str, value: &'t str) -> Statement<'t>
    ensures { statement_view result ≡ said_by word.now value.now }
{
    match word {
        "allow" => with_text(value, Statement::Rule(Effect::Allow, value)),
        "deny" => with_text(value, Statement::Rule(Effect::Deny, value)),
        "base" => with_text(value, Statement::Setting(Setting::Base(value))),
        "default" => chosen(
            value,
            "allow",
            "deny",
            Setting::Default(Effect::Allow),
            Setting::Default(Effect::Deny),
        ),
        "spelling" => chosen(
            value,
            "plain",
            "exact",
            Setting::PlainSpelling(true),
            Setting::PlainSpelling(false),
        ),
        "credentials" => chosen(
            value,
            "deny",
            "rules",
            Setting::DeniesCredentials(true),
            Setting::DeniesCredentials(false),
        ),
        _ => Statement::Fault(WordFault::UnknownWord),
    }
}

/// Returns what is said if there is a value.
fn with_value<'t>(value: &str, said: Statement<'t>) -> Statement<'t>
    ensures { statement_view result ≡ with_value value.now (statement_view said.entry) }
{
    if value.is_empty() {
        Statement::Fault(WordFault::MissingValue)
    } else {
        said
    }
}

/// Returns what is said with a value that may be any clear text.
fn with_text<'t>(value: &str, said: Statement<'t>) -> Statement<'t>
    ensures { statement_view result ≡ with_text value.now (statement_view said.entry) }
{
    if is_unclear(value) {
        return Statement::Fault(WordFault::UnclearValue);
    }
    with_value(value, said)
}

/// Whether it is not clear what a text is meant to be: it has a control character, or seems to have
/// a comment.
fn is_unclear(value: &str) -> bool
    ensures { result ≡ is_unclear value.now }
{
    has_control(value.as_bytes()) || has_comment(value.as_bytes())
}

/// Whether a text has a control character.
fn has_control(text: &[u8]) -> bool
    ensures { result ≡ list_any is_control text.now }
{
    text.iter().any(|byte| is_control(*byte))
}

/// Whether a byte is a control character.
fn is_control(byte: u8) -> bool
    ensures { result ≡ is_control byte }
{
    byte < 32 || byte == 127
}

/// Whether a comment seems to be in a text: a space is right before `#`.
fn has_comment(text: &[u8]) -> bool
    ensures { result ≡ has_comment text.now }
{
    for index in 0..text.len() {
        if is_comment_next(&text[index..]) {
            return true;
        }
    }
    false
}

/// Whether a text begins with a space and `#`.
fn is_comment_next(text: &[u8]) -> bool
    ensures { result ≡ is_comment_next text.now }
{
    match text {
        [] => false,
        [first, rest @ ..] => *first == b' ' && begins_comment(rest),
    }
}

/// Whether a text begins with `#`.
fn begins_comment(text: &[u8]) -> bool
    ensures { result ≡ begins_comment text.now }
{
    match text {
        [] => false,
        [first, ..] => *first == b'#',
    }
}

/// Returns the setting for the value `one`, or that for the value `other`.
fn chosen<'t>(
    value: &str,
    one: &str,
    other: &str,
    for_one: Setting<'t>,
    for_other: Setting<'t>,
) -> Statement<'t>
    ensures { statement_view result
        ≡ chosen value.now one.now other.now (setting_view for_one.entry)
        (setting_view for_other.entry) }
{
    if value == one {
        return Statement::Setting(for_one);
    }
    if value == other {
        return Statement::Setting(for_other);
    }
    with_value(value, Statement::Fault(WordFault::UnknownValue))
}
