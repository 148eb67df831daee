//! Writes the text of a policy.
ghost use Rattle.std.specs.List.{list_any};
ghost use Rattle.std.specs.Prelude.{◌≡◌, ◌==◌, ◌<◌, IfOk, Some, codes, length, option_map, slice_index, string_bytes};
ghost use Rattle.urlpattern_policy_text.specs.Statements.{statement_view};
ghost use Rattle.urlpattern_policy_text.specs.WrittenPolicies.{IsLineAt, IsLineOf, IsRuleString, IsTextOf, credentials_line, default_line, has_rule_options, is_rule, is_same, line_of, rule_word, says_rule, settings_text, spelling_line};

use crate::statement::{Statement, statement_of};
use std::alloc::{AllocError, Global};
use urlpattern::UrlPatternMap;
use urlpattern_differences::Effect;
use urlpattern_matcher::regexp::RegExp;
use urlpattern_pattern::UrlPattern;
use urlpattern_policy::{PolicyOptions, UrlPolicy};
use urlpattern_syntax::RegexSyntax;
use urlpattern_syntax::error::OutOfMemory;

/// Returns the text of a policy: a line for each option that is not as in a new policy, and one for
/// each rule, which by itself is read as this rule.
///
/// `None`: the pattern of a rule has no constructor string that reads back, or was compiled under
/// other options than the default ones.
pub fn text_of_policy<R: RegExp>(
    alloc: Global,
    policy: &UrlPolicy<R>,
) -> Result<Option<String>, OutOfMemory>
    ensures { IfOk result (λ found.
        IsTextOf R.RegExp policy.now (option_map string_bytes found)) }
{
    let mut text = settings_text(alloc, policy.options)?;
    for index in 0..policy.rules.len() {
        let found = rule_line_at(alloc, &policy.rules, index)?;
        match found {
            Some(line) => {
                text.push_str(&line)?;
                drop(line);
            }
            None => {
                drop(text);
                return Ok(None);
            }
        }
    }
    Ok(Some(text))
}

/// Returns a line for each option that is not as in a new policy.
fn settings_text(alloc: Global, options: PolicyOptions) -> Result<String, AllocError>
    ensures { IfOk result (λ text. string_bytes text ≡ settings_text options) }
{
    let mut text = String::new(alloc);
    text.push_str(default_line(options.default))?;
    text.push_str(spelling_line(options.plain_spelling))?;
    text.push_str(credentials_line(options.denies_credentials))?;
    Ok(text)
}

/// Returns the line for what is decided where no rule matches, or nothing if that is to deny.
fn default_line(default: Effect) -> &'static str
    ensures { result.now ≡ default_line default }
{
    match default {
        Effect::Allow => "default allow\n",
        Effect::Deny => "",
    }
}

/// Returns the line for whether URLs are brought to their plain spelling, or nothing if they are.
fn spelling_line(plain: bool) -> &'static str
    ensures { result.now ≡ spelling_line plain }
{
    if plain { "" } else { "spelling exact\n" }
}

/// Returns the line for whether credentials are denied, or nothing if they are left to the rules.
fn credentials_line(denied: bool) -> &'static str
    ensures { result.now ≡ credentials_line denied }
{
    if denied { "credentials deny\n" } else { "" }
}

/// Returns the line of the rule at the index. `None`: it has none.
fn rule_line_at<R: RegExp>(
    alloc: Global,
    rules: &UrlPatternMap<Effect, R>,
    index: usize,
) -> Result<Option<String>, OutOfMemory>
    requires { index < length rules.now }
    ensures { IfOk result (λ line.
        IsLineAt R.RegExp rules.now index (option_map string_bytes line)) }
{
    match rules.get(index) {
        Some((pattern, effect)) => rule_line(alloc, pattern, *effect),
        None => Ok(None),
    }
}

/// Returns the line of a rule. `None`: it has none.
fn rule_line<R: RegExp>(
    alloc: Global,
    pattern: &UrlPattern<R>,
    effect: Effect,
) -> Result<Option<String>, OutOfMemory>
    ensures { IfOk result (λ line.
        IsLineOf R.RegExp (pattern.now, effect) (option_map string_bytes line)) }
{
    let found = rule_string(alloc, pattern)?;
    match found {
        Some(string) => {
            let line = line_of(alloc, effect, &string)?;
            drop(string);
            Ok(line)
        }
        None => Ok(None),
    }
}

/// Returns the constructor string of a pattern with the options of rules in texts. `None`: it has
/// none, or other options.
fn rule_string<R: RegExp>(
    alloc: Global,
    pattern: &UrlPattern<R>,
) -> Result<Option<String>, OutOfMemory>
    ensures { IfOk result (λ string.
        IsRuleString R.RegExp pattern.now (option_map string_bytes string)) }
{
    if !has_rule_options(pattern) {
        return Ok(None);
    }
    match pattern.to_constructor_string(alloc) {
        Ok(string) => Ok(string),
        Err(_) => Err(OutOfMemory),
    }
}

/// Returns the line of the rule whose pattern has this constructor string. `None`: the line does
/// not read back as the rule.
fn line_of(alloc: Global, effect: Effect, string: &str) -> Result<Option<String>, AllocError>
    ensures { IfOk result (λ line.
        option_map string_bytes line ≡ line_of effect (Some string.now)) }
{
    let mut line = String::new(alloc);
    line.push_str(rule_word(effect))?;
    line.push_str(string)?;
    if !says_rule(&line, effect, string) {
        drop(line);
        return Ok(None);
    }
    line.push_str("\n")?;
    Ok(Some(line))
}

/// Returns the word of a rule with this effect, and a space.
fn rule_word(effect: Effect) -> &'static str
    ensures { result.now ≡ rule_word effect }
{
    match effect {
        Effect::Allow => "allow ",
        Effect::Deny => "deny ",
    }
}

/// Whether a text is one line, which says the rule with this pattern.
fn says_rule(text: &str, effect: Effect, string: &str) -> bool
    ensures { result ≡ says_rule effect string.now text.now }
{
    !has_line_end(text) && is_rule(statement_of(text), effect, string)
}

/// Whether a text has a line end.
fn has_line_end(text: &str) -> bool
    ensures { result ≡ list_any (λ byte. byte == slice_index (codes "\n") 0) text.now }
{
    text.as_bytes().iter().any(|byte| *byte == b'\n')
}

/// Whether a statement is the rule with this pattern.
fn is_rule(statement: Statement<'_>, effect: Effect, string: &str) -> bool
    ensures { result ≡ is_rule effect string.now (statement_view statement.entry) }
{
    match statement {
        Statement::Rule(own, text) => is_same(own, effect) && text == string,
        _ => false,
    }
}

/// Whether two effects are one.
fn is_same(effect: Effect, other: Effect) -> bool
    ensures { result ≡ is_same effect other }
{
    match (effect, other) {
        (Effect::Allow, Effect::Allow) | (Effect::Deny, Effect::Deny) => true,
        _ => false,
    }
}

/// Whether a pattern was compiled under the options of rules in texts.
pub(crate) fn has_rule_options<R: RegExp>(pattern: &UrlPattern<R>) -> bool
    ensures { result ≡ has_rule_options pattern.now }
{
    match pattern.options() {
        Some(options) => match options.regex_syntax {
            RegexSyntax::Rust => !options.ignore_case,
            RegexSyntax::EcmaScript => false,
        },
        None => false,
    }
}
