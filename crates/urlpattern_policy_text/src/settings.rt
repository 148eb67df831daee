//! The settings of a policy's text.
ghost use Rattle.std.specs.List.{list_any};
ghost use Rattle.std.specs.Prelude.{◌≡◌, find, map, option_copied, option_map};
ghost use Rattle.urlpattern_policy_text.specs.Statements.{base_in, base_of, default_in, denies_credentials_in, is_like, is_spelled_plain_in, options_of, setting_view, sets_like, statement_view};

use crate::statement::{Setting, Statement};
use urlpattern_differences::Effect;
use urlpattern_policy::PolicyOptions;

/// Returns the options that the statements set. What they do not set is as in a new policy.
pub(crate) fn options_of(statements: &[Statement<'_>]) -> PolicyOptions
    ensures { result ≡ options_of (map statement_view statements.now) }
{
    PolicyOptions {
        default: default_in(find_like(statements, Setting::Default(Effect::Deny))),
        plain_spelling: is_spelled_plain_in(find_like(statements, Setting::PlainSpelling(true))),
        denies_credentials: denies_credentials_in(find_like(
            statements,
            Setting::DeniesCredentials(false),
        )),
    }
}

/// Returns the base URL that the statements set.
pub(crate) fn base_of<'t>(statements: &[Statement<'t>]) -> Option<&'t str>
    ensures { option_copied result ≡ base_of (map statement_view statements.now) }
{
    base_in(find_like(statements, Setting::Base("")))
}

/// Returns the base URL that a statement sets. `None`: it sets none.
pub(crate) fn base_in<'t>(statement: Option<Statement<'t>>) -> Option<&'t str>
    ensures { option_copied result ≡ base_in (option_map statement_view statement.entry) }
{
    match statement {
        Some(Statement::Setting(Setting::Base(text))) => Some(text),
        _ => None,
    }
}

/// Whether one of the statements makes a setting of the same kind as `sample`.
pub(crate) fn has_like(statements: &[Statement<'_>], sample: Setting<'_>) -> bool
    ensures { result
        ≡ list_any (λ statement. sets_like (setting_view sample.entry) (statement_view statement))
        statements.now }
{
    statements
        .iter()
        .any(|statement| sets_like(statement, sample))
}

/// Returns the first statement that makes a setting of the same kind as `sample`.
fn find_like<'t>(statements: &[Statement<'t>], sample: Setting<'_>) -> Option<Statement<'t>>
    ensures { option_map statement_view result
        ≡ find (sets_like (setting_view sample.entry)) (map statement_view statements.now) }
{
    find_statement(statements, sample).copied()
}

/// Returns the first statement that makes a setting of the same kind as `sample`, by reference.
fn find_statement<'s, 't>(
    statements: &'s [Statement<'t>],
    sample: Setting<'_>,
) -> Option<&'s Statement<'t>>
    ensures { option_copied result
        ≡ find (λ statement. sets_like (setting_view sample.entry) (statement_view statement))
        statements.now }
{
    statements
        .iter()
        .find(|statement| sets_like(statement, sample))
}

/// Whether a statement makes a setting of the same kind as `sample`.
fn sets_like(statement: &Statement<'_>, sample: Setting<'_>) -> bool
    ensures { result ≡ sets_like (setting_view sample.entry) (statement_view statement.now) }
{
    match statement {
        Statement::Setting(setting) => is_like(sample, *setting),
        _ => false,
    }
}

/// Whether two settings are of one kind.
fn is_like(sample: Setting<'_>, setting: Setting<'_>) -> bool
    ensures { result ≡ is_like (setting_view sample.entry) (setting_view setting.entry) }
{
    match (sample, setting) {
        (Setting::Default(_), Setting::Default(_)) => true,
        (Setting::Base(_), Setting::Base(_)) => true,
        (Setting::PlainSpelling(_), Setting::PlainSpelling(_)) => true,
        (Setting::DeniesCredentials(_), Setting::DeniesCredentials(_)) => true,
        _ => false,
    }
}

/// Returns the default that a statement sets. `None`: to deny.
fn default_in(statement: Option<Statement<'_>>) -> Effect
    ensures { result ≡ default_in (option_map statement_view statement.entry) }
{
    match statement {
        Some(Statement::Setting(Setting::Default(effect))) => effect,
        _ => Effect::Deny,
    }
}

/// Returns whether URLs are brought to their plain spelling by a statement. `None`: they are.
fn is_spelled_plain_in(statement: Option<Statement<'_>>) -> bool
    ensures { result ≡ is_spelled_plain_in (option_map statement_view statement.entry) }
{
    match statement {
        Some(Statement::Setting(Setting::PlainSpelling(is))) => is,
        _ => true,
    }
}

/// Returns whether credentials are denied by a statement. `None`: they are left to the rules.
fn denies_credentials_in(statement: Option<Statement<'_>>) -> bool
    ensures { result ≡ denies_credentials_in (option_map statement_view statement.entry) }
{
    match statement {
        Some(Statement::Setting(Setting::DeniesCredentials(is))) => is,
        _ => false,
    }
}
