//! Whether a pattern covers another, as text or as JSON.

ghost use Rattle.std.specs.Prelude.{◌≡◌, ◌++◌, option_copied, string_bytes, IfOk, OnOk};
ghost use Rattle.urlpat_commands.specs.ComparisonTexts.{covering_lines, covering_shown, known_line};

use crate::comparison_json::covering_json;
use std::alloc::{AllocError, Global};
use urlpattern::ComponentName;
use urlpattern::rules::{Parting, Reason};

/// Returns whether a pattern covers another, as it is printed. `parting` shows that it does not.
pub fn covering_shown(
    alloc: Global,
    json: bool,
    parting: Option<&Parting>,
) -> Result<String, AllocError>
    ensures { IfOk result (λ text.
        string_bytes text ≡ covering_shown json (option_copied parting.entry)) }
{
    if json {
        covering_json(alloc, parting)
    } else {
        covering_text(alloc, parting)
    }
}

/// Returns whether a pattern covers another, as text: if not, which `parting` shows, a line with
/// the component in which they differ, and one for each text that is known of those that the asked
/// pattern matches.
fn covering_text(alloc: Global, parting: Option<&Parting>) -> Result<String, AllocError>
    ensures { IfOk result (λ text.
        string_bytes text ≡ covering_lines (option_copied parting.entry)) }
{
    let Some(found) = parting else {
        return String::from_str(alloc, "covered\n");
    };
    let component = found.component;
    let mut text = format!(in alloc; "not covered: {component}\n")?;
    for name in ComponentName::all() {
        push_known(&mut text, name, found.texts.get(name))?;
    }
    Ok(text)
}

/// Appends the line of a component whose text is known.
fn push_known(
    text: &mut String,
    name: ComponentName,
    known: &Option<String>,
) -> Result<(), AllocError>
    ensures { OnOk result
        (string_bytes text.new ≡ string_bytes text.old ++ known_line name known.now) }
{
    let Some(found) = known else {
        return Ok(());
    };
    text.push_str(name.as_str())?;
    text.push('=')?;
    text.push_str(found)?;
    text.push('\n')
}

/// A reason why it is not known whether a pattern covers another, in words that follow the name of
/// the component.
pub fn reason_text(reason: Reason) -> &'static str {
    match reason {
        Reason::CustomExpression => "has a custom expression that is not simple",
        Reason::IgnoredCase => "has a custom expression, and ignores case",
        Reason::TooMany => "would take too many steps to compare",
    }
}
