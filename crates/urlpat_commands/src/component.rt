//! The command `component`.

ghost use Rattle.std.specs.Prelude.{◌≡◌, ◌≢◌, ◌⊎◌, map, string_bytes, IfErr, IfOk};
ghost use Rattle.urlpat_commands.specs.ComponentAnswers.{CopiesBytes, IsComponentAnswered, IsComponentText, PrintsComponent, RejectsComponentText, component_lines, kind_options};
ghost use Rattle.urlpattern.specs.Errors.{MemoryOr, OnlyOutOfMemory};
ghost use Rattle.urlpattern.specs.Options.{options_view};

use crate::failure::refuse;
use std::alloc::{AllocError, Global};
use std::io::Write;
use urlpat_matching::{Command, ComponentArguments, DONE, FAILED, Flags, Kind, print};
use urlpattern::component::{generate_pattern_string, generate_regular_expression_and_name_list};
use urlpattern::error::OutOfMemory;
use urlpattern::parser::{Options, parse_pattern_string};
use urlpattern::{ComponentName, Diagnosis, Error};
use urlpattern_diagnosis::fault_of;

/// Runs `component`: prints what a pattern is compiled to. Returns the exit status.
///
/// An error is written to `err`; if errors are explained, with its reason.
pub fn print_component<Out: Write, Err: Write>(
    alloc: Global,
    asked: ComponentArguments<'_>,
    flags: Flags,
    out: &mut Out,
    err: &mut Err,
) -> u8
    ensures status { (result ≡ DONE) ⊎ (result ≡ FAILED) }
    ensures answers { result ≢ FAILED
        → PrintsComponent asked.entry (Out.contents out.old) (Out.contents out.new) }
    ensures quiet { result ≢ FAILED → err.new ≡ err.old }
    ensures fails { result ≡ FAILED → (out.new ≡ out.old) ⊎ IsComponentAnswered asked.entry }
{
    match component_text(alloc, asked) {
        Ok(text) => match print(text.as_bytes(), out) {
            Ok(()) => DONE,
            Err(_) => FAILED,
        },
        Err(error) => refuse(alloc, error, flags, Command::Component(asked), err),
    }
}

/// The output of `component`.
///
/// The error is the one with which the pattern is rejected, or that memory ran out.
fn component_text(alloc: Global, asked: ComponentArguments<'_>) -> Result<String, Error>
    ensures text { IfOk result (λ text. IsComponentText asked.entry (string_bytes text)) }
    ensures refused { IfErr result (MemoryOr (RejectsComponentText asked.entry)) }
{
    let options = options_of(alloc, asked.kind)?;
    let unchanged = |text: &str| -> Result<String, Error>
        ensures { CopiesBytes text.now result }
    { Ok(String::from_str(alloc, text)?) };
    let parts = parse_pattern_string(alloc, asked.pattern, &options, unchanged)?;
    let (regexp, names) = generate_regular_expression_and_name_list(alloc, &parts, &options)?;
    let printed = generate_pattern_string(alloc, &parts, &options)?;
    Ok(component_report(alloc, &names, &regexp, &printed)?)
}

/// The options of a component of this kind.
fn options_of(alloc: Global, kind: Kind) -> Result<Options, Error>
    ensures options { IfOk result (λ options. options_view options ≡ kind_options kind) }
    ensures memory { OnlyOutOfMemory result }
{
    match kind {
        Kind::Default => Ok(Options::default(alloc)),
        Kind::Hostname => Ok(Options::hostname(alloc)),
        Kind::Pathname => Ok(Options::pathname(alloc)?),
    }
}

/// A line with the names of the groups, one with the regular expression and one with the printed
/// pattern.
fn component_report(
    alloc: Global,
    names: &[String],
    regexp: &str,
    pattern: &str,
) -> Result<String, AllocError>
    ensures { IfOk result (λ text.
        string_bytes text
        ≡ component_lines (map (λ name. string_bytes name) names.now) regexp.now pattern.now) }
{
    let mut text = String::from_str(alloc, "names:")?;
    for name in names {
        text.push(' ')?;
        text.push_str(name)?;
    }
    text.push_str("\nregexp: ")?;
    text.push_str(regexp)?;
    text.push_str("\npattern: ")?;
    text.push_str(pattern)?;
    text.push('\n')?;
    Ok(text)
}

/// Returns a diagnosis of the pattern of a component, as lines of text. `None`: the pattern is not
/// rejected.
pub(crate) fn component_diagnosis(
    alloc: Global,
    asked: ComponentArguments<'_>,
) -> Result<Option<String>, OutOfMemory> {
    let Ok(options) = options_of(alloc, asked.kind) else {
        return Err(OutOfMemory);
    };
    let unchanged = |text: &str| -> Result<String, Error> { Ok(String::from_str(alloc, text)?) };
    let error = match parse_pattern_string(alloc, asked.pattern, &options, unchanged) {
        Ok(parts) => {
            drop(parts);
            return Ok(None);
        }
        Err(Error::OutOfMemory) => return Err(OutOfMemory),
        Err(error) => error,
    };
    let fault = fault_of(
        alloc,
        component_of(asked.kind),
        asked.pattern,
        &options.prefix_code_point,
        &error,
    )?;
    let diagnosis = Diagnosis::of_pattern(alloc, error, asked.pattern, fault)?;
    let text = format!(in alloc; "{diagnosis}\n");
    drop(diagnosis);
    Ok(Some(text?))
}

/// The component of this kind. `None`: a component without segments.
fn component_of(kind: Kind) -> Option<ComponentName> {
    match kind {
        Kind::Default => None,
        Kind::Hostname => Some(ComponentName::Hostname),
        Kind::Pathname => Some(ComponentName::Pathname),
    }
}
