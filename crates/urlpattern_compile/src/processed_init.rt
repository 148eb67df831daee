//! The values of an init that is processed as a pattern.

ghost use Rattle.std.specs.Prelude.{◌≡◌, option_copied, option_map, IfOk, IfSome, IsAscii, Ok};
ghost use Rattle.urlpattern_compile.specs.Compiled.{has_default_port, is_same, pattern_of, pattern_values, without_default_port};
ghost use Rattle.urlpattern_init.specs.Inheritance.{values_view};
ghost use Rattle.urlpattern_matcher.specs.Components.{pattern_text};
ghost use Rattle.urlpattern_syntax.specs.Errors.{OnlyOutOfMemory};
ghost use Rattle.urlpattern_syntax.specs.Text.{text_of};

use std::alloc::Global;
use urlpattern_canonical::canonicalize_and_process::{
    ProcessType, is_special_scheme, special_scheme_default_port,
};
use urlpattern_components::ComponentName;
use urlpattern_init::{UrlPatternInit, process};
use urlpattern_syntax::Error;

/// Processes an init as a pattern, with an empty port if the port is the default of a special
/// protocol, or is missing beside the protocol `file`.
pub fn pattern_values(alloc: Global, init: &UrlPatternInit) -> Result<UrlPatternInit, Error>
    ensures ok { IfOk result (λ values. pattern_values init.now ≡ Ok (values_view values)) }
    ensures memory { OnlyOutOfMemory result }
{
    let values = process(alloc, init, &ProcessType::Pattern)?;
    Ok(without_default_port(alloc, values))
}

/// Returns the values, with an empty port if the port is the default of a special protocol, or is
/// missing beside the protocol `file`.
fn without_default_port(alloc: Global, mut values: UrlPatternInit) -> UrlPatternInit
    ensures { values_view result ≡ without_default_port (values_view values) }
{
    if has_default_port(&values) {
        values.port = Some(String::new(alloc));
    }
    values
}

/// Whether `port` equals `default`, or both are `None`.
fn is_port(port: &Option<String>, default: Option<&str>) -> bool
    requires { IfSome (option_copied default) IsAscii }
    ensures { result ≡ is_same (option_map text_of port.now) (option_copied default.entry) }
{
    match (port, default) {
        (Some(port), Some(default)) => port.as_str() == default,
        (None, None) => true,
        _ => false,
    }
}

/// Whether the protocol is special and the port is its default; for `file`, whether the port is
/// missing.
fn has_default_port(values: &UrlPatternInit) -> bool
    ensures { result
        ≡ has_default_port (values_view values.now).protocol (values_view values.now).port }
{
    match &values.protocol {
        Some(protocol) => {
            is_special_scheme(protocol)
                && is_port(&values.port, special_scheme_default_port(protocol))
        }
        None => false,
    }
}

/// Returns the pattern text of a component. `None`: the component is missing, and compiled as `*`.
pub fn pattern_of(values: &UrlPatternInit, component: ComponentName) -> Option<&str>
    ensures { pattern_text result ≡ pattern_of (values_view values.now) component }
{
    values.get(component)
}
