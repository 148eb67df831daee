//! The options of a pattern.

ghost use Rattle.std.specs.Prelude.{◌≡◌, IfOk, Ok};
ghost use Rattle.serde_json.specs.{Find.get, View.view};
ghost use Rattle.urlpattern_inputs.specs.InputJson.{options_read, options_tree, syntax_name, syntax_of, syntax_read};
ghost use Rattle.urlpattern_syntax.specs.Errors.{OnlyOutOfMemory};

use serde::{Deserialize, Serialize};
use serde_json::{Value, json};
use std::alloc::Global;
use urlpattern_syntax::{Error, RegexSyntax};

/// The options of a whole pattern. The default is the syntax of Rust's `regex`, with case kept.
///
/// ```rust plain_options
/// let options = UrlPatternOptions {
///     regex_syntax: RegexSyntax::EcmaScript,
///     ignore_case: true,
/// };
/// ```
///
/// <https://urlpattern.spec.whatwg.org/#dictdef-urlpatternoptions>
#[derive(Debug, Default, Clone, PartialEq, Eq, Drop, Serialize, Deserialize)]
#[serde(rename_all = "camelCase")]
pub struct UrlPatternOptions {
    /// The syntax of the generated regular expressions. In JSON it may be missing.
    #[serde(default)]
    pub regex_syntax: RegexSyntax,
    /// Whether the case of ASCII letters is ignored in pathname, search and hash: by a matcher
    /// itself, and by its engine if that honours the flag `i`.
    pub ignore_case: bool,
}

impl UrlPatternOptions {
    /// Returns the JSON of the options: `regexSyntax` and `ignoreCase`.
    pub fn to_json_value(&self, alloc: Global) -> Result<Value, Error>
        ensures tree { IfOk result (λ tree. view tree ≡ options_tree self.now) }
        ensures memory { OnlyOutOfMemory result }
    {
        let syntax = syntax_name(self.regex_syntax);
        Ok(json!(in alloc; {"regexSyntax": syntax, "ignoreCase": self.ignore_case})?)
    }

    /// Reads options from JSON: an object with `ignoreCase`, and with `regexSyntax`, of which the
    /// default is read if it is missing. Other keys are ignored. `None`: the JSON has another
    /// shape.
    ///
    /// Does not allocate, and never returns an error.
    pub fn from_json_value(_alloc: Global, value: &Value) -> Result<Option<Self>, Error>
        ensures { result ≡ Ok (options_read (view value.now)) }
    {
        Ok(Self::read(value))
    }

    /// Reads options from JSON. `None`: the JSON has another shape.
    #[tactic(auto, unfolding(crate::specs::InputJson::options_read))]
    fn read(value: &Value) -> Option<Self>
        ensures { result ≡ options_read (view value.now) }
    {
        let regex_syntax = syntax_field(value, "regexSyntax")?;
        let ignore_case = value.get("ignoreCase")?.as_bool()?;
        Some(Self {
            regex_syntax,
            ignore_case,
        })
    }
}

/// Returns the name of a syntax in JSON.
fn syntax_name(syntax: RegexSyntax) -> &'static str
    ensures { result.now ≡ syntax_name syntax }
{
    match syntax {
        RegexSyntax::Rust => "Rust",
        RegexSyntax::EcmaScript => "EcmaScript",
    }
}

/// Returns the syntax with this name in JSON. `None`: no syntax has the name.
fn syntax_of(name: &str) -> Option<RegexSyntax>
    ensures { result ≡ syntax_of name.now }
{
    if name == "Rust" {
        Some(RegexSyntax::Rust)
    } else if name == "EcmaScript" {
        Some(RegexSyntax::EcmaScript)
    } else {
        None
    }
}

/// Reads a syntax from the member `name` of an object; the default if the member is missing.
/// `None`: the member is not the name of a syntax.
fn syntax_field(tree: &Value, name: &str) -> Option<RegexSyntax>
    ensures { result ≡ syntax_read (get name.now (view tree.now)) }
{
    match tree.get(name) {
        Some(member) => member.as_str().and_then(syntax_of),
        None => Some(RegexSyntax::Rust),
    }
}
