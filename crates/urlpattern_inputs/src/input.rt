//! The input of a pattern, or of a match.

ghost use Rattle.std.specs.Prelude.{◌≡◌, IfOk, option_map};
ghost use Rattle.serde_json.specs.View.{view};
ghost use Rattle.urlpattern_inputs.specs.InputJson.{input_read, input_tree};
ghost use Rattle.urlpattern_inputs.specs.{ReadResults.ReturnsRead, InputValues.input_view};
ghost use Rattle.urlpattern_syntax.specs.Errors.{OnlyOutOfMemory};

use crate::init::UrlPatternInit;
use crate::json_reading::{Unread, read_or_none};
use serde_json::Value;
use std::alloc::Global;
use std::borrow::CowStr;
use urlpattern_syntax::Error;

/// What a pattern is constructed from, or what it is matched against.
///
/// ```rust given
/// let input = StringOrInit::String(CowStr::Borrowed("https://example.com/users/:id"));
/// ```
///
/// <https://urlpattern.spec.whatwg.org/#typedefdef-urlpatterninput>
#[derive(Debug, Clone, PartialEq, Eq, Drop)]
pub enum StringOrInit<'a> {
    /// A constructor string or a URL.
    String(CowStr<'a>),
    /// The components, each with its own text.
    Init(UrlPatternInit),
}

impl<'a> StringOrInit<'a> {
    /// Returns the JSON of the input: a string, or the object of an init.
    pub fn to_json_value(&self, alloc: Global) -> Result<Value, Error>
        ensures tree { IfOk result (λ tree. view tree ≡ input_tree (input_view self.now)) }
        ensures memory { OnlyOutOfMemory result }
    {
        match self {
            StringOrInit::String(text) => Ok(Value::try_from_str(alloc, text.as_str())?),
            StringOrInit::Init(init) => init.to_json_value(alloc),
        }
    }

    /// Reads an input, which owns its text, from JSON: a string, or the object of an init. `None`:
    /// the JSON has another shape.
    pub fn from_json_value(alloc: Global, value: &Value) -> Result<Option<Self>, Error>
        ensures read { IfOk result (λ found.
            option_map input_view found ≡ input_read (view value.now)) }
        ensures memory { OnlyOutOfMemory result }
    {
        read_or_none(Self::read(alloc, value))
    }

    /// Reads an input from JSON, or returns why there is none.
    fn read(alloc: Global, value: &Value) -> Result<Self, Unread>
        ensures { ReturnsRead input_view result (input_read (view value.now)) }
    {
        match value.as_str() {
            Some(text) => {
                let text = String::from_str(alloc, text)?;
                Ok(StringOrInit::String(CowStr::Owned(text)))
            }
            None => Ok(StringOrInit::Init(UrlPatternInit::read(alloc, value)?)),
        }
    }
}

/// An input as it was passed, and the text of the base URL that was passed with it, if any.
pub type Inputs<'a> = (StringOrInit<'a>, Option<String>);
