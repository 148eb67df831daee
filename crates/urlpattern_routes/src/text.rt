//! Texts in JSON.

ghost use Rattle.std.specs.Prelude.{◌≡◌, IfOk, option_map, string_bytes};
ghost use Rattle.serde_json.specs.View.{view};
ghost use Rattle.urlpattern_routes.specs.Texts.{text_read};

use crate::Made;
use serde_json::Value;
use std::alloc::Global;

/// Returns the text that a browser reads where a text is asked for: a string, or the text of null,
/// of a Boolean or of an integer that is not negative. `None`: the value is another one.
pub(crate) fn text_of(alloc: Global, value: &Value) -> Made<Option<String>>
    ensures { IfOk result (λ text.
        option_map string_bytes text ≡ text_read (view value.now)) }
{
    if let Some(text) = value.as_str() {
        return Ok(Some(String::from_str(alloc, text)?));
    }
    if let Some(number) = value.as_u64() {
        return Ok(Some(number.to_string(alloc)?));
    }
    let word = if value.is_null() {
        "null"
    } else {
        match value.as_bool() {
            Some(true) => "true",
            Some(false) => "false",
            None => return Ok(None),
        }
    };
    Ok(Some(String::from_str(alloc, word)?))
}
