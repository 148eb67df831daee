//! The steps of writing plain patterns as JSON.

ghost use Rattle.std.specs.Prelude.{◌≡◌, IfOk, map, string_bytes};
ghost use Rattle.serde_json.specs.Data.{array, string};
ghost use Rattle.serde_json.specs.View.{items_of, view};
ghost use Rattle.urlpattern_plain.specs.PatternJson.{filter_tree};

use serde_json::Value;
use std::alloc::{AllocError, Global};

/// Returns the JSON of a filter, the character that a captured text may not contain: a string of
/// one character, or null if there is no filter.
pub(crate) fn filter_value(alloc: Global, filter: Option<char>) -> Result<Value, AllocError>
    ensures { IfOk result (λ tree. view tree ≡ filter_tree filter) }
{
    match filter {
        Some(character) => {
            let mut text = String::new(alloc);
            text.push(character)?;
            Ok(Value::String(text))
        }
        None => Ok(Value::Null),
    }
}

/// Returns the JSON of texts: an array of strings.
pub(crate) fn texts_value(alloc: Global, texts: &Vec<String>) -> Result<Value, AllocError>
    ensures { IfOk result (λ tree.
        view tree ≡ array (items_of (map string (map string_bytes texts.now.items)))) }
{
    let mut items = Vec::with_capacity(alloc, texts.len())?;
    for text in texts {
        items.push(Value::try_from_str(alloc, text)?)?;
    }
    Ok(Value::Array(items))
}
