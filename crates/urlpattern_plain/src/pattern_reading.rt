//! The steps of reading plain patterns from JSON.

ghost use Rattle.std.specs.Prelude.{◌≡◌, map, string_bytes};
ghost use Rattle.std.specs.Str.{chars};
ghost use Rattle.serde_json.specs.View.{items_view, view};
ghost use Rattle.urlpattern_plain.specs.PatternJson.{character_read, only, texts_of_items, texts_read};
ghost use Rattle.urlpattern_inputs.specs.ReadResults.{ReturnsRead};
ghost use Rattle.urlpattern_inputs.specs.Trees.{member_read, optional_read};

use serde_json::Value;
use std::alloc::Global;
use urlpattern_inputs::json_reading::{Unread, member};

/// Reads a character from the member `name` of an object, a string of one character. `None`: the
/// member is missing or null.
pub(crate) fn optional_character_field(tree: &Value, name: &str) -> Result<Option<char>, Unread>
    ensures { ReturnsRead (λ found. found) result
        (optional_read character_read name.now (view tree.now)) }
{
    let Some(member) = tree.get(name) else {
        return Ok(None);
    };
    if member.is_null() {
        return Ok(None);
    }
    let Some(text) = member.as_str() else {
        return Err(Unread::Shape);
    };
    match only(text) {
        Some(character) => Ok(Some(character)),
        None => Err(Unread::Shape),
    }
}

/// Returns the character of a text of one character. `None`: the text is empty or longer.
fn only(text: &str) -> Option<char>
    ensures { result ≡ only (chars text.now) }
{
    let mut characters = text.chars();
    let first = characters.next()?;
    match characters.next() {
        Some(_) => None,
        None => Some(first),
    }
}

/// Reads texts from the member `name` of an object, an array of strings.
pub(crate) fn texts_field(alloc: Global, tree: &Value, name: &str) -> Result<Vec<String>, Unread>
    ensures { ReturnsRead (λ texts. map string_bytes texts.items) result
        (member_read texts_read name.now (view tree.now)) }
{
    match member(tree, name)?.as_array() {
        Some(items) => texts_of(alloc, items),
        None => Err(Unread::Shape),
    }
}

/// Copies the texts of an array of strings. The error is `Unread::Shape` if an item is not a
/// string.
fn texts_of(alloc: Global, items: &Vec<Value>) -> Result<Vec<String>, Unread>
    ensures { ReturnsRead (λ texts. map string_bytes texts.items) result
        (texts_of_items (items_view items.now.items)) }
{
    let mut texts = Vec::with_capacity(alloc, items.len())?;
    for item in items {
        let Some(text) = item.as_str() else {
            return Err(Unread::Shape);
        };
        texts.push(String::from_str(alloc, text)?)?;
    }
    Ok(texts)
}
