//! The steps of reading plain values from JSON, for the types of this crate and for plain patterns.

ghost use Rattle.std.specs.Prelude.{◌≡◌, option_map, string_bytes};
ghost use Rattle.serde_json.specs.Find.{as_str, get};
ghost use Rattle.serde_json.specs.View.{view};
ghost use Rattle.urlpattern_inputs.specs.ReadResults.{ReturnsRead, read_or_none};
ghost use Rattle.urlpattern_inputs.specs.Trees.{flag_read, optional_read, text_read};
ghost use Rattle.urlpattern_inputs.specs.declared.json_reading.Unread.TheVariants as unread;

use serde_json::Value;
use std::alloc::{AllocError, AllocFailed, Global};
use urlpattern_syntax::Error;

/// Why no value was read.
#[derive(Drop)]
pub enum Unread {
    /// The JSON has another shape.
    Shape,
    /// Memory ran out.
    OutOfMemory,
}

impl From<AllocError> for Unread {
    ghost from_gives = { λ _ reason. reason ≡ unread.OutOfMemory };

    fn from(_error: AllocError) -> Unread {
        Unread::OutOfMemory
    }
}

impl<T: Drop> From<AllocFailed<T>> for Unread {
    ghost from_gives = { λ _ reason. reason ≡ unread.OutOfMemory };

    fn from(_error: AllocFailed<T>) -> Unread {
        Unread::OutOfMemory
    }
}

/// Converts the result of a reading step to that of a public call: `None` for JSON of another
/// shape, an error only if memory ran out.
pub fn read_or_none<T>(read: Result<T, Unread>) -> Result<Option<T>, Error>
    ensures { result ≡ read_or_none read }
{
    match read {
        Ok(value) => Ok(Some(value)),
        Err(Unread::Shape) => Ok(None),
        Err(Unread::OutOfMemory) => Err(Error::OutOfMemory),
    }
}

/// Returns the member `name` of an object. The error is `Unread::Shape` if there is no such member.
pub fn member<'v>(tree: &'v Value, name: &str) -> Result<&'v Value, Unread>
    ensures { ReturnsRead (λ found. view found.now) result (get name.now (view tree.now)) }
{
    match tree.get(name) {
        Some(member) => Ok(member),
        None => Err(Unread::Shape),
    }
}

/// Returns the text of the member `name`, borrowed. The error is `Unread::Shape` if there is no
/// such member, or no string in it.
pub fn text_of<'v>(tree: &'v Value, name: &str) -> Result<&'v str, Unread>
    ensures { ReturnsRead (λ text. text.now) result (text_read name.now (view tree.now)) }
{
    match member(tree, name)?.as_str() {
        Some(text) => Ok(text),
        None => Err(Unread::Shape),
    }
}

/// Returns a copy of the text of the member `name`. The error is `Unread::Shape` if there is no
/// such member, or no string in it.
pub fn text_field(alloc: Global, tree: &Value, name: &str) -> Result<String, Unread>
    ensures { ReturnsRead string_bytes result (text_read name.now (view tree.now)) }
{
    let text = text_of(tree, name)?;
    Ok(String::from_str(alloc, text)?)
}

/// Returns a copy of the text of the member `name`. `None`: the member is missing or null.
///
/// The error is `Unread::Shape` if the member is anything but a string or null.
pub fn optional_text_field(
    alloc: Global,
    tree: &Value,
    name: &str,
) -> Result<Option<String>, Unread>
    ensures { ReturnsRead (option_map string_bytes) result
        (optional_read as_str name.now (view tree.now)) }
{
    let Some(member) = tree.get(name) else {
        return Ok(None);
    };
    if member.is_null() {
        return Ok(None);
    }
    match member.as_str() {
        Some(text) => Ok(Some(String::from_str(alloc, text)?)),
        None => Err(Unread::Shape),
    }
}

/// Returns the Boolean of the member `name`. The error is `Unread::Shape` if there is no such
/// member, or no Boolean in it.
pub fn flag_field(tree: &Value, name: &str) -> Result<bool, Unread>
    ensures { ReturnsRead (λ flag. flag) result (flag_read name.now (view tree.now)) }
{
    match member(tree, name)?.as_bool() {
        Some(flag) => Ok(flag),
        None => Err(Unread::Shape),
    }
}
