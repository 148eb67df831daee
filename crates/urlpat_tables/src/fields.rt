//! The field of a line that has its URL, in CSV, TSV or JSON.

ghost use Rattle.csv.specs.Records.{field_at, fields_of};
ghost use Rattle.serde_json.specs.Read.{read as read_text};
ghost use Rattle.serde_json.specs.View.{view};
ghost use Rattle.std.specs.Prelude.{◌≡◌, ◌≢◌, ◌<◌, ℕ, IfNone, IfOk, IfSome, MatchBool, Some, length, option_map, string_bytes};
ghost use Rattle.urlpat_tables.specs.Fields.{IsFirstNamed, field_of, fields_in, member_of, utf8_text};
ghost use Rattle.urlpattern_inputs.specs.Trees.{text_read};

use csv::{ByteRecord, ReaderBuilder};
use serde_json::Value;
use std::alloc::{AllocError, Global};
use std::str;
use urlpattern_inputs::json_reading::{Unread, text_field};

/// Where a line has its URL.
#[derive(Clone, Copy, Debug)]
pub(crate) enum Place<'w> {
    /// The line is the URL.
    Whole,
    /// A field of a record, by the byte between fields and its index.
    Field(u8, usize),
    /// A member of an object in JSON, by its name.
    Member(&'w str),
}

/// The text of a line at a place. `None`: the line has no such field, or it is not UTF-8, or the
/// line is not JSON, or the member is no string.
pub(crate) fn text_at(
    alloc: Global,
    place: Place<'_>,
    line: &str,
) -> Result<Option<String>, AllocError>
    ensures { IfOk result (λ text. option_map string_bytes text ≡ field_of place.entry line.now) }
{
    match place {
        Place::Whole => Ok(Some(String::from_str(alloc, line)?)),
        Place::Field(delimiter, index) => {
            let row = fields_in(alloc, delimiter, line)?;
            match row.get(index) {
                Some(field) => utf8_text(alloc, field),
                None => Ok(None),
            }
        }
        Place::Member(name) => member_of(alloc, name, line),
    }
}

/// Copies a field, if it is UTF-8.
fn utf8_text(alloc: Global, field: &[u8]) -> Result<Option<String>, AllocError>
    ensures { IfOk result (λ text. option_map string_bytes text ≡ utf8_text field.now) }
{
    match str::from_utf8(field) {
        Ok(text) => Ok(Some(String::from_str(alloc, text)?)),
        Err(_) => Ok(None),
    }
}

/// The fields of a line.
pub(crate) fn fields_in(alloc: Global, delimiter: u8, line: &str) -> Result<ByteRecord, AllocError>
    ensures { IfOk result (λ row. fields_of row ≡ fields_in delimiter line.now) }
{
    let mut reader = ReaderBuilder::new()
        .has_headers(false)
        .delimiter(delimiter)
        .from_reader(alloc, line.as_bytes());
    let mut row = ByteRecord::new(alloc);
    match reader.read_byte_record(&mut row) {
        Ok(true) => Ok(row),
        Ok(false) => Ok(ByteRecord::new(alloc)),
        Err(_) => Err(AllocError),
    }
}

/// The string that a member of an object in JSON is. `None`: the text is not JSON, or has no such
/// member, or the member is no string.
fn member_of(alloc: Global, name: &str, text: &str) -> Result<Option<String>, AllocError>
    ensures { IfOk result (λ found. option_map string_bytes found ≡ member_of name.now text.now) }
{
    match json_of(alloc, text)? {
        Some(tree) => {
            let found = member_text(alloc, &tree, name);
            drop(tree);
            found
        }
        None => Ok(None),
    }
}

/// The JSON of a text. `None`: the text is not JSON.
pub(crate) fn json_of(alloc: Global, text: &str) -> Result<Option<Value>, AllocError>
    ensures { IfOk result (λ tree. option_map view tree ≡ read_text text.now) }
{
    match Value::from_str(alloc, text) {
        Ok(tree) => Ok(Some(tree)),
        Err(error) => {
            if error.is_memory() {
                Err(AllocError)
            } else {
                Ok(None)
            }
        }
    }
}

/// Copies the string that a member of an object in JSON is. `None`: the tree has no such member, or
/// the member is no string.
fn member_text(alloc: Global, tree: &Value, name: &str) -> Result<Option<String>, AllocError>
    ensures { IfOk result (λ found.
        option_map string_bytes found ≡ text_read name.now (view tree.now)) }
{
    match text_field(alloc, tree, name) {
        Ok(text) => Ok(Some(text)),
        Err(Unread::Shape) => Ok(None),
        Err(Unread::OutOfMemory) => Err(AllocError),
    }
}

/// The index of the first field of a header with this name. `None`: no field has it.
pub(crate) fn position_of(header: &ByteRecord, name: &str) -> Option<usize>
    ensures first { IfSome result (IsFirstNamed (fields_of header.now) name.now) }
    ensures none { IfNone result ((index : ℕ) → index < length (fields_of header.now)
        → field_at (fields_of header.now) index ≢ Some name.now) }
{
    for index in 0..header.len() {
        if is_named(header, index, name) {
            return Some(index);
        }
    }
    None
}

/// Whether the field at an index has this name.
fn is_named(header: &ByteRecord, index: usize, name: &str) -> bool
    ensures { MatchBool result (field_at (fields_of header.now) index ≡ Some name.now)
        (field_at (fields_of header.now) index ≢ Some name.now) }
{
    match header.get(index) {
        Some(field) => field == name.as_bytes(),
        None => false,
    }
}
