//! The steps of writing plain values as JSON, for the types of this crate and for plain patterns.

ghost use Rattle.std.specs.Prelude.{OnOk, Some, option_copied, option_map};
ghost use Rattle.serde_json.specs.Data.{string};
ghost use Rattle.urlpattern_inputs.specs.Trees.{Gain};

use serde_json::{Map, Value};
use std::alloc::{AllocError, Global};

/// Puts the string `text`, under `name`, into the members of an object.
pub fn put_text(
    members: &mut Map<String, Value>,
    alloc: Global,
    name: &str,
    text: &str,
) -> Result<(), AllocError>
    ensures { OnOk result
        (Gain members.old.entries members.new.entries name.now (Some (string text.now))) }
{
    serde_json::put(members, alloc, name, Value::try_from_str(alloc, text)?)
}

/// Puts the string `text`, under `name`, into the members of an object, if there is a text.
pub fn put_optional(
    members: &mut Map<String, Value>,
    alloc: Global,
    name: &str,
    text: Option<&str>,
) -> Result<(), AllocError>
    ensures { OnOk result (Gain members.old.entries members.new.entries name.now
        (option_map string (option_copied text.entry))) }
{
    match text {
        Some(text) => put_text(members, alloc, name, text),
        None => Ok(()),
    }
}
