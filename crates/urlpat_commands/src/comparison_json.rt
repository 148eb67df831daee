//! Whether a pattern covers another, as JSON.

ghost use Rattle.serde_json.specs.Data.{object};
ghost use Rattle.serde_json.specs.View.{members_view, view};
ghost use Rattle.std.specs.Prelude.{◌≡◌, option_copied, string_bytes, IfOk};
ghost use Rattle.urlpat_commands.specs.ComparisonTexts.{covering_tree, known_tree};
ghost use Rattle.urlpat_matching.specs.MatchJson.{json_line};
ghost use Rattle.urlpattern_components.specs.Eight.{at};
ghost use Rattle.urlpattern_inputs.specs.Trees.{each_member, object_of};

use serde_json::{Map, Value, put};
use std::alloc::{AllocError, Global};
use urlpat_matching::json_line;
use urlpattern::rules::Parting;
use urlpattern::{ComponentName, Eight};
use urlpattern_inputs::json_writing::{put_optional, put_text};

/// Returns whether a pattern covers another, as a line of JSON: an object with the key `covered`.
/// If not, which `parting` shows, it also has the component in which they differ, and a text for
/// each component that is known of those that the asked pattern matches.
pub fn covering_json(alloc: Global, parting: Option<&Parting>) -> Result<String, AllocError>
    ensures { IfOk result (λ text.
        string_bytes text ≡ json_line (covering_tree (option_copied parting.entry))) }
{
    let tree = covering_tree(alloc, parting)?;
    json_line(alloc, &tree)
}

/// The object of `covering_json`.
fn covering_tree(alloc: Global, parting: Option<&Parting>) -> Result<Value, AllocError>
    ensures { IfOk result (λ tree. view tree ≡ covering_tree (option_copied parting.entry)) }
{
    let mut members = Map::new(alloc);
    let Some(parting) = parting else {
        put(&mut members, alloc, "covered", Value::from(true))?;
        return Ok(Value::Object(members));
    };
    let texts = texts_tree(alloc, &parting.texts)?;
    put(&mut members, alloc, "covered", Value::from(false))?;
    put_text(&mut members, alloc, "component", parting.component.as_str())?;
    put(&mut members, alloc, "texts", texts)?;
    Ok(Value::Object(members))
}

/// An object with the texts that are known.
fn texts_tree(alloc: Global, texts: &Eight<Option<String>>) -> Result<Value, AllocError>
    ensures { IfOk result (λ tree.
        view tree ≡ object_of (each_member (λ name. known_tree (at texts.now name)))) }
{
    Ok(Value::Object(known_members(alloc, texts)?))
}

/// The members of an object with the texts that are known.
fn known_members(
    alloc: Global,
    texts: &Eight<Option<String>>,
) -> Result<Map<String, Value>, AllocError>
    ensures { IfOk result (λ members. object (members_view members.entries)
        ≡ object_of (each_member (λ name. known_tree (at texts.now name)))) }
{
    let mut members = Map::new(alloc);
    for name in ComponentName::all() {
        put_optional(
            &mut members,
            alloc,
            name.as_str(),
            texts.get(name).as_deref(),
        )?;
    }
    Ok(members)
}
