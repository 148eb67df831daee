//! The groups of a match, by name.
ghost use Rattle.std.specs.Prelude.{◌≡◌, IfOk, map, option_map};
ghost use Rattle.urlpattern_matches.specs.GroupTexts.{AreGroups, HasNoGroups};
ghost use Rattle.urlpattern_syntax.specs.Text.{option_text, text_of};

use std::alloc::{AllocError, Global};
use std::collections::HashMap;
use urlpattern_syntax::error::OutOfMemory;

/// Captures by the names of the groups. `None`: the group took no part.
pub(crate) type Groups = HashMap<String, Option<String>>;

/// Adds the groups with these names and captures, which are in one order, to a map without groups.
/// The last of equal names counts.
pub(crate) fn add_groups(
    alloc: Global,
    groups: &mut Groups,
    names: &[String],
    captures: &[Option<&str>],
) -> Result<(), OutOfMemory>
    requires { HasNoGroups groups.old }
    ensures groups { IfOk result (λ _.
        AreGroups (map (λ name. text_of name) names.now) (map option_text captures.now)
        groups.new) }
{
    for (name, capture) in names.iter().zip(captures) {
        drop(groups.insert(name.clone()?, copied(alloc, *capture)?)?);
    }
    Ok(())
}

/// Returns an owned copy of a capture. `None`: the group took no part.
fn copied(alloc: Global, capture: Option<&str>) -> Result<Option<String>, AllocError>
    ensures { IfOk result (λ copy. option_map text_of copy ≡ option_text capture.entry) }
{
    match capture {
        Some(text) => Ok(Some(String::from_str(alloc, text)?)),
        None => Ok(None),
    }
}
