//! The texts that C passes for the groups of a pattern.
ghost use Rattle.std.specs.Prelude.{◌≡◌, slice_get, IfErr, IfNone, IfOk, IfSome};
ghost use Rattle.std.specs.List.{AllZip};
ghost use Rattle.urlpattern_components.specs.Eight.{components};
ghost use Rattle.urlpattern_ffi_links.specs.GivenBytes.{GivesGroup, GivesNothing, IsNoPart, IsPart, RejectsParts};

use crate::given_link::Unlinked;
use std::alloc::Global;
use std::str;
use urlpattern_components::ComponentName;
use urlpattern_generate::GivenGroup;

/// The name of a group and the text for the group, as parts of one text, in bytes.
#[repr(C)]
#[derive(Clone, Copy)]
pub struct GivenBytes {
    /// The number of the component, in the order of the standard.
    pub component: u32,
    /// The byte at which the name of the group begins.
    pub name_start: usize,
    /// The length of the name in bytes.
    pub name_length: usize,
    /// The byte at which the text for the group begins.
    pub start: usize,
    /// The length of the text for the group in bytes.
    pub length: usize,
}

/// Cuts groups with their texts out of `text`, one for each element of `given`.
///
/// The error is `Unlinked::Given` if an element gives no group, also where memory runs out, or
/// `OutOfMemory`.
pub fn groups_of<'t>(
    alloc: Global,
    text: &'t [u8],
    given: &[GivenBytes],
) -> Result<Vec<GivenGroup<'t>>, Unlinked>
    ensures groups { IfOk result (λ groups. AllZip (GivesGroup text.now) given.now groups.items) }
    ensures refused { IfErr result (RejectsParts text.now given.now) }
{
    let Ok(mut groups) = Vec::with_capacity(alloc, given.len()) else {
        return Err(reason_without_memory(text, given));
    };
    for part in given {
        match numbered_group(text, part) {
            Some(group) => {
                if groups.push(group).is_err() {
                    return Err(reason_without_memory(text, given));
                }
            }
            None => return Err(Unlinked::Given),
        }
    }
    Ok(groups)
}

/// The reason why no groups are cut out where memory ran out: `Given` if an element gives no group,
/// and else `OutOfMemory`.
fn reason_without_memory(text: &[u8], given: &[GivenBytes]) -> Unlinked
    ensures { RejectsParts text.now given.now result }
{
    for part in given {
        let Some(_group) = numbered_group(text, part) else {
            return Unlinked::Given;
        };
    }
    Unlinked::OutOfMemory
}

/// Cuts the group that `given` names and the text for it out of `text`. `None`: no component has
/// the number, or a part is out of range or not UTF-8.
fn numbered_group<'t>(text: &'t [u8], given: &GivenBytes) -> Option<GivenGroup<'t>>
    ensures group { IfSome result (GivesGroup text.now given.now) }
    ensures nothing { IfNone result (GivesNothing text.now given.now) }
{
    let component = component_of(given.component)?;
    let name = part_of(text, given.name_start, given.name_length)?;
    let value = part_of(text, given.start, given.length)?;
    Some((component, name, value))
}

/// The component with a number, in the order of the standard. `None`: the number is 8 or more.
pub fn component_of(number: u32) -> Option<ComponentName>
    ensures { result ≡ slice_get components number }
{
    ComponentName::all().get(number as usize).copied()
}

/// The part of a text that begins at byte `start` and has `count` bytes. `None`: the part is out of
/// range, or not UTF-8.
pub fn part_of(text: &[u8], start: usize, count: usize) -> Option<&str>
    ensures part { IfSome result (λ part. IsPart text.now start count part.now) }
    ensures none { IfNone result (IsNoPart text.now start count) }
{
    let rest = text.get(start..)?;
    let part = rest.get(..count)?;
    match str::from_utf8(part) {
        Ok(part) => Some(part),
        Err(_) => None,
    }
}
