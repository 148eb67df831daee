//! The text of one component of a pattern, with given groups.
ghost use Rattle.std.specs.Prelude.{IfErr, IfOk, string_bytes};
ghost use Rattle.std.specs.Str.{chars};
ghost use Rattle.urlpattern_ffi_links.specs.GivenTexts.{IsTextOfBytes, IsUngenerated};

use crate::given::{GivenBytes, groups_of};
use crate::given_link::Unlinked;
use std::alloc::Global;
use urlpattern_components::ComponentName;
use urlpattern_engine::PatternRegexp;
use urlpattern_generate::GenerateError;
use urlpattern_pattern::UrlPattern;

/// The reason why there is no text of a component with given groups.
#[derive(Drop)]
pub enum Ungenerated {
    /// An element of `given` gives no group: no component has the number that it names, or a part
    /// is out of range or not UTF-8.
    Given,
    /// The component has no text with these groups.
    NoText(GenerateError),
    /// Memory ran out. Each element of `given` gives a group.
    OutOfMemory,
}

/// Returns a text that a component of the pattern matches, with the groups that `given` cuts out of
/// `text`, as `UrlPattern::generate` does.
///
/// The error is the reason why there is no text.
pub fn generate(
    alloc: Global,
    pattern: &UrlPattern<PatternRegexp>,
    component: ComponentName,
    text: &[u8],
    given: &[GivenBytes],
) -> Result<String, Ungenerated>
    ensures generated { IfOk result (λ made.
        IsTextOfBytes pattern.now component text.now given.now (chars (string_bytes made))) }
    ensures refused { IfErr result (IsUngenerated pattern.now component text.now given.now) }
{
    let groups = match groups_of(alloc, text, given) {
        Ok(groups) => groups,
        Err(Unlinked::Given) => return Err(Ungenerated::Given),
        Err(_) => return Err(Ungenerated::OutOfMemory),
    };
    match pattern.generate(alloc, component, &groups) {
        Ok(made) => Ok(made),
        Err(GenerateError::OutOfMemory) => Err(Ungenerated::OutOfMemory),
        Err(error) => Err(Ungenerated::NoText(error)),
    }
}
