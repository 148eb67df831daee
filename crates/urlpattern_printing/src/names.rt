//! The names of the groups of a list of parts, and with them its regular expression; and whether a
//! part is bare.

ghost use Rattle.std.specs.Prelude.{◌≡◌, ◌&&◌, length, map, not, IfOk};
ghost use Rattle.urlpattern_printing.specs.Generated.{HasGeneratedMeaning, HaveCaptures};
ghost use Rattle.urlpattern_syntax.specs.{Errors.OnlyOutOfMemory, Options.options_view, Parts.parts_view, Text.text_of};
ghost use Rattle.urlpattern_syntax.specs.RegexpText.{group_names, is_empty, is_fixed_text, regexp_text};

use crate::regexp_text::generate_regular_expression;
use std::alloc::{AllocError, Global};
use urlpattern_syntax::Error;
use urlpattern_syntax::parser::{Options, Part, PartType};

/// Returns the regular expression of a list of parts, and the names of its groups in order.
///
/// Where no part is a custom regular expression, the regular expression matches exactly the texts
/// that the parts match, with the same captures, one for each name.
///
/// <https://urlpattern.spec.whatwg.org/#generate-a-regular-expression-and-name-list>
pub fn generate_regular_expression_and_name_list(
    alloc: Global,
    part_list: &[Part],
    options: &Options,
) -> Result<(String, Vec<String>), Error>
    ensures text { IfOk result (λ found.
        text_of found.0 ≡ regexp_text (options_view options.now) (parts_view part_list.now)) }
    ensures names { IfOk result (λ found.
        map (λ name. text_of name) found.1.items ≡ group_names (parts_view part_list.now)) }
    ensures meaning { IfOk result (λ found.
        HasGeneratedMeaning (text_of found.0) (options_view options.now)
        (parts_view part_list.now)) }
    ensures captures { IfOk result (λ found.
        HaveCaptures (options_view options.now) (parts_view part_list.now) (length found.1.items)) }
    ensures memory { OnlyOutOfMemory result }
{
    let text = generate_regular_expression(alloc, part_list, options)?;
    let names = generate_name_list(alloc, part_list)?;
    Ok((text, names))
}

/// Returns the names of the groups of a list of parts, in order.
pub fn generate_name_list(alloc: Global, part_list: &[Part]) -> Result<Vec<String>, AllocError>
    ensures { IfOk result (λ found.
        map (λ name. text_of name) found.items ≡ group_names (parts_view part_list.now)) }
{
    let count = part_list.iter().filter(|part| is_group(part)).count();
    let mut names = Vec::with_capacity(alloc, count)?;
    for part in part_list {
        if is_group(part) {
            names.push(part.name.clone()?).unwrap();
        }
    }
    Ok(names)
}

/// Whether the part is a group, that is, not a fixed text.
fn is_group(part: &Part) -> bool
    ensures { result ≡ not (is_fixed_text part.now.kind) }
{
    part.kind != PartType::FixedText
}

/// Whether the part has neither prefix nor suffix.
pub fn is_bare(part: &Part) -> bool
    ensures { result ≡ (is_empty (text_of part.now.prefix) && is_empty (text_of part.now.suffix)) }
{
    part.prefix.is_empty() && part.suffix.is_empty()
}
