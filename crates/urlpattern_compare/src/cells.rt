//! Cells: what parts are cut into for an automaton. A cell reads one character of a text that
//! passes a test, or any number of them.

ghost use Rattle.std.specs.Prelude.{◌≡◌, ◌++◌, IfOk, OnOk, map, reverse, unwrap_or};
ghost use Rattle.std.specs.Str.{chars};
ghost use Rattle.urlpattern_compare.specs.Cells.{cells_of, has_one, is_one, text_cells, wildcard_cells};
ghost use Rattle.urlpattern_compare.specs.MeantTexts.{folded_options, folded_part};
ghost use Rattle.urlpattern_meaning.specs.Matching.{folded_character};
ghost use Rattle.urlpattern_syntax.specs.{Options.options_view, Parts.part_view, Text.line_feed};

use crate::folding::folded_character;
use crate::parts_automaton::Test;
use std::alloc::{AllocError, Global};
use urlpattern_syntax::parser::{Options, Part, PartType};

/// A cell, which reads one character or any number of characters that pass a test.
#[derive(Clone, Copy, Debug)]
pub(crate) enum Cell {
    /// A character that passes.
    One(Test),
    /// Any number of characters that pass.
    Many(Test),
}

/// Returns the cells that read one copy of `part`, without its modifier, in reverse order. If case
/// is ignored, they are those of its texts in lower case.
///
/// A custom regular expression has only the cells of its prefix and suffix.
pub(crate) fn cells_of(
    alloc: Global,
    options: &Options,
    part: &Part,
) -> Result<Vec<Cell>, AllocError>
    ensures { IfOk result (λ cells.
        cells.items
        ≡ reverse (cells_of (folded_options (options_view options.now)) part.now.kind
        (folded_part options.now.ignore_case (part_view part.now)))) }
{
    let ignore_case = options.ignore_case;
    let mut cells = Vec::new(alloc);
    match part.kind {
        PartType::FixedText => add_text(&mut cells, ignore_case, &part.value)?,
        _ => {
            add_text(&mut cells, ignore_case, &part.prefix)?;
            add_wildcard(&mut cells, options, &part.kind)?;
            add_text(&mut cells, ignore_case, &part.suffix)?;
        }
    }
    cells.reverse();
    Ok(cells)
}

/// Appends the cells that read `text`, in lower case if case is ignored: one for each character.
fn add_text(cells: &mut Vec<Cell>, ignore_case: bool, text: &str) -> Result<(), AllocError>
    ensures { OnOk result (cells.new.items
        ≡ cells.old.items ++ text_cells (map (folded_character ignore_case) (chars text.now))) }
{
    for c in text.chars() {
        cells.push(Cell::One(Test::Only(folded_character(ignore_case, c))))?;
    }
    Ok(())
}

/// Appends the cells that read a wildcard of the kind `kind`. Nothing is appended for other kinds.
fn add_wildcard(cells: &mut Vec<Cell>, options: &Options, kind: &PartType) -> Result<(), AllocError>
    ensures { OnOk result (cells.new.items
        ≡ cells.old.items ++ wildcard_cells (folded_options (options_view options.now)) kind.now) }
{
    match kind {
        PartType::SegmentWildcard => {
            let test = Test::AnyBut(delimiter(options));
            cells.push(Cell::One(test))?;
            cells.push(Cell::Many(test))?;
            Ok(())
        }
        PartType::FullWildcard => {
            cells.push(Cell::Many(Test::AnyBut('\n')))?;
            Ok(())
        }
        _ => Ok(()),
    }
}

/// Returns the delimiter, in lower case if case is ignored, or a line feed if there is none.
pub(crate) fn delimiter(options: &Options) -> char
    ensures { result ≡ unwrap_or (folded_options (options_view options.now)).delimiter line_feed }
{
    match options.delimiter_code_point {
        Some(c) => folded_character(options.ignore_case, c),
        None => '\n',
    }
}

/// Whether at least one of `cells` reads exactly one character.
pub(crate) fn has_one(cells: &[Cell]) -> bool
    ensures { result ≡ has_one cells.now }
{
    cells.iter().any(|cell| is_one(*cell))
}

/// Whether the cell reads exactly one character.
fn is_one(cell: Cell) -> bool
    ensures { result ≡ is_one cell }
{
    matches!(cell, Cell::One(_))
}
