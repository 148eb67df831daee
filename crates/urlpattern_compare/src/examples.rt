//! Texts that parts match, made from the parts alone.

ghost use Rattle.std.specs.Char.{IsScalar};
ghost use Rattle.std.specs.Prelude.{◌≡◌, ◌≢◌, ◌++◌, IfOk, IfSome, IsTrue, OnOk};
ghost use Rattle.std.specs.Str.{chars};
ghost use Rattle.urlpattern_compare.specs.Examples.{IsExampleOf, IsPartTextAdded, IsSegment, shortest_copy};
ghost use Rattle.urlpattern_compare.specs.TextSearch.{IsLine};
ghost use Rattle.urlpattern_syntax.specs.{Options.OptionsView, Options.options_view, Parts.part_view, Parts.parts_view, Text.line_feed};

use crate::cells::delimiter;
use crate::parts_automaton::may_miss;
use std::alloc::{AllocError, Global};
use urlpattern_expressions::is_custom;
use urlpattern_syntax::parser::{Options, Part, PartType};

/// Makes a text without line feed that `parts` match, one of the shortest. `None`: a part that is
/// a custom regular expression cannot be left out, or the text would have a line feed.
pub(crate) fn example_of(
    alloc: Global,
    options: &Options,
    parts: &[Part],
) -> Result<Option<Vec<char>>, AllocError>
    ensures { IfOk result (λ found. IfSome found (λ text.
        IsExampleOf (options_view options.now) (parts_view parts.now) text.items)) }
{
    let segment = segment_of(options);
    let mut text = Vec::new(alloc);
    for part in parts {
        let added = add_example(&mut text, segment, part)?;
        if !added {
            return Ok(None);
        }
    }
    if is_line(&text) {
        Ok(Some(text))
    } else {
        Ok(None)
    }
}

/// Returns a lowercase letter that is not the delimiter, nor equal to it where case is ignored.
fn segment_of(options: &Options) -> char
    ensures { IsSegment (options_view options.now) result }
{
    let but = delimiter(options);
    if but == 'a' { 'b' } else { 'a' }
}

/// Appends one of the shortest texts that `part` matches, where `segment` stands for a segment.
/// `false`: the part is a custom regular expression, which cannot be left out.
fn add_example(text: &mut Vec<char>, segment: char, part: &Part) -> Result<bool, AllocError>
    ensures { IfOk result (λ added. IsTrue added → (options : OptionsView)
        → IsSegment options segment
        → IsPartTextAdded options (part_view part.now) text.old.items text.new.items) }
{
    if may_miss(part.modifier) {
        return Ok(true);
    }
    if is_custom(part) {
        return Ok(false);
    }
    add_copy(text, segment, part)?;
    Ok(true)
}

/// Appends a shortest copy of `part`, where `segment` stands for a segment. A custom regular
/// expression is left out.
fn add_copy(text: &mut Vec<char>, segment: char, part: &Part) -> Result<(), AllocError>
    ensures { OnOk result (text.new.items
        ≡ text.old.items ++ shortest_copy segment part.now.kind (part_view part.now)) }
{
    match part.kind {
        PartType::FixedText => add_text(text, &part.value),
        PartType::SegmentWildcard => {
            add_text(text, &part.prefix)?;
            text.push(segment)?;
            add_text(text, &part.suffix)
        }
        _ => {
            add_text(text, &part.prefix)?;
            add_text(text, &part.suffix)
        }
    }
}

/// Appends the characters of `more`.
fn add_text(text: &mut Vec<char>, more: &str) -> Result<(), AllocError>
    ensures { OnOk result (text.new.items ≡ text.old.items ++ chars more.now) }
{
    for c in more.chars() {
        text.push(c)?;
    }
    Ok(())
}

/// Whether no character of the text is a line feed.
fn is_line(text: &[char]) -> bool
    ensures { IsTrue result → IsLine text.now }
{
    for c in text {
        if !is_plain(*c) {
            return false;
        }
    }
    true
}

/// Whether the character is no line feed.
fn is_plain(c: char) -> bool
    ensures { IsTrue result → IsScalar c × (c ≢ line_feed) }
{
    c != '\n'
}
