//! What `route` writes for a line.

ghost use Rattle.std.specs.List.{flat_map};
ghost use Rattle.std.specs.Prelude.{◌≡◌, ◌++◌, IfOk, OnOk};
ghost use Rattle.serde_json.specs.View.{view};
ghost use Rattle.urlpat_matching.specs.Filters.{AppendsPiece};
ghost use Rattle.urlpat_matching.specs.Tables.{entry_view};
ghost use Rattle.urlpat_tables.specs.TableRoutes.{HeadsRows, IsRouteJson, IsRouteRow, IsRowShown, LeavesRow, LeavesText, ShowsRoute, bare_lines, cell_text, label_of, route_tree};
ghost use Rattle.urlpattern.specs.BorrowedMatches.{pattern_captures_view};

use crate::first_rule::{Reply, Unmatched};
use crate::labels::{push_header, push_label};
use bstr::ByteSlice;
use serde_json::{Map, Value};
use std::alloc::{AllocError, Global};
use urlpat_matching::{Entry, LineFormat, Verdict, json_line, match_tree, push_match};
use urlpattern::regexp::PatternRegexp;
use urlpattern::{UrlPattern, UrlPatternCaptures};
use urlpattern_inputs::json_writing::put_text;

/// The number of bytes that are reserved for the groups of a row before they are written.
const USUAL: usize = 256;

/// What is written for a line.
#[derive(Clone, Copy, Debug, PartialEq, Eq)]
pub enum RowShape {
    /// A row: the number, the name and the groups of the entry whose pattern matches.
    Row,
    /// A row, and the line.
    RowWithLine,
    /// A row as JSON.
    Json,
    /// The line, with the name of the entry as another field.
    Label(LineFormat),
    /// The number of the entry.
    Number,
}

/// What `route` writes for lines, of the first entry whose pattern matches.
#[derive(Clone, Copy)]
pub(crate) struct Rows(pub RowShape);

impl Reply<Entry<'_>> for Rows {
    ghost Matched = { λ rows pattern entry. ShowsRoute rows.0 (entry_view entry) };

    ghost Leaves = { λ rows. LeavesRow rows.0 };

    ghost Heads = { λ rows. HeadsRows rows.0 };

    fn matched(
        &self,
        alloc: Global,
        _pattern: &UrlPattern<PatternRegexp>,
        entry: &Entry<'_>,
        found: &UrlPatternCaptures<'_, '_>,
        line: &[u8],
        written: &mut Vec<u8>,
    ) -> Result<Verdict, AllocError> {
        push_shown(alloc, self.0, entry, found, line, written)?;
        Ok(Verdict::Selected)
    }

    fn leave(
        &self,
        alloc: Global,
        why: Unmatched,
        line: &[u8],
        written: &mut Vec<u8>,
    ) -> Result<Verdict, AllocError>
        ensures { IfOk result (λ verdict. AppendsPiece (LeavesRow self.now.0 why line.now verdict)
            written.old.items written.new.items) }
    {
        push_left(alloc, self.0, why, line, written)?;
        Ok(why.passed())
    }

    fn head(&self, header: &[u8], written: &mut Vec<u8>) -> Result<(), AllocError>
        ensures { OnOk result (AppendsPiece (HeadsRows self.now.0 header.now) written.old.items
            written.new.items) }
    {
        match self.0 {
            RowShape::Label(format) => push_header(format, header, written),
            _ => Ok(()),
        }
    }
}

/// Appends what is written for a line that the pattern of an entry matches.
fn push_shown(
    alloc: Global,
    shape: RowShape,
    entry: &Entry<'_>,
    found: &UrlPatternCaptures<'_, '_>,
    line: &[u8],
    written: &mut Vec<u8>,
) -> Result<(), AllocError>
    ensures { OnOk result (AppendsPiece (IsRowShown shape (entry_view entry.now)
        (pattern_captures_view found.now) line.now) written.old.items written.new.items) }
{
    match shape {
        RowShape::Row => {
            push_row(alloc, entry, found, written)?;
            written.extend_from_slice(b"\n")
        }
        RowShape::RowWithLine => {
            push_row(alloc, entry, found, written)?;
            written.push(b'\t')?;
            written.extend_from_slice(line)
        }
        RowShape::Json => push_json(alloc, entry, found, written),
        RowShape::Label(format) => {
            push_label(alloc, format, Some(label_of(entry)), line, written)
        }
        RowShape::Number => {
            let number = entry.number;
            let text = format!(in alloc; "{number}\n")?;
            written.extend_from_slice(text.as_bytes())
        }
    }
}

/// The name of an entry, or its pattern if it has no name.
pub(crate) fn label_of<'t>(entry: &Entry<'t>) -> &'t str
    ensures { result.now ≡ label_of (entry_view entry.now) }
{
    if entry.name.is_empty() {
        entry.pattern
    } else {
        entry.name
    }
}

/// Appends what is written for a line that no pattern matches.
fn push_left(
    alloc: Global,
    shape: RowShape,
    why: Unmatched,
    line: &[u8],
    written: &mut Vec<u8>,
) -> Result<(), AllocError>
    ensures { OnOk result (AppendsPiece (λ piece. LeavesText shape why line.now piece)
        written.old.items written.new.items) }
{
    match (shape, why) {
        (RowShape::Json, _) => written.extend_from_slice(b"null\n"),
        (RowShape::Label(_), Unmatched::Rejected) => written.extend_from_slice(b"\n"),
        (RowShape::Label(format), _) => push_label(alloc, format, None, line, written),
        (RowShape::RowWithLine, Unmatched::NoUrl | Unmatched::NoMatch) => {
            written.extend_from_slice(b"-\t")?;
            written.extend_from_slice(line)
        }
        _ => written.extend_from_slice(b"-\n"),
    }
}

/// Appends the row of an entry as a line of JSON.
fn push_json(
    alloc: Global,
    entry: &Entry<'_>,
    found: &UrlPatternCaptures<'_, '_>,
    row: &mut Vec<u8>,
) -> Result<(), AllocError>
    ensures { OnOk result (AppendsPiece
        (IsRouteJson (entry_view entry.now) (pattern_captures_view found.now)) row.old.items
        row.new.items) }
{
    let tree = route_tree(alloc, entry, match_tree(alloc, found)?)?;
    let line = json_line(alloc, &tree)?;
    row.extend_from_slice(line.as_bytes())
}

/// The JSON of a row: the number and the name of an entry, and `found`, the JSON of the match.
fn route_tree(alloc: Global, entry: &Entry<'_>, found: Value) -> Result<Value, AllocError>
    ensures { IfOk result (λ tree. view tree ≡ route_tree (entry_view entry.now) (view found)) }
{
    let mut members = Map::new(alloc);
    serde_json::put(&mut members, alloc, "number", Value::from(entry.number))?;
    put_text(&mut members, alloc, "name", entry.name)?;
    serde_json::put(&mut members, alloc, "match", found)?;
    Ok(Value::Object(members))
}

/// Appends the row of an entry without a line end: its number, its name and each group, separated
/// by tabs.
fn push_row(
    alloc: Global,
    entry: &Entry<'_>,
    found: &UrlPatternCaptures<'_, '_>,
    row: &mut Vec<u8>,
) -> Result<(), AllocError>
    ensures { OnOk result (AppendsPiece
        (IsRouteRow (entry_view entry.now) (pattern_captures_view found.now)) row.old.items
        row.new.items) }
{
    let mut groups = String::with_capacity(alloc, USUAL)?;
    push_match(alloc, &mut groups, found)?;
    let number = entry.number;
    let name = entry.name;
    let head = format!(in alloc; "{number}\t{name}")?;
    row.extend_from_slice(head.as_bytes())?;
    push_cells(groups.as_bytes(), row)
}

/// Appends each line of a text without its end, after a tab.
fn push_cells(text: &[u8], row: &mut Vec<u8>) -> Result<(), AllocError>
    ensures { OnOk result
        (row.new.items ≡ row.old.items ++ flat_map cell_text (bare_lines text.now)) }
{
    for line in text.lines() {
        row.push(b'\t')?;
        row.extend_from_slice(line)?;
    }
    Ok(())
}
