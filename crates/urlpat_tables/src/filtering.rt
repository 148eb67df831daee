//! The command `filter`: prints the lines of a reader whose URLs match one of some patterns.

ghost use Rattle.std.specs.Prelude.{◌≡◌, ◌≢◌, ◌⊎◌, IfOk, OnOk};
ghost use Rattle.urlpat_tables.specs.FilterLines.{AnswersMatched, FiltersLines, IsShown, LeavesLine, counts, text_left};
ghost use Rattle.urlpat_matching.specs.Filters.{AppendsPiece};
ghost use Rattle.urlpattern.specs.BorrowedMatches.{pattern_captures_view};

use crate::answering::answer_by;
use crate::filter_patterns::filter_patterns;
use crate::first_rule::{Reply, Unmatched};
use std::alloc::{AllocError, Global};
use std::io::{BufRead, Write};
use urlpat_commands::Tables;
use urlpat_matching::{
    AskedShape, DONE, FAILED, FilterArguments, Flags, NO_MATCH, Shape, Verdict, capture_of,
    match_json,
};
use urlpattern::regexp::PatternRegexp;
use urlpattern::{UrlPattern, UrlPatternCaptures};

/// What `filter` writes for a line: of the lines that match, or, if `inverted`, of those that do
/// not, what the shape asks for.
#[derive(Clone, Copy)]
struct Selection<'w> {
    inverted: bool,
    asked: AskedShape<'w>,
}

/// Runs `filter`. Returns the exit status: `NO_MATCH` if no line is selected.
pub fn filter<T: Tables, In: BufRead, Out: Write, Err: Write>(
    alloc: Global,
    tables: &T,
    asked: FilterArguments<'_, '_>,
    flags: Flags,
    input: &mut In,
    out: &mut Out,
    err: &mut Err,
) -> u8
    ensures status { (result ≡ DONE) ⊎ (result ≡ NO_MATCH) ⊎ (result ≡ FAILED) }
    ensures answers { result ≢ FAILED
        → FiltersLines flags.ignore_case (T.Has tables.now) asked.entry result
        (In.remaining input.old) (Out.contents out.old) (Out.contents out.new) }
{
    let Some(patterns) = filter_patterns(alloc, tables, asked, flags.ignore_case, err) else {
        return FAILED;
    };
    let selection = Selection {
        inverted: asked.inverted,
        asked: asked.shape,
    };
    let counted = counts(asked.shape);
    answer_by(
        alloc,
        &patterns,
        &selection,
        asked.lines,
        counted,
        input,
        out,
        err,
    )
}

/// Whether lines are counted in place of being printed.
fn counts(asked: AskedShape<'_>) -> bool
    ensures { result ≡ counts asked.entry }
{
    matches!(asked, AskedShape::Count)
}

impl Reply<Shape<'_>> for Selection<'_> {
    ghost Matched = { λ selection pattern. AnswersMatched selection.inverted };

    ghost Leaves = { λ selection. LeavesLine selection.inverted selection.asked };

    ghost Heads = { λ selection header written. written ≡ text_left selection.asked header };

    fn matched(
        &self,
        alloc: Global,
        _pattern: &UrlPattern<PatternRegexp>,
        shape: &Shape<'_>,
        found: &UrlPatternCaptures<'_, '_>,
        line: &[u8],
        written: &mut Vec<u8>,
    ) -> Result<Verdict, AllocError> {
        if self.inverted {
            return Ok(Verdict::Passed);
        }
        push_shown(alloc, *shape, found, line, written)?;
        Ok(Verdict::Selected)
    }

    fn leave(
        &self,
        _alloc: Global,
        why: Unmatched,
        line: &[u8],
        written: &mut Vec<u8>,
    ) -> Result<Verdict, AllocError>
        ensures { IfOk result (λ verdict. AppendsPiece
            (LeavesLine self.now.inverted self.now.asked why line.now verdict) written.old.items
            written.new.items) }
    {
        if !self.inverted {
            return Ok(why.passed());
        }
        written.extend_from_slice(text_left(self.asked, line))?;
        Ok(match why {
            Unmatched::Rejected => Verdict::Rejected,
            Unmatched::NoUrl => Verdict::SelectedNoUrl,
            Unmatched::NoMatch => Verdict::Selected,
        })
    }

    fn head(&self, header: &[u8], written: &mut Vec<u8>) -> Result<(), AllocError>
        ensures { OnOk result (AppendsPiece (λ piece. piece ≡ text_left self.now.asked header.now)
            written.old.items written.new.items) }
    {
        written.extend_from_slice(text_left(self.asked, header))
    }
}

/// Appends what is printed of a line that matches: the line, a line with the capture of a group, or
/// the match as a line of JSON. Nothing if lines are counted.
fn push_shown(
    alloc: Global,
    shape: Shape<'_>,
    found: &UrlPatternCaptures<'_, '_>,
    line: &[u8],
    written: &mut Vec<u8>,
) -> Result<(), AllocError>
    ensures { OnOk result (AppendsPiece
        (IsShown shape.entry (pattern_captures_view found.now) line.now) written.old.items
        written.new.items) }
{
    match shape {
        Shape::Line => written.extend_from_slice(line),
        Shape::Count => Ok(()),
        Shape::Group(component, name) => {
            written.extend_from_slice(capture_of(found, component, name).unwrap_or("").as_bytes())?;
            written.push(b'\n')?;
            Ok(())
        }
        Shape::Json => written.extend_from_slice(match_json(alloc, found)?.as_bytes()),
    }
}

/// What is printed of a line that does not match and is selected: the line, unless lines are
/// counted.
fn text_left<'l>(asked: AskedShape<'_>, line: &'l [u8]) -> &'l [u8]
    ensures { result.now ≡ text_left asked.entry line.now }
{
    match asked {
        AskedShape::Line => line,
        AskedShape::Count | AskedShape::Group(_) | AskedShape::Json => &[],
    }
}
