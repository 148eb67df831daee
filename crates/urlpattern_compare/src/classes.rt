//! Classes of characters: two characters are of one class if they pass the same tests of exits.

ghost use Rattle.std.specs.Prelude.{◌≡◌, ◌<◌, ◌≤◌, ℕ, All, Contains, false, true, IfOk, IfNone, IfSome, IsTrue, OnOk, ◌∷◌, []};
ghost use Rattle.std.specs.Char.{IsScalar};
ghost use Rattle.urlpattern_compare.specs.Exits.{AreClasses, AreKeptIn, HasBreaks, HasBreaksOf, HasCases, HasFree, HasNames, HasNamesOf, code_after};
ghost use Rattle.urlpattern_syntax.specs.Text.{is_among, line_feed};

use crate::exits::Exits;
use crate::moves::unlike_classes;
use crate::parts_automaton::{Edge, Test};
use std::alloc::{AllocError, Global};

/// Returns at least one character of each class that the tests of the exits tell apart: a line
/// feed, the characters that they name, in both cases where case is ignored, a further character,
/// if one is left, and the first character that is left from each code on at which a range begins
/// or has ended. Of many classes, one is returned for each sets of states to which they lead.
pub(crate) fn classes_of(alloc: Global, exits: &[Exits]) -> Result<Vec<char>, AllocError>
    ensures { IfOk result (λ classes. AreClasses exits.now classes.items) }
{
    let named = named_by(alloc, exits)?;
    match other_than(&named) {
        Some(c) => {
            let breaks = breaks_of(alloc, exits)?;
            let mut classes = Vec::from_slice(alloc, &named)?;
            classes.push(c)?;
            add_free(&mut classes, &named, &breaks)?;
            unlike_classes(alloc, exits, classes)
        }
        None => Ok(named),
    }
}

/// Returns a line feed and the characters that the tests of the exits name.
fn named_by(alloc: Global, exits: &[Exits]) -> Result<Vec<char>, AllocError>
    ensures feed { IfOk result (λ marks. Contains marks.items line_feed) }
    ensures named { IfOk result (λ marks. All (HasNamesOf marks.items) exits.now) }
{
    let mut marks = line_feed(alloc)?;
    for own in exits {
        add_named_of(&mut marks, own.ignore_case, &own.edges)?;
    }
    Ok(marks)
}

/// Returns the codes at which ranges of the exits begin, or have ended, in order, each once.
fn breaks_of(alloc: Global, exits: &[Exits]) -> Result<Vec<u32>, AllocError>
    ensures { IfOk result (λ breaks. All (HasBreaksOf breaks.items) exits.now) }
{
    let mut breaks = Vec::new(alloc);
    for own in exits {
        add_breaks_of(&mut breaks, &own.edges)?;
    }
    breaks.sort_unstable();
    breaks.dedup();
    Ok(breaks)
}

/// Adds the codes at which the ranges of the edges begin, or have ended.
fn add_breaks_of(breaks: &mut Vec<u32>, edges: &[Edge]) -> Result<(), AllocError>
    ensures kept { OnOk result (AreKeptIn breaks.old.items breaks.new.items) }
    ensures added { OnOk result (All (λ edge. HasBreaks breaks.new.items edge.test) edges.now) }
{
    for edge in edges {
        add_breaks(breaks, *edge)?;
    }
    Ok(())
}

/// Adds to `breaks` the codes at which the range of the edge begins, or has ended, and 0.
fn add_breaks(breaks: &mut Vec<u32>, edge: Edge) -> Result<(), AllocError>
    ensures kept { OnOk result (AreKeptIn breaks.old.items breaks.new.items) }
    ensures added { OnOk result (HasBreaks breaks.new.items edge.test) }
{
    match edge.test {
        Test::Only(_) | Test::AnyBut(_) => Ok(()),
        Test::Within(first, last) => {
            add_break(breaks, 0)?;
            add_break(breaks, first)?;
            add_break(breaks, code_after(last))
        }
    }
}

/// Adds a code to `breaks`, unless it is the first or one of the last two, as that of an edge to
/// another state is.
fn add_break(breaks: &mut Vec<u32>, code: u32) -> Result<(), AllocError>
    ensures kept { OnOk result (AreKeptIn breaks.old.items breaks.new.items) }
    ensures added { OnOk result (Contains breaks.new.items code) }
{
    if is_at_an_end(breaks, code) {
        return Ok(());
    }
    breaks.push(code)?;
    Ok(())
}

/// Whether the code is the first of `breaks` or one of the last two.
fn is_at_an_end(breaks: &[u32], code: u32) -> bool
    ensures { IsTrue result → Contains breaks.now code }
{
    let count = breaks.len();
    if is_at(breaks, 0, code) {
        return true;
    }
    if is_at(breaks, count.saturating_sub(1), code) {
        return true;
    }
    is_at(breaks, count.saturating_sub(2), code)
}

/// Whether `breaks` has the code at the index.
fn is_at(breaks: &[u32], index: usize, code: u32) -> bool
    ensures { IsTrue result → Contains breaks.now code }
{
    index < breaks.len() && breaks[index] == code
}

/// Returns the code after `last`, or 0 if no character has one.
fn code_after(last: u32) -> u32
    ensures { result ≡ code_after last }
{
    if last < u32::from(char::MAX) {
        last + 1
    } else {
        0
    }
}

/// Adds to `classes` the first character from each of the codes `breaks` on that is not among
/// `named`, if there is one.
fn add_free(classes: &mut Vec<char>, named: &[char], breaks: &[u32]) -> Result<(), AllocError>
    ensures kept { OnOk result (AreKeptIn classes.old.items classes.new.items) }
    ensures free { OnOk result (All (HasFree named.now classes.new.items) breaks.now) }
{
    for code in breaks {
        add_free_from(classes, named, *code)?;
    }
    Ok(())
}

/// Adds to `classes` the first character from `code` on that is not among `named`, if there is one.
fn add_free_from(classes: &mut Vec<char>, named: &[char], code: u32) -> Result<(), AllocError>
    ensures kept { OnOk result (AreKeptIn classes.old.items classes.new.items) }
    ensures free { OnOk result (HasFree named.now classes.new.items code) }
{
    match other_within(named, code, u32::from(char::MAX) + 1) {
        Some(c) => add_unless_last(classes, c),
        None => Ok(()),
    }
}

/// Returns a list with a line feed alone.
fn line_feed(alloc: Global) -> Result<Vec<char>, AllocError>
    ensures { IfOk result (λ marks. marks.items ≡ line_feed ∷ []) }
{
    let mut marks = Vec::new(alloc);
    marks.push('\n')?;
    Ok(marks)
}

/// Adds to `marks` the characters that the tests of the edges name, in both cases if case is
/// ignored, each once.
fn add_named_of(marks: &mut Vec<char>, ignore_case: bool, edges: &[Edge]) -> Result<(), AllocError>
    ensures kept { OnOk result (AreKeptIn marks.old.items marks.new.items) }
    ensures added { OnOk result
        (All (λ edge. HasNames ignore_case marks.new.items edge.test) edges.now) }
{
    for edge in edges {
        add_named(marks, ignore_case, *edge)?;
    }
    Ok(())
}

/// Adds `c` to `classes`, unless it is the last of them.
fn add_unless_last(classes: &mut Vec<char>, c: char) -> Result<(), AllocError>
    ensures kept { OnOk result (AreKeptIn classes.old.items classes.new.items) }
    ensures added { OnOk result (Contains classes.new.items c) }
{
    if classes.last() != Some(&c) {
        classes.push(c)?;
    }
    Ok(())
}

/// Adds to `marks` the characters that the test of the edge names. If case is ignored, a range
/// names all capital letters.
fn add_named(marks: &mut Vec<char>, ignore_case: bool, edge: Edge) -> Result<(), AllocError>
    ensures kept { OnOk result (AreKeptIn marks.old.items marks.new.items) }
    ensures added { OnOk result (HasNames ignore_case marks.new.items edge.test) }
{
    match edge.test {
        Test::Only(c) | Test::AnyBut(c) => add_cases(marks, ignore_case, c),
        Test::Within(..) => if ignore_case {
            add_marks(
                marks,
                &[
                    'A', 'B', 'C', 'D', 'E', 'F', 'G', 'H', 'I', 'J', 'K', 'L', 'M', 'N', 'O', 'P',
                    'Q', 'R', 'S', 'T', 'U', 'V', 'W', 'X', 'Y', 'Z',
                ],
            )
        } else {
            Ok(())
        },
    }
}

/// Adds the characters of `text` to `marks`, each once.
fn add_marks(marks: &mut Vec<char>, text: &[char]) -> Result<(), AllocError>
    ensures kept { OnOk result (AreKeptIn marks.old.items marks.new.items) }
    ensures added { OnOk result (All (Contains marks.new.items) text.now) }
{
    for c in text {
        add_mark(marks, *c)?;
    }
    Ok(())
}

/// Adds `c` to `marks` and, if case is ignored, `c` in upper case.
fn add_cases(marks: &mut Vec<char>, ignore_case: bool, c: char) -> Result<(), AllocError>
    ensures kept { OnOk result (AreKeptIn marks.old.items marks.new.items) }
    ensures added { OnOk result (HasCases ignore_case marks.new.items c) }
{
    add_mark(marks, c)?;
    if ignore_case {
        add_mark(marks, c.to_ascii_uppercase())?;
    }
    Ok(())
}

/// Adds `c` to `marks`, if it is not among them.
fn add_mark(marks: &mut Vec<char>, c: char) -> Result<(), AllocError>
    ensures kept { OnOk result (AreKeptIn marks.old.items marks.new.items) }
    ensures added { OnOk result (Contains marks.new.items c) }
{
    if !is_among(marks, c) {
        marks.push(c)?;
    }
    Ok(())
}

/// Whether `c` is among `marks`.
fn is_among(marks: &[char], c: char) -> bool
    ensures { result ≡ is_among marks.now c }
{
    marks.iter().any(|mark| *mark == c)
}

/// Returns a character that is not among `marks`, a lowercase ASCII letter if one is left. `None`:
/// every character is among `marks`.
fn other_than(marks: &[char]) -> Option<char>
    ensures some { IfSome result (λ c. is_among marks.now c ≡ false) }
    ensures none { IfNone result ((c : ℕ) → IsScalar c → is_among marks.now c ≡ true) }
{
    if let Some(c) = other_within(marks, u32::from('a'), u32::from('z') + 1) {
        return Some(c);
    }
    other_within(marks, 0, u32::from(char::MAX) + 1)
}

/// Returns the first character that is not among `marks`, from the code `first` up to but not
/// including `end`. `None`: every character of the range is among `marks`.
fn other_within(marks: &[char], first: u32, end: u32) -> Option<char>
    ensures some { IfSome result (λ c. is_among marks.now c ≡ false) }
    ensures from { IfSome result (λ c. first ≤ c) }
    ensures least { IfSome result (λ c. (d : ℕ) → IsScalar d → first ≤ d → d < c
        → is_among marks.now d ≡ true) }
    ensures none { IfNone result
        ((c : ℕ) → IsScalar c → first ≤ c → c < end → is_among marks.now c ≡ true) }
{
    for code in first..end {
        if let Some(c) = char::from_u32(code)
            && !is_among(marks, c)
        {
            return Some(c);
        }
    }
    None
}
