//! Printing of diagnoses.

use crate::diagnosis::Diagnosis;
use crate::span::Span;
use std::fmt;
use unicode_width::UnicodeWidthChar;

/// The maximum number of columns that are printed of a text.
const WIDTH: usize = 80;

/// The maximum number of columns that are printed of a longer text, apart from the dots where it is
/// cut.
const CUT_WIDTH: usize = 74;

/// The maximum number of columns that are printed of a longer text up to the end of the marks,
/// unless the marks are wider.
const WIDTH_TO_MARKS: usize = 54;

/// The dots where a text is cut.
const DOTS: &str = "...";

/// Prints three lines: the reason, the text, and a line that marks the part at fault with `^` and
/// the earlier part, if there is one, with `-`.
///
/// The marks are as wide as the characters above them in a terminal. Of a text wider than 80
/// columns a part is printed, with dots where it is cut, and a mark outside of this part is named
/// after the others, with the number of its first character. Control characters, such as tabs and
/// line ends, are printed as spaces.
impl fmt::Display for Diagnosis {
    fn fmt<W: fmt::Write>(&self, f: &mut fmt::Formatter<W>) -> fmt::Result {
        writeln!(f, "{}", self.reason)?;
        let shown = self.shown();
        self.write_text(shown, f)?;
        f.write_str("\n")?;
        self.write_marks(shown, f)?;
        match self.fault.earlier {
            Some(earlier) if !meets(earlier, shown) => self.write_left_out(earlier, f),
            _ => Ok(()),
        }
    }
}

impl Diagnosis {
    /// Returns the part of the text that is printed: all of it, or, if it is too wide, a part that
    /// shows `marks_to_show`, as far as there is room.
    fn shown(&self) -> Span {
        let text = self.text.as_str();
        if width_between(text, 0, text.len()) <= WIDTH {
            return Span::whole(text);
        }
        let marks = self.marks_to_show();
        let start = self.shown_from(marks);
        let mut end = start;
        let mut width = 0usize;
        for c in text.get(start..text.len()).unwrap_or("").chars() {
            width = width.saturating_add(width_of(c));
            if width > CUT_WIDTH {
                break;
            }
            end = end.saturating_add(c.len_utf8());
        }
        Span { start, end }
    }

    /// Returns the byte index from which a text that is too wide is printed, so that `marks` is
    /// visible.
    fn shown_from(&self, marks: Span) -> usize {
        let room = width_between(&self.text, marks.start, marks.end).max(WIDTH_TO_MARKS);
        let mut left = width_between(&self.text, 0, marks.end);
        for (index, c) in self.text.char_indices() {
            if left <= room || index >= marks.start {
                return index;
            }
            left = left.saturating_sub(width_of(c));
        }
        self.text.len()
    }

    /// Returns the span from the first mark to the last, if there is room for both, or else the
    /// part at fault.
    fn marks_to_show(&self) -> Span {
        let span = self.fault.span;
        let Some(earlier) = self.fault.earlier else {
            return span;
        };
        let both = Span {
            start: earlier.start.min(span.start),
            end: earlier.end.max(span.end),
        };
        if width_between(&self.text, both.start, both.end) < CUT_WIDTH {
            both
        } else {
            span
        }
    }

    /// Writes the part `shown` of the text, with dots where the text is cut.
    fn write_text<W: fmt::Write>(&self, shown: Span, f: &mut fmt::Formatter<W>) -> fmt::Result {
        if shown.start > 0 {
            f.write_str(DOTS)?;
        }
        self.write_part(shown, f)?;
        if shown.end < self.text.len() {
            f.write_str(DOTS)?;
        }
        Ok(())
    }

    /// Writes a part of the text, with spaces for control characters.
    fn write_part<W: fmt::Write>(&self, part: Span, f: &mut fmt::Formatter<W>) -> fmt::Result {
        for c in self.part(part).chars() {
            f.write_char(if c.is_control() { ' ' } else { c })?;
        }
        Ok(())
    }

    /// Writes the marks under the part `shown` of the text, up to the last mark, and a `^` after
    /// them if none of the characters is at fault.
    fn write_marks<W: fmt::Write>(&self, shown: Span, f: &mut fmt::Formatter<W>) -> fmt::Result {
        if shown.start > 0 {
            f.write_str("   ")?;
        }
        let last = self.last_marked();
        let mut is_marked = false;
        for (index, c) in self.text.char_indices() {
            if index >= last {
                break;
            }
            if has(shown, index) {
                for _ in 0..width_of(c) {
                    f.write_str(self.mark(index))?;
                    is_marked = is_marked || self.is_at_fault(index);
                }
            }
        }
        if !is_marked {
            f.write_str("^")?;
        }
        Ok(())
    }

    /// Writes a part of the text that is not printed, and the number of its first character, from 1
    /// on.
    fn write_left_out<W: fmt::Write>(&self, part: Span, f: &mut fmt::Formatter<W>) -> fmt::Result {
        let front = Span {
            start: 0,
            end: part.start,
        };
        let number = self.part(front).chars().count().saturating_add(1);
        f.write_str(" and `")?;
        self.write_part(part, f)?;
        write!(f, "` at character {number}")
    }

    /// Returns the part of the text with this span.
    fn part(&self, span: Span) -> &str {
        self.text.get(span.start..span.end).unwrap_or("")
    }

    /// Returns the byte index after the last marked character, where an empty fault counts as one
    /// byte.
    fn last_marked(&self) -> usize {
        let end = match self.fault.earlier {
            Some(earlier) => earlier.end.max(self.fault.span.end),
            None => self.fault.span.end,
        };
        end.max(self.fault.span.start.saturating_add(1))
    }

    /// Returns the mark under the character that begins at a byte index: `^`, `-` or a space.
    fn mark(&self, index: usize) -> &'static str {
        if self.is_at_fault(index) {
            return "^";
        }
        match self.fault.earlier {
            Some(earlier) if has(earlier, index) => "-",
            _ => " ",
        }
    }

    /// Whether the character that begins at a byte index is at fault, or an empty fault is just
    /// before it.
    fn is_at_fault(&self, index: usize) -> bool {
        has(self.fault.span, index) || index == self.fault.span.start
    }
}

/// Whether a span contains the byte at an index.
fn has(span: Span, index: usize) -> bool {
    span.start <= index && index < span.end
}

/// Whether two spans overlap.
fn meets(span: Span, other: Span) -> bool {
    span.start < other.end && other.start < span.end
}

/// Returns the number of columns of the characters that begin between two byte indices.
fn width_between(text: &str, start: usize, end: usize) -> usize {
    let mut width = 0usize;
    for (index, c) in text.char_indices() {
        if start <= index && index < end {
            width = width.saturating_add(width_of(c));
        }
    }
    width
}

/// Returns the number of columns of a character as it is printed.
fn width_of(c: char) -> usize {
    if c.is_control() {
        return 1;
    }
    c.width().unwrap_or(1)
}
