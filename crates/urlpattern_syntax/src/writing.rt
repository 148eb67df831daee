//! Texts that are written piece by piece, with one allocation.
//!
//! A [`Writable`] says once how it is written, to any [`Writer`]. [`written`] first counts the
//! bytes, allocates them, and then writes, which cannot fail. For the crates of this project.
ghost use Rattle.std.specs.Prelude.{◌≡◌, ◌∷◌, ◌++◌, ℕ, List, [], IfOk, MatchBool};
ghost use Rattle.std.specs.Str.{chars};
ghost use Rattle.urlpattern_syntax.specs.Text.{text_of};
ghost use Rattle.urlpattern_syntax.specs.Writing.{Appends, Compares, Counts, HasRoom, left_view};
ghost use Rattle.urlpattern_syntax.specs.WritingLaws.{appends_both, appends_nothing, compares_both, compares_nothing, counts_both, counts_nothing, room_front, room_rest};

use crate::text::split_first;
use std::alloc::{AllocError, Global};

/// A destination of text: a byte counter, a `String` with enough capacity, or a comparison.
///
/// `Fits` says that a text may be written, `Writes` how the writer changes when a text is written.
/// The other ghost members are laws of the two: a text may be written in two pieces.
pub trait Writer {
    ghost Fits: { Self → List ℕ → Type 0 };

    ghost Writes: { Self → List ℕ → Self → Type 0 };

    /// Writes the text.
    fn write_str(&mut self, text: &str)
        requires { Fits self.old (chars text.now) }
        ensures { Writes self.old (chars text.now) self.new };

    /// Writes the character.
    fn write_char(&mut self, c: char)
        requires { Fits self.old (c ∷ []) }
        ensures { Writes self.old (c ∷ []) self.new };

    ghost fits_front: { (writer : Self) (xs ys : List ℕ) → Fits writer (xs ++ ys)
        → Fits writer xs };

    ghost fits_rest: { (before after : Self) (xs ys : List ℕ) → Fits before (xs ++ ys)
        → Writes before xs after
        → Fits after ys };

    ghost writes_nothing: { (writer : Self) → Writes writer [] writer };

    ghost writes_both: { (before between after : Self) (xs ys : List ℕ) → Writes before xs between
        → Writes between ys after
        → Writes before (xs ++ ys) after };
}

/// A writer that counts bytes and keeps no text. The count stops at `usize::MAX`.
#[derive(Drop)]
struct Counter {
    bytes: usize,
}

impl Writer for Counter {
    ghost Fits = { λ counter text. Unit {0} };

    ghost Writes = { λ before text after. Counts before.bytes text after.bytes };

    fn write_str(&mut self, text: &str) {
        self.bytes = self.bytes.saturating_add(text.len());
    }

    fn write_char(&mut self, c: char) {
        self.bytes = self.bytes.saturating_add(c.len_utf8());
    }

    ghost fits_front = { λ counter xs ys fits. tt };

    ghost fits_rest = { λ before after xs ys fits writes. tt };

    ghost writes_nothing = { λ counter. counts_nothing counter.bytes };

    ghost writes_both = { λ before between after xs ys first second.
        counts_both before.bytes between.bytes after.bytes xs ys first second };
}

/// Writes into reserved capacity. Does not allocate.
impl Writer for String {
    ghost Fits = { HasRoom };

    ghost Writes = { Appends };

    fn write_str(&mut self, text: &str) {
        self.push_str(text).unwrap();
    }

    fn write_char(&mut self, c: char) {
        self.push(c).unwrap();
    }

    ghost fits_front = { room_front };

    ghost fits_rest = { room_rest };

    ghost writes_nothing = { appends_nothing };

    ghost writes_both = { appends_both };
}

/// A text that is compared with what is written. `left` is what is not compared yet, or `None`
/// after a difference.
#[derive(Drop)]
struct Comparison<'a> {
    left: Option<&'a str>,
}

/// Strips each text that is written from the start of what is left.
impl Writer for Comparison<'_> {
    ghost Fits = { λ comparison text. Unit {0} };

    ghost Writes = { λ before text after. Compares (left_view before) text (left_view after) };

    fn write_str(&mut self, text: &str) {
        if let Some(left) = self.left {
            self.left = left.strip_prefix(text);
        }
    }

    fn write_char(&mut self, c: char) {
        if let Some(left) = self.left {
            self.left = match split_first(left) {
                Some((first, rest)) if first == c => Some(rest),
                _ => None,
            };
        }
    }

    ghost fits_front = { λ comparison xs ys fits. tt };

    ghost fits_rest = { λ before after xs ys fits writes. tt };

    ghost writes_nothing = { λ comparison. compares_nothing (left_view comparison) };

    ghost writes_both = { λ before between after xs ys first second.
        compares_both (left_view before) (left_view between) (left_view after) xs ys first second };
}

/// A text that is written piece by piece.
pub trait Writable {
    ghost text: { Self → List ℕ };

    /// Writes the whole text to `writer`.
    fn write_to<W: Writer>(&self, writer: &mut W)
        requires { W.Fits writer.old (text self.now) }
        ensures { W.Writes writer.old (text self.now) writer.new };
}

/// Writes the text to a new `String`, with one allocation, or with no allocation if the text is
/// empty.
///
/// `AllocError`: memory ran out, or the text is longer than any `String`.
pub fn written<T: Writable>(alloc: Global, text: &T) -> Result<String, AllocError>
    ensures { IfOk result (λ string. text_of string ≡ T.text text.now) }
{
    let mut counter = Counter { bytes: 0 };
    text.write_to(&mut counter);
    let bytes = counter.bytes;
    if bytes == usize::MAX {
        return Err(AllocError);
    }
    let mut string = String::with_capacity(alloc, bytes)?;
    text.write_to(&mut string);
    Ok(string)
}

/// Whether `text` equals the text that `written` writes. Does not allocate.
pub fn is_written<T: Writable>(text: &str, written: &T) -> bool
    ensures { MatchBool result (chars text.now ≡ T.text written.now)
        (¬ (chars text.now ≡ T.text written.now)) }
{
    let mut comparison = Comparison { left: Some(text) };
    written.write_to(&mut comparison);
    match comparison.left {
        Some(left) => left.is_empty(),
        None => false,
    }
}

/// Writes the character.
impl Writable for char {
    ghost text = { λ c. c ∷ [] };

    fn write_to<W: Writer>(&self, writer: &mut W) {
        writer.write_char(*self);
    }
}

/// Writes the text.
impl Writable for &str {
    ghost text = { λ text. chars text.now };

    fn write_to<W: Writer>(&self, writer: &mut W) {
        writer.write_str(self);
    }
}

/// Writes two texts, one after the other.
impl<A: Writable, B: Writable> Writable for (A, B) {
    ghost text = { λ texts. A.text texts.0 ++ B.text texts.1 };

    fn write_to<W: Writer>(&self, writer: &mut W) {
        self.0.write_to(writer);
        self.1.write_to(writer);
    }
}

/// Writes three texts, one after the other.
impl<A: Writable, B: Writable, C: Writable> Writable for (A, B, C) {
    ghost text = { λ texts. A.text texts.0 ++ B.text texts.1 ++ C.text texts.2 };

    fn write_to<W: Writer>(&self, writer: &mut W) {
        self.0.write_to(writer);
        self.1.write_to(writer);
        self.2.write_to(writer);
    }
}

/// Writes four texts, one after the other.
impl<A: Writable, B: Writable, C: Writable, D: Writable> Writable for (A, B, C, D) {
    ghost text = { λ texts. A.text texts.0 ++ B.text texts.1 ++ C.text texts.2 ++ D.text texts.3 };

    fn write_to<W: Writer>(&self, writer: &mut W) {
        self.0.write_to(writer);
        self.1.write_to(writer);
        self.2.write_to(writer);
        self.3.write_to(writer);
    }
}
