//! The regular expression of a list of parts.
//!
//! <https://urlpattern.spec.whatwg.org/#generate-a-regular-expression-and-name-list>

ghost use Rattle.std.specs.Prelude.{◌≡◌, ◌++◌, IfOk};
ghost use Rattle.urlpattern_printing.specs.WrittenParts.{affixed_part, bare_part, escaped_prefix, escaped_suffix, escaped_value, fixed_part, matched_text};
ghost use Rattle.urlpattern_syntax.specs.{Options.options_view, Text.text_of, Writing.escaped_text};
ghost use Rattle.urlpattern_syntax.specs.Parts.{part_view, parts_view};
ghost use Rattle.urlpattern_syntax.specs.RegexpText.{captured, grouped, part_regexp, regexp_text, repeated_regexp};

use crate::names::is_bare;
use std::alloc::{AllocError, Global};
use urlpattern_syntax::escape::{Escaped, SegmentWildcard};
use urlpattern_syntax::parser::{
    FULL_WILDCARD_REGEXP_VALUE, Options, Part, PartModifier, PartType,
};
use urlpattern_syntax::writing::{Writable, Writer, written};

/// Returns the regular expression of a list of parts.
pub fn generate_regular_expression(
    alloc: Global,
    part_list: &[Part],
    options: &Options,
) -> Result<String, AllocError>
    ensures { IfOk result (λ text.
        text_of text ≡ regexp_text (options_view options.now) (parts_view part_list.now)) }
{
    written(alloc, &RegexpText { part_list, options })
}

/// A text in parentheses: in a regular expression, a capturing group.
#[derive(Clone, Copy)]
pub(crate) struct Captured<T>(pub T);

impl<T: Writable + Copy> Writable for Captured<T> {
    ghost text = { λ piece. captured (T.text piece.0) };

    fn write_to<W: Writer>(&self, writer: &mut W) {
        ('(', self.0, ')').write_to(writer);
    }
}

/// A regular expression in a group that does not capture, `(?:`..`)`.
#[derive(Clone, Copy)]
struct Grouped<T>(T);

impl<T: Writable + Copy> Writable for Grouped<T> {
    ghost text = { λ piece. grouped (T.text piece.0) };

    fn write_to<W: Writer>(&self, writer: &mut W) {
        ("(?:", self.0, ')').write_to(writer);
    }
}

/// The regular expression of a list of parts.
#[derive(Clone, Copy)]
struct RegexpText<'a> {
    part_list: &'a [Part],
    options: &'a Options,
}

impl Writable for RegexpText<'_> {
    ghost text = { λ list.
        regexp_text (options_view list.options.now) (parts_view list.part_list.now) };

    fn write_to<W: Writer>(&self, writer: &mut W) {
        writer.write_char('^');
        for part in self.part_list {
            let options = self.options;
            PartRegexp { part, options }.write_to(writer);
        }
        writer.write_char('$');
    }
}

/// The regular expression of a part.
#[derive(Clone, Copy)]
struct PartRegexp<'a> {
    part: &'a Part,
    options: &'a Options,
}

impl Writable for PartRegexp<'_> {
    ghost text = { λ regexp.
        part_regexp (options_view regexp.options.now) (part_view regexp.part.now) };

    fn write_to<W: Writer>(&self, writer: &mut W) {
        match self.part.kind {
            PartType::FixedText => self.write_fixed(writer),
            _ if is_bare(self.part) => self.write_bare(writer),
            _ => self.write_affixed(writer),
        }
    }
}

impl<'a> PartRegexp<'a> {
    /// Returns the value of the part, escaped for a regular expression.
    fn value(&self) -> Escaped<'a>
        ensures { escaped_text result ≡ escaped_value self.now }
    {
        Escaped::regexp(&self.part.value, self.options)
    }

    /// Returns the prefix of the part, escaped for a regular expression.
    fn prefix(&self) -> Escaped<'a>
        ensures { escaped_text result ≡ escaped_prefix self.now }
    {
        Escaped::regexp(&self.part.prefix, self.options)
    }

    /// Returns the suffix of the part, escaped for a regular expression.
    fn suffix(&self) -> Escaped<'a>
        ensures { escaped_text result ≡ escaped_suffix self.now }
    {
        Escaped::regexp(&self.part.suffix, self.options)
    }

    /// Writes a fixed text or, if it has a modifier, a non-capturing group of it with the modifier.
    fn write_fixed<W: Writer>(&self, writer: &mut W)
        requires { W.Fits writer.old (fixed_part self.now) }
        ensures { W.Writes writer.old (fixed_part self.now) writer.new }
    {
        match self.part.modifier {
            PartModifier::None => self.value().write_to(writer),
            _ => (Grouped(self.value()), self.part.modifier.as_str()).write_to(writer),
        }
    }

    /// Writes a group that has neither prefix nor suffix. All copies are one capture.
    fn write_bare<W: Writer>(&self, writer: &mut W)
        requires { W.Fits writer.old (bare_part self.now) }
        ensures { W.Writes writer.old (bare_part self.now) writer.new }
    {
        let modifier = self.part.modifier.as_str();
        match self.part.modifier {
            PartModifier::None | PartModifier::Optional => {
                (Captured(RegexpBody(*self)), modifier).write_to(writer);
            }
            PartModifier::ZeroOrMore | PartModifier::OneOrMore => {
                Captured((Grouped(RegexpBody(*self)), modifier)).write_to(writer);
            }
        }
    }

    /// Writes a group that has a prefix or a suffix. All copies are one capture, without the first
    /// prefix and the last suffix.
    fn write_affixed<W: Writer>(&self, writer: &mut W)
        requires { W.Fits writer.old (affixed_part self.now) }
        ensures { W.Writes writer.old (affixed_part self.now) writer.new }
    {
        match self.part.modifier {
            PartModifier::None => Single(*self).write_to(writer),
            PartModifier::Optional => (Single(*self), '?').write_to(writer),
            PartModifier::ZeroOrMore => (Repeated(*self), '?').write_to(writer),
            PartModifier::OneOrMore => Repeated(*self).write_to(writer),
        }
    }
}

/// The regular expression of one copy of a part, without its prefix and its suffix.
#[derive(Clone, Copy)]
struct RegexpBody<'a>(PartRegexp<'a>);

impl Writable for RegexpBody<'_> {
    ghost text = { λ matched. matched_text matched.0 };

    fn write_to<W: Writer>(&self, writer: &mut W) {
        match self.0.part.kind {
            PartType::FixedText => self.0.value().write_to(writer),
            PartType::Regexp => writer.write_str(&self.0.part.value),
            PartType::SegmentWildcard => SegmentWildcard(self.0.options).write_to(writer),
            PartType::FullWildcard => writer.write_str(FULL_WILDCARD_REGEXP_VALUE),
        }
    }
}

/// The regular expression of a single copy of a group, captured without its prefix and its suffix.
#[derive(Clone, Copy)]
struct Single<'a>(PartRegexp<'a>);

impl Writable for Single<'_> {
    ghost text = { λ single.
        grouped
        (escaped_prefix single.0 ++ captured (matched_text single.0) ++ escaped_suffix single.0) };

    fn write_to<W: Writer>(&self, writer: &mut W) {
        let matched = Captured(RegexpBody(self.0));
        Grouped((self.0.prefix(), matched, self.0.suffix())).write_to(writer);
    }
}

/// The regular expression of one or more copies of a group, each with prefix and suffix, captured
/// as one text without the first prefix and the last suffix.
#[derive(Clone, Copy)]
struct Repeated<'a>(PartRegexp<'a>);

impl Writable for Repeated<'_> {
    ghost text = { λ repeated.
        repeated_regexp (escaped_prefix repeated.0) (matched_text repeated.0)
        (escaped_suffix repeated.0) };

    fn write_to<W: Writer>(&self, writer: &mut W) {
        let (prefix, suffix) = (self.0.prefix(), self.0.suffix());
        let matched = Grouped(RegexpBody(self.0));
        let more = Grouped((suffix, prefix, matched));
        Grouped((prefix, Captured((matched, more, '*')), suffix)).write_to(writer);
    }
}
