//! The pattern text of a list of parts.
//!
//! <https://urlpattern.spec.whatwg.org/#converting-part-lists-to-pattern-strings>

ghost use Rattle.std.specs.Prelude.{◌≡◌, ◌&&◌, ◌||◌, false, IfOk};
ghost use Rattle.std.specs.Str.{chars};
ghost use Rattle.urlpattern_printing.specs.Neighbours.{ends_with_prefix, neighbour};
ghost use Rattle.urlpattern_printing.specs.{NormalForms.ReadsBackIfKept, WrittenParts.group_part};
ghost use Rattle.urlpattern_meaning.specs.Printing.{escaped_pattern, continues_name, has_custom_name, has_other_prefix, has_suffix, in_braces, is_asterisk, is_name_alone, needs_braces, printed, printed_fixed, printed_match, printed_name, printed_part, printed_suffix, absorbs_before, absorbs_next, is_wildcard_after};
ghost use Rattle.urlpattern_syntax.specs.{Errors.OnlyOutOfMemory, Options.options_view, RegexpText.is_fixed_text};
ghost use Rattle.urlpattern_syntax.specs.Parts.{part_view, parts_view};
ghost use Rattle.urlpattern_syntax.specs.Text.{begins_with, is_name_part, text_of};

use crate::names::is_bare;
use crate::regexp_text::Captured;
use std::alloc::Global;
use urlpattern_syntax::Error;
use urlpattern_syntax::escape::{Escaped, SegmentWildcard};
use urlpattern_syntax::parser::{
    FULL_WILDCARD_REGEXP_VALUE, Options, Part, PartModifier, PartType,
};
use urlpattern_syntax::tokenizer::is_name_part;
use urlpattern_syntax::writing::{Writable, Writer, written};

/// Returns the pattern text of a list of parts.
///
/// The text of parts that are printable (`IsPrintable`) is parsed as these parts again, with
/// neighbouring fixed texts that have no modifier joined, and as nothing else, if the encoding
/// callback returns their texts unchanged.
///
/// <https://urlpattern.spec.whatwg.org/#generate-a-pattern-string>
pub fn generate_pattern_string(
    alloc: Global,
    part_list: &[Part],
    options: &Options,
) -> Result<String, Error>
    ensures text { IfOk result (λ text.
        text_of text ≡ printed (options_view options.now) (parts_view part_list.now)) }
    ensures reads_back { IfOk result (λ text.
        ReadsBackIfKept (text_of text) (options_view options.now) (parts_view part_list.now)) }
    ensures memory { OnlyOutOfMemory result }
{
    Ok(written(alloc, &PrintedText { part_list, options })?)
}

/// The pattern text of a list of parts.
#[derive(Clone, Copy)]
struct PrintedText<'a> {
    part_list: &'a [Part],
    options: &'a Options,
}

impl Writable for PrintedText<'_> {
    ghost text = { λ list.
        printed (options_view list.options.now) (parts_view list.part_list.now) };

    fn write_to<W: Writer>(&self, writer: &mut W) {
        let options = self.options;
        let mut previous = None;
        let mut rest = self.part_list;
        while let Some((part, after)) = rest.split_first() {
            let next = after.first();
            PrintedPart {
                options,
                previous,
                part,
                next,
            }
            .write_to(writer);
            previous = Some(part);
            rest = after;
        }
    }
}

/// A part that is printed. Whether it needs braces depends on the parts `previous` and `next` to
/// it, `None` at an end of the list.
#[derive(Clone, Copy)]
struct PrintedPart<'a> {
    options: &'a Options,
    previous: Option<&'a Part>,
    part: &'a Part,
    next: Option<&'a Part>,
}

impl Writable for PrintedPart<'_> {
    ghost text = { λ printed.
        printed_part (options_view printed.options.now) (neighbour printed.previous)
        (part_view printed.part.now) (neighbour printed.next) };

    fn write_to<W: Writer>(&self, writer: &mut W) {
        match self.part.kind {
            PartType::FixedText => self.write_fixed_text(writer),
            _ => {
                let braces = needs_grouping(self.options, self.previous, self.part, self.next);
                self.write_group(writer, braces);
            }
        }
    }
}

impl PrintedPart<'_> {
    /// Writes a fixed text, between braces and with its modifier if it has one.
    fn write_fixed_text<W: Writer>(&self, writer: &mut W)
        requires { W.Fits writer.old (printed_fixed (part_view self.now.part.now)) }
        ensures { W.Writes writer.old (printed_fixed (part_view self.now.part.now)) writer.new }
    {
        let braces = self.part.modifier != PartModifier::None;
        let inner = Escaped::pattern(&self.part.value);
        (InBraces { braces, inner }, self.part.modifier.as_str()).write_to(writer);
    }

    /// Writes a part that is not a fixed text, between braces if `braces` is set
    /// (`needs_grouping`), and its modifier.
    fn write_group<W: Writer>(&self, writer: &mut W, braces: bool)
        requires { W.Fits writer.old (group_part self.now braces) }
        ensures { W.Writes writer.old (group_part self.now braces) writer.new }
    {
        let part = self.part;
        let matched = PrintedBody {
            options: self.options,
            part,
            asterisk: is_asterisk(self.previous, part, braces),
        };
        let inner = (Prefix(part), Name(part), matched, Suffix(part));
        (InBraces { braces, inner }, part.modifier.as_str()).write_to(writer);
    }
}

/// The text `inner`, between braces if `braces` is set.
#[derive(Clone, Copy)]
struct InBraces<T> {
    braces: bool,
    inner: T,
}

impl<T: Writable> Writable for InBraces<T> {
    ghost text = { λ piece. in_braces piece.braces (T.text piece.inner) };

    fn write_to<W: Writer>(&self, writer: &mut W) {
        if !self.braces {
            return self.inner.write_to(writer);
        }
        writer.write_char('{');
        self.inner.write_to(writer);
        writer.write_char('}');
    }
}

/// The prefix of a part, escaped for a pattern.
#[derive(Clone, Copy)]
struct Prefix<'a>(&'a Part);

impl Writable for Prefix<'_> {
    ghost text = { λ prefix. escaped_pattern (part_view prefix.0.now).prefix };

    fn write_to<W: Writer>(&self, writer: &mut W) {
        if self.0.prefix.is_empty() {
            return;
        }
        let prefix = Escaped::pattern(&self.0.prefix);
        prefix.write_to(writer);
    }
}

/// A colon and the name of a part, or nothing if the name begins with a digit, as the number of a
/// group without a given name does.
#[derive(Clone, Copy)]
struct Name<'a>(&'a Part);

impl Writable for Name<'_> {
    ghost text = { λ name. printed_name (part_view name.0.now) };

    fn write_to<W: Writer>(&self, writer: &mut W) {
        if !has_custom_name(self.0) {
            return;
        }
        (':', self.0.name.as_str()).write_to(writer);
    }
}

/// What is printed after the name of a part: the regular expression in parentheses, an asterisk for
/// a full wildcard if `asterisk` is set (`is_asterisk`), or nothing for a segment with a given
/// name.
#[derive(Clone, Copy)]
struct PrintedBody<'a> {
    options: &'a Options,
    part: &'a Part,
    asterisk: bool,
}

impl Writable for PrintedBody<'_> {
    ghost text = { λ matched.
        let part = part_view matched.part.now in
        printed_match (options_view matched.options.now) part.kind part matched.asterisk };

    fn write_to<W: Writer>(&self, writer: &mut W) {
        match self.part.kind {
            PartType::FixedText => (),
            PartType::Regexp => Captured(self.part.value.as_str()).write_to(writer),
            PartType::SegmentWildcard if has_custom_name(self.part) => (),
            PartType::SegmentWildcard => Captured(SegmentWildcard(self.options)).write_to(writer),
            PartType::FullWildcard if self.asterisk => writer.write_char('*'),
            PartType::FullWildcard => Captured(FULL_WILDCARD_REGEXP_VALUE).write_to(writer),
        }
    }
}

/// The suffix of a part, escaped for a pattern, after a backslash if the suffix would otherwise be
/// parsed as more of the name before it.
#[derive(Clone, Copy)]
struct Suffix<'a>(&'a Part);

impl Writable for Suffix<'_> {
    ghost text = { λ suffix. printed_suffix (part_view suffix.0.now) };

    fn write_to<W: Writer>(&self, writer: &mut W) {
        if self.0.suffix.is_empty() {
            return;
        }
        let suffix = Escaped::pattern(&self.0.suffix);
        if continues_name_with_suffix(self.0) {
            ('\\', suffix).write_to(writer);
        } else {
            suffix.write_to(writer);
        }
    }
}

/// Whether `part`, a group, needs braces between the parts `previous` and `next`, `None` at an end
/// of the list: for a suffix, for a prefix other than the prefix code point, or to be parsed apart
/// from a neighbour.
fn needs_grouping(
    options: &Options,
    previous: Option<&Part>,
    part: &Part,
    next: Option<&Part>,
) -> bool
    ensures { result
        ≡ needs_braces (options_view options.now) (neighbour previous.entry) (part_view part.now)
        (neighbour next.entry) }
{
    needs_grouping_before(options, part, next) || absorbs_before(options, previous, part)
}

/// Whether `part`, a group, needs braces for a suffix, for a prefix other than the prefix code
/// point, or to be parsed apart from the part `next` after it.
fn needs_grouping_before(options: &Options, part: &Part, next: Option<&Part>) -> bool
    ensures { result
        ≡ (has_suffix (part_view part.now)
        || has_other_prefix (options_view options.now) (part_view part.now)
        || absorbs_next (part_view part.now) (neighbour next.entry)) }
{
    has_other_ends(options, part) || absorbs_next(part, next)
}

/// Whether the part has a suffix, or a prefix that is not the prefix code point.
fn has_other_ends(options: &Options, part: &Part) -> bool
    ensures { result
        ≡ (has_suffix (part_view part.now)
        || has_other_prefix (options_view options.now) (part_view part.now)) }
{
    !part.suffix.is_empty() || has_other_prefix(options, part)
}

/// Whether the part has a prefix that is not the prefix code point.
fn has_other_prefix(options: &Options, part: &Part) -> bool
    ensures { result ≡ has_other_prefix (options_view options.now) (part_view part.now) }
{
    !part.prefix.is_empty() && part.prefix != options.prefix_code_point
}

/// Whether `part` is a name alone without a modifier, such as `:id`, and the start of `next`,
/// printed without braces, would be parsed with it: as more of the name, or as its regular
/// expression.
fn absorbs_next(part: &Part, next: Option<&Part>) -> bool
    ensures { result ≡ absorbs_next (part_view part.now) (neighbour next.entry) }
{
    match next {
        Some(next) => is_name_alone(part)
            && part.modifier == PartModifier::None
            && continues_name(next),
        None => false,
    }
}

/// Whether the start of `part`, printed without braces, would be parsed with a name directly before
/// it: as more of the name, or as its regular expression.
fn continues_name(part: &Part) -> bool
    ensures { result ≡ continues_name (part_view part.now) }
{
    is_bare(part)
        && match part.kind {
            PartType::FixedText => begins_with_name_part(&part.value),
            _ => !has_custom_name(part),
        }
}

/// Whether `part` has no prefix, and `previous` is a fixed text that ends with the prefix code
/// point, which without braces could be parsed as the prefix of `part`.
fn absorbs_before(options: &Options, previous: Option<&Part>, part: &Part) -> bool
    ensures { result
        ≡ absorbs_before (options_view options.now) (neighbour previous.entry)
        (part_view part.now) }
{
    match previous {
        Some(previous) => part.prefix.is_empty() && is_text_ending_with_prefix(options, previous),
        None => false,
    }
}

/// Whether the part is a fixed text whose last character is the prefix code point.
fn is_text_ending_with_prefix(options: &Options, part: &Part) -> bool
    ensures { result
        ≡ (is_fixed_text part.now.kind
        && ends_with_prefix (options_view options.now) (text_of part.now.value)) }
{
    part.kind == PartType::FixedText && ends_with_prefix(options, &part.value)
}

/// Whether the last character of the text is the prefix code point.
fn ends_with_prefix(options: &Options, text: &str) -> bool
    ensures { result ≡ ends_with_prefix (options_view options.now) (chars text.now) }
{
    let Some(last) = text.chars().next_back() else {
        return false;
    };
    let mut prefix = options.prefix_code_point.chars();
    prefix.next() == Some(last) && prefix.as_str().is_empty()
}

/// Whether `part`, if it is a full wildcard, may be printed as an asterisk: it has no given name,
/// and the asterisk cannot be parsed as a modifier of `previous`. `grouped` says whether it is in
/// braces.
fn is_asterisk(previous: Option<&Part>, part: &Part, grouped: bool) -> bool
    ensures { result ≡ is_asterisk (neighbour previous.entry) (part_view part.now) grouped }
{
    !has_custom_name(part) && (is_wildcard_after(previous) || grouped || !part.prefix.is_empty())
}

/// Whether an asterisk directly after the part `previous`, or first in a pattern (`None`), is
/// parsed as a wildcard, not as a modifier.
fn is_wildcard_after(previous: Option<&Part>) -> bool
    ensures { result ≡ is_wildcard_after (neighbour previous.entry) }
{
    match previous {
        Some(previous) => {
            previous.kind == PartType::FixedText || previous.modifier != PartModifier::None
        }
        None => true,
    }
}

/// Whether the part is a name alone, such as `:id`, and the start of its suffix would be parsed as
/// more of the name.
fn continues_name_with_suffix(part: &Part) -> bool
    ensures { result
        ≡ (is_name_alone (part_view part.now)
        && begins_with is_name_part (text_of part.now.suffix)) }
{
    is_name_alone(part) && begins_with_name_part(&part.suffix)
}

/// Whether the part is a segment with a given name, which is printed as a name alone, such as
/// `:id`.
fn is_name_alone(part: &Part) -> bool
    ensures { result ≡ is_name_alone (part_view part.now) }
{
    part.kind == PartType::SegmentWildcard && has_custom_name(part)
}

/// Whether the name of the part is given by a pattern: it does not begin with a digit, as the
/// number of a group without a given name does.
fn has_custom_name(part: &Part) -> bool
    ensures { result ≡ has_custom_name (part_view part.now) }
{
    match part.name.chars().next() {
        Some(first) => !first.is_ascii_digit(),
        None => true,
    }
}

/// Whether the text begins with a character that a name may have after its first one.
fn begins_with_name_part(text: &str) -> bool
    ensures { result ≡ begins_with is_name_part (chars text.now) }
{
    match text.chars().next() {
        Some(first) => is_name_part(first),
        None => false,
    }
}
