//! Values of groups, percent-encoded, and which of them a component would change.

ghost use Rattle.std.specs.Prelude.{◌≡◌, All, IfOk, MatchBool, map};
ghost use Rattle.std.specs.Str.{chars};
ghost use Rattle.urlpattern_generate.specs.EncodedGroups.{ChangesText, ChangesValue, IsChanged, IsDecodedBack, KeepsText, KeepsValue, cow_group, encoded_groups};
ghost use Rattle.urlpattern_generate.specs.WriteSettings.{given_groups, settings_for};
ghost use Rattle.urlpattern_generate.specs.WrittenTexts.{cow_text, settings_of_writer};
ghost use Rattle.urlpattern_syntax.specs.ComponentParts.{kept_options, kept_parts};
ghost use Rattle.urlpattern_syntax.specs.Text.{option_text, text_of};
ghost use Rattle.urlpattern_values.specs.EncodedValues.{DecodesTo, encoded};

use crate::given_groups::{GivenGroup, given_text};
use crate::substitution::Substitution;
use std::alloc::{AllocError, Global};
use std::borrow::CowStr;
use urlpattern_components::ComponentName;
use urlpattern_syntax::parts::ComponentParts;
use urlpattern_values::{decode_alike, encode};

/// A value for a group, percent-encoded: the component, the name of the group, and the text.
pub type EncodedGroup<'g> = (ComponentName, &'g str, CowStr<'g>);

/// Returns the values, each percent-encoded as by `encodeURIComponent`.
pub fn encoded_values<'g>(
    alloc: Global,
    groups: &'g [GivenGroup<'g>],
) -> Result<Vec<EncodedGroup<'g>>, AllocError>
    ensures encoded { IfOk result (λ values.
        map cow_group values.items ≡ encoded_groups (given_groups groups.now)) }
    ensures decoded { IfOk result (λ _. All IsDecodedBack (given_groups groups.now)) }
{
    let mut values = Vec::with_capacity(alloc, groups.len())?;
    for (component, name, text) in groups {
        values.push((*component, *name, encoded_value(alloc, text)?))?;
    }
    Ok(values)
}

/// Returns a value, percent-encoded as by `encodeURIComponent`.
fn encoded_value<'g>(alloc: Global, value: &'g str) -> Result<CowStr<'g>, AllocError>
    ensures encoded { IfOk result (λ text. cow_text text ≡ encoded (chars value.now)) }
    ensures decoded { DecodesTo (encoded (chars value.now)) (chars value.now) }
{
    encode(alloc, value)
}

/// Borrows the texts of percent-encoded values.
pub fn as_given<'g>(
    alloc: Global,
    values: &'g [EncodedGroup<'g>],
) -> Result<Vec<GivenGroup<'g>>, AllocError>
    ensures { IfOk result (λ groups. given_groups groups.items ≡ map cow_group values.now) }
{
    let mut groups = Vec::with_capacity(alloc, values.len())?;
    for (component, name, text) in values {
        groups.push((*component, *name, text.as_str()))?;
    }
    Ok(groups)
}

/// Returns the first of `names`, groups of a component, whose value in `groups` is changed: the
/// canonical form of the value does not decode to the bytes to which the value decodes. `None`: no
/// value is changed. `kept` are the parts of the component.
///
/// A rejection by `url` is reported as memory that ran out, since no text is written with a
/// rejected value.
pub fn changed_group<'n>(
    alloc: Global,
    kept: &ComponentParts,
    component: ComponentName,
    names: &'n [String],
    groups: &[GivenGroup<'_>],
) -> Result<Option<&'n str>, AllocError>
    ensures { IfOk result (λ found.
        IsChanged (settings_for component (kept_options kept.now) (kept_parts kept.now)
        (given_groups groups.now)) (map (λ name. text_of name) names.now) (option_text found)) }
{
    let writer = Substitution {
        alloc,
        kept,
        component,
        groups,
    };
    for name in names {
        if writer.changes(name)? {
            return Ok(Some(name.as_str()));
        }
    }
    Ok(None)
}

impl Substitution<'_> {
    /// Whether a group has a value that is changed.
    fn changes(&self, name: &str) -> Result<bool, AllocError>
        ensures { IfOk result (λ is.
            MatchBool is (ChangesValue (settings_of_writer self.now) (chars name.now))
            (KeepsValue (settings_of_writer self.now) (chars name.now))) }
    {
        match given_text(self.groups, self.component, name) {
            Some(text) => self.changes_text(text),
            None => Ok(false),
        }
    }

    /// Whether the canonical form of a text decodes otherwise than the text does.
    fn changes_text(&self, text: &str) -> Result<bool, AllocError>
        ensures { IfOk result (λ is.
            MatchBool is (ChangesText (settings_of_writer self.now) (chars text.now))
            (KeepsText (settings_of_writer self.now) (chars text.now))) }
    {
        if self.keeps(text) {
            return Ok(false);
        }
        match self.canonical(text) {
            Ok(form) => Ok(!decode_alike(self.alloc, &form, text)?),
            Err(_) => Err(AllocError),
        }
    }
}
