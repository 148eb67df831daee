//! Feeds the parts of a pattern to a hasher.

ghost use Rattle.std.specs.Prelude.{◌≡◌};
ghost use Rattle.std.specs.Hash as fed;
ghost use Rattle.std.specs.List.{fold};
ghost use Rattle.urlpattern_compare.specs.EqualParts.{AreEqualParts};
ghost use Rattle.urlpattern_compare.specs.PartsHash.{component_input, part_input, parts_input, text_input};
ghost use Rattle.urlpattern_syntax.specs.Parts.{part_view, parts_view};
ghost use Rattle.urlpattern_syntax.specs.Text.{text_of};

use crate::order::{kind_rank, modifier_rank};
use crate::pattern_parts::PatternParts;
use std::hash::{Hash, Hasher};
use urlpattern_components::ComponentName;
use urlpattern_syntax::ComponentParts;
use urlpattern_syntax::parser::Part;

impl PatternParts {
    /// Feeds the parts of the pattern to a hasher. Equal parts, as `is_same` finds them, are fed
    /// alike, so that patterns can be looked up by their parts.
    ///
    /// ```rust hash_into
    /// let mut hasher = DefaultHasher::default();
    /// parts.hash_into(&mut hasher);
    /// hasher.finish()
    /// ```
    pub fn hash_into<H: Hasher>(&self, state: &mut H)
        ensures fed { state.new ≡ fold H.write state.old (parts_input self.now) }
        ensures alike { (other : PatternParts) → AreEqualParts self.now other
            → parts_input self.now ≡ parts_input other }
    {
        let names = ComponentName::all();
        for index in 0..names.len() {
            hash_component(self.components.get(names[index]), state);
        }
    }
}

/// Feeds a component to a hasher: whether case is ignored, and the parts.
fn hash_component<H: Hasher>(component: &ComponentParts, state: &mut H)
    ensures { state.new ≡ fold H.write state.old (component_input component.now) }
{
    component.options.ignore_case.hash(state);
    hash_all_parts(&component.parts, state);
}

/// Feeds the length of a list of parts to a hasher, and each part.
fn hash_all_parts<H: Hasher>(parts: &[Part], state: &mut H)
    ensures { state.new ≡ fold H.write state.old (fed.slice part_input (parts_view parts.now)) }
{
    state.write_usize(parts.len());
    for index in 0..parts.len() {
        hash_part(&parts[index], state);
    }
}

/// Feeds a part to a hasher: kind and modifier by their ranks, and the texts.
fn hash_part<H: Hasher>(part: &Part, state: &mut H)
    ensures { state.new ≡ fold H.write state.old (part_input (part_view part.now)) }
{
    state.write_u8(kind_rank(&part.kind));
    state.write_u8(modifier_rank(part.modifier));
    hash_text(&part.value, state);
    hash_text(&part.name, state);
    hash_text(&part.prefix, state);
    hash_text(&part.suffix, state);
}

/// Feeds a text to a hasher.
fn hash_text<H: Hasher>(text: &String, state: &mut H)
    ensures { state.new ≡ fold H.write state.old (text_input (text_of text.now)) }
{
    text.hash(state);
}
