//! Generates the text of one component from the texts of its groups.
ghost use Rattle.std.specs.Prelude.{IfErr, IfOk};
ghost use Rattle.urlpattern_generate.specs.WriteSettings.{given_groups};
ghost use Rattle.urlpattern_pattern.specs.ComponentTexts.{GeneratesText, RejectsGroups};
ghost use Rattle.urlpattern_syntax.specs.Text.{text_of};

use super::UrlPattern;
use std::alloc::Global;
use urlpattern_components::ComponentName;
use urlpattern_generate::{GenerateError, GivenGroup, generate_component};
use urlpattern_matcher::regexp::RegExp;

impl<R: RegExp> UrlPattern<R> {
    /// Returns a text that `component` matches, and in which its groups capture the texts that
    /// `groups` gives, in canonical form. The first of several texts for one group counts. Texts
    /// for other components, or for groups that the component does not have, are ignored.
    ///
    /// A group to which `groups` gives no text is left out if its modifier permits that; otherwise
    /// a full wildcard without name captures the empty text. A fixed text with a modifier occurs as
    /// few times as the modifier permits.
    ///
    /// The error is that a group needs a text and has none, that a group cannot capture its text,
    /// that the groups would capture other texts in the result or the result is not canonical, that
    /// the pattern was put together by hand and so has no parts, or that memory ran out.
    ///
    /// With `pattern` as a function that compiles a constructor string:
    ///
    /// ```rust generate
    /// let users = pattern(alloc, "https://example.com/users/:id")?;
    /// let groups = [(ComponentName::Pathname, "id", id)];
    /// let path = users.generate(alloc, ComponentName::Pathname, &groups);
    /// ```
    pub fn generate(
        &self,
        alloc: Global,
        component: ComponentName,
        groups: &[GivenGroup<'_>],
    ) -> Result<String, GenerateError>
        ensures generated { IfOk result (λ text.
            GeneratesText R.answer self.now component (given_groups groups.now) (text_of text)) }
        ensures refused { IfErr result
            (RejectsGroups R.answer self.now component (given_groups groups.now)) }
    {
        let Some(parts) = self.parts() else {
            return Err(GenerateError::NoParts);
        };
        let kept = parts.components.get(component);
        generate_component(alloc, kept, &self.get(component).matcher, component, groups)
    }
}
