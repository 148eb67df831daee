//! Generates the URL of a pattern from values that are percent-encoded first.
ghost use Rattle.std.specs.Prelude.{IfErr, IfOk, IfSome, option_map};
ghost use Rattle.urlpattern_generate.specs.EncodedGroups.{encoded_groups};
ghost use Rattle.urlpattern_generate.specs.WriteSettings.{given_groups};
ghost use Rattle.urlpattern_init.specs.declared.init.UrlPatternMatchInput.TheVariants as inputs;
ghost use Rattle.urlpattern_pattern.specs.EncodedLinks.{IsChangedIn, IsFirstChanged, RejectsEncoded, ReturnsDecoded, group_named};
ghost use Rattle.urlpattern_pattern.specs.LinkedUrls.{IsLink};
ghost use Rattle.urlpattern_pattern.specs.Match.{HasMatch};
ghost use Rattle.urlpattern_pattern.specs.Patterns.{pattern_view};
ghost use Rattle.urlpattern_syntax.specs.Text.{option_text};

use super::UrlPattern;
use std::alloc::{AllocError, Global};
use url::Url;
use urlpattern_compare::PatternParts;
use urlpattern_components::ComponentName;
use urlpattern_generate::{
    GenerateError, GivenGroup, NoLink, as_given, changed_group, encoded_values,
};
use urlpattern_matcher::regexp::RegExp;

impl<R: RegExp> UrlPattern<R> {
    /// Returns a URL that the pattern matches, as `link` does, with each value percent-encoded as
    /// by `encodeURIComponent`. Each match of the URL captures, for a group of the pattern to which
    /// `groups` gives a value, a text that `decoded` returns as exactly that value.
    ///
    /// No value changes what is around it: `/s?q=:q` with `a&b=c` is `/s?q=a%26b%3Dc`. Values for a
    /// protocol, a hostname or a port, where percent-encoding has no place, are accepted if they
    /// are written unchanged, as `example` is and `Example` and `a.b:1` are not.
    ///
    /// The errors are those of `link` with the encoded values, and `NotCaptured` for the first
    /// group whose value would be written otherwise.
    pub fn link_encoded(&self, alloc: Global, groups: &[GivenGroup<'_>]) -> Result<Url, NoLink>
        ensures generated { IfOk result
            (IsLink R.answer self.now (encoded_groups (given_groups groups.now))) }
        ensures returns { IfOk result
            (ReturnsDecoded R.answer self.now (given_groups groups.now)) }
        ensures matched { IfOk result (λ url.
            HasMatch R.answer (pattern_view self.now) (inputs.Url url)) }
        ensures refused { IfErr result
            (RejectsEncoded R.answer self.now (encoded_groups (given_groups groups.now))) }
    {
        let values = encoded_values(alloc, groups)?;
        let encoded = as_given(alloc, &values)?;
        let url = match self.link(alloc, &encoded) {
            Ok(url) => url,
            Err(error) => return Err(error),
        };
        match self.changed(alloc, &encoded)? {
            None => Ok(url),
            Some((component, name)) => Err(NoLink::Component(GenerateError::NotCaptured(
                component,
                String::from_str(alloc, name)?,
            ))),
        }
    }

    /// Returns the first group of the pattern whose value in `groups` is changed: the canonical
    /// form of the value does not decode to the bytes to which the value decodes. `None`: no value
    /// is changed, or the pattern has no parts.
    fn changed(
        &self,
        alloc: Global,
        groups: &[GivenGroup<'_>],
    ) -> Result<Option<(ComponentName, &str)>, AllocError>
        ensures { IfOk result (λ found.
            IfSome self.now.parts (λ parts.
            IsFirstChanged (pattern_view self.now) parts (given_groups groups.now)
            (option_map group_named found))) }
    {
        let Some(parts) = self.parts() else {
            return Ok(None);
        };
        for component in ComponentName::all() {
            match self.changed_in(alloc, parts, groups, component)? {
                Some(name) => return Ok(Some((component, name))),
                None => {}
            }
        }
        Ok(None)
    }

    /// Returns the first group of `component` whose value in `groups` is changed. `None`: no value
    /// is changed.
    fn changed_in(
        &self,
        alloc: Global,
        parts: &PatternParts,
        groups: &[GivenGroup<'_>],
        component: ComponentName,
    ) -> Result<Option<&str>, AllocError>
        ensures { IfOk result (λ found.
            IsChangedIn (pattern_view self.now) parts.now (given_groups groups.now) component
            (option_text found)) }
    {
        let kept = parts.components.get(component);
        let names = &self.get(component).group_name_list;
        changed_group(alloc, kept, component, names, groups)
    }
}
