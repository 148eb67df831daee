//! The groups of a pattern, by name.

ghost use Rattle.std.specs.List.{list_any};
ghost use Rattle.std.specs.Prelude.{◌≡◌, bytes_eq, string_bytes, IfNone, IfSome};
ghost use Rattle.std.specs.Str.{chars};
ghost use Rattle.urlpat_matching.specs.Groups.{HasNoSingleOwner, IsGroupNamed, IsOnlyOwner, IsOwnGroup, LacksGroup, NamesNoGroup};
ghost use Rattle.urlpattern_matcher.specs.Components.{component_view};
ghost use Rattle.urlpattern_pattern.specs.Patterns.{pattern_view};

use urlpattern_components::ComponentName;
use urlpattern_engine::PatternRegexp;
use urlpattern_matcher::component::Component;
use urlpattern_pattern::UrlPattern;

/// The group of the pattern that a word names: by its component, a dot and its name, or by its name
/// alone if a single component has it. `None`: the word names no group, or one that the pattern
/// lacks.
pub fn own_group<'w>(
    pattern: &UrlPattern<PatternRegexp>,
    word: &'w str,
) -> Option<(ComponentName, &'w str)>
    ensures there { IfSome result (λ group.
        IsOwnGroup (pattern_view pattern.now) word.now group.0 group.1.now) }
    ensures missing { IfNone result (LacksGroup (pattern_view pattern.now) word.now) }
{
    match named_group(pattern, word) {
        Some((component, group)) => {
            if has_group(pattern.get(component), group) {
                Some((component, group))
            } else {
                None
            }
        }
        None => None,
    }
}

/// The group that `name` names: a component, a dot and the group, or the group alone if a single
/// component has it. After a dot, any name of a group is accepted. `None`: no component has the
/// name before the dot; or, without a dot, no component has the group, or several have it.
fn named_group<'w>(
    pattern: &UrlPattern<PatternRegexp>,
    name: &'w str,
) -> Option<(ComponentName, &'w str)>
    ensures named { IfSome result (λ group.
        IsGroupNamed (pattern_view pattern.now) name.now group.0 group.1.now) }
    ensures nothing { IfNone result (NamesNoGroup (pattern_view pattern.now) name.now) }
{
    match name.split_once('.') {
        Some((component, group)) => Some((ComponentName::from_name(component)?, group)),
        None => Some((owner(pattern, name)?, name)),
    }
}

/// The only component that has a group with this name. `None`: no component has one, or several
/// have.
pub fn owner(pattern: &UrlPattern<PatternRegexp>, name: &str) -> Option<ComponentName>
    ensures alone { IfSome result (IsOnlyOwner (pattern_view pattern.now) (chars name.now)) }
    ensures none { IfNone result (HasNoSingleOwner (pattern_view pattern.now) (chars name.now)) }
{
    let mut found = None;
    for component in ComponentName::all() {
        if has_group(pattern.get(component), name) {
            if found.is_some() {
                return None;
            }
            found = Some(component);
        }
    }
    found
}

/// Whether a component has a group with this name.
pub fn has_group(component: &Component<PatternRegexp>, name: &str) -> bool
    ensures { result ≡
        list_any (bytes_eq (chars name.now)) (component_view component.now).group_name_list }
{
    is_among(&component.group_name_list, name)
}

/// Whether a name is an element of `names`.
fn is_among(names: &[String], name: &str) -> bool
    ensures { result ≡ list_any (λ other. bytes_eq name.now (string_bytes other)) names.now }
{
    names.iter().any(|other| name == other.as_str())
}
