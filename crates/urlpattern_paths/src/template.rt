//! Path templates: what the parts of a path say, in one short text.
ghost use Rattle.std.specs.Prelude.{IfSome};
ghost use Rattle.urlpattern_paths.specs.Templates.{IsTemplateOf};
ghost use Rattle.urlpattern_syntax.specs.Parts.{parts_view};

use crate::read_once::front_text;
use arrayvec::ArrayString;
use urlpattern_syntax::parser::{Part, PartType};

/// The character of a template that stands for a segment.
pub(crate) const SEGMENT: char = '\n';

/// The parts of a path as one text of at most 104 bytes: fixed texts as they are, and a line feed
/// for each segment.
#[derive(Clone, Copy, Debug)]
pub struct PathTemplate {
    pub(crate) text: ArrayString<104>,
    /// Whether a wildcard follows the text.
    pub(crate) takes_rest: bool,
}

/// Returns the template of the parts of a path. `None`: the text would be too long, or a part has a
/// line feed, is a custom expression, or follows a wildcard.
pub(crate) fn template_of(parts: &[Part]) -> Option<PathTemplate>
    ensures { IfSome result (IsTemplateOf (parts_view parts.now)) }
{
    let mut text = ArrayString::new();
    let mut left = parts;
    while let Some((part, after)) = left.split_first() {
        let front = front_text(part);
        if front.contains(SEGMENT) {
            return None;
        }
        let Ok(()) = text.try_push_str(front) else {
            return None;
        };
        match part.kind {
            PartType::FixedText => {}
            PartType::SegmentWildcard => {
                let Ok(()) = text.try_push(SEGMENT) else {
                    return None;
                };
            }
            PartType::FullWildcard => {
                if !after.is_empty() {
                    return None;
                }
                return Some(PathTemplate {
                    text,
                    takes_rest: true,
                });
            }
            PartType::Regexp => return None,
        }
        left = after;
    }
    Some(PathTemplate {
        text,
        takes_rest: false,
    })
}
