//! Whether each pattern of a list is the first that matches some texts.

ghost use Rattle.std.specs.Prelude.{All, IfOk, map};
ghost use Rattle.urlpattern_compare.specs.CommonTexts.{AreAutomata};
ghost use Rattle.urlpattern_compare.specs.Reaching.{AreReached, IsReach};

use crate::candidates::Limits;
use crate::common_texts::{Common, Doubt, PatternAutomata, find_common};
use crate::together::least_cover;
use std::alloc::{AllocError, Global};
use urlpattern_components::Eight;

/// Whether a pattern of a list is the first one that matches some texts.
#[derive(Debug, Drop)]
pub enum Reach {
    /// The pattern is the first one that matches these eight texts, which have no line feeds.
    First(Eight<String>),
    /// The pattern is the first one of no eight texts without line feeds: the patterns at these
    /// indices, in order, cover it together. None of the indices can be left out.
    Never(Vec<usize>),
    /// Not known, for this reason. `AllOf` is of the pattern itself, `NoneOf` of one before it.
    Unknown(Doubt),
}

/// Returns whether `asked` matches some eight texts without line feeds that no pattern of `earlier`
/// matches: whether it is the first match of some in a list, after these.
///
/// Without any of the indices that `Never` has, the patterns at the later ones and all before it
/// are not known to cover `asked`. So they are among the first that do.
pub fn reach_of<'a>(
    alloc: Global,
    earlier: &[&'a PatternAutomata],
    asked: &'a PatternAutomata,
    limits: Limits,
) -> Result<Reach, AllocError>
    requires earlier { All AreAutomata (map (λ it. it.now) earlier.now) }
    requires asked { AreAutomata asked.now }
    ensures { IfOk result (IsReach limits (map (λ it. it.now) earlier.now) asked.now) }
{
    let common = find_common(alloc, &[asked], earlier, limits)?;
    match common {
        Common::Texts(texts) => Ok(Reach::First(texts)),
        Common::Nothing => {
            let by = least_cover(alloc, earlier, asked, limits)?;
            Ok(Reach::Never(by))
        }
        Common::Unknown(doubt) => Ok(Reach::Unknown(doubt)),
    }
}

/// Returns whether each pattern of a list is the first one that matches some texts, in order.
pub fn reach_of_each<'a>(
    alloc: Global,
    patterns: &[&'a PatternAutomata],
    limits: Limits,
) -> Result<Vec<Reach>, AllocError>
    requires { All AreAutomata (map (λ it. it.now) patterns.now) }
    ensures { IfOk result (λ found.
        AreReached limits (map (λ it. it.now) patterns.now) found.items) }
{
    let mut found = Vec::new(alloc);
    for index in 0..patterns.len() {
        let reach = reach_of(alloc, &patterns[..index], patterns[index], limits)?;
        found.push(reach)?;
    }
    Ok(found)
}
