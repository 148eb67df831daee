//! Parses the arguments of `link` that give texts for groups.

ghost use Rattle.std.specs.Prelude.{◌≡◌, IfErr, IfNone, IfOk, IfSome};
ghost use Rattle.urlpat_explain.specs.GivenWords.{AreGiven, WordGivesNothing, WordGivesGroup, RejectsWords};
ghost use Rattle.urlpat_explain.specs.declared.given_words.ArgumentError.TheVariants as all_misgiven;
ghost use Rattle.urlpat_matching.specs.Texts.{texts_view};
ghost use Rattle.urlpattern_pattern.specs.Patterns.{pattern_view};

use std::alloc::{AllocError, Global};
use urlpat_matching::own_group;
use urlpattern_engine::PatternRegexp;
use urlpattern_generate::GivenGroup;
use urlpattern_pattern::UrlPattern;

/// The reason why arguments of `link` give no groups.
#[derive(Drop)]
pub enum ArgumentError<'w> {
    /// The first argument that gives no group a text: it has no `=`, or what is before `=` names
    /// no group of the pattern, or one that several components have.
    Word(&'w str),
    /// Memory ran out.
    OutOfMemory,
}

impl From<AllocError> for ArgumentError<'_> {
    ghost from_gives = { λ _ error. error ≡ all_misgiven.OutOfMemory };

    fn from(_error: AllocError) -> Self {
        ArgumentError::OutOfMemory
    }
}

/// Parses arguments, each of which gives the text for a group of the pattern.
///
/// The error is the first argument that gives no group a text, or that memory ran out.
pub fn given_by<'w>(
    alloc: Global,
    pattern: &UrlPattern<PatternRegexp>,
    words: &[&'w str],
) -> Result<Vec<GivenGroup<'w>>, ArgumentError<'w>>
    ensures given { IfOk result (λ groups.
        AreGiven (pattern_view pattern.now) (texts_view words.now) groups.items) }
    ensures refused { IfErr result
        (RejectsWords (pattern_view pattern.now) (texts_view words.now)) }
{
    let mut groups = Vec::with_capacity(alloc, words.len())?;
    for word in words {
        match word_group(pattern, *word) {
            Some(group) => {
                if groups.push(group).is_err() {
                    return Err(ArgumentError::OutOfMemory);
                }
            }
            None => return Err(ArgumentError::Word(*word)),
        }
    }
    Ok(groups)
}

/// Parses an argument that gives the text for a group: what names the group, `=`, and the text.
/// `None`: the argument has no `=`, or what is before it names no group of the pattern.
fn word_group<'w>(pattern: &UrlPattern<PatternRegexp>, word: &'w str) -> Option<GivenGroup<'w>>
    ensures given { IfSome result (WordGivesGroup (pattern_view pattern.now) word.now) }
    ensures nothing { IfNone result (WordGivesNothing (pattern_view pattern.now) word.now) }
{
    let (name, text) = word.split_once('=')?;
    let (component, group) = own_group(pattern, name)?;
    Some((component, group, text))
}
