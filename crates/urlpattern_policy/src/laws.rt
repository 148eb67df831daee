//! Laws of plain spellings.
ghost use Rattle.urlpattern_components.specs.Eight.{Texts};
ghost use Rattle.urlpattern_policy.specs.Spellings.{LastDotIsAlike, PlainIsPlain, ShorterIsAlike};

/// The plain spelling of eight texts is plain, and plain texts are their own; and two texts that
/// differ in the spelling of one place alone have one plain spelling.
pub fn spellings_of_one_text_are_one()
    ensures plain { (texts : Texts) → PlainIsPlain texts }
    ensures shorter { ShorterIsAlike }
    ensures last_dot { LastDotIsAlike }
{}
