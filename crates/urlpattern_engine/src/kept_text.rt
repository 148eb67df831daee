//! Texts of expressions, whose copies are equal.

ghost use Rattle.std.specs.Prelude.{◌≡◌};
ghost use Rattle.std.specs.Str.{chars};

use std::alloc::AllocError;
use std::marker::Model;

/// The text of an expression. Clauses see its characters.
#[derive(Drop)]
pub(crate) struct KeptText {
    pub(crate) text: String,
}

impl Model for KeptText {
    ghost use Rattle.urlpattern_engine.specs.KeptTexts.{Characters, characters_code, characters_of};

    ghost Value = { Characters };

    ghost coded = { characters_code };

    ghost view = { λ kept. characters_of kept.text };
}

impl KeptText {
    /// Returns the text.
    pub(crate) fn as_str(&self) -> &str
        ensures { chars result.now ≡ self.now.characters }
    {
        self.text.as_str()
    }
}

/// A copy has the same characters.
impl Clone for KeptText {
    ghost is_clone = { λ text copy. copy ≡ text };

    fn clone(&self) -> Result<KeptText, AllocError> {
        Ok(KeptText {
            text: self.text.clone()?,
        })
    }
}
