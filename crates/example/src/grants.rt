//! A store of permissions: a pattern is permitted if a granted one covers it.

// docs: grants
ghost use Rattle.example.specs.Grants.{IsGranted};
ghost use Rattle.std.specs.Prelude.{◌≡◌, ◌++◌, ◌∷◌, [], map, IfOk, IsTrue, OnOk};

use std::alloc::{AllocError, Global};
use urlpattern::rules::{PatternParts, first_covering};

/// Granted patterns, by their parts.
#[derive(Debug, Drop)]
pub struct Grants {
    /// The patterns.
    pub patterns: Vec<PatternParts>,
}

impl Grants {
    /// Returns an empty store.
    pub fn new(alloc: Global) -> Self
        ensures { result.patterns.items ≡ [] }
    {
        Self {
            patterns: Vec::new(alloc),
        }
    }

    /// Grants a pattern.
    pub fn grant(&mut self, pattern: PatternParts) -> Result<(), AllocError>
        ensures { OnOk result (self.new.patterns.items ≡ self.old.patterns.items ++ pattern ∷ []) }
    {
        self.patterns.push(pattern)?;
        Ok(())
    }

    /// Whether a granted pattern is known to cover the asked one. If so, that pattern matches
    /// everything that the asked one matches.
    pub fn check(&self, alloc: Global, asked: &PatternParts) -> Result<bool, AllocError>
        ensures { IfOk result (λ permitted.
            IsTrue permitted → IsGranted self.now.patterns.items asked.now) }
    {
        let granted = self.granted(alloc)?;
        let found = first_covering(alloc, &granted, asked)?;
        Ok(found.is_some())
    }

    /// References to the patterns.
    fn granted(&self, alloc: Global) -> Result<Vec<&PatternParts>, AllocError>
        ensures { IfOk result (λ granted.
            map (λ pattern. pattern.now) granted.items ≡ self.now.patterns.items) }
    {
        self.patterns.iter().collect(alloc)
    }
}
// docs: end
