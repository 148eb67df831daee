//! The names that a pattern gives to its placeholders.
ghost use Rattle.std.specs.Prelude.{◌≡◌, ◌||◌, ℕ, List, false, OnOk};
ghost use Rattle.urlpattern_parser.specs.GivenNames.{has_name, has_bytes};

use arrayvec::ArrayVec;
use std::alloc::{AllocError, Global};
use std::collections::BTreeSet;

/// The number of names that are kept without allocating.
const FEW: usize = 8;

/// A set of names, which are slices of the pattern's text: the first few in an array, the others in
/// a tree.
#[derive(Drop)]
pub(super) struct GivenNames<'a> {
    few: ArrayVec<&'a str, FEW>,
    others: BTreeSet<&'a str>,
}

impl<'a> GivenNames<'a> {
    /// Returns an empty set of names, without allocating.
    pub(super) fn new(alloc: Global) -> Self
        ensures { (name : List ℕ) → has_name result name ≡ false }
    {
        GivenNames {
            few: ArrayVec::new(),
            others: BTreeSet::new(alloc),
        }
    }

    /// Whether the set contains the name.
    pub(super) fn contains_name(&self, name: &str) -> bool
        ensures { result ≡ has_name self.now name.now }
    {
        self.few.contains(&name) || self.others.contains(name)
    }

    /// Adds a name to the set.
    pub(super) fn add_name(&mut self, name: &'a str) -> Result<(), AllocError>
        ensures { OnOk result ((other : List ℕ)
            → has_name self.new other ≡ (has_bytes other name.entry || has_name self.old other)) }
    {
        if !self.few.is_full() {
            self.few.push(name);
            return Ok(());
        }
        match self.others.insert(name) {
            Ok(_) => Ok(()),
            Err(_) => Err(AllocError),
        }
    }
}
