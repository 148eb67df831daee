//! The law of the order of parts.
//!
//! The function does nothing; its contract is a theorem.

ghost use Rattle.std.specs.Cmp.{IsTotalOrder};
ghost use Rattle.urlpattern_compare.specs.Order.{parts_cmp};

/// The order of parts is a total preorder: it is reversed if the two sides are exchanged, it is
/// transitive, and parts that are equal in it compare alike with others.
pub fn parts_are_in_order()
    ensures { IsTotalOrder parts_cmp }
{}
