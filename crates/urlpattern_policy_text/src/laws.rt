//! The law of policies as JSON: reading undoes writing.
//!
//! The function does nothing; its contract is a theorem.
ghost use Rattle.urlpattern_policy_text.specs.WrittenJson.{JsonReadsBack};

use urlpattern_matcher::regexp::RegExp;

/// No member of the JSON that `json_of_policy` writes is at fault. It is read as the same options
/// and, in the same order, rules with the same effects whose patterns are compiled to equal parts.
pub fn json_of_a_policy_is_read_as_the_policy<R: RegExp>()
    ensures { JsonReadsBack R.RegExp }
{}
