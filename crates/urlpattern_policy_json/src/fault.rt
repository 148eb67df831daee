//! What is wrong with the JSON of a policy.

use std::fmt;
use urlpattern_diagnosis::Diagnosis;

/// A fault in the JSON of a policy.
#[derive(Debug, Drop)]
pub struct JsonFault {
    /// Where the fault is.
    pub place: JsonPlace,
    /// What is wrong.
    pub reason: JsonReason,
}

/// Where the JSON of a policy is at fault.
#[derive(Debug, Drop)]
pub enum JsonPlace {
    /// The whole.
    Whole,
    /// The member of the policy with this name.
    Member(String),
    /// The rule at this index.
    Rule(usize),
}

/// What is wrong with a part of a policy's JSON.
#[derive(Debug, Drop)]
pub enum JsonReason {
    /// The part has another shape than it is to have.
    Shape(ShapeFault),
    /// The pattern or the base URL is rejected.
    Rejected(Diagnosis),
}

/// How a part of a policy's JSON differs from what it is to be.
#[derive(Debug, Clone, Copy, PartialEq, Eq)]
pub enum ShapeFault {
    /// The policy is no object.
    NotAnObject,
    /// A policy has no member with this name.
    UnknownMember,
    /// The member is no text.
    NotAText,
    /// The text is none of the two that the member may have.
    UnknownValue,
    /// The rules are no array.
    NotAnArray,
    /// The rule is no object with one member, `allow` or `deny`.
    NotARule,
    /// The pattern is neither a text nor an object of texts with the names of components or
    /// `baseURL`.
    NotAPattern,
}

/// Prints the fault: its place, and what is wrong.
impl fmt::Display for JsonFault {
    fn fmt<W: fmt::Write>(&self, f: &mut fmt::Formatter<W>) -> fmt::Result {
        match &self.place {
            JsonPlace::Whole => f.write_str("policy: ")?,
            JsonPlace::Member(name) => write!(f, "{name}: ")?,
            JsonPlace::Rule(index) => write!(f, "rules[{index}]: ")?,
        }
        match &self.reason {
            JsonReason::Shape(fault) => f.write_str(words_of(*fault)),
            JsonReason::Rejected(diagnosis) => f.write_str(&diagnosis.reason),
        }
    }
}

/// Returns what is wrong in words.
fn words_of(fault: ShapeFault) -> &'static str {
    match fault {
        ShapeFault::NotAnObject => "a policy is an object",
        ShapeFault::UnknownMember => "a policy has no such member",
        ShapeFault::NotAText => "the member is a text",
        ShapeFault::UnknownValue => "the setting has no such value",
        ShapeFault::NotAnArray => "the rules are an array",
        ShapeFault::NotARule => "a rule is an object with one member, `allow` or `deny`",
        ShapeFault::NotAPattern => "a pattern is a text, or an object of texts for components",
    }
}
