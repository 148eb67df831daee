//! Rules that allow or deny, by the automata of their patterns.
ghost use Rattle.std.specs.Prelude.{◌≡◌, length};

mod calls;

pub(crate) use calls::rule_at;
use urlpattern_compare::PatternAutomata;

/// What a rule decides about the URLs that its pattern matches.
#[derive(Debug, Clone, Copy, PartialEq, Eq)]
pub enum Effect {
    /// Each of the URLs is denied.
    Deny,
    /// Each of the URLs is allowed.
    Allow,
}

/// Rules in order, by the automata of their patterns, made once for any number of questions. The
/// first rule that matches decides.
#[derive(Debug, Drop)]
pub struct PolicyAutomata {
    /// The automata of each rule's pattern, in order.
    pub patterns: Vec<PatternAutomata>,
    /// What each rule decides, in the same order.
    pub effects: Vec<Effect>,
    /// What is decided where no rule matches.
    pub default: Effect,
    ghost paired: { length effects.items ≡ length patterns.items },
}
