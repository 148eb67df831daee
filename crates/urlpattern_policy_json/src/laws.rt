//! The law of the JSON: reading undoes writing.
//!
//! The function does nothing; its contract is a theorem.
ghost use Rattle.std.specs.Prelude.{◌≡◌, [], List, Ok, map};
ghost use Rattle.urlpattern_policy_json.specs.PolicyTrees.{policy_tree};
ghost use Rattle.urlpattern_policy_json.specs.PolicyViews.{RuleView, SettingsView};
ghost use Rattle.urlpattern_policy_json.specs.ReadPolicies.{member_faults, rule_read, rules_in, settings_read};

/// The JSON that is written of a policy is read as the same settings and the same rules, and has
/// no fault.
pub fn reading_undoes_writing()
    ensures settings { (settings : SettingsView) (rules : List RuleView)
        → settings_read (policy_tree settings rules) ≡ settings }
    ensures rules { (settings : SettingsView) (rules : List RuleView)
        → map rule_read (rules_in (policy_tree settings rules)) ≡ map (λ rule. Ok rule) rules }
    ensures faultless { (settings : SettingsView) (rules : List RuleView)
        → member_faults (policy_tree settings rules) ≡ [] }
{}
