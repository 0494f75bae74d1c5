// The sentence that is said of a rig file that breaks a rule over the whole file, by the rule.
#![tactic(auto)]

ghost use Rattle.std.specs.Prelude.{◌≡◌};
ghost use Rattle.rig_culprits.specs.Culprits.{rule_number};
ghost use Rattle.rig_rule_sentences.specs.Sentences.{rule_sentence};

use rig_culprits::Rule;

#[tactic(auto, unfolding(crate::specs::Sentences::rule_sentence))]
pub fn of_rule(rule: Option<Rule>) -> &'static [u8]
    ensures { result.now ≡ rule_sentence (rule_number rule) }
{
    match rule {
        Some(Rule::Above) => b"a task or flag number is above the RIG line's",
        Some(Rule::ManyA) => b"there are more than 1,024 A lines",
        Some(Rule::ManyB) => b"there are more than 64 B lines",
        Some(Rule::NoT) => b"a task has no T line",
        Some(Rule::Crowded) => b"a cycle has more than fifteen flags",
        Some(Rule::Controller) =>
            b"task 1 has a controller, or another task's controller is neither the previous task nor one of its ancestors",
        Some(Rule::Shared) => b"an activation flag serves more than one task",
        Some(Rule::MinorActivation) => b"an activation flag is a minor-cycle flag",
        Some(Rule::NoC) => b"an A line names a condition that has no C line",
        Some(Rule::NoA) => b"a condition has no A line",
        Some(Rule::MinorCondition) =>
            b"a condition with a minor-cycle flag has another flag, is latched or desires off",
        Some(Rule::SameAddress) => b"a bus row has the same sender and receiver",
        None => b"an entry of the rig breaks a rule",
    }
}
