// Which line or task breaks a rule over the whole file.
#![tactic(auto)]

ghost use Rattle.std.specs.Prelude.{◌≡◌, ◌≤◌, ◌<◌, Some, length};
ghost use Rattle.rig_suspects.specs.Suspects.{counted};
ghost use Rattle.rig_culprits.specs.Culprits.{guilty, culprit_line, culprit_told, culprit_of, rule_of, rule_number};

// The rules over the whole file that a sentence tells apart.
#[derive(Debug, Clone, Copy, PartialEq, Eq)]
pub enum Rule {
    Above = 1,
    ManyA = 2,
    ManyB = 3,
    NoT = 4,
    Crowded = 5,
    Controller = 21,
    Shared = 22,
    MinorActivation = 23,
    NoC = 24,
    NoA = 25,
    MinorCondition = 26,
    SameAddress = 27,
}

impl Rule {
    // The number that the reader gives it.
    pub fn number(self) -> u16
        ensures { result ≡ rule_number (Some self) }
    {
        self as u16
    }

    // The rule that the reader gives a number: those of the lines, then those of the rig, 5 behind. No line of a file leads to any other.
    #[tactic(auto, unfolding(crate::specs::Culprits::rule_of))]
    pub fn of_number(number: u16) -> Option<Rule>
        ensures { result ≡ rule_of number }
    {
        match number {
            1 => Some(Rule::Above),
            2 => Some(Rule::ManyA),
            3 => Some(Rule::ManyB),
            4 => Some(Rule::NoT),
            5 => Some(Rule::Crowded),
            21 => Some(Rule::Controller),
            22 => Some(Rule::Shared),
            23 => Some(Rule::MinorActivation),
            24 => Some(Rule::NoC),
            25 => Some(Rule::NoA),
            26 => Some(Rule::MinorCondition),
            27 => Some(Rule::SameAddress),
            _ => None,
        }
    }
}

// A line, counted from 1, or a task.
#[derive(Debug, Clone, Copy, PartialEq, Eq)]
pub enum Culprit {
    Line(usize),
    Task(usize),
}

// Whether the line from `at` to `e` is the rule's culprit. Where a rule can be broken by the lines up to this one alone, it is the one
// with which they begin to break it: the reader says so of the lines up to it.
fn is_guilty(s: &[u8], rule: u16, at: usize, e: usize) -> bool
    requires { (at ≤ e) × (e < length s.now) }
    ensures { result ≡ guilty rule s.now at e }
{
    if rule == Rule::Controller.number() {
        return rig_suspects::is_stray(s, &s[at..e]);
    }
    if rule == Rule::Shared.number() {
        return rig_suspects::is_shared(s, &s[at..e], e + 1);
    }
    if rule == Rule::NoA.number() {
        return rig_suspects::is_unused(s, &s[at..e]);
    }
    rig_read::read(&s[0..e + 1]).rule == rule
}

// The first line that is the rule's culprit, counted from 1.
fn first_guilty(s: &[u8], rule: u16) -> Option<usize>
    ensures { result ≡ counted (culprit_line rule s.now) }
{
    let n = s.len();
    let mut at: usize = 0;
    let mut line: usize = 1;
    while at < n {
        let e = lines::line_of(s, at);
        if e == n {
            return None;
        }
        if is_guilty(s, rule, at, e) {
            return Some(line);
        }
        at = e + 1;
        line += 1;
    }
    None
}

// The culprit of a rule over the whole file. The rule is the number that the reader answers (rig_build::Answer), which may be one that no Rule has.
pub fn culprit_of(s: &[u8], rule: u16) -> Option<Culprit>
    ensures { culprit_told result ≡ culprit_of rule s.now }
{
    if rule == Rule::NoT.number() {
        return Some(Culprit::Task(rig_suspects::missing_task(s)? as usize));
    }
    Some(Culprit::Line(first_guilty(s, rule)?))
}
