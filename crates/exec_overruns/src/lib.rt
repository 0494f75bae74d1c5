// The numbers of overruns: those who are named by a minor-cycle flag and already active have one more.
#![tactic(auto)]

ghost use Rattle.std.specs.Prelude.{◌≡◌, cond};
ghost use Rattle.rules.specs.Serving.{more_by_one};
ghost use Rattle.exec_overruns.specs.Post.{Counted};

use rig_tables::TASK_PLACES;

// One more than n if the start came too soon: "It stops at 65,535." Nothing is stored or not stored by a test: eight tasks are counted at once.
pub fn more(n: u16, soon: bool) -> u16
    ensures { result ≡ cond soon (more_by_one n) n }
{
    n.saturating_add(u16::from(soon))
}

// A minor-cycle flag is served: `named` marks who has it in a condition, `state` is the state of each task before the service.
pub fn count(
    named: &[u8; TASK_PLACES],
    state: &[u8; TASK_PLACES],
    overruns: &mut [u16; TASK_PLACES],
)
    ensures { Counted named.now state.now overruns.old overruns.new }
{
    // An index: two tables are read and one is written at the same place. Place 0 is no task's.
    for t in 1..TASK_PLACES {
        overruns[t] = more(overruns[t], exec_queue::struck(named[t], state[t]));
    }
}
