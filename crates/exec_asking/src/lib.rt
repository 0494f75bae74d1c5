// The refusals of questions on a task: "12 comes first, then the smallest number". No running task is needed.
#![tactic(auto)]

ghost use Rattle.std.specs.Prelude.{◌≡◌};
ghost use Rattle.refusals.specs.Numbers.{report};
ghost use Rattle.exec_refusals.specs.Rows.{judge, asked_rows, why_rows};

use refusals::Refusal;
use rig_tables::TASK_PLACES;

// d is "from 0 to 3".
const MOST_LINKS: u32 = 3;

const INACTIVE: u8 = 1;

// Of a question on a task: it needs no running task.
pub fn of_asked(sound: bool, tasks: u8, t: u32) -> Result<(), Refusal>
    ensures { report result ≡ judge sound (asked_rows tasks t) }
{
    if !sound {
        return Err(Refusal::NotSound);
    }
    if sound_tables::no_such(tasks as usize, t as usize) {
        return Err(Refusal::NoSuch);
    }
    Ok(())
}

// Of the question why a task won't start within so many links: it needs no running task, but an inactive one to ask about.
pub fn of_why(
    sound: bool,
    tasks: u8,
    state: &[u8; TASK_PLACES],
    task: u32,
    links: u32,
) -> Result<(), Refusal>
    ensures { report result ≡ judge sound (why_rows tasks state.now task links) }
{
    of_asked(sound, tasks, task)?;
    if exec_refusals::look(state, task) != INACTIVE {
        return Err(Refusal::WrongState);
    }
    if MOST_LINKS < links {
        // The table's 11 for d above 3.
        return Err(Refusal::WordOutsideSize);
    }
    Ok(())
}
