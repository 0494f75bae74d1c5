// The refusals of a call: "12 comes first, then the smallest number". Each table is judged in one function, over the numbers and tables
// that it looks at, and with the answer of the soundness check.
#![tactic(auto)]

ghost use Rattle.std.specs.Prelude.{◌≡◌, ◌-◌, ◌<◌, get_or};
ghost use Rattle.compool.specs.View.{rows_of};
ghost use Rattle.refusals.specs.Numbers.{report};
ghost use Rattle.exec_refusals.specs.Rows.{judge, run_rows, count_rows, flag_rows, signal_rows, task_rows, tick_rows, block_rows};

use refusals::Refusal;
use rig::{Cycle, Rig, Row};
use rig_tables::{CYCLES, ROWS};

// "count up to 2,147,483,647"
pub const LAST_COUNT: u32 = 2147483647;
// "Its lent buffer has at least 128 words"
pub const TICK_WORDS: usize = 128;
// "The area has exactly 33 words a row"
pub const BLOCK_WORDS: usize = 33;

// What the table holds at any number: 0 past its end.
pub fn look(table: &[u8], i: u32) -> u8
    ensures { result ≡ get_or table.now i 0 }
{
    let k = i as usize;
    if k < table.len() { table[k] } else { 0 }
}

// Of a call that names nothing.
pub fn of_run(sound: bool, running: u8) -> Result<(), Refusal>
    ensures { report result ≡ judge sound (run_rows running) }
{
    if !sound {
        return Err(Refusal::NotSound);
    }
    if running == 0 {
        return Err(Refusal::NobodyRuns);
    }
    Ok(())
}

// Of a wait for a count, above the last or not.
pub fn of_count(sound: bool, running: u8, above: bool) -> Result<(), Refusal>
    ensures { report result ≡ judge sound (count_rows running above) }
{
    of_run(sound, running)?;
    if above {
        return Err(Refusal::PastLastCount);
    }
    Ok(())
}

// Of a wait on a flag, and of reading it.
pub fn of_flag(
    sound: bool,
    rig: &Rig,
    cycles: &[Cycle; CYCLES],
    running: u8,
    flag: u32,
) -> Result<(), Refusal>
    ensures { report result ≡ judge sound (flag_rows running rig.now.flags cycles.now flag) }
{
    of_run(sound, running)?;
    if sound_tables::no_such(rig.flags as usize, flag as usize) {
        return Err(Refusal::NoSuch);
    }
    if exec_queue::is_minor(cycles, flag as u8) {
        return Err(Refusal::NotAllowed);
    }
    Ok(())
}

// Of a signal.
pub fn of_signal(
    sound: bool,
    rig: &Rig,
    cycles: &[Cycle; CYCLES],
    running: u8,
    flag: u32,
) -> Result<(), Refusal>
    ensures { report result ≡ judge sound (signal_rows running rig.now.flags cycles.now rig.now.activation flag) }
{
    of_run(sound, running)?;
    if sound_tables::no_such(rig.flags as usize, flag as usize) {
        return Err(Refusal::NoSuch);
    }
    if exec_queue::is_minor(cycles, flag as u8) {
        return Err(Refusal::NotAllowed);
    }
    if exec_queue::is_activation(&rig.activation, flag as u8) {
        return Err(Refusal::NotAllowed);
    }
    Ok(())
}

// Of a call that names a task, in a state that is wrong for the call or not.
pub fn of_task(sound: bool, rig: &Rig, running: u8, task: u32, wrong: bool) -> Result<(), Refusal>
    ensures { report result ≡ judge sound (task_rows running rig.now.tasks rig.now.controller task wrong) }
{
    of_run(sound, running)?;
    if sound_tables::no_such(rig.tasks as usize, task as usize) {
        return Err(Refusal::NoSuch);
    }
    if look(&rig.controller, task) != running {
        return Err(Refusal::NotAllowed);
    }
    if wrong {
        return Err(Refusal::WrongState);
    }
    Ok(())
}

// Of a tick, with a buffer of so many words: it needs no running task.
pub fn of_tick(sound: bool, count: u32, words: usize) -> Result<(), Refusal>
    ensures { report result ≡ judge sound (tick_rows count words) }
{
    if !sound {
        return Err(Refusal::NotSound);
    }
    if LAST_COUNT <= count {
        return Err(Refusal::PastLastCount);
    }
    if words < TICK_WORDS {
        return Err(Refusal::WrongLength);
    }
    Ok(())
}

// Of reading and writing row k's block, with an area and a buffer of so many words.
pub fn of_block(
    sound: bool,
    rig: &Rig,
    running: u8,
    k: u32,
    area: usize,
    buffer: usize,
) -> Result<(), Refusal>
    ensures { report result ≡ judge sound (block_rows running rig.now.rows rig.now.row k area buffer) }
{
    of_run(sound, running)?;
    let many = rig.rows as usize;
    if sound_tables::no_such(many, k as usize) {
        return Err(Refusal::NoSuch);
    }
    if area != BLOCK_WORDS * many {
        return Err(Refusal::WrongLength);
    }
    if buffer != words_of(&rig.row, k) {
        return Err(Refusal::WrongLength);
    }
    Ok(())
}

// The words of row k: 0 where there is no such row.
fn words_of(row: &[Row; ROWS], k: u32) -> usize
    requires { 0 < k }
    ensures { result ≡ (rows_of row.now (k - 1)).words }
{
    let i = (k - 1) as usize;
    if i < ROWS { row[i].words as usize } else { 0 }
}
