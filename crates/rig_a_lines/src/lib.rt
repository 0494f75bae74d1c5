// The tests of a rig's A lines: their numbers, and that they rise.
#![tactic(auto)]

ghost use Rattle.std.specs.Prelude.{◌≡◌, not, ◌≤◌, ◌<◌, length};
ghost use Rattle.laws.specs.All.{all};
ghost use Rattle.laws.specs.Bits.{bit};
ghost use Rattle.rig_tables.specs.Tests.{rises_test, lines_rise_b, lines_b};
ghost use Rattle.rig_a_lines.specs.Laws.Passes.{between_one};

use rig::Rig;

// 1 where the line of task u, position q and flag h does not stand behind that of t, p and f, else 0. No part of it is left
// out by a branch: so many lines are compared at a time.
fn fault(t: u8, p: u8, f: u8, u: u8, q: u8, h: u8) -> u8
    ensures { result ≡ bit (not (rises_test t p f u q h)) }
{
    let task = u8::from(u < t);
    let same_task = u8::from(t == u);
    let position = u8::from(q < p);
    let same_position = u8::from(p == q);
    let flag = u8::from(f < h);
    task | (same_task & (position | (same_position & (1 ^ flag))))
}

// Each A line stands behind the one before it: by task, then position, then flag. The faults of all lines are joined and
// looked at once.
pub fn lines_rise(rig: &Rig) -> bool
    requires { rig.now.lines ≤ 1024 }
    ensures { result ≡ lines_rise_b rig.now.lines rig.now.line_task rig.now.line_pos rig.now.line_flag }
{
    let mut faults: u8 = 0;
    for k in 1..rig.lines as usize {
        faults |= fault(
            rig.line_task[k - 1],
            rig.line_pos[k - 1],
            rig.line_flag[k - 1],
            rig.line_task[k],
            rig.line_pos[k],
            rig.line_flag[k],
        );
    }
    faults == 0
}

// Each entry is one of low to high. A loop that marks what fails and goes on tests many entries at once.
#[tactic(auto, using(rig_tables::specs::Laws::Passes::steps, rig_tables::specs::Laws::Passes::ranges))]
fn between(table: &[u8], low: u8, high: u8) -> bool
    ensures { result ≡ all (length table.now) (between_one low high table.now) }
{
    let mut bad: u8 = 0;
    for x in table {
        if *x < low {
            bad = 1;
        }
        if high < *x {
            bad = 1;
        }
    }
    bad == 0
}

// The numbers of each A line are within the counts.
#[tactic(auto, using(crate::specs::Laws::Passes::lines_each, crate::specs::Laws::Passes::between_first))]
pub fn lines(rig: &Rig) -> bool
    requires { rig.now.lines ≤ 1024 }
    ensures { result
        ≡ lines_b rig.now.lines rig.now.tasks rig.now.flags rig.now.line_task rig.now.line_pos rig.now.line_flag }
{
    let n = rig.lines as usize;
    between(&rig.line_task[..n], 1, rig.tasks)
        && between(&rig.line_pos[..n], 0, 15)
        && between(&rig.line_flag[..n], 1, rig.flags)
}
