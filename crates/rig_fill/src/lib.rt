// Tables filled from the lines that are held, one pass for each kind of line: the conditions, the A lines and the cycles' flags. The other kinds, and the
// rig of them all, are in rig_filled.
#![tactic(auto)]

ghost use Rattle.std.specs.Prelude.{◌≡◌, length};
ghost use Rattle.rig_lines.specs.Kinds.{kind_c, kind_a};
ghost use Rattle.rig_lines.specs.Whole.{number_of, is_kind};
ghost use Rattle.rig_held.specs.Held.{held};
ghost use Rattle.rig_fill.specs.OfLines.{stored, listed, one, condition_place, table_from};

use rig_held::Line;
use rig_lines::Kind;
use rig_tables::{CONDITIONS, CYCLE_FLAGS, CYCLES, LINES};

// C lines.
pub fn fill_conditions(
    lines: &[Line],
    present: &mut [u8; CONDITIONS],
    latched: &mut [u8; CONDITIONS],
    desired: &mut [u8; CONDITIONS],
)
    ensures present { present.new ≡ stored (is_kind kind_c) condition_place one present.old (held lines.now) }
    ensures latched { latched.new ≡ stored (is_kind kind_c) condition_place (number_of 2) latched.old (held lines.now) }
    ensures desired { desired.new ≡ stored (is_kind kind_c) condition_place (number_of 3) desired.old (held lines.now) }
{
    for line in lines {
        if line.kind != Kind::Condition {
            continue;
        }
        let p = 16 * line.numbers[0] as usize + line.numbers[1] as usize;
        if CONDITIONS <= p {
            continue;
        }
        present[p] = 1;
        latched[p] = line.numbers[2];
        desired[p] = line.numbers[3];
    }
}

// A lines.
pub fn fill_lines(
    lines: &[Line],
    task: &mut [u8; LINES],
    pos: &mut [u8; LINES],
    flag: &mut [u8; LINES],
)
    ensures task { task.new ≡ listed (is_kind kind_a) (number_of 0) 0 task.old (held lines.now) }
    ensures pos { pos.new ≡ listed (is_kind kind_a) (number_of 1) 0 pos.old (held lines.now) }
    ensures flag { flag.new ≡ listed (is_kind kind_a) (number_of 2) 0 flag.old (held lines.now) }
{
    let mut c: usize = 0;
    for line in lines {
        if line.kind != Kind::Line {
            continue;
        }
        let k = c;
        c += 1;
        if LINES <= k {
            continue;
        }
        task[k] = line.numbers[0];
        pos[k] = line.numbers[1];
        flag[k] = line.numbers[2];
    }
}

// M lines.
pub fn table_from(lines: &[Line]) -> [[u8; CYCLE_FLAGS]; CYCLES]
    ensures { result ≡ table_from (held lines.now) }
{
    let mut table = [[0u8; CYCLE_FLAGS]; CYCLES];
    let mut inside = [0usize; 256];
    for line in lines {
        if line.kind != Kind::Flag {
            continue;
        }
        let c = line.numbers[0] as usize;
        let j = inside[c];
        inside[c] = j + 1;
        if CYCLES <= c {
            continue;
        }
        if 15 <= j {
            continue;
        }
        table[c][j] = line.numbers[1];
    }
    table
}
