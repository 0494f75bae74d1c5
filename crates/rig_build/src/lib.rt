// What is answered for a whole rig file.
#![tactic(auto)]

ghost use Rattle.std.specs.Prelude.{◌≡◌, ℕ, ◌≤◌, length, get_or};
ghost use Rattle.refusals.specs.Numbers.{refusal_number};
ghost use Rattle.rig_whole.specs.Numbers.{rule_number};
ghost use Rattle.rig_lines.specs.Kinds.{kind_rig};
ghost use Rattle.rig_held.specs.Held.{held, Begins};
ghost use Rattle.rig_build.specs.Bytes.{lines_in, known};
ghost use Rattle.rig_build.specs.Read.{file_refused, file_accepted, behind, whole_file};

use refusals::Refusal;
use rig_held::{Held, Line};
use rig_lines::Kind;
use rig_tables::CYCLES;
use rig_whole::Rule;

// What reading a file answers: the refusal number and its line; the whole-file rule that is broken, 0 for none; the rig and
// its cycles. Numbers and a rig in every case, not a Result: "a refused rig is all zeros" is a promise of `read`, and `reading` speaks of this record.
#[derive(Clone, Copy)]
pub struct Answer {
    pub no: u8,
    pub line: usize,
    pub rule: u16,
    pub rig: rig::Rig,
    pub cycles: [rig::Cycle; CYCLES],
}

// The same numbers, each known to fit a byte: nine casts, since each has its own bound.
pub fn bytes_of(v: [u64; 9]) -> [u8; 9]
    requires { (i : ℕ) → get_or v i 0 ≤ 255 }
    ensures { result ≡ v }
{
    [
        v[0] as u8, v[1] as u8, v[2] as u8, v[3] as u8, v[4] as u8, v[5] as u8, v[6] as u8,
        v[7] as u8, v[8] as u8,
    ]
}

pub fn refused(refusal: Refusal, line: usize, rule: u16) -> Answer
    ensures { result ≡ file_refused (refusal_number refusal) line rule }
{
    Answer {
        no: refusal.number(),
        line,
        rule,
        rig: rig::none(),
        cycles: rig::no_cycles(),
    }
}

fn taken(g: rig::Rig, cycles: [rig::Cycle; CYCLES]) -> Answer
    ensures { result ≡ file_accepted g cycles }
{
    Answer {
        no: 0,
        line: 0,
        rule: 0,
        rig: g,
        cycles,
    }
}

// How many bytes the lines take that `whole` goes over, ten a line.
pub const ROOM: usize = 10 * rig_held::MOST;

// The lines of the six kinds among the first `n` that stand in bytes.
fn known_in(lines: &[u8; ROOM], n: usize) -> Held
    requires { (1 ≤ n) × (n ≤ 10240) × (get_or lines.now 0 0 ≡ kind_rig) }
    ensures known { held result ≡ known (lines_in lines.now n) }
    ensures begins { Begins result }
    ensures few { length result ≤ 10240 }
{
    let mut held = Held::none();
    for i in 0..n {
        let a = 10 * i;
        if let Some(kind) = Kind::numbered(lines[a] as usize) {
            held.hold(
                kind,
                [
                    lines[a + 1],
                    lines[a + 2],
                    lines[a + 3],
                    lines[a + 4],
                    lines[a + 5],
                    lines[a + 6],
                    lines[a + 7],
                    lines[a + 8],
                    lines[a + 9],
                ],
            );
        }
    }
    held
}

// The whole file of the first `n` lines that stand in bytes, ten bytes a line: its kind's number, then its numbers. A line of another
// number has no numbers, and counts for nothing.
pub fn whole(lines: &[u8; ROOM], n: usize) -> Answer
    requires { (1 ≤ n) × (n ≤ 10240) × (get_or lines.now 0 0 ≡ kind_rig) }
    ensures { result ≡ whole_file (lines_in lines.now n) }
{
    whole_of(known_in(lines, n).lines())
}

// The whole file: every line was right, and the rules over all of them are left.
pub fn whole_of(lines: &[Line]) -> Answer
    requires begins { Begins lines.now }
    requires few { length lines.now ≤ 10240 }
    ensures { result ≡ whole_file (held lines.now) }
{
    if let Err(rule) = rig_line_rules::line_rule(lines) {
        return refused(Refusal::RuleBroken, 0, rule.number());
    }
    let g = rig_filled::rig_from(lines);
    let cycles = rig::cycles_of(rig_fill::table_from(lines));
    if let Err(rule) = rig_whole::first_broken(&g, &cycles) {
        return refused(Refusal::RuleBroken, 0, behind(rule));
    }
    taken(g, cycles)
}

// A rule of the rig, numbered behind those of the lines.
fn behind(rule: Rule) -> u16
    ensures { result ≡ behind (rule_number rule) }
{
    5 + rule.number() as u16
}
