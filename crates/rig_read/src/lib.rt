// The rig file's reader: nested loops over lines and fields, left from inside the line that is faulty.
#![tactic(auto)]

ghost use Rattle.std.specs.Prelude.{◌≡◌, ◌≤◌, length};
ghost use Rattle.rig_build.specs.Read.{by_lines};
ghost use Rattle.rig_meaning.proofs.Reading.{read_of};

use refusals::Refusal;
use rig_held::Held;

// The most bytes that a file has.
const LONGEST: usize = 40960;

// Lines one after the other, fields within them: the first fault leaves the loops from inside its line. A line that is right is held; the rules
// over all of them, and the rig, come when the last is.
fn read_lines(s: &[u8]) -> rig_build::Answer
    requires { length s.now ≤ 40960 }
    ensures { result ≡ by_lines s.now }
{
    let n = s.len();
    let mut held = Held::none();
    let mut prev: u64 = 0;
    let mut at: usize = 0;
    let r = 'lines: loop {
        let count = held.lines().len();
        let line = count + 1;
        let e = lines::line_of(s, at);
        if e == n {
            if at < n || count == 0 {
                break 'lines rig_build::refused(Refusal::WrongShape, line, 0);
            }
            break 'lines rig_build::whole_of(held.lines());
        }
        let q = text::find(s, at, e, b'\t');
        let Some(kind) = rig_lines::kind_in(&s[at..q]) else {
            break 'lines rig_build::refused(Refusal::WrongShape, line, 0);
        };
        let m = kind.count();
        let mut v = [0u64; 9];
        let mut p = q;
        let mut f: usize = 0;
        'fields: while p < e {
            let a = p + 1;
            let b = text::find(s, a, e, b'\t');
            let x = decimal::number_in(&s[a..b]);
            if m <= f || decimal::CAP < x {
                break 'lines rig_build::refused(Refusal::WrongShape, line, 0);
            }
            v[f] = x;
            f += 1;
            p = b;
        }
        if f != m {
            break 'lines rig_build::refused(Refusal::WrongShape, line, 0);
        }
        if !rig_line_sizes::sized(kind, m, v) {
            break 'lines rig_build::refused(Refusal::OutsideSize, line, 0);
        }
        let here = rig_line_sizes::place_of(kind, v);
        if !rig_line_sizes::in_order(prev, kind, here) {
            break 'lines rig_build::refused(Refusal::OutOfOrder, line, 0);
        }
        held.hold(kind, rig_build::bytes_of(v));
        prev = here;
        at = e + 1;
    };
    r
}

// Reads a rig file. A file that is too long is refused before anything else is looked at.
// It stays a call of its own: inlined, a start would need more stack than the header states.
#[inline(never)]
pub fn read(s: &[u8]) -> rig_build::Answer
    ensures { result ≡ read_of s.now }
{
    if LONGEST < s.len() {
        return rig_build::refused(Refusal::OutsideSize, 0, 0);
    }
    read_lines(s)
}
