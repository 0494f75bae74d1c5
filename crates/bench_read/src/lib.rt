// The bench runner's input read: what a script line says, and where the rig ends.
#![tactic(auto)]

ghost use Rattle.std.specs.Prelude.{◌≡◌};
ghost use Rattle.bench_script.specs.Script.{verb_of, of_panel, alone, with_number, with_value, with_two, said_of};
ghost use Rattle.bench_script.specs.Input.{is_run, rig_end};

use bench_script::Said;

fn verb_of(f: &[u8]) -> u8
    ensures { result ≡ verb_of f.now }
{
    if f.len() == 1 { f[0] } else { 0 }
}

// What a verb of the panel says: with the panel's verbs off, nothing.
fn of_panel(panel: bool, said: Said) -> Said
    ensures { result ≡ of_panel panel said }
{
    if panel { said } else { Said::Wrong }
}

// The verbs of a line with no number, with one, and with two: the letters of Said::letter, read. A match, and no search through the letters:
// how many numbers a line has says which of them count.
#[tactic(auto, unfolding(bench_script::specs::Script::alone))]
fn alone(panel: bool, v: u8) -> Said
    ensures { result ≡ alone panel v }
{
    match v {
        b'F' => Said::Finish,
        b'K' => Said::Tick,
        b'V' => of_panel(panel, Said::NextWaking),
        _ => Said::Wrong,
    }
}

#[tactic(auto, unfolding(bench_script::specs::Script::with_number))]
fn with_number(panel: bool, v: u8, n: u32) -> Said
    ensures { result ≡ with_number panel v n }
{
    match v {
        b'S' => Said::Schedule(n),
        b'X' => Said::Cancel(n),
        b'Z' => Said::Terminate(n),
        b'U' => Said::Until(n),
        b'R' => Said::Cycles(n),
        b'Q' => Said::Ask(n),
        b'O' => of_panel(panel, Said::Overruns(n)),
        _ => Said::Wrong,
    }
}

#[tactic(auto, unfolding(bench_script::specs::Script::with_value))]
fn with_value(v: u8, f: u32, b: bool) -> Said
    ensures { result ≡ with_value v f b }
{
    match v {
        b'L' => Said::Latched(f, b),
        b'N' => Said::Unlatched(f, b),
        b'G' => Said::Signal(f, b),
        _ => Said::Wrong,
    }
}

// Two numbers: of the panel's Y both may be any, else the second is a value.
fn with_two(panel: bool, v: u8, n: u32, x: u32) -> Said
    ensures { result ≡ with_two panel v n x }
{
    if v == b'Y' {
        return of_panel(panel, Said::WhyNot(n, x));
    }
    if 1 < x {
        return Said::Wrong;
    }
    with_value(v, n, x == 1)
}

// What a script line, without its LF, says, with the panel's verbs on or off.
pub fn read_line(panel: bool, line: &[u8]) -> Said
    ensures { result ≡ said_of panel line.now }
{
    let e = line.len();
    let p = text::find(line, 0, e, bench_script::TAB);
    let v = verb_of(&line[0..p]);
    if p == e {
        return alone(panel, v);
    }
    let a = p + 1;
    let q = text::find(line, a, e, bench_script::TAB);
    let n = decimal::number_in(&line[a..q]);
    if decimal::CAP <= n {
        return Said::Wrong;
    }
    if q == e {
        return with_number(panel, v, n as u32);
    }
    let b = q + 1;
    let t = text::find(line, b, e, bench_script::TAB);
    if t < e {
        return Said::Wrong;
    }
    let x = decimal::number_in(&line[b..t]);
    if decimal::CAP <= x {
        return Said::Wrong;
    }
    with_two(panel, v, n as u32, x as u32)
}

// Whether a line, without its LF, is RUN.
#[tactic(auto, unfolding(bench_script::specs::Input::is_run))]
pub fn is_run(line: &[u8]) -> bool
    ensures { result ≡ is_run line.now }
{
    line == b"RUN".as_slice()
}

// Where the rig ends: before the first line RUN, or with the input.
pub fn rig_end(input: &[u8]) -> usize
    ensures { result ≡ rig_end input.now }
{
    let n = input.len();
    let mut i: usize = 0;
    while i < n {
        let e = lines::line_of(input, i);
        if e == n {
            return n;
        }
        if is_run(&input[i..e]) {
            return i;
        }
        i = e + 1;
    }
    n
}
