// An answer's line: what is printed of a call.
#![tactic(auto)]

ghost use Rattle.std.specs.Prelude.{◌≡◌, ◌+◌, ◌≤◌, min, length};
ghost use Rattle.put_text.specs.Wrote.{Wrote};
ghost use Rattle.bench_script.specs.Output.{fields_text, turn_room};
ghost use Rattle.exec.specs.Call.{report_of, answer_of, ProperAnswer};
ghost use Rattle.bench_show.specs.Shown.{extra_room, extra, text_of, words_lent};

use exec::{Answer, Report};

// No waking count, and no condition's position: such a value is not printed.
const NO_COUNT: u32 = 0;

const NO_POSITION: u32 = 16;

// Bus words of a tick, the value of a flag that was read, the lowest waking count if there is one, a task's number of overruns, the position
// of the condition that blocks if one does, nothing of any other call.
fn put_extra(verb: u8, report: Report, words: &[u16], out: &mut [u8], at: usize) -> usize
    requires { (length words.now ≤ words_lent) × (at + extra_room ≤ length out.old) }
    ensures { Wrote out.old at (fields_text (extra verb (report_of report) words.now)) out.new result }
{
    if verb == b'K' {
        let n = (report.words as usize).min(words.len());
        return bench_script::put_words(out, at, &words[..n]);
    }
    if verb == b'Q' {
        return bench_script::put_field(out, at, report.value);
    }
    if verb == b'V' {
        return bench_script::put_if_any(out, at, NO_COUNT, report.value);
    }
    if verb == b'O' {
        return bench_script::put_field(out, at, report.value);
    }
    if verb == b'Y' {
        return bench_script::put_if_any(out, at, NO_POSITION, report.value);
    }
    at
}

fn number_of(a: Answer) -> u32
    ensures { result ≡ (answer_of a).code }
{
    match a {
        Answer::Accepted(report) => 0,
        Answer::Refused(n) => n as u32,
    }
}

// What an answer tells: "a refusal shows 0 and 0".
fn report_of(a: Answer) -> Report
    ensures { report_of result ≡ (answer_of a).report }
{
    match a {
        Answer::Accepted(report) => report,
        Answer::Refused(n) => Report {
            served: 0,
            woken: 0,
            activated: 0,
            words: 0,
            value: 0,
        },
    }
}

// An accepted answer's line goes on with what the call put out; a refused one ends behind the tasks woken and activated.
pub fn show(
    verb: u8,
    answer: Answer,
    count: u32,
    running: u32,
    words: &[u16],
    out: &mut [u8],
    at: usize,
) -> usize
    requires { (length words.now ≤ words_lent) × (at + turn_room ≤ length out.old) × ProperAnswer answer }
    ensures { Wrote out.old at (text_of verb (answer_of answer) count running words.now) out.new result }
{
    let n = number_of(answer);
    let told = report_of(answer);
    let a = at + 1;
    out[at] = verb;
    let p = bench_script::put_answer(&mut *out, a, n, count, running, told.woken, told.activated);
    let Answer::Accepted(report) = answer else {
        out[p] = bench_script::LF;
        return p + 1;
    };
    let q = put_extra(verb, report, words, &mut *out, p);
    out[q] = bench_script::LF;
    q + 1
}
