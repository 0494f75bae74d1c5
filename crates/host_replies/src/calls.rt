// What a call by value leaves, its answer put into the numbers that C reads.
ghost use Rattle.std.specs.Prelude.{◌≡◌};
ghost use Rattle.host_replies.specs.Told.{reply_of, coded};

use crate::{Coded, NOTHING, Reply};
use exec::{Answer, Step};

fn reply_of(a: Answer, count: u32, running: u32) -> Reply
    ensures { result ≡ reply_of a count running }
{
    match a {
        Answer::Accepted(p) => Reply {
            served: p.served,
            words: p.words,
            value: p.value,
            count,
            running,
            woken: p.woken,
            activated: p.activated,
            ..NOTHING
        },
        Answer::Refused(n) => Reply {
            refusal: n as u32,
            count,
            running,
            ..NOTHING
        },
    }
}

// The count and the running task are those of the record that the step leaves.
pub fn told(s: Step) -> Coded
    ensures { result ≡ coded s }
{
    let reply = reply_of(s.answer, s.exec.st.count, s.exec.st.running as u32);
    Coded {
        exec: s.exec,
        reply,
    }
}
