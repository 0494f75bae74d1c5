// Standard input and output that may fail, be interrupted or have to wait.
#![tactic(auto)]

ghost use Rattle.std.specs.Prelude.{◌≡◌, ◌≤◌, length, take, IfNone};
ghost use Rattle.std.specs.Io.KnownBytes.{Appends};
ghost use Rattle.bench_io.specs.Brought.{Brings, Takes};

use std::io::{Error, ErrorKind, Read, Write};
use std::{io, thread};

// What became of a write: how many of the bytes went out, and why not all. No Result: some went out where a write failed, too.
#[derive(Clone, Copy)]
pub struct Output {
    pub count: usize,
    pub failure: Option<Error>,
}

// Whether a call that failed may be made again: it was interrupted, or it would have to wait. Then others may run first.
fn again(e: &Error) -> bool {
    match e.kind() {
        ErrorKind::Interrupted => true,
        ErrorKind::WouldBlock => {
            thread::yield_now();
            true
        }
        _ => false,
    }
}

// One read, as `read` of the standard library tells it: so many bytes, whatever is there, as soon as there is anything; 0 at the end of the
// input; or a failure. Nothing that the reader had is lost.
pub fn read_in<R: Read>(from: &mut R, input: &mut [u8]) -> io::Result<usize>
    ensures brings { Brings (length input.new) result }
    ensures bytes { Takes (R.remaining from.old) (R.remaining from.new) input.new result }
{
    for _ in 0..u64::MAX {
        match from.read(&mut *input) {
            Ok(n) => return Ok(n),
            Err(e) => {
                if !again(&e) {
                    return Err(e);
                }
            }
        }
    }
    Err(Error::from(ErrorKind::WouldBlock))
}

// How many of the bytes went out, from the first on, each once. They are fewer than all only where a write failed, or would have to wait for ever.
pub fn write_out<W: Write>(to: &mut W, out: &[u8]) -> Output
    ensures bound { result.count ≤ length out.now }
    ensures all { IfNone result.failure (result.count ≡ length out.now) }
    ensures bytes { Appends (W.contents to.old) (W.contents to.new) (take result.count out.now) }
{
    let mut done: usize = 0;
    for _ in 0..u64::MAX {
        if done == out.len() {
            break;
        }
        match to.write(&out[done..]) {
            Ok(n) => done += n,
            Err(e) => {
                if !again(&e) {
                    return Output {
                        count: done,
                        failure: Some(e),
                    };
                }
            }
        }
    }
    let failure = if done == out.len() {
        None
    } else {
        Some(Error::from(ErrorKind::WouldBlock))
    };
    Output {
        count: done,
        failure,
    }
}
