// What a host in C is told of each call: the record after it, and its answer put into the numbers that C reads. Crate host has the entries,
// which crate host_c exports to C; each makes its call and has the step told here.
#![tactic(auto)]

mod calls;
mod starting;

pub use calls::told;
use exec::Exec;
pub use starting::start;

// An answer in numbers, which C has by value: the refusal (0 accepted), the rig file's line, flags served, bus words, a
// flag's value, the count and the running task of the record after the call, and how many waiting tasks the services made
// dispatchable and how many they activated.
#[repr(C)]
#[derive(Clone, Copy, Debug, PartialEq, Eq)]
pub struct Reply {
    pub refusal: u32,
    pub line: u32,
    pub served: u32,
    pub words: u32,
    pub value: u32,
    pub count: u32,
    pub running: u32,
    pub woken: u32,
    pub activated: u32,
}

// All zeros: a reply names what it tells beside them.
const NOTHING: Reply = Reply {
    refusal: 0,
    line: 0,
    served: 0,
    words: 0,
    value: 0,
    count: 0,
    running: 0,
    woken: 0,
    activated: 0,
};

// The record after a call, and the reply.
#[derive(Clone, Copy)]
pub struct Coded {
    pub exec: Exec,
    pub reply: Reply,
}
