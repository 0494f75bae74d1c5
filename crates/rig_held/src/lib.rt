// The lines of a rig file as they are held while it is read.
#![tactic(auto)]

ghost use Rattle.std.specs.Prelude.{◌≡◌, ◌∷◌, [], ◌++◌, ◌≤◌, ◌<◌, length};
ghost use Rattle.rig_lines.specs.Kind.{kind_number};
ghost use Rattle.rig_lines.specs.Whole.{is_kind, how_many};
ghost use Rattle.rig_held.specs.Held.{held};

use rig_lines::Kind;
use std::marker::Model;

// How many lines there is room for: a line of the right shape has at least four bytes, and a file at most 40,960.
pub const MOST: usize = 10240;

// A line: its kind, and its numbers, 0 behind the last. It takes ten bytes, so that all of them take the 102,400 bytes of stack that the header's figure counts.
#[derive(Clone, Copy, Debug, PartialEq, Eq)]
pub struct Line {
    pub kind: Kind,
    pub numbers: [u8; 9],
}

// The lines that are held, one behind the other.
#[derive(Drop)]
pub struct Held {
    lines: [Line; MOST],
    count: usize,
}

impl Model for Held {
    ghost use Rattle.std.specs.Prelude.{List, ◌≤◌, take};
    ghost use Rattle.rig_held.specs.declared.Line.{Line};

    ghost Value = { List Line };

    ghost view = { λ h. take h.count h.lines };

    ghost invariant = { λ h. h.count ≤ 10240 };
}

impl Held {
    pub fn none() -> Held
        ensures { result ≡ [] }
    {
        Held {
            lines: [Line {
                kind: Kind::Rig,
                numbers: [0; 9],
            }; MOST],
            count: 0,
        }
    }

    pub fn hold(&mut self, kind: Kind, numbers: [u8; 9])
        requires { length self.old < 10240 }
        ensures { self.new ≡ self.old ++ (record { kind = kind; numbers = numbers } ∷ []) }
    {
        self.lines[self.count] = Line { kind, numbers };
        self.count += 1;
    }

    pub fn lines(&self) -> &[Line]
        ensures { result.now ≡ self.now }
    {
        &self.lines[..self.count]
    }
}

// How many of the lines are of a kind.
pub fn how_many(lines: &[Line], kind: Kind) -> usize
    ensures { (result ≡ how_many (is_kind (kind_number kind)) (held lines.now)) × (result ≤ length lines.now) }
{
    let mut c: usize = 0;
    for line in lines {
        if line.kind == kind {
            c += 1;
        }
    }
    c
}
