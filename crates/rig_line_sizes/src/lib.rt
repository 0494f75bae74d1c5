// A line judged by what its kind has, one judge for all kinds: its numbers within their sizes, and its place in the order.
#![tactic(auto)]

ghost use Rattle.std.specs.Prelude.{◌≡◌, ◌&&◌, ℕ, ◌≤◌, ◌<◌, cond, ltb, get_or, take};
ghost use Rattle.decimal.specs.Decimal.{cap};
ghost use Rattle.rig_lines.specs.Kinds.{keys_of, low_of, high_of, timed, period_listed, place_in_order, follows};
ghost use Rattle.rig_lines.specs.Kind.{kind_number};
ghost use Rattle.rig_lines.specs.Line.{fits};

use rig_lines::Kind;

const PERIODS: [u64; 7] = [1, 2, 4, 8, 16, 32, 64];

// What the numbers of a line of one kind may be: the least and the greatest value of each, and by how many of them the kind rises. A line has
// at most nine, those of the widest line of any edition.
#[derive(Clone, Copy, Debug, PartialEq, Eq)]
struct Sizes {
    low: [u8; 9],
    high: [u8; 9],
    keys: usize,
}

fn sizes_of(kind: Kind) -> Sizes
    ensures low { (j : ℕ) → j < 9 → get_or result.low j 0 ≡ low_of (kind_number kind) j }
    ensures high { (j : ℕ) → j < 9 → get_or result.high j 0 ≡ high_of (kind_number kind) j }
    ensures keys { (result.keys ≡ keys_of (kind_number kind)) × (result.keys ≤ 3) }
{
    match kind {
        Kind::Rig => Sizes {
            low: [1, 1, 1, 0, 0, 0, 0, 0, 0],
            high: [1, 64, 128, 31, 0, 0, 0, 0, 0],
            keys: 0,
        },
        Kind::Task => Sizes {
            low: [1, 0, 0, 0, 0, 0, 0, 0, 0],
            high: [64, 64, 255, 1, 128, 0, 0, 0, 0],
            keys: 1,
        },
        Kind::Condition => Sizes {
            low: [1, 0, 0, 0, 0, 0, 0, 0, 0],
            high: [64, 15, 1, 1, 0, 0, 0, 0, 0],
            keys: 2,
        },
        Kind::Line => Sizes {
            low: [1, 0, 1, 0, 0, 0, 0, 0, 0],
            high: [64, 15, 128, 0, 0, 0, 0, 0, 0],
            keys: 3,
        },
        Kind::Flag => Sizes {
            low: [0, 1, 0, 0, 0, 0, 0, 0, 0],
            high: [63, 128, 0, 0, 0, 0, 0, 0, 0],
            keys: 2,
        },
        Kind::Row => Sizes {
            low: [0, 1, 0, 1, 1, 1, 0, 0, 0],
            high: [31, 30, 31, 30, 32, 64, 63, 0, 0],
            keys: 0,
        },
    }
}

#[tactic(auto, unfolding(rig_lines::specs::Kinds::period_listed))]
fn is_period(p: u64) -> bool
    ensures { result ≡ period_listed p }
{
    PERIODS.contains(&p)
}

// Whether a B line's period is a listed one and its phase below it; true of other kinds.
fn on_time(kind: Kind, v: [u64; 9]) -> bool
    ensures { result ≡ timed (kind_number kind) v }
{
    kind != Kind::Row || is_period(v[5]) && v[6] < v[5]
}

// Whether the first `m` numbers of a line of a kind are within their sizes, and a B line's period and phase are right.
pub fn sized(kind: Kind, m: usize, v: [u64; 9]) -> bool
    requires { m ≤ 9 }
    ensures { result ≡ (fits (kind_number kind) 0 (take m v) && timed (kind_number kind) v) }
{
    let sizes = sizes_of(kind);
    for j in 0..m {
        if v[j] < (sizes.low[j] as u64) || (sizes.high[j] as u64) < v[j] {
            return false;
        }
    }
    on_time(kind, v)
}

// A number that the kind rises by, 0 for another.
fn key(keys: usize, v: [u64; 9], j: usize) -> u64
    requires { (j < 9) × ((i : ℕ) → get_or v i 0 ≤ cap) }
    ensures { (result ≡ cond (ltb j keys) (get_or v j 0) 0) × (result ≤ cap) }
{
    if j < keys { v[j] } else { 0 }
}

// A line's place in the order: its kind, then the numbers that the kind rises by.
pub fn place_of(kind: Kind, v: [u64; 9]) -> u64
    requires { (i : ℕ) → get_or v i 0 ≤ cap }
    ensures { result ≡ place_in_order (kind_number kind) v }
{
    let keys = sizes_of(kind).keys;
    let a = key(keys, v, 0);
    let b = key(keys, v, 1);
    let c = key(keys, v, 2);
    ((kind.number() as u64 * 256 + a) * 256 + b) * 256 + c
}

// Whether a line of a kind at place `r` may follow one at place `p`, 0 for none.
pub fn in_order(p: u64, kind: Kind, r: u64) -> bool
    ensures { result ≡ follows p (kind_number kind) r }
{
    if p == 0 {
        return kind == Kind::Rig;
    }
    if kind == Kind::Row {
        return p <= r;
    }
    p < r
}
