// The tests of a rig's rows: their sizes, that sender and receiver differ, and that rows beyond the count are 0.
#![tactic(auto)]

ghost use Rattle.laws.specs.All.{all_of};
ghost use Rattle.std.specs.Prelude.{◌≡◌, ◌≤◌};
ghost use Rattle.rig_rows.specs.Tests.{listed_b, row_tests, rows_b, differ_b, row_zeros_b};

use rig::{Rig, Row};

// "addresses 0 to 31, data sub-addresses 1 to 30", "1 to 32 words"
const LAST_ADDRESS: u8 = 31;

const LAST_SUB_ADDRESS: u8 = 30;

const MOST_WORDS: u8 = 32;

const PERIODS: [u8; 7] = [1, 2, 4, 8, 16, 32, 64];

fn listed(p: u8) -> bool
    ensures { result ≡ listed_b p }
{
    PERIODS.contains(&p)
}

// Addresses, sub-addresses, words, period and phase of a row.
#[tactic(auto, unfolding(crate::specs::Tests::row_tests, laws::specs::All::all_of))]
fn row_ok(b: &Row) -> bool
    ensures { result ≡ all_of (row_tests b.now) }
{
    b.sender <= LAST_ADDRESS
        && rig_tables::in_range(1, b.sender_sub, LAST_SUB_ADDRESS)
        && b.receiver <= LAST_ADDRESS
        && rig_tables::in_range(1, b.receiver_sub, LAST_SUB_ADDRESS)
        && rig_tables::in_range(1, b.words, MOST_WORDS)
        && listed(b.period)
        && b.phase < b.period
}

pub fn rows_ok(rig: &Rig) -> bool
    requires { rig.now.rows ≤ 64 }
    ensures { result ≡ rows_b rig.now.rows rig.now.row }
{
    rig.row.iter().take(rig.rows as usize).all(row_ok)
}

pub fn differ(rig: &Rig) -> bool
    requires { rig.now.rows ≤ 64 }
    ensures { result ≡ differ_b rig.now.rows rig.now.row }
{
    rig.row
        .iter()
        .take(rig.rows as usize)
        .all(|b| b.sender != b.receiver)
}

pub fn row_zeros(rig: &Rig) -> bool
    requires { rig.now.rows ≤ 64 }
    ensures { result ≡ row_zeros_b rig.now.rows rig.now.row }
{
    rig.row
        .iter()
        .skip(rig.rows as usize)
        .all(|b| *b == Row::NONE)
}
