// Compool blocks in the lent area, and the bus words of a count in the lent buffer.
#![tactic(auto)]

ghost use Rattle.std.specs.Prelude.{◌≡◌, ◌+◌, ◌-◌, ◌*◌, ◌<◌, ◌≤◌, length, take, drop};
ghost use Rattle.laws.specs.Put.{put};
ghost use Rattle.rules.specs.Bus.{block_at, copied, written, row_due, receive_word, transmit_word, row_words, bus_words};
ghost use Rattle.compool.specs.View.{row_of, rows_of};
ghost use Rattle.compool.specs.Post.{RowFits, RowsFit, word_in};

use rig::{Rig, Row};
use word_parts::packed;

// "The area has exactly 33 words a row": a tag word and up to 32 words of data
const BLOCK_WORDS: usize = 33;
// "the count modulo 65,536 as tag"
const TAGS: u32 = 65536;
// the transmit field of a command
const RECEIVE: u32 = 0;

const TRANSMIT: u32 = 1;

// What a command tells a terminal to do.
#[derive(Clone, Copy, Debug, PartialEq, Eq)]
pub enum Direction {
    Receive,
    Transmit,
}

// The data of row k's block.
pub fn read_block(area: &[u16], k: usize, buffer: &mut [u16])
    requires { (0 < k) × (k ≤ 64) × (block_at k + 1 + length buffer.old ≤ length area.now) }
    ensures { buffer.new ≡ copied k area.now buffer.old }
{
    let data = BLOCK_WORDS * (k - 1) + 1;
    buffer.copy_from_slice(&area[data..data + buffer.len()]);
}

// Row k's block takes the words as its data, and the count as its tag.
pub fn write_block(count: u32, k: usize, words: &[u16], area: &mut [u16])
    requires { (0 < k) × (k ≤ 64) × (block_at k + 1 + length words.now ≤ length area.old) }
    ensures { area.new ≡ written count k area.old words.now }
{
    let b = BLOCK_WORDS * (k - 1);
    area[b] = (count % TAGS) as u16;
    area[b + 1..b + 1 + words.len()].copy_from_slice(words);
}

// Whether a row is due at the count.
pub fn due(row: &Row, count: u32) -> bool
    requires { 0 < row.now.period }
    ensures { result ≡ row_due (row_of row.now) count }
{
    count % (row.period as u32) == (row.phase as u32)
}

// A row's command in one direction.
fn command(row: &Row, direction: Direction) -> u16
    requires { RowFits row.now }
    ensures { result ≡ word_in direction (row_of row.now) }
{
    let (address, transmit, sub) = match direction {
        Direction::Receive => (row.receiver, RECEIVE, row.receiver_sub),
        Direction::Transmit => (row.sender, TRANSMIT, row.sender_sub),
    };
    packed::command(address as u32, transmit, sub as u32, row.words as u32)
}

// A receive command to the receiver.
pub fn receive_word(row: &Row) -> u16
    requires { RowFits row.now }
    ensures { result ≡ receive_word (row_of row.now) }
{
    command(row, Direction::Receive)
}

// A transmit command to the sender.
pub fn transmit_word(row: &Row) -> u16
    requires { RowFits row.now }
    ensures { result ≡ transmit_word (row_of row.now) }
{
    command(row, Direction::Transmit)
}

// The command words of a row go into the buffer at n; the number behind the last of them.
pub fn put_row(row: &Row, master: u8, n: usize, out: &mut [u16]) -> usize
    requires { RowFits row.now × (n + 2 ≤ length out.old) }
    ensures { (result ≡ n + length (row_words master (row_of row.now))) × (out.new ≡ put out.old n (row_words master (row_of row.now))) }
{
    let receive = receive_word(row);
    let transmit = transmit_word(row);
    if row.sender == master {
        out[n] = receive;
        return n + 1;
    }
    if row.receiver == master {
        out[n] = transmit;
        return n + 1;
    }
    out[n] = receive;
    out[n + 1] = transmit;
    n + 2
}

// The command words of the rows that are due at the count, in order, and how many they are.
pub fn bus_words(rig: &Rig, count: u32, out: &mut [u16]) -> usize
    requires { RowsFit rig.now.rows rig.now.row × (128 ≤ length out.old) }
    ensures { (result ≡ length (bus_words rig.now.rows rig.now.master (rows_of rig.now.row) count)) × (out.new ≡ put out.old 0 (bus_words rig.now.rows rig.now.master (rows_of rig.now.row) count)) }
{
    let mut n: usize = 0;
    for row in &rig.row[..rig.rows as usize] {
        if due(row, count) {
            n = put_row(row, rig.master, n, out);
        }
    }
    n
}
