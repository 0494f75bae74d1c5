// Sums over every word, every image at every address, and fields in and out of their sizes, for a second program to print
// too. A sum begins at 0 and takes in one value after the other:
//
//     sum = (sum * 31 + value) modulo 65521
//
// Lines, their fields parted by tabs. An answer is its number (0 accepted, 11 refused) and, if it is accepted, its word.
//
// For each block 0 to 15, which is the 4096 words from 4096 * block on:
//
//     command BLOCK SUM       of each word: address, transmit, sub-address, last field, then the answer to these fields
//     status BLOCK SUM        of each word: address, error, status, failure, then the answer to these fields, then the
//                             image of the word
//
// Then for each address 0 to 33:
//
//     fields ADDRESS SUM      for each sub-address 0 to 33, each last field 0 to 34, transmit 0 then 1: the answer
//     bits ADDRESS SUM        for each status 0 to 519, error 0 then 1, failure 0 then 1: the answer
//     judge ADDRESS SUM REFUSED ERROR EXCEPTION CLEAN
//                             for each image 0 to 131075: 11 refused, 2 error, 1 exception, 0 clean; then how many of each
#![tactic(auto)]

use command_words::Command;
use status_words::Status;
use word_answers::OutsideSize;

// Standard output.
const STDOUT: i32 = 1;

fn mixed(sum: u32, value: u32) -> u32 {
    (((sum as u64) * 31 + (value as u64)) % 65521) as u32
}

// The number of an answer, and the word if it is accepted.
fn mixed_answer(sum: u32, answer: Result<u16, OutsideSize>) -> u32 {
    let sum = mixed(sum, word_answers::number(answer));
    match answer {
        Ok(w) => mixed(sum, w as u32),
        Err(_) => sum,
    }
}

fn mixed_command(sum: u32, word: u16) -> u32 {
    let c = command_words::fields(word);
    let sum = mixed(sum, c.address);
    let sum = mixed(sum, c.transmit as u32);
    let sum = mixed(sum, c.sub);
    let sum = mixed(sum, c.last);
    mixed_answer(sum, command_words::word(c))
}

fn mixed_status(sum: u32, word: u16) -> u32 {
    let s = status_words::fields(word);
    let sum = mixed(sum, s.address);
    let sum = mixed(sum, s.error as u32);
    let sum = mixed(sum, s.status);
    let sum = mixed(sum, s.failure as u32);
    let sum = mixed_answer(sum, status_words::word(s));
    mixed(sum, word_sending::image(word))
}

// The sums of the words of a block as commands and as statuses.
#[derive(Clone, Copy)]
struct Sums {
    command: u32,
    status: u32,
}

fn block_sums(block: u32) -> Sums {
    let first = block % 16 * 4096;
    let mut sums = Sums {
        command: 0,
        status: 0,
    };
    for i in 0..4096 {
        let word = (first + i) as u16;
        sums.command = mixed_command(sums.command, word);
        sums.status = mixed_status(sums.status, word);
    }
    sums
}

fn all_fields(address: u32) -> u32 {
    let mut sum = 0;
    for sub in 0..34 {
        for last in 0..35 {
            for transmit in [false, true] {
                let c = Command {
                    address,
                    transmit,
                    sub,
                    last,
                };
                sum = mixed_answer(sum, command_words::word(c));
            }
        }
    }
    sum
}

fn all_bits(address: u32) -> u32 {
    let mut sum = 0;
    for status in 0..520 {
        for error in [false, true] {
            for failure in [false, true] {
                let s = Status {
                    address,
                    error,
                    status,
                    failure,
                };
                sum = mixed_answer(sum, status_words::word(s));
            }
        }
    }
    sum
}

// How many images were judged how, and the sum over them.
#[derive(Clone, Copy)]
struct Tally {
    sum: u32,
    refused: u32,
    error: u32,
    exception: u32,
    clean: u32,
}

fn counted(count: u32, value: u32, wanted: u32) -> u32 {
    count.wrapping_add((value == wanted) as u32)
}

fn with_judged(t: Tally, value: u32) -> Tally {
    Tally {
        sum: mixed(t.sum, value),
        refused: counted(t.refused, value, 11),
        error: counted(t.error, value, 2),
        exception: counted(t.exception, value, 1),
        clean: counted(t.clean, value, 0),
    }
}

fn all_images(address: u32) -> Tally {
    let mut t = Tally {
        sum: 0,
        refused: 0,
        error: 0,
        exception: 0,
        clean: 0,
    };
    for image in 0..131076 {
        t = with_judged(t, word_judging::judge_told(image, address));
    }
    t
}

// By crate io: a `println!` would make the program stand on more of the C library than its `write`.
fn text(t: &[u8]) {
    io::write_all(STDOUT, t);
}

// A tab and a number.
fn field(n: u32) {
    text(b"\t");
    io::print_decimal(STDOUT, n as u64);
}

// The verb, and the numbers after it.
fn line(verb: &[u8], numbers: &[u32]) {
    text(verb);
    for n in numbers {
        field(*n);
    }
    text(b"\n");
}

fn block_lines(block: u32) {
    let sums = block_sums(block);
    line(b"command", &[block, sums.command]);
    line(b"status", &[block, sums.status]);
}

fn address_lines(address: u32) {
    line(b"fields", &[address, all_fields(address)]);
    line(b"bits", &[address, all_bits(address)]);
    let t = all_images(address);
    line(
        b"judge",
        &[address, t.sum, t.refused, t.error, t.exception, t.clean],
    );
}

fn main() {
    for block in 0..16 {
        block_lines(block);
    }
    for address in 0..34 {
        address_lines(address);
    }
}
