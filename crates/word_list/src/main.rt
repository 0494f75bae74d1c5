// Prints bus words, a line for each question, its fields parted by tabs: the verb, what is asked, the answer's number
// (0 accepted), and, if it is accepted, what is answered. Bits and directions are 0 or 1.
//
//     command    address transmit sub-address words      number word
//     fields     word                                    address transmit sub-address words
//     status     address error status failure            number word image
//     bits       word                                    address error status failure
//     parity     word                                    parity
//     judge      image address                           number verdict
#![tactic(auto)]

use command_words::Command;
use status_words::Status;
use word_answers::number;
use word_judging::{Verdict, parity};

// Standard output.
const STDOUT: i32 = 1;

// By crate io: a `println!` would make the program stand on more of the C library than its `write`.
fn text(t: &[u8]) {
    io::write_all(STDOUT, t);
}

// A tab and a number.
fn field(n: u32) {
    text(b"\t");
    io::print_decimal(STDOUT, n as u64);
}

// The verb, and the numbers after it.
fn begin(verb: &[u8], numbers: &[u32]) {
    text(verb);
    for n in numbers {
        field(*n);
    }
}

fn end() {
    text(b"\n");
}

fn ask_command(address: u32, transmit: bool, sub: u32, last: u32) {
    let answer = command_words::word(Command {
        address,
        transmit,
        sub,
        last,
    });
    begin(
        b"command",
        &[address, transmit as u32, sub, last, number(answer)],
    );
    if let Ok(w) = answer {
        field(w as u32);
    }
    end();
}

fn ask_fields(word: u16) {
    let c = command_words::fields(word);
    begin(
        b"fields",
        &[word as u32, c.address, c.transmit as u32, c.sub, c.last],
    );
    end();
}

fn ask_status(address: u32, error: bool, bits: u32, failure: bool) {
    let answer = status_words::word(Status {
        address,
        error,
        status: bits,
        failure,
    });
    begin(
        b"status",
        &[address, error as u32, bits, failure as u32, number(answer)],
    );
    if let Ok(w) = answer {
        field(w as u32);
        field(word_sending::image(w));
    }
    end();
}

fn ask_bits(word: u16) {
    let s = status_words::fields(word);
    begin(
        b"bits",
        &[
            word as u32,
            s.address,
            s.error as u32,
            s.status,
            s.failure as u32,
        ],
    );
    end();
}

fn ask_parity(word: u16) {
    begin(b"parity", &[word as u32, parity::of_word(word) as u32]);
    end();
}

fn verdict_text(v: Verdict) -> &'static [u8] {
    match v {
        Verdict::Error => b"\terror",
        Verdict::Exception => b"\texception",
        Verdict::Clean => b"\tclean",
    }
}

fn ask_judge(image: u32, address: u32) {
    let answer = word_judging::judge(image, address);
    begin(b"judge", &[image, address, number(answer)]);
    if let Ok(v) = answer {
        text(verdict_text(v));
    }
    end();
}

// The cases of the paper that are marked *.
fn starred() {
    ask_command(7, false, 2, 32);
    ask_command(5, false, 1, 1);
    ask_command(31, true, 30, 32);
    ask_status(7, true, 0, false);
    ask_parity(14400);
    ask_parity(1);
    ask_command(7, false, 2, 33);
}

// The ends of the sizes, and mode commands.
fn commands() {
    ask_command(0, false, 1, 1);
    ask_command(31, true, 31, 32);
    ask_command(7, false, 2, 0);
    ask_command(7, true, 0, 0);
    ask_command(7, true, 0, 31);
    ask_command(7, true, 0, 32);
    ask_command(32, false, 2, 1);
    ask_command(7, false, 32, 1);
    ask_command(4294967295, true, 4294967295, 4294967295);
}

fn all_fields() {
    ask_fields(0);
    ask_fields(14400);
    ask_fields(14432);
    ask_fields(10273);
    ask_fields(65472);
    ask_fields(65535);
    ask_bits(0);
    ask_bits(15360);
    ask_bits(65535);
}

fn statuses() {
    ask_status(0, false, 0, false);
    ask_status(31, true, 511, true);
    ask_status(7, false, 512, false);
    ask_status(32, false, 0, false);
    ask_parity(0);
    ask_parity(65535);
}

// 28672 is the image of 14336, the clean word of address 7.
fn verdicts() {
    ask_judge(28672, 7);
    ask_judge(28673, 7);
    ask_judge(28672, 8);
    ask_judge(30721, 7);
    ask_judge(28674, 7);
    ask_judge(131071, 31);
    ask_judge(131072, 7);
    ask_judge(28672, 32);
}

fn main() {
    starred();
    commands();
    all_fields();
    statuses();
    verdicts();
}
