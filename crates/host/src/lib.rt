// What a host in C calls, by the exports of crate host_c. It keeps one record in its own memory and lends it to each entry, "to be changed where it stands".
// Each entry calls the method by value of its name, has its step told in numbers, stores the record over the lent one, and replies.
#![tactic(auto)]

ghost use Rattle.std.specs.Prelude.{◌≡◌, []};
ghost use Rattle.command_words.specs.Command.{command_fields};
ghost use Rattle.status_words.specs.Status.{status_fields};
ghost use Rattle.word_judging.specs.Answers.{number_told};
ghost use Rattle.word_judging.specs.Judging.{judged_as};
ghost use Rattle.word_numbers.specs.Numbers.{command_numbers, status_numbers};
ghost use Rattle.rules.specs.Calls as Call;
ghost use Rattle.exec.specs.Call.{bit};
ghost use Rattle.host_replies.specs.Told.{coded_of, Replies, StartRepliesFrom};
ghost use Rattle.refusal_texts.specs.Texts.{refusal_text, Given};
ghost use Rattle.host_layout.specs.Library.{record_size, record_align, version};

use exec::Exec;
use host_replies::{Reply, told};
use word_numbers::{CommandNumbers, StatusNumbers};

// The version, of which the header has the same number.
#[unsafe(no_mangle)]
pub extern "C" fn algolmallet_version() -> u32
    ensures { result ≡ version }
{
    host_layout::version_number()
}

// A refusal's text in the caller's buffer, with the byte 0 behind it.
#[unsafe(no_mangle)]
pub extern "C" fn algolmallet_refusal_text(number: u32, out: &mut [u8]) -> usize
    ensures { Given (refusal_text number) out.old out.new result }
{
    refusal_texts::refusal_text(number, out)
}

// The bytes of a record.
#[unsafe(no_mangle)]
pub extern "C" fn algolmallet_record_size() -> usize
    ensures { result ≡ record_size }
{
    host_layout::record_size()
}

// What a record's address is a multiple of.
#[unsafe(no_mangle)]
pub extern "C" fn algolmallet_record_align() -> usize
    ensures { result ≡ record_align }
{
    host_layout::record_align()
}

// Whatever the memory held, it holds a fresh record then, or one of all zeros if the file is refused.
#[unsafe(no_mangle)]
pub extern "C" fn algolmallet_start(e: &mut Exec, file: &[u8]) -> Reply
    ensures { StartRepliesFrom file.now (coded_of e.new result) }
{
    let s = host_replies::start(file);
    *e = s.exec;
    s.reply
}

#[unsafe(no_mangle)]
pub extern "C" fn algolmallet_schedule(e: &mut Exec, task: u32) -> Reply
    ensures { Replies e.old (Call.schedule task) (coded_of e.new result) [] }
{
    let s = told((*e).schedule(task));
    *e = s.exec;
    s.reply
}

#[unsafe(no_mangle)]
pub extern "C" fn algolmallet_cancel(e: &mut Exec, task: u32) -> Reply
    ensures { Replies e.old (Call.cancel task) (coded_of e.new result) [] }
{
    let s = told((*e).cancel(task));
    *e = s.exec;
    s.reply
}

#[unsafe(no_mangle)]
pub extern "C" fn algolmallet_terminate(e: &mut Exec, task: u32) -> Reply
    ensures { Replies e.old (Call.terminate task) (coded_of e.new result) [] }
{
    let s = told((*e).terminate(task));
    *e = s.exec;
    s.reply
}

#[unsafe(no_mangle)]
pub extern "C" fn algolmallet_finish(e: &mut Exec) -> Reply
    ensures { Replies e.old Call.finish (coded_of e.new result) [] }
{
    let s = told((*e).finish());
    *e = s.exec;
    s.reply
}

#[unsafe(no_mangle)]
pub extern "C" fn algolmallet_tick(e: &mut Exec, out: &mut [u16]) -> Reply
    ensures { Replies e.old (Call.tick out.old) (coded_of e.new result) out.new }
{
    let s = told((*e).tick(out));
    *e = s.exec;
    s.reply
}

#[unsafe(no_mangle)]
pub extern "C" fn algolmallet_wait_until(e: &mut Exec, count: u32) -> Reply
    ensures { Replies e.old (Call.wait_until count) (coded_of e.new result) [] }
{
    let s = told((*e).wait_until(count));
    *e = s.exec;
    s.reply
}

#[unsafe(no_mangle)]
pub extern "C" fn algolmallet_wait_for(e: &mut Exec, cycles: u32) -> Reply
    ensures { Replies e.old (Call.wait_for cycles) (coded_of e.new result) [] }
{
    let s = told((*e).wait_for(cycles));
    *e = s.exec;
    s.reply
}

#[unsafe(no_mangle)]
pub extern "C" fn algolmallet_wait_latched(e: &mut Exec, flag: u32, value: bool) -> Reply
    ensures { Replies e.old (Call.latched flag (bit value)) (coded_of e.new result) [] }
{
    let s = told((*e).latched(flag, value));
    *e = s.exec;
    s.reply
}

#[unsafe(no_mangle)]
pub extern "C" fn algolmallet_wait_unlatched(e: &mut Exec, flag: u32, value: bool) -> Reply
    ensures { Replies e.old (Call.unlatched flag (bit value)) (coded_of e.new result) [] }
{
    let s = told((*e).unlatched(flag, value));
    *e = s.exec;
    s.reply
}

#[unsafe(no_mangle)]
pub extern "C" fn algolmallet_signal(e: &mut Exec, flag: u32, value: bool) -> Reply
    ensures { Replies e.old (Call.signal flag (bit value)) (coded_of e.new result) [] }
{
    let s = told((*e).signal(flag, value));
    *e = s.exec;
    s.reply
}

#[unsafe(no_mangle)]
pub extern "C" fn algolmallet_read_flag(e: &mut Exec, flag: u32) -> Reply
    ensures { Replies e.old (Call.read_flag flag) (coded_of e.new result) [] }
{
    let s = told((*e).read_flag(flag));
    *e = s.exec;
    s.reply
}

#[unsafe(no_mangle)]
pub extern "C" fn algolmallet_read_block(
    e: &mut Exec,
    row: u32,
    area: &[u16],
    buffer: &mut [u16],
) -> Reply
    ensures { Replies e.old (Call.read_block row area.now buffer.old) (coded_of e.new result) buffer.new }
{
    let s = told((*e).read_block(row, area, buffer));
    *e = s.exec;
    s.reply
}

#[unsafe(no_mangle)]
pub extern "C" fn algolmallet_write_block(
    e: &mut Exec,
    row: u32,
    area: &mut [u16],
    words: &[u16],
) -> Reply
    ensures { Replies e.old (Call.write_block row area.old words.now) (coded_of e.new result) area.new }
{
    let s = told((*e).write_block(row, area, words));
    *e = s.exec;
    s.reply
}

// "When does the bench next wake someone?" The value is the lowest waking count, 0 if nobody waits for one. The record is what it was.
#[unsafe(no_mangle)]
pub extern "C" fn algolmallet_next_waking(e: &mut Exec) -> Reply
    ensures { Replies e.old Call.next_waking (coded_of e.new result) [] }
{
    let s = told((*e).next_waking());
    *e = s.exec;
    s.reply
}

// How many of the task's starts came too soon. The value is its number of overruns; no running task is needed. The record is what it was.
#[unsafe(no_mangle)]
pub extern "C" fn algolmallet_overruns(e: &mut Exec, task: u32) -> Reply
    ensures { Replies e.old (Call.read_overruns task) (coded_of e.new result) [] }
{
    let s = told((*e).overruns(task));
    *e = s.exec;
    s.reply
}

// Why the inactive task won't start within so many links. The value is the position of the lowest condition that blocks, 16 for none; no running
// task is needed. The record is what it was.
#[unsafe(no_mangle)]
pub extern "C" fn algolmallet_why_not(e: &mut Exec, task: u32, links: u32) -> Reply
    ensures { Replies e.old (Call.why_not task links) (coded_of e.new result) [] }
{
    let s = told((*e).why_not(task, links));
    *e = s.exec;
    s.reply
}

// The monitor's side of the bus: words that it hears, taken apart and judged. No record is needed.
#[unsafe(no_mangle)]
pub extern "C" fn algolmallet_command_fields(word: u16) -> CommandNumbers
    ensures { result ≡ command_numbers (command_fields word) }
{
    word_numbers::command_fields(word)
}

#[unsafe(no_mangle)]
pub extern "C" fn algolmallet_status_fields(word: u16) -> StatusNumbers
    ensures { result ≡ status_numbers (status_fields word) }
{
    word_numbers::status_fields(word)
}

// 0 clean, 1 exception, 2 error; 11 alone for an image or an address outside its size.
#[unsafe(no_mangle)]
pub extern "C" fn algolmallet_judge(image: u32, address: u32) -> u32
    ensures { result ≡ number_told (judged_as image address) }
{
    word_judging::judge_told(image, address)
}
