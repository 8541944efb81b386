// Added to the original: what the programs say, and an answer by the refusal table of paper 01.
// `text`, `number` and `shown` go to standard output, `error` and `error_number` to standard error, and what ends in `_to` to a descriptor. The two
// outputs have words of their own, since a program says most of what it says by one of them.
#![tactic(auto)]

mod escape;

ghost use Rattle.std.specs.Prelude.{◌≡◌};
ghost use Rattle.rules.specs.Refusal.{numbered};

pub use escape::escaped_to;
use rules::Refusal;
use std::fmt;
use std::fmt::{Display, Write};

pub const STDOUT_FILENO: i32 = 1;

pub const STDERR_FILENO: i32 = 2;

pub fn text_to(fd: i32, text: &[u8]) {
    io::write_all(fd, text);
}

pub fn number_to(fd: i32, number: u64) {
    io::print_decimal(fd, number);
}

// A descriptor that text is written to. What fails is passed over, as in `text_to`.
#[derive(Drop)]
struct Descriptor(i32);

impl Write for Descriptor {
    fn write_str(&mut self, text: &str) -> fmt::Result {
        text_to(self.0, text.as_bytes());
        Ok(())
    }
}

pub fn shown_to(fd: i32, value: impl Display + Drop) {
    let _ = Descriptor(fd).write(value);
}

pub fn text(text: &[u8]) {
    text_to(STDOUT_FILENO, text);
}

pub fn number(number: u64) {
    number_to(STDOUT_FILENO, number);
}

pub fn shown(value: impl Display + Drop) {
    shown_to(STDOUT_FILENO, value);
}

pub fn error(text: &[u8]) {
    text_to(STDERR_FILENO, text);
}

pub fn error_number(number: u64) {
    number_to(STDERR_FILENO, number);
}

// A refusal's number and name.
pub fn refusal_to(fd: i32, refusal: Refusal) {
    let number = u32::from(refusal);
    shown_to(fd, format_args!("refusal {number}, {refusal}"));
}

#[tactic(auto, unfolding(rules::specs::Refusal::numbered))]
pub fn answer_number(answer: Result<usize, Refusal>) -> u64
    ensures { result ≡ (numbered answer).number }
{
    match answer {
        Ok(_) => 0,
        Err(refusal) => u32::from(refusal) as u64,
    }
}

#[tactic(auto, unfolding(rules::specs::Refusal::numbered))]
pub fn answer_bytes(answer: Result<usize, Refusal>) -> usize
    ensures { result ≡ (numbered answer).bytes }
{
    answer.unwrap_or(0)
}

// The first `count` bytes, or all where there are fewer.
pub fn front(bytes: &[u8], count: usize) -> &[u8] {
    bytes.get(..count).unwrap_or(bytes)
}
