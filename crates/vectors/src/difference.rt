// What an answer has that the stored one has not. Bytes are counted from 1.
ghost use Rattle.std.specs.Prelude.{◌+◌, ◌≤◌, length};

use crate::ground::{GUARD, changed, other};
use rules::Refusal;
use std::fmt;

#[derive(Clone, Copy)]
pub enum Difference {
    // The line can't be read.
    Unread,
    // The answer that was given, and the stored one.
    Answer(Result<usize, Refusal>, Result<usize, Refusal>),
    // A byte of the text.
    Text(usize),
    // A changed byte: how far before the buffer, or from its start on.
    Before(usize),
    Behind(usize),
}

impl fmt::Display for Difference {
    fn fmt<W: fmt::Write>(&self, f: &mut fmt::Formatter<W>) -> fmt::Result {
        match *self {
            Difference::Unread => write!(f, "it can't be read"),
            Difference::Answer(Ok(given), Ok(stored)) => {
                write!(f, "the length is {given}, the original's is {stored}")
            }
            Difference::Answer(given, stored) => {
                let given = say::answer_number(given);
                let stored = say::answer_number(stored);
                write!(f, "the answer is {given}, the original's is {stored}")
            }
            Difference::Text(place) => write!(f, "byte {place} of the text is another"),
            Difference::Before(place) => write!(f, "byte {place} before the buffer was changed"),
            Difference::Behind(place) => {
                write!(f, "byte {place} from the buffer's start was changed")
            }
        }
    }
}

// Whether the text stands at the start of the buffer, and no other byte of the ground was changed.
fn compare_bytes(text: &[u8], ground: &[u8]) -> Result<(), Difference>
    requires { 64 + length text.now ≤ length ground.now }
{
    if let Some(place) = changed(ground, 0, GUARD) {
        return Err(Difference::Before(GUARD - place));
    }
    if let Some(place) = other(text, ground, GUARD) {
        return Err(Difference::Text(place + 1));
    }
    if let Some(place) = changed(ground, GUARD + text.len(), ground.len()) {
        return Err(Difference::Behind(place - GUARD + 1));
    }
    Ok(())
}

// After a refusal the text is empty: the buffer is to be unchanged.
pub fn compare(
    given: Result<usize, Refusal>,
    stored: Result<usize, Refusal>,
    text: &[u8],
    ground: &[u8],
) -> Result<(), Difference>
    requires { 64 + length text.now ≤ length ground.now }
{
    if given != stored {
        return Err(Difference::Answer(given, stored));
    }
    compare_bytes(text, ground)
}
