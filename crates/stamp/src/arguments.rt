// What the command line asks for: COUNT, the seconds since 1970, OFFSET, seconds east of UTC, and N, the bytes of a run.
ghost use Rattle.std.specs.Prelude.{◌≡◌, ◌<◌};
ghost use Rattle.stamp.specs.Numbers.{signed_of};

use crate::number::{read_number, read_signed};
use crate::usage::say_words;
use say::STDERR_FILENO;
use std::env::{Env, FillError};
use std::num::NonZeroUsize;

// How many words there are, the program's name among them.
pub fn word_count(rt: &impl Env) -> usize {
    let mut front = [0u8; 1];
    (0..usize::MAX)
        .find(|i| matches!(rt.arg(*i, &mut front), Err(FillError::NotPresent)))
        .unwrap_or(usize::MAX)
}

fn say_no_number(word: &[u8], range: &[u8]) {
    say::error(b"`");
    say::escaped_to(STDERR_FILENO, word);
    say::error(b"` is no number from ");
    say::error(range);
    say::error(b"\n");
    say_words();
}

// What `read` makes of word `i`. Where that is nothing, says that the word is no number of the range.
fn read_word<T, F: FnOnce(&[u8]) -> Option<T>>(
    rt: &impl Env,
    i: usize,
    range: &[u8],
    read: F,
) -> Option<T>
    requires { F.IsAlwaysCallable read }
{
    let mut word = io::buffer();
    // A word that is too long for the buffer is no number, as an empty one.
    let count = rt.arg(i, &mut word).unwrap_or(0);
    let number = read(&word[..count]);
    if number.is_none() {
        say_no_number(&word[..count], range);
    }
    number
}

fn count_of(word: &[u8]) -> Option<i64>
    ensures { result ≡ signed_of 9223372036854775807 word.now }
{
    read_signed(word, 9223372036854775807)
}

fn offset_of(word: &[u8]) -> Option<i32>
    ensures { result ≡ signed_of 2147483647 word.now }
{
    Some(read_signed(word, 2147483647)? as i32)
}

fn run_length_of(word: &[u8]) -> Option<NonZeroUsize> {
    NonZeroUsize::new(read_number(word, 32)? as usize)
}

// COUNT is word `i`, and OFFSET the next, if there is one. `words` is how many there are, the program's name among them.
pub fn read_time(rt: &impl Env, i: usize, words: usize) -> Option<(i64, i32)>
    requires { i < words }
{
    let range = b"-9223372036854775808 to 9223372036854775807";
    let count = read_word(rt, i, range, count_of)?;
    if words <= i + 1 {
        return Some((count, 0));
    }
    let offset = read_word(rt, i + 1, b"-2147483648 to 2147483647", offset_of)?;
    Some((count, offset))
}

// N is word `i`.
pub fn read_run_length(rt: &impl Env, i: usize) -> Option<NonZeroUsize> {
    read_word(rt, i, b"1 to 32", run_length_of)
}
