// Prints the stamp that a format gives of one fixed time, or of the instant that is asked for, and the bytes that the format needs; or its
// stored form; or where the format is refused and why.
#![tactic(auto)]

mod arguments;
mod echoes;
mod instant;
mod item;
mod number;
mod refused;
mod sample;
mod show;
mod stored;
mod usage;
mod watch;

use rules::Refusal;
use say::STDERR_FILENO;
use std::env::Env;
use std::num::NonZeroUsize;

fn say_too_long() {
    say::refusal_to(STDERR_FILENO, Refusal::InputTooLong);
    say::error(b": the format has more than 65536 bytes, and 4096 are the most\n");
}

// What is done with word `i`, unless it is longer than any format.
fn with_word<F: FnOnce(&[u8])>(rt: &impl Env, i: usize, then: F)
    requires { F.IsAlwaysCallable then }
{
    let mut word = io::large_buffer();
    match rt.arg(i, &mut word) {
        Ok(count) => then(&word[..count]),
        Err(_) => say_too_long(),
    }
}

// COUNT is word `i`, if there is one, and behind it comes at most OFFSET.
fn run_at(rt: &impl Env, format: &[u8], i: usize, words: usize, run_length: Option<NonZeroUsize>) {
    if words <= i {
        sample::show_sample(format, run_length);
        return;
    }
    if words - i > 2 {
        usage::say_words();
        return;
    }
    if let Some((count, offset)) = arguments::read_time(rt, i, words) {
        instant::show_at(format, count, offset, run_length);
    }
}

// N is the second word, and the format the third.
fn run_in_runs(rt: &impl Env, words: usize) {
    if words < 4 {
        usage::say_words();
        return;
    }
    let run_length = arguments::read_run_length(rt, 2);
    if run_length.is_some() {
        with_word(rt, 3, |format| run_at(rt, format, 4, words, run_length));
    }
}

// The format is the second word, and the last.
fn run_stored(rt: &impl Env, words: usize) {
    if words != 3 {
        usage::say_words();
        return;
    }
    with_word(rt, 2, stored::show_stored);
}

// Only four whole words are options, so that a format may begin with two dashes.
fn run(rt: &impl Env, word: &[u8], words: usize) {
    match word {
        b"--runs" => run_in_runs(rt, words),
        b"--stored" => run_stored(rt, words),
        b"--help" if words == 2 => usage::say_usage(),
        b"--version" if words == 2 => usage::say_version(),
        format => run_at(rt, format, 2, words, None),
    }
}

fn main(rt: HostRuntime) {
    let words = arguments::word_count(&rt);
    if words < 2 {
        usage::say_usage();
        return;
    }
    with_word(&rt, 1, |word| run(&rt, word, words));
}
