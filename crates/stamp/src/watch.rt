// A format in runs, as a bus would bring it: what the buffer holds after each.
use rules::{Progress, Record, Runs};
use say::STDOUT_FILENO;
use std::num::NonZeroUsize;

// The bytes of a text that are shown, at most: its last ones.
const MOST: usize = 160;

fn say_quoted(text: &[u8]) {
    say::text(b"`");
    say::escaped_to(STDOUT_FILENO, text);
    say::text(b"`");
}

fn say_last(text: &[u8]) {
    if text.len() <= MOST {
        say_quoted(text);
        return;
    }
    let from = text.len() - MOST;
    say::text(b".. ");
    say_quoted(&text[from..]);
}

fn is_refused(s: Runs) -> bool {
    matches!(runs::answer_of(s), Progress::Refused(_))
}

fn say_held(s: Runs, store: &[u8], buffer: &[u8]) {
    say::text(b": the buffer holds ");
    say_last(say::front(buffer, s.written));
    if is_refused(s) {
        say::text(b", and here it is refused");
    } else if s.kept != 0 {
        say::text(b", and ");
        say_last(say::front(store, s.kept));
        say::text(b" waits for more");
    }
    say::text(b"\n");
}

fn watch_runs(
    format: &[u8],
    run_length: NonZeroUsize,
    zone: &[u8],
    record: Record,
    store: &mut [u8],
    buffer: &mut [u8],
) -> Runs {
    let mut s = runs::start(format.len(), zone, store, buffer);
    for bytes in format.chunks(run_length.get()) {
        if is_refused(s) {
            return s;
        }
        s = runs::run(s, bytes, zone, record, store, buffer);
        say_quoted(bytes);
        say_held(s, store, buffer);
    }
    s
}

pub fn watch(format: &[u8], run_length: NonZeroUsize, zone: &[u8], record: Record) {
    let mut store = [0u8; 4096];
    let mut buffer = io::large_buffer();
    let s = watch_runs(format, run_length, zone, record, &mut store, &mut buffer);
    if is_refused(s) {
        return;
    }
    let after = runs::end(s, zone, record, &store, &mut buffer);
    say::text(b"the end");
    say_held(after, &store, &buffer);
}
