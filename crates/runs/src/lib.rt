// Added: a format that arrives in runs (02, request 4). What is held between two calls are plain numbers; the text of the directive that is not
// yet wholly read stands in a store that the caller lends. No call relies on what the calls before it have seen.
#![tactic(auto)]

mod checks;
mod store;

ghost use Rattle.std.specs.Prelude.{◌≡◌, cond, List, ℕ, eqb, length};
ghost use Rattle.rules.specs.Refusal.{number_of, number_in_check, refusal_at};
ghost use Rattle.rules.specs.Event.{reach_of, number_in};
ghost use Rattle.rules.specs.Runs.{bring, close, progressed, held, said_in, arrived_of, numbers_of, begun, held_after};
ghost use Rattle.text.specs.Ran.{count_at};
ghost use Rattle.runs.specs.Checks.{Good};
ghost use Rattle.runs.specs.Read.{unread, read_in};

use checks::{check_end, check_run, check_start};
use pending::pending_from;
use rules::{Progress, Record, Refusal, Runs};
use store::{move_front, take_in};
use text::{number_at, reach_at};
use walk::run_from;

// A refusal's number as it is read: one of the table, or 0. It stays a number in `Runs`: a caller may hold any, and `run`, `end` and `answer_of` take it.
fn known(number: usize) -> usize
    ensures { result ≡ cond (eqb number 0) 0 (number_of (refusal_at number)) }
{
    if number == 0 {
        return 0;
    }
    u32::from(rules::refusal_of(number)) as usize
}

// 0, or the refusal's number.
#[tactic(auto, unfolding(rules::specs::Refusal::number_in_check))]
fn number_of_check(check: Result<(), Refusal>) -> usize
    ensures { result ≡ number_in_check check }
{
    match check {
        Ok(()) => 0,
        Err(refusal) => u32::from(refusal) as usize,
    }
}

// The numbers as they are read, with a store of so many bytes: they may be any.
fn as_read(s: Runs, store: usize) -> Runs
    ensures { (l : List ℕ) → length l ≡ store → result ≡ numbers_of (arrived_of s l) }
{
    Runs {
        kept: s.kept.min(store),
        number: known(s.number),
        ..s
    }
}

// Nothing is read: a refusal.
fn refused(s: Runs, refusal: Refusal) -> Runs
    ensures { result ≡ record { total = s.total; passed = s.passed; kept = s.kept; written = s.written; number = number_of refusal; over = s.over } }
{
    Runs {
        number: u32::from(refusal) as usize,
        ..s
    }
}

// The numbers after a walk that came to a place.
fn came(total: usize, passed: usize, kept: usize, place: usize, over: bool) -> Runs
    ensures { result ≡ record { total = total; passed = passed; kept = kept; written = reach_of (count_at place); number = number_in (count_at place); over = over } }
{
    Runs {
        total,
        passed,
        kept,
        written: reach_at(place),
        number: number_at(place),
        over,
    }
}

// The first call: the total, and what the later calls will be lent.
pub fn start(total: usize, zone: &[u8], store: &[u8], buffer: &[u8]) -> Runs
    ensures { result ≡ (begun total zone.now store.now buffer.now).numbers }
{
    Runs {
        total,
        passed: 0,
        kept: 0,
        written: 0,
        number: number_of_check(check_start(total, zone.len(), buffer.len(), store.len())),
        over: false,
    }
}

// A run that is read: its bytes behind what is kept, the text of all that is settled then, and what is pending moved to the front.
fn read_run(
    s: Runs,
    bytes: &[u8],
    zone: &[u8],
    record: Record,
    store: &mut [u8],
    buffer: &mut [u8],
) -> Runs
    requires { Good s (length bytes.now) (length zone.now) (length buffer.old) (length store.old) }
    ensures { held result store.new buffer.new ≡ read_in zone.now «record» (unread s store.old) (bring bytes.now) store.old buffer.old }
{
    let kept = s.kept;
    take_in(store, kept, bytes);
    let end = kept + bytes.len();
    let from = pending_from(&store[..end]);
    let room = buffer.len();
    let place = run_from(
        &store[..from],
        0,
        s.written,
        zone,
        record,
        buffer,
        room,
        s.total * 524288,
    );
    let left = end - from;
    move_front(store, from, left);
    came(s.total, s.passed + from, left, place, false)
}

// A run.
pub fn run(
    s: Runs,
    bytes: &[u8],
    zone: &[u8],
    record: Record,
    store: &mut [u8],
    buffer: &mut [u8],
) -> Runs
    ensures { held result store.new buffer.new ≡ held_after zone.now «record» (held s store.old buffer.old) (bring bytes.now) }
{
    let was = as_read(s, store.len());
    if was.over {
        return was;
    }
    if was.number != 0 {
        return was;
    }
    if let Err(refusal) = check_run(was, bytes.len(), zone.len(), buffer.len(), store.len()) {
        return refused(was, refusal);
    }
    read_run(was, bytes, zone, record, store, buffer)
}

// The end.
pub fn end(s: Runs, zone: &[u8], record: Record, store: &[u8], buffer: &mut [u8]) -> Runs
    ensures { held result store.now buffer.new ≡ held_after zone.now «record» (held s store.now buffer.old) close }
{
    let was = as_read(s, store.len());
    if was.over {
        return was;
    }
    if was.number != 0 {
        return was;
    }
    let room = buffer.len();
    if let Err(refusal) = check_end(was, zone.len(), room) {
        return refused(was, refusal);
    }
    let kept = was.kept;
    let place = run_from(
        &store[..kept],
        0,
        was.written,
        zone,
        record,
        buffer,
        room,
        was.total * 524288,
    );
    came(was.total, was.total, 0, place, true)
}

// What the last call answered. A `Result` of an `Option` would say its three cases no plainer.
pub fn answer_of(s: Runs) -> Progress
    ensures { progressed result ≡ said_in s }
{
    if s.number != 0 {
        return Progress::Refused(rules::refusal_of(s.number));
    }
    if s.over {
        return Progress::Done(s.written);
    }
    Progress::More
}
