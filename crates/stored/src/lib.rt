// Runs a compiled format (02, request 6): from its steps to the writers, with no parser.
#![tactic(auto)]

mod entry;
mod literals;

ghost use Rattle.std.specs.Prelude.{◌≡◌, true, ◌+◌, ◌≤◌, ◌<◌, length};
ghost use Rattle.rules.specs.Refusal.{numbered};
ghost use Rattle.rules.specs.Event.{reported, buffer_after};
ghost use Rattle.rules.specs.Writing.{events_of};
ghost use Rattle.rules.specs.Stored.{part_events, sections, formatted_stored};
ghost use Rattle.text.specs.Ran.{Ran};
ghost use Rattle.text.specs.Room.{Room};
ghost use Rattle.sections.specs.Counted.{Agreed};
ghost use Rattle.walk.specs.Stamp.{Stamped};
ghost use Rattle.stored.specs.Steps.{parts_from, taken_from, used_at, Standing, PartRan, all_events, Begun, Sound};

use codes::entry::two_at;
use entry::{entry_directive, marked_entry, plain_code};
use letters::{NOT_A_LETTER, letter};
use literals::{blocks_of, copy_text};
use rules::{LONGEST_BUFFER, LONGEST_FORMAT, LONGEST_ZONE, Record, Refusal};
use sections::{Counts, counts_of, entries_taken, steps_taken};
use strftime::{SCRATCH, part_of};
use text::{copy_front, is_refused, number_at, put_part, refused_at};

// How many literal bytes the step at `i` uses.
fn used_at(stored: &[u8], i: usize) -> usize
    requires { i + 3 ≤ length stored.now }
    ensures { result ≡ used_at stored.now i }
{
    if stored[i] == 0 {
        two_at(stored, i + 1)
    } else {
        0
    }
}

// The part of the step at `i`, which is taken. The lines that write a directive are those of `entry_directive`: called from here too, it would no
// longer be part of the loop over the scratch, and the record would be copied once more. `Agreed` stands in contracts: it ties `Counts` to bytes that
// `Counts` does not hold.
fn run_part(
    stored: &[u8],
    counts: Counts,
    i: usize,
    from: usize,
    zone: &[u8],
    record: Record,
    out: &mut [u8],
    at: usize,
    room: usize,
    limit: usize,
) -> usize
    requires { Room out.old room × Agreed stored.now counts.literals counts.directives × Standing stored.now i from × (taken_from stored.now i from ≡ true) × (i < length stored.now) }
    ensures { PartRan limit room «record» zone.now stored.now i from out.old at out.new result }
{
    let n = two_at(stored, i + 1);
    if stored[i] == 0 {
        return put_part(out, at, room, stored, from, from + n);
    }
    let entry = counts.entry_at(n);
    let code = plain_code(stored, entry);
    let place = letter(out, at, room, limit, code, record, zone);
    if place == NOT_A_LETTER {
        return marked_entry(stored, entry, zone, record, out, at, room, limit);
    }
    place
}

// All steps from the one at `step` on, which are taken.
fn run_steps(
    stored: &[u8],
    counts: Counts,
    step: usize,
    literal: usize,
    place: usize,
    zone: &[u8],
    record: Record,
    out: &mut [u8],
    room: usize,
    limit: usize,
) -> usize
    requires { Room out.old room × Agreed stored.now counts.literals counts.directives × Standing stored.now step literal × (taken_from stored.now step literal ≡ true) }
    ensures { Ran limit room (part_events (events_of «record» zone.now) (parts_from stored.now step literal)) out.old place out.new result }
{
    let mut at = place;
    let mut from = literal;
    for n in 0..(stored.len() - step) / 3 {
        let i = step + n * 3;
        at = run_part(stored, counts, i, from, zone, record, out, at, room, limit);
        from += used_at(stored, i);
    }
    at
}

// The text outgrows the scratch, or is refused. First the steps that are left are checked: 11 comes "before any text", whatever else is wrong. Then
// the rest is counted, with no slice to write to. If it isn't refused, the scratch's front is copied to the buffer, and the rest is written behind it.
fn rest(
    stored: &[u8],
    counts: Counts,
    i: usize,
    from: usize,
    place: usize,
    limit: usize,
    zone: &[u8],
    record: Record,
    out: &mut [u8],
    buffer: &mut [u8],
) -> usize
    requires { Room out.old (length buffer.old) × Agreed stored.now counts.literals counts.directives × Begun limit (length buffer.old) «record» zone.now stored.now i from out.old place }
    ensures { Stamped limit (all_events «record» zone.now stored.now) out.old buffer.old out.new buffer.new result }
{
    let count = (stored.len() - i) / 3;
    let left = 2 + counts.literals - from;
    if !steps_taken(stored, i, count, counts.directives, left) {
        return refused_at(0, Refusal::BadStored);
    }
    let room = buffer.len();
    let end = run_steps(
        stored,
        counts,
        i,
        from,
        place,
        zone,
        record,
        &mut out[..0],
        room,
        limit,
    );
    if is_refused(end) {
        return end;
    }
    copy_front(buffer, out, place);
    run_steps(
        stored, counts, i, from, place, zone, record, buffer, room, limit,
    )
}

// The text of a stored form in the buffer, or a refused place and the buffer as it was. Parts are written to the scratch `out`, while they end
// within it, and each step is checked before it is run. The record is only handed on: a loop that reads a field of it would lay it down anew at
// every call.
fn stamp(
    stored: &[u8],
    counts: Counts,
    limit: usize,
    zone: &[u8],
    record: Record,
    out: &mut [u8],
    buffer: &mut [u8],
) -> usize
    requires { Room out.old (length buffer.old) × Sound stored.now counts.literals counts.directives }
    ensures { Stamped limit (all_events «record» zone.now stored.now) out.old buffer.old out.new buffer.new result }
{
    let room = buffer.len();
    let blocks = blocks_of(2 + counts.literals, stored.len(), out.len());
    let mut at = 0;
    let mut from = 2;
    let start = counts.steps_at();
    for step in 0..(stored.len() - start) / 3 {
        let i = start + step * 3;
        let n = two_at(stored, i + 1);
        if stored[i] == 0 {
            if 2 + counts.literals - from < n {
                return refused_at(0, Refusal::BadStored);
            }
            if !copy_text(out, at, stored, from, n, blocks) {
                return rest(
                    stored, counts, i, from, at, limit, zone, record, out, buffer,
                );
            }
            at += n;
            from += n;
        } else {
            if stored[i] != 1 || counts.directives <= n {
                return refused_at(0, Refusal::BadStored);
            }
            let entry = counts.entry_at(n);
            let place = entry_directive(stored, entry, zone, record, out, at, room, limit);
            if out.len() < place {
                return rest(
                    stored, counts, i, from, at, limit, zone, record, out, buffer,
                );
            }
            at = place;
        }
    }
    copy_front(buffer, out, at);
    at
}

// The text of a stored format in the caller's buffer, or a refusal that leaves the buffer as it was. A text of at most 192 bytes is written to a
// scratch and copied; of a longer one the rest is counted, and then written straight to the buffer.
pub fn format_stored(
    stored: &[u8],
    format_length: usize,
    zone: &[u8],
    record: Record,
    buffer: &mut [u8],
) -> Result<usize, Refusal>
    ensures answer { numbered result ≡ reported (formatted_stored stored.now format_length zone.now «record» (length buffer.old)) }
    ensures buffer { buffer.new ≡ buffer_after (formatted_stored stored.now format_length zone.now «record» (length buffer.old)) buffer.old }
{
    let room = buffer.len();
    if format_length > LONGEST_FORMAT {
        return Err(Refusal::InputTooLong);
    }
    if zone.len() > LONGEST_ZONE {
        return Err(Refusal::InputTooLong);
    }
    if room > LONGEST_BUFFER {
        return Err(Refusal::InputTooLong);
    }
    let Some(counts) = counts_of(stored) else {
        return Err(Refusal::BadStored);
    };
    if !entries_taken(stored, counts.entry_at(0), counts.directives) {
        return Err(Refusal::BadStored);
    }
    let limit = format_length * 524288;
    let mut small = [0u8; SCRATCH];
    let part = part_of(room);
    let end = stamp(
        stored,
        counts,
        limit,
        zone,
        record,
        &mut small[..part],
        buffer,
    );
    if is_refused(end) {
        // Not by `refusal_at`, which asks for a refusal that an event gives: 11 is none.
        return Err(rules::refusal_of(number_at(end)));
    }
    Ok(end)
}
