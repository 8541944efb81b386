// Ports `TimeFormatter::fmt` of mod.rs: all of a format, item by item.
#![tactic(auto)]

ghost use Rattle.std.specs.Prelude.{◌≡◌, ◌≤◌, ◌<◌, length, get_or, drop};
ghost use Rattle.rules.specs.Record.{longest_format};
ghost use Rattle.rules.specs.Writing.{events_of};
ghost use Rattle.rules.specs.Format.{between, read, items, events, limit_of};
ghost use Rattle.text.specs.Ran.{Ran};
ghost use Rattle.text.specs.Room.{Room};
ghost use Rattle.walk.specs.Stamp.{Copied, Begun, Lengths, StampedBy};
ghost use Rattle.walk.specs.Steps.{Stepped};

use cursor::parsed_at;
use directive::directive;
use letters::short::{put_short, short_of};
use letters::{NOT_A_LETTER, letter};
use offset_directive::plain_offset;
use reading::literal_end;
use rules::{Offset, Parsed, Record, Refusal};
use text::{copy_front, is_refused, put_part, refused_at};

// Where an item ends: the place in the text, and the position in the format.
#[derive(Clone, Copy)]
struct Step {
    at: usize,
    next: usize,
}

// What starts at the percent sign at `i`: a directive, an echo, or the format's end inside a directive. Taken apart by `let .. else`, a form that 01
// names (docs/DECISIONS.md).
fn parsed_item(
    format: &[u8],
    i: usize,
    zone: &[u8],
    record: Record,
    out: &mut [u8],
    at: usize,
    room: usize,
    limit: usize,
) -> Step
    requires { Room out.old room × (i < length format.now) × (get_or format.now i 0 ≡ 37) }
    ensures { Stepped limit room «record» zone.now format.now i out.old at out.new result }
{
    let parsed = parsed_at(format, i + 1);
    let Parsed::Directive(piece, next) = parsed else {
        let Parsed::Echo(end) = parsed else {
            return Step {
                at: refused_at(at, Refusal::InvalidFormatString),
                next: format.len(),
            };
        };
        return Step {
            at: put_part(out, at, room, format, i, end),
            next: end,
        };
    };
    Step {
        at: directive(out, at, room, limit, piece, record, zone),
        next,
    }
}

// The byte at `i`, or 0 past the end, which is no letter.
fn byte_at(format: &[u8], i: usize) -> u8
    ensures { result ≡ get_or format.now i 0 }
{
    format.get(i).copied().unwrap_or(0)
}

// The same, with `%-d` and its like and `%:z` read straight off.
fn marked_item(
    format: &[u8],
    i: usize,
    zone: &[u8],
    record: Record,
    out: &mut [u8],
    at: usize,
    room: usize,
    limit: usize,
) -> Step
    requires { Room out.old room × (i < length format.now) × (get_or format.now i 0 ≡ 37) }
    ensures { Stepped limit room «record» zone.now format.now i out.old at out.new result }
{
    let mark = byte_at(format, i + 1);
    let b = byte_at(format, i + 2);
    if mark == b'-' {
        if let Some(short) = short_of(b, record) {
            return Step {
                at: put_short(out, at, room, short),
                next: i + 3,
            };
        }
    }
    if mark == b':' && b == b'z' {
        let form = Offset::TimeZoneOffsetHourMinuteColon;
        return Step {
            at: plain_offset(out, at, room, limit, form, record),
            next: i + 3,
        };
    }
    parsed_item(format, i, zone, record, out, at, room, limit)
}

// All of a format from position `from` and place `start` on: literal bytes and items, to its end. A letter right after the percent sign is a
// directive with no flag and no width: it needs no parser. The position goes on by what was read, so no iterator counts it; so in `stamp`.
pub fn run_from(
    format: &[u8],
    from: usize,
    start: usize,
    zone: &[u8],
    record: Record,
    out: &mut [u8],
    room: usize,
    limit: usize,
) -> usize
    requires { Room out.old room × (from ≤ length format.now) }
    ensures { Ran limit room (events (events_of «record» zone.now) (read between (drop from format.now))) out.old start out.new result }
{
    let mut at = start;
    let mut i = from;
    while i < format.len() {
        if format[i] == b'%' {
            let b = byte_at(format, i + 1);
            let place = letter(out, at, room, limit, b, record, zone);
            if place != NOT_A_LETTER {
                at = place;
                i += 2;
            } else {
                let step = marked_item(format, i, zone, record, out, at, room, limit);
                at = step.at;
                i = step.next;
            }
        } else {
            let end = literal_end(format, i);
            at = put_part(out, at, room, format, i, end);
            i = end;
        }
    }
    at
}

// The size limit of a format.
fn limit_of(format: &[u8]) -> usize
    requires { length format.now ≤ longest_format }
    ensures { result ≡ limit_of (length format.now) }
{
    format.len() * 524288
}

// All of a format, from its start to its end.
pub fn run(format: &[u8], zone: &[u8], record: Record, out: &mut [u8], room: usize) -> usize
    requires { Room out.old room × (length format.now ≤ longest_format) }
    ensures { Ran (limit_of (length format.now)) room (events (events_of «record» zone.now) (items format.now)) out.old 0 out.new result }
{
    run_from(format, 0, 0, zone, record, out, room, limit_of(format))
}

// ## A stamp by way of a scratch

// Literal bytes one by one, as far as the slice goes: the position behind the last that was copied. Counted by hand: by an iterator over the
// format's bytes 64 of them take 1.26 of the time.
fn copy_literal(out: &mut [u8], place: usize, format: &[u8], from: usize) -> usize
    requires { (place ≤ length out.old) × (from ≤ length format.now) }
    ensures { Copied format.now from out.old place out.new result }
{
    let mut at = place;
    let mut i = from;
    while i < format.len() && at < out.len() {
        if format[i] == b'%' {
            return i;
        }
        out[at] = format[i];
        at += 1;
        i += 1;
    }
    i
}

// The text outgrows the scratch, or is refused: the rest from position `i` and from `place` on is counted, with no slice to write to. If it
// isn't refused, the scratch's front is copied to the buffer, and the rest is written behind it.
fn rest(
    format: &[u8],
    i: usize,
    place: usize,
    zone: &[u8],
    record: Record,
    out: &mut [u8],
    buffer: &mut [u8],
) -> usize
    requires { Lengths format.now out.old buffer.old × Begun (limit_of (length format.now)) (length buffer.old) «record» zone.now format.now i out.old place }
    ensures { StampedBy «record» zone.now format.now out.old buffer.old out.new buffer.new result }
{
    let room = buffer.len();
    let limit = limit_of(format);
    let end = run_from(format, i, place, zone, record, &mut out[..0], room, limit);
    if is_refused(end) {
        return end;
    }
    copy_front(buffer, out, place);
    run_from(format, i, place, zone, record, buffer, room, limit)
}

// The text of a format in the buffer, or a refused place and the buffer as it was. Items are written to the scratch `out`, while they end
// within it. The record is only handed on: a loop that reads a field of it would lay it down anew at every call.
pub fn stamp(format: &[u8], zone: &[u8], record: Record, out: &mut [u8], buffer: &mut [u8]) -> usize
    requires { Lengths format.now out.old buffer.old }
    ensures { StampedBy «record» zone.now format.now out.old buffer.old out.new buffer.new result }
{
    let room = buffer.len();
    let limit = limit_of(format);
    let mut at = 0;
    let mut i = 0;
    while i < format.len() {
        if format[i] == b'%' {
            let b = byte_at(format, i + 1);
            let place = letter(out, at, room, limit, b, record, zone);
            if place <= out.len() {
                at = place;
                i += 2;
            } else if place == NOT_A_LETTER {
                let step = marked_item(format, i, zone, record, out, at, room, limit);
                if out.len() < step.at {
                    return rest(format, i, at, zone, record, out, buffer);
                }
                at = step.at;
                i = step.next;
            } else {
                return rest(format, i, at, zone, record, out, buffer);
            }
        } else {
            let end = copy_literal(out, at, format, i);
            if end == i {
                return rest(format, i, at, zone, record, out, buffer);
            }
            at += end - i;
            i = end;
        }
    }
    copy_front(buffer, out, at);
    at
}
