// A directive by its 8 bytes, written.
ghost use Rattle.std.specs.Prelude.{◌+◌, ◌≤◌, ◌<◌, length, drop};
ghost use Rattle.rules.specs.Writing.{events_of};
ghost use Rattle.rules.specs.Stored.{entry_of};
ghost use Rattle.text.specs.Ran.{Ran};
ghost use Rattle.text.specs.Room.{Room};
ghost use Rattle.codes.specs.Eight.{Eight};

use codes::entry::{eight_at, piece_at};
use directive::directive;
use letters::short::{put_short, short_of};
use letters::{NOT_A_LETTER, letter};
use offset_directive::plain_offset;
use rules::{Offset, Record};

// The code of a directive with no flag, no width and the default padding. For any other 0, which is no letter: an `Option` would be a second way to
// `marked_entry` at each call.
pub fn plain_code(stored: &[u8], entry: usize) -> u8
    requires { entry + 8 ≤ length stored.now }
    ensures { 0 < result → Eight (drop entry stored.now) result }
{
    let eight = eight_at(stored, entry);
    if eight < 256 { eight as u8 } else { 0 }
}

// Any directive: `%:z`, and `%-d` and its like, straight off.
pub fn marked_entry(
    stored: &[u8],
    entry: usize,
    zone: &[u8],
    record: Record,
    out: &mut [u8],
    at: usize,
    room: usize,
    limit: usize,
) -> usize
    requires { Room out.old room × (entry + 8 ≤ length stored.now) }
    ensures { Ran limit room (events_of «record» zone.now (entry_of (drop entry stored.now))) out.old at out.new result }
{
    let eight = eight_at(stored, entry);
    if eight == 1 {
        let form = Offset::TimeZoneOffsetHourMinuteColon;
        return plain_offset(out, at, room, limit, form, record);
    }
    if eight / 256 == 256 {
        if let Some(short) = short_of((eight % 256) as u8, record) {
            return put_short(out, at, room, short);
        }
    }
    directive(out, at, room, limit, piece_at(stored, entry), record, zone)
}

// The same, a plain one by its letter.
pub fn entry_directive(
    stored: &[u8],
    entry: usize,
    zone: &[u8],
    record: Record,
    out: &mut [u8],
    at: usize,
    room: usize,
    limit: usize,
) -> usize
    requires { Room out.old room × (entry + 8 ≤ length stored.now) }
    ensures { Ran limit room (events_of «record» zone.now (entry_of (drop entry stored.now))) out.old at out.new result }
{
    let code = plain_code(stored, entry);
    let place = letter(out, at, room, limit, code, record, zone);
    if place == NOT_A_LETTER {
        return marked_entry(stored, entry, zone, record, out, at, room, limit);
    }
    place
}
