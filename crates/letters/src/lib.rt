// The plain directive of a letter: no flag, no width, the default padding. It needs no parser and no kind: one match on the letter.
#![tactic(auto)]

mod leaves;
pub mod short;

ghost use Rattle.text.specs.Room.{Room};
ghost use Rattle.letters.specs.Letter.{Lettered};

use leaves::{decimal, one_or, spaced_or, three_or, two_or, year_or};
use name_directive::{plain_fixed, plain_name, plain_zone_name};
use number_directive::fraction;
use numbers::{Year, div_euclid_100};
use offset_directive::plain_offset;
use rules::{Fixed, Name, Offset, Record};
use text::pad_none;
use values::{from_1, hour12, iso, week_of};
use week::WeekStart;

// The answer for a byte that is no letter: a place that no run comes to. As an Option the answer takes 1.04 of the instructions of a stamp: its tag
// needs a register of its own, and the combinations are no tail calls.
pub const NOT_A_LETTER: usize = 131071;

// The place after the directive, or that the byte is no letter. A combination's pad of no bytes stays: it refuses a place beyond the room
// before the fields are checked.
pub fn letter(
    out: &mut [u8],
    at: usize,
    room: usize,
    limit: usize,
    b: u8,
    record: Record,
    zone: &[u8],
) -> usize
    requires { Room out.old room }
    ensures { Lettered limit room b «record» zone.now out.old at out.new result }
{
    match b {
        b'%' => plain_fixed(out, at, room, Fixed::Percent),
        b'A' => plain_name(out, at, room, Name::WeekDayName, record),
        b'B' => plain_name(out, at, room, Name::MonthName, record),
        b'C' => decimal(out, at, room, div_euclid_100(record.year) as i64, 2),
        b'D' | b'x' => {
            let next = pad_none(out, at, room, limit);
            combination_directive::date(out, next, room, record)
        }
        b'F' => {
            let next = pad_none(out, at, room, limit);
            combination_directive::iso8601(out, next, room, record)
        }
        b'G' => year_or(out, at, room, fields::week(record), iso(record).year),
        b'H' => two_or(out, at, room, fields::hour(record), record.hour),
        b'I' => two_or(out, at, room, fields::hour(record), hour12(record.hour)),
        b'L' => fraction(out, at, room, limit, 3, record),
        b'M' => two_or(out, at, room, fields::minute(record), record.minute),
        b'N' => fraction(out, at, room, limit, 9, record),
        b'P' => plain_name(out, at, room, Name::MeridianLower, record),
        b'R' => {
            let next = pad_none(out, at, room, limit);
            combination_directive::hour_minute24h(out, next, room, record)
        }
        b'S' => two_or(out, at, room, fields::second(record), record.second),
        b'T' | b'X' => {
            let next = pad_none(out, at, room, limit);
            combination_directive::time24h(out, next, room, record)
        }
        b'U' => two_or(
            out,
            at,
            room,
            fields::week(record),
            week_of(record, WeekStart::Sunday),
        ),
        b'V' => two_or(out, at, room, fields::week(record), iso(record).week),
        b'W' => two_or(
            out,
            at,
            room,
            fields::week(record),
            week_of(record, WeekStart::Monday),
        ),
        b'Y' => year_or(out, at, room, true, record.year as i64),
        b'Z' => plain_zone_name(out, at, room, zone),
        b'a' => plain_name(out, at, room, Name::WeekDayNameAbbr, record),
        b'b' | b'h' => plain_name(out, at, room, Name::MonthNameAbbr, record),
        b'c' => {
            let next = pad_none(out, at, room, limit);
            combination_directive::date_time(out, next, room, record, false)
        }
        b'd' => two_or(out, at, room, fields::day(record), record.day),
        b'e' => spaced_or(out, at, room, fields::day(record), record.day),
        b'g' => two_or(
            out,
            at,
            room,
            fields::week(record),
            iso(record).year.rem_euclid_100(),
        ),
        b'j' => three_or(
            out,
            at,
            room,
            fields::day_of_year(record),
            record.day_of_year,
        ),
        b'k' => spaced_or(out, at, room, fields::hour(record), record.hour),
        b'l' => spaced_or(out, at, room, fields::hour(record), hour12(record.hour)),
        b'm' => two_or(out, at, room, fields::month(record), record.month),
        b'n' => plain_fixed(out, at, room, Fixed::Newline),
        b'p' => plain_name(out, at, room, Name::MeridianUpper, record),
        b'r' => {
            let next = pad_none(out, at, room, limit);
            combination_directive::time12h(out, next, room, record)
        }
        b's' => decimal(out, at, room, record.to_int, 1),
        b't' => plain_fixed(out, at, room, Fixed::Tabulation),
        b'u' => one_or(
            out,
            at,
            room,
            fields::day_of_week(record),
            from_1(record.day_of_week),
        ),
        b'v' => {
            let next = pad_none(out, at, room, limit);
            combination_directive::vms_date(out, next, room, record)
        }
        b'w' => one_or(
            out,
            at,
            room,
            fields::day_of_week(record),
            record.day_of_week,
        ),
        b'y' => two_or(out, at, room, true, record.year.rem_euclid_100()),
        b'z' => plain_offset(
            out,
            at,
            room,
            limit,
            Offset::TimeZoneOffsetHourMinute,
            record,
        ),
        _ => NOT_A_LETTER,
    }
}
