// Prints paper 01's stamps at the edges, and what each should be where it is another.
#![tactic(auto)]

mod edge;
mod records;

ghost use Rattle.std.specs.Prelude.{◌≤◌, length};

use edge::{stamp, stamp_in};
use records::{
    at_second, end_of_2024, february, nine_hours, start_of_2021, universal, year_minus_one,
};
use rules::Refusal;

fn years() -> [bool; 3] {
    let record = year_minus_one();
    [
        stamp(b"P1, year -1", b"%Y", record, Ok(b"-0001")),
        stamp(b"P2, year -1", b"%_Y", record, Ok(b"   -1")),
        stamp(b"P3, year -1, January 5", b"%v", record, Ok(b" 5-JAN--001")),
    ]
}

fn offsets() -> [bool; 3] {
    [
        stamp(b"P4, offset 32400", b"%z", nine_hours(), Ok(b"+0900")),
        stamp(
            b"P5, offset 32400",
            b"%_10z",
            nine_hours(),
            Ok(b"      +900"),
        ),
        stamp(b"P6, UTC, offset 0", b"%-z", universal(), Ok(b"-0000")),
    ]
}

fn weeks() -> [bool; 2] {
    let format = b"%G %V %U %W";
    [
        stamp(
            b"P7, 2024, Monday, day 365",
            format,
            end_of_2024(),
            Ok(b"2025 01 52 53"),
        ),
        stamp(
            b"P8, 2021, Sunday, day 3",
            format,
            start_of_2021(),
            Ok(b"2020 53 01 00"),
        ),
    ]
}

fn formats() -> [bool; 4] {
    let record = universal();
    [
        stamp(b"P9", b"%5", record, Err(Refusal::InvalidFormatString)),
        stamp(b"P10", b"%:", record, Ok(b"%:")),
        stamp(b"P11", b"%2147483648Y", record, Ok(b"%2147483648Y")),
        stamp(b"P12, empty zone", b"%10Z", record, Ok(b"")),
    ]
}

fn full() -> bool {
    let mut due = [b'0'; 65536];
    due[1] = b'-';
    due[65535] = b'1';
    let mut buffer = [0u8; 65536];
    stamp_in(
        b"year -1, buffer 65536",
        b"%65536Y",
        year_minus_one(),
        &mut buffer,
        Ok(&due),
    )
}

fn one_short() -> bool {
    let mut buffer = [0u8; 65535];
    stamp_in(
        b"year -1, buffer 65535",
        b"%65536Y",
        year_minus_one(),
        &mut buffer,
        Err(Refusal::WriteZero),
    )
}

fn padded() -> [bool; 2] {
    let record = february();
    [
        stamp(b"February 29, 2024", b"%-12D", record, Ok(b"    02/29/24")),
        stamp(
            b"limit 4718592",
            b"%9999999A",
            record,
            Err(Refusal::FormattedStringTooLarge),
        ),
    ]
}

fn seconds() -> [bool; 2] {
    [
        stamp(b"second 60", b"%S", at_second(60), Ok(b"60")),
        stamp(
            b"second 61",
            b"%S",
            at_second(61),
            Err(Refusal::InvalidTime),
        ),
    ]
}

// How many stamps are as they should be.
fn count(stamps: &[bool]) -> usize
    ensures { result ≤ length stamps.now }
{
    stamps.iter().filter(|is_right| **is_right).count()
}

fn main() {
    let marked = count(&years()) + count(&offsets()) + count(&weeks()) + count(&formats());
    let large = count(&[full(), one_short()]);
    let right = marked + large + count(&padded()) + count(&seconds());
    say::shown(format_args!("{right} of 18 stamps are as they should be\n"));
}
