// Ports what core::fmt writes for mod.rs (`{:0width$}` and `{: >width$}`), `write_padding` and `year_width` of mod.rs.
#![tactic(auto)]

ghost use Rattle.std.specs.Prelude.{◌≡◌, ℕ, ◌-◌, ◌<◌, [], ◌∷◌, length};
ghost use Rattle.rules.specs.Event as event;
ghost use Rattle.rules.specs.Decimal.{places, zeros, fill_byte, filled};
ghost use Rattle.rules.specs.Writing.{pad_byte, pad_to, year_width, year_text};
ghost use Rattle.text.specs.Ran.{Ran};
ghost use Rattle.text.specs.Room.{Room};
ghost use Rattle.printing.specs.FillWith.{fill_with};

use rules::{Padding, Piece};
use text::{Places, Run};

fn pad_byte(padding: Padding) -> u8
    ensures { result ≡ pad_byte padding }
{
    match padding {
        Padding::Left | Padding::Spaces => b' ',
        Padding::Zeros => b'0',
    }
}

pub fn fill_byte(zeros: bool) -> u8
    ensures { result ≡ fill_byte (fill_with zeros) }
{
    if zeros { b'0' } else { b' ' }
}

// The decimal text of v behind spaces, or with zeros after its sign. The printer is called here alone: a compiler then takes it in, and its
// bytes are copied nowhere on the way.
pub fn put_decimal(
    out: &mut [u8],
    at: usize,
    room: usize,
    v: i64,
    width: usize,
    zeros: bool,
) -> usize
    requires { Room out.old room }
    ensures { (limit : ℕ) → Ran limit room (event.write (event.put (filled (fill_with zeros) width v)) ∷ []) out.old at out.new result }
{
    let decimal = numbers::decimal_text(v);
    let count = decimal.count;
    let bytes = decimal.bytes;
    if width <= count {
        return text::put(out, at, room, &bytes[..count]);
    }
    let fill = width - count;
    if zeros && v < 0 {
        let next = text::put(out, at, room, b"-");
        let zeros = Run {
            byte: b'0',
            count: fill,
        };
        let first = text::put_short(out, next, room, zeros);
        return text::put(out, first, room, &bytes[1..count]);
    }
    let byte = fill_byte(zeros);
    let first = text::put_short(out, at, room, Run { byte, count: fill });
    text::put(out, first, room, &bytes[..count])
}

// Four digits, with one test of the room, stored by hand as in `text::put_two`.
pub fn put_four(out: &mut [u8], at: usize, room: usize, v: u32) -> usize
    requires { Room out.old room × (v < 10000) }
    ensures { (limit : ℕ) → Ran limit room (event.write (event.put (places 4 v)) ∷ []) out.old at out.new result }
{
    if text::fits(at, 4, out.len()) {
        let front = (v / 100) as u8;
        let back = (v % 100) as u8;
        out[at] = numbers::tens(front);
        out[at + 1] = numbers::ones(front);
        out[at + 2] = numbers::tens(back);
        out[at + 3] = numbers::ones(back);
        return at + 4;
    }
    let v = v as u64;
    text::put_short(out, at, room, Places { count: 4, v })
}

pub fn year_width(year: i64) -> usize
    ensures { result ≡ year_width year }
{
    if year < 0 { 5 } else { 4 }
}

pub fn put_year(out: &mut [u8], at: usize, room: usize, year: i64) -> usize
    requires { Room out.old room }
    ensures { (limit : ℕ) → Ran limit room (event.write (event.put (year_text year)) ∷ []) out.old at out.new result }
{
    if 0 <= year && year < 10000 {
        return put_four(out, at, room, year as u32);
    }
    put_decimal(out, at, room, year, year_width(year), true)
}

// How many bytes a year takes that is written with zeros to at least so many. The printer counts, and writes nowhere: a count by comparisons
// would be computed ahead of every format's loop, whether or not a combination is padded.
pub fn year_length(year: i32, least: usize) -> usize
    ensures { result ≡ length (filled zeros least year) }
{
    let mut none = [0u8; 0];
    let length = put_decimal(&mut none, 0, rules::LONGEST_BUFFER, year as i64, 0, true);
    length.max(least)
}

// A pad from a text of `length` bytes to the width.
pub fn put_padding(
    out: &mut [u8],
    at: usize,
    room: usize,
    limit: usize,
    byte: u8,
    width: usize,
    length: usize,
) -> usize
    requires { Room out.old room }
    ensures { Ran limit room (event.write (event.pad byte (width - length)) ∷ []) out.old at out.new result }
{
    text::pad(out, at, room, limit, byte, width.saturating_sub(length))
}

pub fn write_padding(
    out: &mut [u8],
    at: usize,
    room: usize,
    limit: usize,
    piece: Piece,
    length: usize,
) -> usize
    requires { Room out.old room }
    ensures { Ran limit room (event.write (pad_to piece length) ∷ []) out.old at out.new result }
{
    let width = piece.width;
    let padding = piece.padding;
    put_padding(
        out,
        at,
        room,
        limit,
        pad_byte(padding),
        width.unwrap_or(0),
        length,
    )
}
