// Ports the offsets of mod.rs: `write_hour_sign`, `write_offset_hour`, the four `write_offset_hh..`, and the `TimeZoneOffset..` arms of `Piece::fmt`.
#![tactic(auto)]

ghost use Rattle.std.specs.Prelude.{◌≡◌, not, List, [], ◌∷◌, ◌++◌, map, ℕ, ◌+◌, ◌-◌, ◌≤◌, ◌<◌, ℤ};
ghost use Rattle.rules.specs.declared.Spec.TheVariants as spec;
ghost use Rattle.rules.specs.Event as event;
ghost use Rattle.rules.specs.Decimal.{digits, two};
ghost use Rattle.rules.specs.Offset.{hh, hhmm, hh:mm, hh:mm:ss, minutes_of, seconds_of, minus, sign_of, sign_and_pad, form_of, length_of_form, offset_writes};
ghost use Rattle.rules.specs.Writing.{spec_events};
ghost use Rattle.text.specs.Ran.{Ran};
ghost use Rattle.text.specs.Room.{Room};
ghost use Rattle.printing.specs.FillWith.{fill_with};
ghost use Rattle.printing.specs.Plain.{plain_piece};
ghost use Rattle.offset_directive.specs.Form.{as_form};
ghost use Rattle.offset_directive.specs.Parts.{parts_text, parts_writes, Small};
ghost use Rattle.offset_directive.specs.Short.{is_short};

use numbers::{ones, tens};
use offset::OffsetParts;
use rules::{Flag, Offset, Padding, Piece, Record};

// How much of an offset is written: +hh, +hhmm, +hh:mm, +hh:mm:ss.
#[derive(Clone, Copy)]
enum Form {
    Hour,
    HourMinute,
    HourMinuteColon,
    HourMinuteSecond,
}

impl Form {
    #[tactic(auto, unfolding(rules::specs::Offset::length_of_form, crate::specs::Form::as_form))]
    fn length(self) -> usize
        ensures places { result ≡ length_of_form (as_form self) }
        ensures least { 1 ≤ result }
    {
        match self {
            Form::Hour => 3,
            Form::HourMinute => 5,
            Form::HourMinuteColon => 6,
            Form::HourMinuteSecond => 9,
        }
    }
}

// The width that an offset is padded to, and whether by spaces or by zeros.
// That minute and second are small stands in contracts and not in `OffsetParts`: `offset_parts` promises that struct by an equation.
#[derive(Clone, Copy)]
struct Pad {
    width: usize,
    spaces: bool,
}

fn hour_sign(negative: bool) -> u8
    ensures { result ∷ [] ≡ sign_of negative }
{
    if negative { b'-' } else { b'+' }
}

fn write_hour_sign(out: &mut [u8], at: usize, room: usize, negative: bool) -> usize
    requires { Room out.old room }
    ensures { (limit : ℕ) → Ran limit room (event.write (event.put (sign_of negative)) ∷ []) out.old at out.new result }
{
    text::put(out, at, room, &[hour_sign(negative)])
}

// Spaces come before the sign, zeros after it.
fn write_sign_and_pad(
    out: &mut [u8],
    at: usize,
    room: usize,
    limit: usize,
    spaces: bool,
    negative: bool,
    count: usize,
) -> usize
    requires { Room out.old room }
    ensures { Ran limit room (map event.write (sign_and_pad (fill_with (not spaces)) negative count)) out.old at out.new result }
{
    if spaces {
        let sign = text::pad(out, at, room, limit, b' ', count);
        return write_hour_sign(out, sign, room, negative);
    }
    let zeros = write_hour_sign(out, at, room, negative);
    text::pad(out, zeros, room, limit, b'0', count)
}

fn write_offset_hour(
    out: &mut [u8],
    at: usize,
    room: usize,
    limit: usize,
    pad: Pad,
    parts: OffsetParts,
    form: Form,
) -> usize
    requires { Room out.old room × Small parts }
    ensures { Ran limit room (map event.write (sign_and_pad (fill_with (not pad.spaces)) parts.minus (pad.width - length_of_form (as_form form) + parts.extra)) ++ (event.write (event.put (digits parts.hours)) ∷ [])) out.old at out.new result }
{
    let count = pad.width.saturating_sub(form.length()) + parts.extra;
    let first = write_sign_and_pad(out, at, room, limit, pad.spaces, parts.minus, count);
    let hours = parts.hours as u64;
    text::put_places(out, first, room, numbers::digit_count(hours), hours)
}

// The original's four, by its names.
fn write_offset_hh(
    out: &mut [u8],
    at: usize,
    room: usize,
    limit: usize,
    pad: Pad,
    parts: OffsetParts,
) -> usize
    requires { Room out.old room × Small parts }
    ensures { Ran limit room (map event.write (parts_writes hh (fill_with (not pad.spaces)) pad.width parts)) out.old at out.new result }
{
    write_offset_hour(out, at, room, limit, pad, parts, Form::Hour)
}

fn write_offset_hhmm(
    out: &mut [u8],
    at: usize,
    room: usize,
    limit: usize,
    pad: Pad,
    parts: OffsetParts,
) -> usize
    requires { Room out.old room × Small parts }
    ensures { Ran limit room (map event.write (parts_writes hhmm (fill_with (not pad.spaces)) pad.width parts)) out.old at out.new result }
{
    let next = write_offset_hour(out, at, room, limit, pad, parts, Form::HourMinute);
    text::put_two(out, next, room, parts.minute)
}

fn write_offset_hh_mm(
    out: &mut [u8],
    at: usize,
    room: usize,
    limit: usize,
    pad: Pad,
    parts: OffsetParts,
) -> usize
    requires { Room out.old room × Small parts }
    ensures { Ran limit room (map event.write (parts_writes hh:mm (fill_with (not pad.spaces)) pad.width parts)) out.old at out.new result }
{
    let next = write_offset_hour(out, at, room, limit, pad, parts, Form::HourMinuteColon);
    let m = parts.minute;
    text::put(out, next, room, &[b':', tens(m), ones(m)])
}

fn write_offset_hh_mm_ss(
    out: &mut [u8],
    at: usize,
    room: usize,
    limit: usize,
    pad: Pad,
    parts: OffsetParts,
) -> usize
    requires { Room out.old room × Small parts }
    ensures { Ran limit room (map event.write (parts_writes hh:mm:ss (fill_with (not pad.spaces)) pad.width parts)) out.old at out.new result }
{
    let next = write_offset_hour(out, at, room, limit, pad, parts, Form::HourMinuteSecond);
    let m = parts.minute;
    let s = parts.second;
    text::put(
        out,
        next,
        room,
        &[b':', tens(m), ones(m), b':', tens(s), ones(s)],
    )
}

// The general way: a pad of any length.
fn write_long(
    out: &mut [u8],
    at: usize,
    room: usize,
    limit: usize,
    pad: Pad,
    parts: OffsetParts,
    form: Form,
) -> usize
    requires { Room out.old room × Small parts }
    ensures { Ran limit room (map event.write (parts_writes (as_form form) (fill_with (not pad.spaces)) pad.width parts)) out.old at out.new result }
{
    match form {
        Form::Hour => write_offset_hh(out, at, room, limit, pad, parts),
        Form::HourMinute => write_offset_hhmm(out, at, room, limit, pad, parts),
        Form::HourMinuteColon => write_offset_hh_mm(out, at, room, limit, pad, parts),
        Form::HourMinuteSecond => write_offset_hh_mm_ss(out, at, room, limit, pad, parts),
    }
}

// The quick way: a sign, two digits of hours and the rest in one write.
fn write_short(
    out: &mut [u8],
    at: usize,
    room: usize,
    negative: bool,
    hours: u8,
    minute: u8,
    second: u8,
    form: Form,
) -> usize
    requires { Room out.old room × (hours < 100) × (minute < 60) × (second < 60) }
    ensures { (limit : ℕ) → Ran limit room (event.write (event.put (sign_of negative ++ (two hours ++ parts_text (as_form form) minute second))) ∷ []) out.old at out.new result }
{
    let sign = hour_sign(negative);
    let h = tens(hours);
    let k = ones(hours);
    let m = tens(minute);
    let n = ones(minute);
    match form {
        Form::Hour => text::put(out, at, room, &[sign, h, k]),
        Form::HourMinute => text::put(out, at, room, &[sign, h, k, m, n]),
        Form::HourMinuteColon => text::put(out, at, room, &[sign, h, k, b':', m, n]),
        Form::HourMinuteSecond => {
            let s = tens(second);
            let t = ones(second);
            text::put(out, at, room, &[sign, h, k, b':', m, n, b':', s, t])
        }
    }
}

fn is_short(pad: Pad, length: usize, negative: bool, hours: u32) -> bool
    ensures { result ≡ is_short pad.width length pad.spaces negative hours }
{
    if pad.spaces || length < pad.width {
        return false;
    }
    if negative { hours < 10 } else { hours < 100 }
}

// `:::z` writes no more than the offset has.
fn minimal_form(minute: u8, second: u8) -> Form
    ensures { (offset : ℤ) → minute ≡ minutes_of offset → second ≡ seconds_of offset → as_form result ≡ form_of Offset.TimeZoneOffsetColonMinimal offset }
{
    if second != 0 {
        Form::HourMinuteSecond
    } else if minute != 0 {
        Form::HourMinuteColon
    } else {
        Form::Hour
    }
}

fn form_of(offset: Offset, minute: u8, second: u8) -> Form
    ensures { (z : ℤ) → minute ≡ minutes_of z → second ≡ seconds_of z → as_form result ≡ form_of offset z }
{
    match offset {
        Offset::TimeZoneOffsetHourMinute => Form::HourMinute,
        Offset::TimeZoneOffsetHourMinuteColon => Form::HourMinuteColon,
        Offset::TimeZoneOffsetHourMinuteSecondColon => Form::HourMinuteSecond,
        Offset::TimeZoneOffsetColonMinimal => minimal_form(minute, second),
    }
}

fn zone_offset(
    out: &mut [u8],
    at: usize,
    room: usize,
    limit: usize,
    offset: Offset,
    pad: Pad,
    left: bool,
    is_utc: bool,
    utc_offset: i32,
) -> usize
    requires { Room out.old room }
    ensures { Ran limit room (map event.write (offset_writes (form_of offset utc_offset) (fill_with (not pad.spaces)) pad.width (minus left is_utc utc_offset) utc_offset)) out.old at out.new result }
{
    let parts = offset::offset_parts(utc_offset, is_utc, left);
    let minute = parts.minute;
    let second = parts.second;
    let form = form_of(offset, minute, second);
    // Behind a sign that ends at the room, a zero is refused by the room (4) only if the limit lies beyond it.
    if room < limit && is_short(pad, form.length(), parts.minus, parts.hours) {
        let hours = parts.hours as u8;
        return write_short(out, at, room, parts.minus, hours, minute, second, form);
    }
    write_long(out, at, room, limit, pad, parts, form)
}

pub fn offset(
    out: &mut [u8],
    at: usize,
    room: usize,
    limit: usize,
    piece: Piece,
    offset: Offset,
    record: Record,
) -> usize
    requires { Room out.old room }
    ensures { (zone : List ℕ) → Ran limit room (spec_events (spec.Offset offset) piece «record» zone) out.old at out.new result }
{
    let pad = Pad {
        width: piece.width.unwrap_or(0),
        spaces: matches!(piece.padding, Padding::Spaces),
    };
    let left = piece.flags.contains(Flag::LeftPadding);
    let is_utc = record.is_utc;
    let seconds = record.utc_offset;
    zone_offset(out, at, room, limit, offset, pad, left, is_utc, seconds)
}

// The same with no flag, no width and the default padding.
pub fn plain_offset(
    out: &mut [u8],
    at: usize,
    room: usize,
    limit: usize,
    offset: Offset,
    record: Record,
) -> usize
    requires { Room out.old room }
    ensures { (zone : List ℕ) → Ran limit room (spec_events (spec.Offset offset) (plain_piece (spec.Offset offset)) «record» zone) out.old at out.new result }
{
    let pad = Pad {
        width: 0,
        spaces: false,
    };
    let is_utc = record.is_utc;
    let seconds = record.utc_offset;
    zone_offset(out, at, room, limit, offset, pad, false, is_utc, seconds)
}
