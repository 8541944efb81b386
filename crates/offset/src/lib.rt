// Ports `UtcOffset` and `compute_offset_parts` of mod.rs: an offset from UTC in parts. Its hour is an f64, so that zero has a sign; `offset_parts` gives it in plain numbers.
#![tactic(auto)]

ghost use Rattle.std.specs.Prelude.{◌≡◌, not, cond, T};
ghost use Rattle.std.specs.Float.Ieee.{is_nan};
ghost use Rattle.rules.specs.Offset.{hours_of, minutes_of, seconds_of, minus};
ghost use Rattle.offset.specs.Hour.{hour_of, is_sign_negative, below_ten, whole_hours, is_hour};
ghost use Rattle.offset.specs.Parts.{parts_for};

use numbers::unsigned_abs;

#[derive(Clone, Copy)]
struct UtcOffset {
    pub hour: f64,
    pub minute: u32,
    pub second: u32,
}

// `extra` is 1 where the signed hour is below 10: the text then has one place more.
#[derive(Clone, Copy)]
pub struct OffsetParts {
    pub minus: bool,
    pub extra: usize,
    pub hours: u32,
    pub minute: u8,
    pub second: u8,
}

// UTC is written "-00:00" under the left flag.
fn is_minus(utc_offset: i32, is_utc: bool, left: bool) -> bool
    ensures { result ≡ minus left is_utc utc_offset }
{
    utc_offset < 0 || is_utc && left
}

fn signed_hour(negative: bool, hours: u32) -> f64
    ensures { result ≡ hour_of negative hours }
{
    let sign = if negative { -1.0 } else { 1.0 };
    sign * (hours as f64)
}

fn compute_offset_parts(utc_offset: i32, is_utc: bool, left: bool) -> UtcOffset
    ensures hour_value { result.hour ≡ hour_of (minus left is_utc utc_offset) (hours_of utc_offset) }
    ensures minute_value { result.minute ≡ minutes_of utc_offset }
    ensures second_value { result.second ≡ seconds_of utc_offset }
{
    let utc_offset_abs = unsigned_abs(utc_offset);
    let negative = is_minus(utc_offset, is_utc, left);
    UtcOffset {
        hour: signed_hour(negative, utc_offset_abs / 3600),
        minute: utc_offset_abs / 60 % 60,
        second: utc_offset_abs % 60,
    }
}

// The sign is the highest bit: 01 asks that it is read from the bits.
fn is_sign_negative(hour: f64) -> bool
    requires { T (not (is_nan hour)) }
    ensures { result ≡ is_sign_negative hour }
{
    f64::to_bits(hour) >= 0x8000_0000_0000_0000
}

#[tactic(auto, unfolding(crate::specs::Hour::below_ten, crate::specs::Hour::ten))]
fn extra_place(hour: f64) -> usize
    ensures { result ≡ cond (below_ten hour) 1 0 }
{
    if hour < 10.0 { 1 } else { 0 }
}

fn whole_hours(hour: f64) -> u32
    requires { T (is_hour hour) }
    ensures { result ≡ whole_hours hour }
{
    if is_sign_negative(hour) {
        (-hour) as u32
    } else {
        hour as u32
    }
}

pub fn offset_parts(utc_offset: i32, is_utc: bool, left: bool) -> OffsetParts
    ensures { result ≡ parts_for utc_offset is_utc left }
{
    let parts = compute_offset_parts(utc_offset, is_utc, left);
    let hour = parts.hour;
    OffsetParts {
        minus: is_sign_negative(hour),
        extra: extra_place(hour),
        hours: whole_hours(hour),
        minute: parts.minute as u8,
        second: parts.second as u8,
    }
}
