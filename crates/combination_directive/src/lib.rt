// Ports the arms of `Piece::fmt` of mod.rs that write combinations: padding first, then the check, then one text.
// Each has its check at its head: with the writer as a closure the proof can't cite what the closure wrote unless it states it, and that is longer.
#![tactic(auto)]

ghost use Rattle.std.specs.Prelude.{◌≡◌, Bool, List, [], ◌∷◌, ℕ, ◌<◌, length};
ghost use Rattle.rules.specs.declared.Combination.TheVariants as kind;
ghost use Rattle.rules.specs.declared.Spec.TheVariants as spec;
ghost use Rattle.rules.specs.Ascii.{byte, ascii};
ghost use Rattle.rules.specs.Name.{before12};
ghost use Rattle.rules.specs.Record.{all_ok, hour, minute};
ghost use Rattle.rules.specs.Writing.{year_text, combination_length, spec_events};
ghost use Rattle.text.specs.Ran.{Ran};
ghost use Rattle.text.specs.Room.{Room};
ghost use Rattle.combination_directive.specs.Combined.{Combined, clock_text};

use names::calendar::{Days, Months, Names};
use numbers::{Year, spaced_digits, two_digits};
use printing::{put_decimal, put_year, write_padding, year_length, year_width};
use rules::{Combination, Flag, Piece, Record};
use text::{put, refused_at};

// HH:MM:SS.
fn clock_text(hour: u8, minute: u8, second: u8) -> [u8; 8]
    requires { (hour < 100) × (minute < 100) × (second < 100) }
    ensures { result ≡ clock_text hour minute second }
{
    let h = two_digits(hour);
    let m = two_digits(minute);
    let s = two_digits(second);
    [h.0, h.1, b':', m.0, m.1, b':', s.0, s.1]
}

pub fn date_time(out: &mut [u8], at: usize, room: usize, record: Record, upper: bool) -> usize
    requires { Room out.old room }
    ensures { Combined room kind.CombinationDateTime upper «record» out.old at out.new result }
{
    if let Err(refusal) = fields::verdict(fields::date_time(record)) {
        return refused_at(at, refusal);
    }
    let week_day_name = Days::three(record.day_of_week, upper);
    let month_name = Months::three(record.month, upper);
    let day = spaced_digits(record.day);
    let clock = clock_text(record.hour, record.minute, record.second);
    // Byte by byte: with the parts copied into it as slices `%c` takes 1.09 of the instructions.
    let text = [
        week_day_name[0],
        week_day_name[1],
        week_day_name[2],
        b' ',
        month_name[0],
        month_name[1],
        month_name[2],
        b' ',
        day.0,
        day.1,
        b' ',
        clock[0],
        clock[1],
        clock[2],
        clock[3],
        clock[4],
        clock[5],
        clock[6],
        clock[7],
        b' ',
    ];
    let next = put(out, at, room, &text);
    put_year(out, next, room, record.year as i64)
}

pub fn date(out: &mut [u8], at: usize, room: usize, record: Record) -> usize
    requires { Room out.old room }
    ensures { (upper : Bool) → Combined room kind.CombinationDate upper «record» out.old at out.new result }
{
    if let Err(refusal) = fields::verdict(fields::date(record)) {
        return refused_at(at, refusal);
    }
    let month = two_digits(record.month);
    let day = two_digits(record.day);
    let year = two_digits(record.year.rem_euclid_100());
    let text = [month.0, month.1, b'/', day.0, day.1, b'/', year.0, year.1];
    put(out, at, room, &text)
}

pub fn iso8601(out: &mut [u8], at: usize, room: usize, record: Record) -> usize
    requires { Room out.old room }
    ensures { (upper : Bool) → Combined room kind.CombinationIso8601 upper «record» out.old at out.new result }
{
    if let Err(refusal) = fields::verdict(fields::date(record)) {
        return refused_at(at, refusal);
    }
    let month = two_digits(record.month);
    let day = two_digits(record.day);
    let text = [b'-', month.0, month.1, b'-', day.0, day.1];
    let next = put_year(out, at, room, record.year as i64);
    put(out, next, room, &text)
}

// Its year has width 4 for negatives too.
pub fn vms_date(out: &mut [u8], at: usize, room: usize, record: Record) -> usize
    requires { Room out.old room }
    ensures { (upper : Bool) → Combined room kind.CombinationVmsDate upper «record» out.old at out.new result }
{
    if let Err(refusal) = fields::verdict(fields::date(record)) {
        return refused_at(at, refusal);
    }
    let day = spaced_digits(record.day);
    let month_name = Months::three(record.month, true);
    let text = [
        day.0,
        day.1,
        b'-',
        month_name[0],
        month_name[1],
        month_name[2],
        b'-',
    ];
    let next = put(out, at, room, &text);
    put_decimal(out, next, room, record.year as i64, 4, true)
}

// The first letter of AM or PM.
fn half(hour: u8) -> u8
    ensures { result ∷ byte "M" ∷ [] ≡ before12 hour (ascii "AM") (ascii "PM") }
{
    if hour < 12 { b'A' } else { b'P' }
}

pub fn time12h(out: &mut [u8], at: usize, room: usize, record: Record) -> usize
    requires { Room out.old room }
    ensures { (upper : Bool) → Combined room kind.CombinationTime12h upper «record» out.old at out.new result }
{
    if let Err(refusal) = fields::verdict(fields::clock(record)) {
        return refused_at(at, refusal);
    }
    let hour = values::hour12(record.hour);
    let clock = clock_text(hour, record.minute, record.second);
    // Byte by byte: with the clock copied into it as a slice `%r` takes 1.13 of the instructions.
    let text = [
        clock[0],
        clock[1],
        clock[2],
        clock[3],
        clock[4],
        clock[5],
        clock[6],
        clock[7],
        b' ',
        half(record.hour),
        b'M',
    ];
    put(out, at, room, &text)
}

fn hour_and_minute(record: Record) -> bool
    ensures { (zone : List ℕ) → result ≡ all_ok (hour ∷ minute ∷ []) «record» zone }
{
    fields::hour(record) && fields::minute(record)
}

pub fn hour_minute24h(out: &mut [u8], at: usize, room: usize, record: Record) -> usize
    requires { Room out.old room }
    ensures { (upper : Bool) → Combined room kind.CombinationHourMinute24h upper «record» out.old at out.new result }
{
    if let Err(refusal) = fields::verdict(hour_and_minute(record)) {
        return refused_at(at, refusal);
    }
    let hour = two_digits(record.hour);
    let minute = two_digits(record.minute);
    let text = [hour.0, hour.1, b':', minute.0, minute.1];
    put(out, at, room, &text)
}

pub fn time24h(out: &mut [u8], at: usize, room: usize, record: Record) -> usize
    requires { Room out.old room }
    ensures { (upper : Bool) → Combined room kind.CombinationTime24h upper «record» out.old at out.new result }
{
    if let Err(refusal) = fields::verdict(fields::clock(record)) {
        return refused_at(at, refusal);
    }
    let text = clock_text(record.hour, record.minute, record.second);
    put(out, at, room, &text)
}

// What a combination checks and writes after its padding. Only `^` raises the names of `c`.
fn combined(
    out: &mut [u8],
    at: usize,
    room: usize,
    combination: Combination,
    record: Record,
    upper: bool,
) -> usize
    requires { Room out.old room }
    ensures { Combined room combination upper «record» out.old at out.new result }
{
    match combination {
        Combination::CombinationDateTime => date_time(out, at, room, record, upper),
        Combination::CombinationDate => date(out, at, room, record),
        Combination::CombinationIso8601 => iso8601(out, at, room, record),
        Combination::CombinationVmsDate => vms_date(out, at, room, record),
        Combination::CombinationTime12h => time12h(out, at, room, record),
        Combination::CombinationHourMinute24h => hour_minute24h(out, at, room, record),
        Combination::CombinationTime24h => time24h(out, at, room, record),
    }
}

// How many bytes the year of `c` and `F` takes.
fn year_text_length(year: i32) -> usize
    ensures { result ≡ length (year_text year) }
{
    year_length(year, year_width(year as i64))
}

#[tactic(auto, unfolding(rules::specs::Writing::combination_length))]
fn combination_length(combination: Combination, year: i32) -> usize
    ensures { result ≡ combination_length combination year }
{
    match combination {
        Combination::CombinationDateTime => 20 + year_text_length(year),
        Combination::CombinationDate => 8,
        Combination::CombinationIso8601 => year_text_length(year) + 6,
        Combination::CombinationVmsDate => 7 + year_length(year, 4),
        Combination::CombinationTime12h => 11,
        Combination::CombinationHourMinute24h => 5,
        Combination::CombinationTime24h => 8,
    }
}

pub fn combination(
    out: &mut [u8],
    at: usize,
    room: usize,
    limit: usize,
    piece: Piece,
    combination: Combination,
    record: Record,
) -> usize
    requires { Room out.old room }
    ensures { (zone : List ℕ) → Ran limit room (spec_events (spec.Combination combination) piece «record» zone) out.old at out.new result }
{
    let flags = piece.flags;
    let upper = flags.contains(Flag::UpperCase);
    let length = combination_length(combination, record.year);
    let next = write_padding(out, at, room, limit, piece, length);
    combined(out, next, room, combination, record, upper)
}
