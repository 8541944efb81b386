// Ports `format_string` of mod.rs, and the arms of its `Piece::fmt` that write names, the zone name and single bytes.
#![tactic(auto)]

ghost use Rattle.std.specs.Prelude.{◌≡◌, Bool, List, [], ◌∷◌, map, ℕ, ◌+◌, ◌≤◌, length};
ghost use Rattle.rules.specs.declared.Record as declared;
ghost use Rattle.rules.specs.declared.Spec.TheVariants as spec;
ghost use Rattle.rules.specs.Event as event;
ghost use Rattle.rules.specs.Name as letter;
ghost use Rattle.rules.specs.Name.{in_case, zone_case};
ghost use Rattle.rules.specs.Record.{all_ok};
ghost use Rattle.rules.specs.Writing.{name_fields, fixed_byte, spec_events};
ghost use Rattle.text.specs.Overlay.{overlay};
ghost use Rattle.text.specs.Ran.{Ran};
ghost use Rattle.text.specs.Room.{Room};
ghost use Rattle.printing.specs.Plain.{plain_piece};
ghost use Rattle.name_directive.specs.Named.{padding, capitals, name_number, Named, letters_of, byte_in};

use names::calendar::{self, Days, Months, Names};
use rules::{Fixed, Flag, Flags, Name, Piece, Record};
use text::Source;

// The pad of `format_string`: none with the left flag.
fn string_padding(
    out: &mut [u8],
    at: usize,
    room: usize,
    limit: usize,
    piece: Piece,
    length: usize,
) -> usize
    requires { Room out.old room }
    ensures { Ran limit room (map event.write (padding piece length)) out.old at out.new result }
{
    let flags = piece.flags;
    if flags.contains(Flag::LeftPadding) {
        return at;
    }
    printing::write_padding(out, at, room, limit, piece, length)
}

// Whether the field that a name reads is in its range.
#[tactic(auto, using(fields::proofs::Laws::alone), unfolding(rules::specs::Writing::name_fields))]
fn in_range(name: Name, record: Record) -> bool
    ensures { (zone : List ℕ) → result ≡ all_ok (name_fields name) «record» zone }
{
    match name {
        Name::MonthName | Name::MonthNameAbbr => fields::month(record),
        Name::MeridianLower | Name::MeridianUpper => fields::hour(record),
        Name::WeekDayName | Name::WeekDayNameAbbr => fields::day_of_week(record),
    }
}

#[tactic(auto, unfolding(crate::specs::Named::capitals))]
fn in_capitals(name: Name, flags: Flags) -> bool
    ensures { result ≡ capitals name flags }
{
    match name {
        Name::MeridianUpper => !flags.contains(Flag::ChangeCase),
        _ => flags.has_change_or_upper_case(),
    }
}

// The number of the record that a name goes by.
#[tactic(auto, unfolding(crate::specs::Named::name_number))]
fn name_number(name: Name, record: Record) -> u8
    ensures { result ≡ name_number name «record» }
{
    match name {
        Name::MonthName | Name::MonthNameAbbr => record.month,
        Name::MeridianLower | Name::MeridianUpper => record.hour,
        Name::WeekDayName | Name::WeekDayNameAbbr => record.day_of_week,
    }
}

#[tactic(auto, using(crate::proofs::LetterLaws::month_letters, crate::proofs::LetterLaws::day_letters, crate::proofs::LetterLaws::meridian_letters, rules::proofs::WidthLaws::length_cased), unfolding(crate::specs::Named::letters_of, crate::specs::Named::Named))]
fn name_length(name: Name, number: u8) -> usize
    requires { Named name number }
    ensures { (capital : Bool) → result ≡ length (letters_of name capital number) }
{
    match name {
        Name::MonthName => Months::length(number),
        Name::MonthNameAbbr => 3,
        Name::MeridianLower | Name::MeridianUpper => 2,
        Name::WeekDayName => Days::length(number),
        Name::WeekDayNameAbbr => 3,
    }
}

#[tactic(auto, unfolding(crate::specs::Named::Named))]
fn put_name(out: &mut [u8], at: usize, room: usize, name: Name, number: u8, capital: bool) -> usize
    requires { Room out.old room × Named name number }
    ensures { (limit : ℕ) → Ran limit room (event.write (event.put (letters_of name capital number)) ∷ []) out.old at out.new result }
{
    match name {
        Name::MonthName => Months::put(out, at, room, number, capital),
        Name::MonthNameAbbr => {
            let three = Months::three(number, capital);
            text::put(out, at, room, &three)
        }
        Name::MeridianLower | Name::MeridianUpper => {
            calendar::put_meridian(out, at, room, number, capital)
        }
        Name::WeekDayName => Days::put(out, at, room, number, capital),
        Name::WeekDayNameAbbr => {
            let three = Days::three(number, capital);
            text::put(out, at, room, &three)
        }
    }
}

pub fn name(
    out: &mut [u8],
    at: usize,
    room: usize,
    limit: usize,
    piece: Piece,
    name: Name,
    record: Record,
) -> usize
    requires { Room out.old room }
    ensures { (zone : List ℕ) → Ran limit room (spec_events (spec.Name name) piece «record» zone) out.old at out.new result }
{
    if let Err(refusal) = fields::verdict(in_range(name, record)) {
        return text::refused_at(at, refusal);
    }
    let flags = piece.flags;
    let number = name_number(name, record);
    let next = string_padding(out, at, room, limit, piece, name_length(name, number));
    put_name(out, next, room, name, number, in_capitals(name, flags))
}

// The plain ones have no pad that a limit could refuse: they promise for every limit what the others promise for one.
pub fn plain_name(out: &mut [u8], at: usize, room: usize, name: Name, record: Record) -> usize
    requires { Room out.old room }
    ensures { (limit : ℕ) (zone : List ℕ) → Ran limit room (spec_events (spec.Name name) (plain_piece (spec.Name name)) «record» zone) out.old at out.new result }
{
    if let Err(refusal) = fields::verdict(in_range(name, record)) {
        return text::refused_at(at, refusal);
    }
    let number = name_number(name, record);
    put_name(out, at, room, name, number, in_capitals(name, Flags::new()))
}

#[tactic(auto, unfolding(rules::specs::Name::lower, rules::specs::Name::upper))]
fn byte_in(b: u8, lowered: bool) -> u8
    ensures { result ≡ byte_in lowered b }
{
    if lowered {
        b.to_ascii_lowercase()
    } else {
        b.to_ascii_uppercase()
    }
}

// A text with each byte in its case.
#[derive(Clone, Copy)]
struct Cased<'a> {
    src: &'a [u8],
    lowered: bool,
}

impl<'a> Source for Cased<'a> {
    ghost bytes = { λ s. map (byte_in s.lowered) s.src.now };

    fn count(self) -> usize {
        self.src.len()
    }

    fn front(self, count: usize) -> Cased<'a> {
        Cased {
            src: &self.src[..count],
            lowered: self.lowered,
        }
    }

    fn lay(self, out: &mut [u8], at: usize) {
        for i in 0..self.src.len() {
            out[at + i] = byte_in(self.src[i], self.lowered);
        }
    }
}

// `#` lowers and wins over `^`, which raises.
fn put_zone(out: &mut [u8], at: usize, room: usize, zone: &[u8], flags: Flags) -> usize
    requires { Room out.old room }
    ensures { (limit : ℕ) → Ran limit room (event.write (event.put (in_case (zone_case flags) zone.now)) ∷ []) out.old at out.new result }
{
    let lowered = flags.contains(Flag::ChangeCase);
    if lowered || flags.contains(Flag::UpperCase) {
        return text::put_short(out, at, room, Cased { src: zone, lowered });
    }
    text::put(out, at, room, zone)
}

pub fn zone_name(
    out: &mut [u8],
    at: usize,
    room: usize,
    limit: usize,
    piece: Piece,
    zone: &[u8],
) -> usize
    requires { Room out.old room }
    ensures { («record» : declared.Record) → Ran limit room (spec_events spec.TimeZoneName piece «record» zone.now) out.old at out.new result }
{
    let verdict = fields::verdict(fields::time_zone(zone));
    let judged = text::after_check(at, verdict);
    let length = zone.len();
    if length == 0 {
        return judged;
    }
    let flags = piece.flags;
    let next = string_padding(out, judged, room, limit, piece, length);
    put_zone(out, next, room, zone, flags)
}

pub fn plain_zone_name(out: &mut [u8], at: usize, room: usize, zone: &[u8]) -> usize
    requires { Room out.old room }
    ensures { (limit : ℕ) («record» : declared.Record) → Ran limit room (spec_events spec.TimeZoneName (plain_piece spec.TimeZoneName) «record» zone.now) out.old at out.new result }
{
    let verdict = fields::verdict(fields::time_zone(zone));
    let judged = text::after_check(at, verdict);
    if zone.len() == 0 {
        return judged;
    }
    text::put(out, judged, room, zone)
}

#[tactic(auto, unfolding(rules::specs::Writing::fixed_byte))]
fn fixed_byte(fixed: Fixed) -> u8
    ensures { result ≡ fixed_byte fixed }
{
    match fixed {
        Fixed::Newline => b'\n',
        Fixed::Tabulation => b'\t',
        Fixed::Percent => b'%',
    }
}

pub fn fixed(
    out: &mut [u8],
    at: usize,
    room: usize,
    limit: usize,
    piece: Piece,
    fixed: Fixed,
) -> usize
    requires { Room out.old room }
    ensures { («record» : declared.Record) (zone : List ℕ) → Ran limit room (spec_events (spec.Fixed fixed) piece «record» zone) out.old at out.new result }
{
    let next = string_padding(out, at, room, limit, piece, 1);
    text::put_byte(out, next, room, fixed_byte(fixed))
}

pub fn plain_fixed(out: &mut [u8], at: usize, room: usize, fixed: Fixed) -> usize
    requires { Room out.old room }
    ensures { (limit : ℕ) («record» : declared.Record) (zone : List ℕ) → Ran limit room (spec_events (spec.Fixed fixed) (plain_piece (spec.Fixed fixed)) «record» zone) out.old at out.new result }
{
    text::put_byte(out, at, room, fixed_byte(fixed))
}
