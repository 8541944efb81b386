// A directive of 8 bytes, checked and read. Numbers of more bytes have the low one first.
ghost use Rattle.std.specs.Prelude.{◌≡◌, ◌+◌, ◌≤◌, length, drop};
ghost use Rattle.rules.specs.Stored.{two_of, four_of, spec_from, coded_spec, padding_from, flags_from, width_from, entry_of, is_known, width_taken, entry_taken};
ghost use Rattle.codes.specs.Eight.{Eight};

use rules::{Fixed, Flags, Offset, Padding, Piece, Spec};
use table::spec_of;

// By index, here and below: the None of `first_chunk` would have to be ruled out.
pub fn two_at(s: &[u8], at: usize) -> usize
    requires { at + 2 ≤ length s.now }
    ensures same { result ≡ two_of (drop at s.now) }
    ensures small { result ≤ 65535 }
{
    usize::from(u16::from_le_bytes([s[at], s[at + 1]]))
}

fn four_at(s: &[u8], at: usize) -> usize
    requires { at + 4 ≤ length s.now }
    ensures { result ≡ four_of (drop at s.now) }
{
    u32::from_le_bytes([s[at], s[at + 1], s[at + 2], s[at + 3]]) as usize
}

// All 8 bytes of a directive as one number.
pub fn eight_at(s: &[u8], at: usize) -> usize
    requires { at + 8 ≤ length s.now }
    ensures { Eight (drop at s.now) result }
{
    usize::from_le_bytes([
        s[at],
        s[at + 1],
        s[at + 2],
        s[at + 3],
        s[at + 4],
        s[at + 5],
        s[at + 6],
        s[at + 7],
    ])
}

// The letter's directive, or the offset form with so many colons.
#[tactic(auto, unfolding(rules::specs::Stored::coded_spec))]
fn coded_spec(code: u8) -> Option<Spec>
    ensures { result ≡ coded_spec code }
{
    match code {
        1 => Some(Spec::Offset(Offset::TimeZoneOffsetHourMinuteColon)),
        2 => Some(Spec::Offset(Offset::TimeZoneOffsetHourMinuteSecondColon)),
        3 => Some(Spec::Offset(Offset::TimeZoneOffsetColonMinimal)),
        _ => spec_of(code),
    }
}

fn spec_from(code: u8) -> Spec
    ensures { result ≡ spec_from (coded_spec code) }
{
    coded_spec(code).unwrap_or(Spec::Fixed(Fixed::Percent))
}

// Of the codes from 64 on: the letters of the table. An arm for each, all alike, is one test of bits; an or-pattern is a test for each range of letters,
// which makes a stored run 3 to 5 percent slower.
#[tactic(auto, unfolding(rules::specs::Stored::coded_spec, rules::specs::Reading::look_up, rules::specs::Reading::possible_specs))]
fn is_letter(code: u8) -> bool
    requires { 64 ≤ code }
    ensures { result ≡ is_known (coded_spec code) }
{
    match code {
        b'A' => true,
        b'B' => true,
        b'C' => true,
        b'D' => true,
        b'F' => true,
        b'G' => true,
        b'H' => true,
        b'I' => true,
        b'L' => true,
        b'M' => true,
        b'N' => true,
        b'P' => true,
        b'R' => true,
        b'S' => true,
        b'T' => true,
        b'U' => true,
        b'V' => true,
        b'W' => true,
        b'X' => true,
        b'Y' => true,
        b'Z' => true,
        b'a' => true,
        b'b' => true,
        b'c' => true,
        b'd' => true,
        b'e' => true,
        b'g' => true,
        b'h' => true,
        b'j' => true,
        b'k' => true,
        b'l' => true,
        b'm' => true,
        b'n' => true,
        b'p' => true,
        b'r' => true,
        b's' => true,
        b't' => true,
        b'u' => true,
        b'v' => true,
        b'w' => true,
        b'x' => true,
        b'y' => true,
        b'z' => true,
        _ => false,
    }
}

#[tactic(auto, unfolding(rules::specs::Stored::coded_spec, rules::specs::Reading::look_up, rules::specs::Reading::possible_specs))]
fn is_known(code: u8) -> bool
    ensures { result ≡ is_known (coded_spec code) }
{
    if 64 <= code {
        return is_letter(code);
    }
    matches!(code, 1..=3 | b'%')
}

fn padding_from(code: u8) -> Padding
    ensures { result ≡ padding_from code }
{
    match code {
        0 => Padding::Left,
        1 => Padding::Spaces,
        _ => Padding::Zeros,
    }
}

fn flags_from(code: u8) -> Flags
    ensures { result ≡ flags_from code }
{
    Flags {
        left: code % 2 == 1,
        change: code / 2 % 2 == 1,
        upper: code / 4 == 1,
    }
}

fn width_from(there: u8, value: usize) -> Option<usize>
    ensures { result ≡ width_from there value }
{
    (there != 0).then_some(value)
}

fn width_taken(there: u8, value: usize) -> bool
    ensures { result ≡ width_taken there value }
{
    match there {
        0 => value == 0,
        1 => matches!(value, 1..=2147483647),
        _ => false,
    }
}

// Whether the 8 bytes at `at` are a directive that some parse gives. Most have a code and nothing else.
pub fn entry_taken(s: &[u8], at: usize) -> bool
    requires { at + 8 ≤ length s.now }
    ensures { result ≡ entry_taken (drop at s.now) }
{
    if !is_known(s[at]) {
        return false;
    }
    if eight_at(s, at) < 256 {
        return true;
    }
    if 2 < s[at + 1] || 7 < s[at + 2] {
        return false;
    }
    width_taken(s[at + 3], four_at(s, at + 4))
}

pub fn piece_at(s: &[u8], at: usize) -> Piece
    requires { at + 8 ≤ length s.now }
    ensures { result ≡ entry_of (drop at s.now) }
{
    Piece {
        width: width_from(s[at + 3], four_at(s, at + 4)),
        padding: padding_from(s[at + 1]),
        flags: flags_from(s[at + 2]),
        spec: spec_from(s[at]),
        skipped: false,
    }
}
