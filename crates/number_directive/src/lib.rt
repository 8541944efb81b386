// Ports `format_num_zeros`, `format_num_spaces`, `pad_width` and `format_nanoseconds` of mod.rs, and the arms of its `Piece::fmt` that call them.
#![tactic(auto)]

ghost use Rattle.std.specs.Prelude.{◌≡◌, false, List, ◌∷◌, map, ℕ};
ghost use Rattle.rules.specs.declared.Fraction as declared;
ghost use Rattle.rules.specs.declared.Spec.TheVariants as spec;
ghost use Rattle.rules.specs.Event as event;
ghost use Rattle.rules.specs.Writing.{number_writes, fraction_digits, fraction_writes, verdict_of, spec_events};
ghost use Rattle.text.specs.Ran.{Ran};
ghost use Rattle.text.specs.Room.{Room};
ghost use Rattle.printing.specs.FillWith.{fill_with};
ghost use Rattle.values.specs.Value.{fill_by};

use rules::{Flag, Fraction, Number, Padding, Piece, Record};

// Whether a number is filled with zeros. `space`: its own fill is a space.
fn fills_zeros(padding: Padding, space: bool) -> bool
    ensures { fill_with result ≡ fill_by space padding }
{
    match padding {
        Padding::Left => !space,
        Padding::Spaces => false,
        Padding::Zeros => true,
    }
}

// The excess of a width above 65,535 is padded first, before any sign.
fn format_num(
    out: &mut [u8],
    at: usize,
    room: usize,
    limit: usize,
    v: i64,
    width: usize,
    zeros: bool,
) -> usize
    requires { Room out.old room }
    ensures { Ran limit room (map event.write (number_writes false (fill_with zeros) width v)) out.old at out.new result }
{
    if width <= 65535 {
        return printing::put_decimal(out, at, room, v, width, zeros);
    }
    let fill = printing::fill_byte(zeros);
    let next = printing::put_padding(out, at, room, limit, fill, width, 65535);
    printing::put_decimal(out, next, room, v, 65535, zeros)
}

pub fn number(
    out: &mut [u8],
    at: usize,
    room: usize,
    limit: usize,
    piece: Piece,
    number: Number,
    record: Record,
) -> usize
    requires { Room out.old room }
    ensures { (zone : List ℕ) → Ran limit room (spec_events (spec.Number number) piece «record» zone) out.old at out.new result }
{
    let value = values::value_of(number, record);
    if let Err(refusal) = fields::verdict(value.ok) {
        return text::refused_at(at, refusal);
    }
    if piece.flags.contains(Flag::LeftPadding) {
        return printing::put_decimal(out, at, room, value.number, 1, true);
    }
    let width = piece.width.unwrap_or(value.width);
    let zeros = fills_zeros(piece.padding, value.space);
    format_num(out, at, room, limit, value.number, width, zeros)
}

#[tactic(auto, unfolding(rules::specs::Writing::fraction_digits))]
pub fn fraction_digits(fraction: Fraction) -> usize
    ensures { result ≡ fraction_digits fraction }
{
    match fraction {
        Fraction::MilliSecond => 3,
        Fraction::FractionalSecond => 9,
    }
}

// Above nine digits zeros follow, by one pad.
fn format_nanoseconds(
    out: &mut [u8],
    at: usize,
    room: usize,
    limit: usize,
    width: usize,
    nanoseconds: u32,
) -> usize
    requires { Room out.old room }
    ensures { Ran limit room (map event.write (fraction_writes width nanoseconds)) out.old at out.new result }
{
    if width <= 9 {
        let value = nanoseconds / numbers::power(9 - width);
        return text::put_places(out, at, room, width, value as u64);
    }
    let next = text::put_places(out, at, room, 9, nanoseconds as u64);
    text::pad(out, next, room, limit, b'0', width - 9)
}

pub fn fraction(
    out: &mut [u8],
    at: usize,
    room: usize,
    limit: usize,
    width: usize,
    record: Record,
) -> usize
    requires { Room out.old room }
    ensures { (fraction : declared.Fraction) (zone : List ℕ) → Ran limit room (event.judged (verdict_of (spec.Fraction fraction) «record» zone) ∷ map event.write (fraction_writes width «record».nanoseconds)) out.old at out.new result }
{
    let verdict = fields::verdict(fields::nanoseconds(record));
    let next = text::after_check(at, verdict);
    format_nanoseconds(out, next, room, limit, width, record.nanoseconds)
}
