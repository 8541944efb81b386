// Ports `Piece::fmt` of mod.rs: a directive, by its kind.
#![tactic(auto)]

ghost use Rattle.rules.specs.Writing.{events_of};
ghost use Rattle.text.specs.Ran.{Ran};
ghost use Rattle.text.specs.Room.{Room};

use combination_directive::combination;
use name_directive::{fixed, name, zone_name};
use number_directive::{fraction, fraction_digits, number};
use offset_directive::offset;
use rules::{Piece, Record, Spec};

#[tactic(auto, unfolding(rules::specs::Writing::events_of))]
pub fn directive(
    out: &mut [u8],
    at: usize,
    room: usize,
    limit: usize,
    piece: Piece,
    record: Record,
    zone: &[u8],
) -> usize
    requires { Room out.old room }
    ensures { Ran limit room (events_of «record» zone.now piece) out.old at out.new result }
{
    let spec = piece.spec;
    let width = piece.width;
    match spec {
        Spec::Number(n) => number(out, at, room, limit, piece, n, record),
        Spec::Name(n) => name(out, at, room, limit, piece, n, record),
        Spec::Fraction(f) => fraction(
            out,
            at,
            room,
            limit,
            width.unwrap_or(fraction_digits(f)),
            record,
        ),
        Spec::Offset(o) => offset(out, at, room, limit, piece, o, record),
        Spec::TimeZoneName => zone_name(out, at, room, limit, piece, zone),
        Spec::Fixed(f) => fixed(out, at, room, limit, piece, f),
        Spec::Combination(c) => combination(out, at, room, limit, piece, c, record),
    }
}
