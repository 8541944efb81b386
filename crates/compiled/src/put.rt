// The sections of the stored form, written part by part.
ghost use Rattle.std.specs.Prelude.{◌≡◌, [], ◌∷◌, ℕ, ◌≤◌, ◌<◌, length};
ghost use Rattle.rules.specs.Record.{longest_format};
ghost use Rattle.rules.specs.Event as event;
ghost use Rattle.rules.specs.Format.{items};
ghost use Rattle.rules.specs.Stored.{two_bytes, entry_bytes, parts};
ghost use Rattle.text.specs.Ran.{Ran};
ghost use Rattle.text.specs.Room.{Room};
ghost use Rattle.compiled.specs.Parts.{bytes_to};
ghost use Rattle.compiled.specs.Sections.{Which, Literals, Directives, Steps, text_events, piece_events, section_events};

use super::parts::{Next, part_at};
use codes::code::{code_of, flags_code, padding_code, present_code, width_value};
use rules::{LONGEST_BUFFER, Piece};
use text::{put, put_part};

fn put_count(out: &mut [u8], at: usize, room: usize, n: usize) -> usize
    requires { Room out.old room }
    ensures { (limit : ℕ) → Ran limit room (event.write (event.put (two_bytes n)) ∷ []) out.old at out.new result }
{
    let bytes = n.to_le_bytes();
    put(out, at, room, &bytes[..2])
}

fn put_step(out: &mut [u8], at: usize, room: usize, section: u8, n: usize) -> usize
    requires { Room out.old room }
    ensures { (limit : ℕ) → Ran limit room (event.write (event.put (section ∷ two_bytes n)) ∷ []) out.old at out.new result }
{
    let [low, high, ..] = n.to_le_bytes();
    let bytes = [section, low, high];
    put(out, at, room, &bytes)
}

fn put_entry(out: &mut [u8], at: usize, room: usize, piece: Piece) -> usize
    requires { Room out.old room }
    ensures { (limit : ℕ) → Ran limit room (event.write (event.put (entry_bytes piece)) ∷ []) out.old at out.new result }
{
    let width = width_value(piece.width).to_le_bytes();
    let bytes = [
        code_of(piece.spec),
        padding_code(piece.padding),
        flags_code(piece.flags),
        present_code(piece.width),
        width[0],
        width[1],
        width[2],
        width[3],
    ];
    put(out, at, room, &bytes)
}

// What the parts of a format add to a section.
pub trait Section {
    ghost which: { Which };

    // The bytes from `from` up to `end`, which stand for themselves.
    fn put_text(
        format: &[u8],
        from: usize,
        end: usize,
        out: &mut [u8],
        at: usize,
        room: usize,
    ) -> usize
        requires { Room out.old room × (from < end) × (end ≤ length format.now) }
        ensures { (limit : ℕ) → Ran limit room (text_events which (bytes_to format.now from end)) out.old at out.new result };

    // The directive with this index.
    fn put_piece(piece: Piece, index: usize, out: &mut [u8], at: usize, room: usize) -> usize
        requires { Room out.old room }
        ensures { (limit : ℕ) → Ran limit room (piece_events which index piece) out.old at out.new result };
}

#[derive(Clone, Copy)]
pub struct Literals;

#[derive(Clone, Copy)]
pub struct Directives;

#[derive(Clone, Copy)]
pub struct Steps;

impl Section for Literals {
    ghost which = { Literals };

    #[tactic(auto, unfolding(crate::specs::Sections::text_events))]
    fn put_text(
        format: &[u8],
        from: usize,
        end: usize,
        out: &mut [u8],
        at: usize,
        room: usize,
    ) -> usize {
        put_part(out, at, room, format, from, end)
    }

    fn put_piece(_piece: Piece, _index: usize, _out: &mut [u8], at: usize, _room: usize) -> usize {
        at
    }
}

impl Section for Directives {
    ghost which = { Directives };

    fn put_text(
        _format: &[u8],
        _from: usize,
        _end: usize,
        _out: &mut [u8],
        at: usize,
        _room: usize,
    ) -> usize {
        at
    }

    #[tactic(auto, unfolding(crate::specs::Sections::piece_events))]
    fn put_piece(piece: Piece, _index: usize, out: &mut [u8], at: usize, room: usize) -> usize {
        put_entry(out, at, room, piece)
    }
}

impl Section for Steps {
    ghost which = { Steps };

    fn put_text(
        _format: &[u8],
        from: usize,
        end: usize,
        out: &mut [u8],
        at: usize,
        room: usize,
    ) -> usize {
        put_step(out, at, room, 0, end - from)
    }

    #[tactic(auto, unfolding(crate::specs::Sections::piece_events))]
    fn put_piece(_piece: Piece, index: usize, out: &mut [u8], at: usize, room: usize) -> usize {
        put_step(out, at, room, 1, index)
    }
}

fn put_section<S: Section>(format: &[u8], out: &mut [u8], start: usize, room: usize) -> usize
    requires { Room out.old room × (length format.now ≤ longest_format) }
    ensures { (limit : ℕ) → Ran limit room (section_events S.which 0 (parts (items format.now))) out.old start out.new result }
{
    // The position goes on by what was read, and `index` counts directives alone: no iterator has them.
    let mut at = start;
    let mut index: usize = 0;
    let mut i: usize = 0;
    while let Some(next) = part_at(format, i) {
        match next {
            Next::Text(end) => {
                at = S::put_text(format, i, end, out, at, room);
                i = end;
            }
            Next::Directive(piece, end) => {
                at = S::put_piece(piece, index, out, at, room);
                index += 1;
                i = end;
            }
        }
    }
    at
}

// A count, and its section.
pub fn put_counted<S: Section>(
    format: &[u8],
    out: &mut [u8],
    at: usize,
    room: usize,
    count: usize,
) -> usize
    requires { Room out.old room × (length format.now ≤ longest_format) }
    ensures { (limit : ℕ) → Ran limit room (event.write (event.put (two_bytes count)) ∷ section_events S.which 0 (parts (items format.now))) out.old at out.new result }
{
    let first = put_count(out, at, room, count);
    put_section::<S>(format, out, first, room)
}

// How many bytes a section has. They are counted, not written: the slice that is lent is empty.
pub fn section_length<S: Section>(format: &[u8]) -> usize
    requires { length format.now ≤ longest_format }
    ensures { result ≡ event.length_of (section_events S.which 0 (parts (items format.now))) }
{
    let mut none = [0u8; 0];
    put_section::<S>(format, &mut none, 0, LONGEST_BUFFER)
}
