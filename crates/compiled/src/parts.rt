// A format part by part: neighbouring literal bytes and echoes are one.
ghost use Rattle.std.specs.Prelude.{◌≤◌, length};
ghost use Rattle.compiled.specs.Parts.{TextEnds, NextPart};

use reading::{literal_end, parse_spec};
use rules::{Parsed, Piece};

// What stands at a position: bytes that stand for themselves up to an end, or a directive, and where the format goes on.
#[derive(Clone, Copy)]
pub enum Next {
    Text(usize),
    Directive(Piece, usize),
}

// Where the bytes that stand for themselves end. The position goes on by what was read: no iterator counts it.
fn text_end(format: &[u8], i: usize) -> usize
    ensures { TextEnds format.now i result }
{
    let mut end = i;
    while end < format.len() {
        if format[end] == b'%' {
            match parse_spec(format, end + 1) {
                Parsed::Directive(_, _) | Parsed::Cut => return end,
                Parsed::Echo(next) => end = next,
            }
        } else {
            end = literal_end(format, end);
        }
    }
    end
}

// None is the format's end, or a cut.
pub fn part_at(format: &[u8], i: usize) -> Option<Next>
    requires { i ≤ length format.now }
    ensures { NextPart format.now i result }
{
    if format.len() <= i {
        return None;
    }
    let end = text_end(format, i);
    if i < end {
        return Some(Next::Text(end));
    }
    match parse_spec(format, i + 1) {
        Parsed::Directive(piece, next) => Some(Next::Directive(piece, next)),
        Parsed::Echo(_) | Parsed::Cut => None,
    }
}
