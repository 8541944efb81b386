// Compiles a format (02, request 6): its stored form in the caller's buffer.
#![tactic(auto)]

mod parts;
mod put;

ghost use Rattle.std.specs.Prelude.{◌≡◌, length};
ghost use Rattle.rules.specs.Refusal.{numbered};
ghost use Rattle.rules.specs.Event.{reported, buffer_after};
ghost use Rattle.rules.specs.Stored.{compiled};

pub use parts::Next;
use put::{put_counted, section_length};
pub use put::{Directives, Literals, Section, Steps};
use reading::fault_of;
use rules::{LONGEST_BUFFER, LONGEST_FORMAT, Refusal};

// The stored form of a format in the caller's buffer, or a refusal that leaves the buffer as it was. Its length is known before a byte is written.
pub fn compile(format: &[u8], stored: &mut [u8]) -> Result<usize, Refusal>
    ensures answer { numbered result ≡ reported (compiled format.now (length stored.old)) }
    ensures stored { stored.new ≡ buffer_after (compiled format.now (length stored.old)) stored.old }
{
    let room = stored.len();
    if format.len() > LONGEST_FORMAT {
        return Err(Refusal::InputTooLong);
    }
    if room > LONGEST_BUFFER {
        return Err(Refusal::InputTooLong);
    }
    fault_of(format)?;
    let literals = section_length::<Literals>(format);
    let directives = section_length::<Directives>(format);
    let steps = section_length::<Steps>(format);
    if room < 6 + literals + directives + steps {
        return Err(Refusal::WriteZero);
    }
    let first = put_counted::<Literals>(format, stored, 0, room, literals);
    let second = put_counted::<Directives>(format, stored, first, room, directives / 8);
    Ok(put_counted::<Steps>(format, stored, second, room, steps / 3))
}
