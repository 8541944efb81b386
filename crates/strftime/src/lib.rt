// Ports `buffered::strftime` of lib.rs: the entry.
#![tactic(auto)]

ghost use Rattle.std.specs.Prelude.{◌≡◌, min, length};
ghost use Rattle.rules.specs.Refusal.{numbered};
ghost use Rattle.rules.specs.Event.{reported, buffer_after};
ghost use Rattle.rules.specs.Format.{formatted};

use rules::{LONGEST_BUFFER, LONGEST_FORMAT, LONGEST_ZONE, Record, Refusal};
use text::{is_refused, refusal_at};
use walk::stamp;

pub const SCRATCH: usize = 192;

// How much of the scratch is lent.
pub fn part_of(room: usize) -> usize
    ensures { result ≡ min 192 room }
{
    room.min(SCRATCH)
}

// The text of a format in the caller's buffer, or a refusal that leaves the buffer as it was. A text of at most 192 bytes is written
// to a scratch and copied; of a longer one the rest is counted, and then written straight to the buffer.
pub fn format(
    format: &[u8],
    zone: &[u8],
    record: Record,
    buffer: &mut [u8],
) -> Result<usize, Refusal>
    ensures answer { numbered result ≡ reported (formatted format.now zone.now «record» (length buffer.old)) }
    ensures buffer { buffer.new ≡ buffer_after (formatted format.now zone.now «record» (length buffer.old)) buffer.old }
{
    let room = buffer.len();
    if format.len() > LONGEST_FORMAT {
        return Err(Refusal::InputTooLong);
    }
    if zone.len() > LONGEST_ZONE {
        return Err(Refusal::InputTooLong);
    }
    if room > LONGEST_BUFFER {
        return Err(Refusal::InputTooLong);
    }
    let mut small = [0u8; SCRATCH];
    let part = part_of(room);
    let end = stamp(format, zone, record, &mut small[..part], buffer);
    if is_refused(end) {
        return Err(refusal_at(end));
    }
    Ok(end)
}
