// Sizing, which the original hasn't: the exact least buffer of a format.
#![tactic(auto)]

ghost use Rattle.std.specs.Prelude.{◌≡◌, true, suc, min};
ghost use Rattle.rules.specs.Record.{longest_buffer, within};
ghost use Rattle.rules.specs.Refusal.{numbered};
ghost use Rattle.rules.specs.Format.{items, fault};
ghost use Rattle.rules.specs.Size.{Kept, AnyStamp, GoodStamp, Sizing};
ghost use Rattle.longest.specs.Witness.{longest_in, length_at, size_of};

use rules::{LONGEST_BUFFER, LONGEST_FORMAT, LONGEST_ZONE, Record, Refusal};
use walk::run;

// The record that is longest in every field but the month.
fn witness(month: u8) -> Record
    ensures { result ≡ (longest_in month 0).time }
{
    Record {
        year: -2_147_483_648,
        month,
        day: 28,
        hour: 22,
        minute: 59,
        second: 59,
        nanoseconds: 0,
        day_of_week: 3,
        day_of_year: 200,
        to_int: -9_223_372_036_854_775_808,
        is_utc: false,
        utc_offset: -2_147_483_648,
    }
}

// The length of its text, or one more than the longest buffer for every length above that. It is counted, not written: the slice that is lent is empty.
fn needed(format: &[u8], longest_zone: usize, month: u8) -> usize
    requires { Kept format.now longest_zone × (fault (items format.now) ≡ 0) × (within 1 12 month ≡ true) }
    ensures { result ≡ min (suc longest_buffer) (length_at (longest_in month longest_zone) format.now) }
{
    let zone = [b'A'; LONGEST_ZONE];
    let mut none = [0u8; 1];
    let end = run(
        format,
        &zone[..longest_zone],
        witness(month),
        &mut none[..0],
        LONGEST_BUFFER,
    );
    // A refusal's place is behind the longest buffer.
    end.min(LONGEST_BUFFER + 1)
}

// The least buffer that holds the text of every record whose zone name has at most `longest_zone` bytes.
pub fn size(format: &[u8], longest_zone: usize) -> Result<usize, Refusal>
    ensures answer { numbered result ≡ size_of format.now longest_zone }
    ensures demand { Sizing (AnyStamp longest_zone) (GoodStamp longest_zone) format.now longest_zone (numbered result) }
{
    if format.len() > LONGEST_FORMAT {
        return Err(Refusal::InputTooLong);
    }
    if longest_zone > LONGEST_ZONE {
        return Err(Refusal::InputTooLong);
    }
    reading::fault_of(format)?;
    let september = needed(format, longest_zone, 9);
    let december = needed(format, longest_zone, 12);
    let bytes = september.max(december);
    if bytes > LONGEST_BUFFER {
        return Err(Refusal::NoBuffer);
    }
    Ok(bytes)
}
