// The instant that is asked for.
use crate::show::show;
use rules::Refusal;
use say::STDERR_FILENO;
use std::num::NonZeroUsize;

// A sum beyond an i64 has such a year too.
fn say_no_record(refusal: Refusal) {
    say::refusal_to(STDERR_FILENO, refusal);
    match refusal {
        Refusal::OutOfRange => say::error(
            b": the year of that instant is not within -2147483648 to 2147483647\n",
        ),
        _ => say::error(b": that instant has no record\n"),
    }
}

// Where the offset is 0 the zone is UTC. The name of any other isn't known.
pub fn show_at(format: &[u8], count: i64, offset: i32, run_length: Option<NonZeroUsize>) {
    let is_utc = offset == 0;
    match calendar::record_from_count(count, offset, 0, is_utc) {
        Ok(record) => {
            let zone: &[u8] = if is_utc { b"UTC" } else { b"" };
            show(format, zone, record, run_length);
        }
        Err(refusal) => say_no_record(refusal),
    }
}
