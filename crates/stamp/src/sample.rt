// The time that is stamped where none is asked for.
use crate::show::show;
use rules::{Record, Refusal};
use std::num::NonZeroUsize;

fn record() -> Record {
    Record {
        year: 2024,
        month: 12,
        day: 30,
        hour: 17,
        minute: 5,
        second: 9,
        nanoseconds: 123_456_789,
        day_of_week: 1,
        day_of_year: 365,
        to_int: 1_735_574_709,
        is_utc: false,
        utc_offset: 3600,
    }
}

pub fn stamp(format: &[u8], buffer: &mut [u8]) -> Result<usize, Refusal> {
    strftime::format(format, b"CET", record(), buffer)
}

pub fn show_sample(format: &[u8], run_length: Option<NonZeroUsize>) {
    show(format, b"CET", record(), run_length);
}
