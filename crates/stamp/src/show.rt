// What is said of a format. Its stamp, its size and its echoes go to standard output, and refusals to standard error.
use crate::echoes::say_echoes;
use crate::refused::explain;
use crate::watch::watch;
use rules::Record;
use say::STDERR_FILENO;
use std::num::NonZeroUsize;

// The bytes that the format needs, for any record.
fn say_size(format: &[u8]) {
    match sizing::size(format, 64) {
        Ok(bytes) => {
            say::number(bytes as u64);
            say::text(
                b" bytes hold the stamp of any record whose zone name has at most 64 bytes\n",
            );
        }
        Err(refusal) => {
            say::refusal_to(STDERR_FILENO, refusal);
            say::error(b": no buffer of 65536 bytes holds the stamp of every record\n");
        }
    }
}

// Where there is no `run_length`, the format comes at once.
pub fn show(format: &[u8], zone: &[u8], record: Record, run_length: Option<NonZeroUsize>) {
    if let Some(run_length) = run_length {
        watch(format, run_length, zone, record);
    }
    let mut buffer = io::large_buffer();
    match strftime::format(format, zone, record, &mut buffer) {
        Ok(bytes) => {
            say::text(say::front(&buffer, bytes));
            say::text(b"\n");
            say_size(format);
            say_echoes(format);
        }
        Err(refusal) => explain(refusal, format, zone, record, &mut buffer),
    }
}
