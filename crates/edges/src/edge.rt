// One stamp beside what it should be.
use rules::{Record, Refusal};

// A long text is shortened.
fn say_text(text: &[u8]) {
    let count = text.len();
    if count <= 64 {
        say::text(text);
        return;
    }
    say::text(say::front(text, 5));
    say::text(b"..");
    say::text(&text[count - 3..]);
    say::shown(format_args!(" ({count} bytes)"));
}

// The text, or a refusal's number.
fn say_outcome(outcome: Result<&[u8], Refusal>) {
    match outcome {
        Ok(text) => {
            say::text(b"`");
            say_text(text);
            say::text(b"`");
        }
        Err(refusal) => {
            let number = u32::from(refusal);
            say::shown(format_args!("refusal {number}"));
        }
    }
}

fn say_stamp(label: &[u8], format: &[u8], outcome: Result<&[u8], Refusal>) {
    say::text(label);
    say::text(b": `");
    say::text(format);
    say::text(b"` gives ");
    say_outcome(outcome);
}

// Whether the stamp is as it should be. The zone name is empty.
pub fn stamp_in(
    label: &[u8],
    format: &[u8],
    record: Record,
    buffer: &mut [u8],
    due: Result<&[u8], Refusal>,
) -> bool {
    let answer = strftime::format(format, b"", record, buffer);
    let given = answer.map(|count| say::front(buffer, count));
    say_stamp(label, format, given);
    if given == due {
        say::text(b", as it should be\n");
        return true;
    }
    say::text(b", but should give ");
    say_outcome(due);
    say::text(b"\n");
    false
}

pub fn stamp(label: &[u8], format: &[u8], record: Record, due: Result<&[u8], Refusal>) -> bool {
    let mut buffer = [0u8; 64];
    stamp_in(label, format, record, &mut buffer, due)
}
