// The stored form of a format, in hexadecimal, a line a section.
ghost use Rattle.std.specs.Prelude.{◌<◌};

use crate::refused::explain_cut;
use say::STDOUT_FILENO;

// With a blank between two bytes.
fn say_bytes(bytes: &[u8]) {
    for (i, &byte) in bytes.iter().enumerate() {
        if 0 < i {
            say::text(b" ");
        }
        io::print_hex(STDOUT_FILENO, u64::from(byte), 2);
    }
}

// The section at the front of a form: its count, then its entries of `size` bytes each, with two blanks before each group of at most `group` bytes.
// The answer is what is behind it.
fn say_section(form: &[u8], size: usize, group: usize) -> &[u8]
    requires { (size < 9) × (0 < group) }
{
    let count = form
        .first_chunk()
        .map_or(0, |&count| u16::from_le_bytes(count));
    let (section, others) = form.split_at(form.len().min(2 + usize::from(count) * size));
    let (count, entries) = section.split_at(section.len().min(2));
    say_bytes(count);
    for entry in entries.chunks(group) {
        say::text(b"  ");
        say_bytes(entry);
    }
    say::text(b"\n");
    others
}

fn say_form(form: &[u8], format_length: usize) {
    // The literal bytes are one group: there are no more than a count can say.
    let behind_literals = say_section(form, 1, 65535);
    let behind_directives = say_section(behind_literals, 8, 8);
    say_section(behind_directives, 3, 3);
    say::number(form.len() as u64);
    say::text(b" bytes store the format, and are run with its length, ");
    say::number(format_length as u64);
    say::text(b"\n");
}

pub fn show_stored(format: &[u8]) {
    let mut form = io::large_buffer();
    match compiled::compile(format, &mut form) {
        Ok(bytes) => say_form(say::front(&form, bytes), format.len()),
        Err(refusal) => explain_cut(refusal, format),
    }
}
