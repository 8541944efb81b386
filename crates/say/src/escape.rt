// Bytes as a message shows them: a terminal acts on some bytes, and a reader can't tell others apart.

use crate::text_to;

fn is_shown(byte: u8) -> bool {
    match byte {
        b'\\' => false,
        b' '..=b'~' => true,
        _ => false,
    }
}

fn escape_to(fd: i32, byte: u8) {
    match byte {
        b'\n' => text_to(fd, b"\\n"),
        b'\t' => text_to(fd, b"\\t"),
        b'\\' => text_to(fd, b"\\\\"),
        _ => {
            text_to(fd, b"\\x");
            io::print_hex(fd, byte as u64, 2);
        }
    }
}

// A control byte, and one from 127 on, as \n, \t or \xNN, and a backslash as two.
pub fn escaped_to(fd: i32, bytes: &[u8]) {
    for chunk in bytes.split_inclusive(|byte| !is_shown(*byte)) {
        match chunk {
            [shown @ .., byte] if !is_shown(*byte) => {
                text_to(fd, shown);
                escape_to(fd, *byte);
            }
            shown => text_to(fd, shown),
        }
    }
}
