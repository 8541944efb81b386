// Byte strings of a line, which are put into a lent buffer.
ghost use Rattle.std.specs.Prelude.{◌≤◌, ◌<◌, length, IfSome};
ghost use Rattle.lines.specs.Within.{Shortens};

use crate::reader::Reader;

impl Reader<'_> {
    fn hex_digit(&mut self) -> Option<u8>
        ensures bound { IfSome result (λ digit. digit < 16) }
        ensures left { Shortens self.old result self.new }
    {
        let byte = *self.rest.split_off_first()?;
        match byte {
            b'0'..=b'9' => Some(byte - b'0'),
            b'a'..=b'f' => Some(byte - b'a' + 10),
            _ => None,
        }
    }

    // A byte that stands for itself, or `\hh`.
    fn letter(&mut self) -> Option<u8>
        ensures { Shortens self.old result self.new }
    {
        let byte = *self.rest.split_off_first()?;
        match byte {
            b'\\' => Some(self.hex_digit()? * 16 + self.hex_digit()?),
            b'!'..=b'~' => Some(byte),
            _ => None,
        }
    }

    // A byte and how many times it stands: N, where `\*N;` is behind it.
    fn run(&mut self) -> Option<(u8, usize)>
        ensures { Shortens self.old result self.new }
    {
        let byte = self.letter()?;
        if self.skip(b"\\*").is_none() {
            return Some((byte, 1));
        }
        let times = self.digits(65536)?;
        self.skip(b";")?;
        if times < 2 {
            return None;
        }
        Some((byte, times as usize))
    }

    // The byte string up to a blank or the end of the line: how many bytes there are.
    pub fn text(&mut self, out: &mut [u8]) -> Option<usize>
        ensures { IfSome result (λ count. count ≤ length out.old) }
    {
        if self.skip(b"\\-").is_some() {
            return Some(0);
        }
        let mut count = 0;
        loop {
            let (byte, times) = self.run()?;
            if out.len() - count < times {
                return None;
            }
            out[count..count + times].fill(byte);
            count += times;
            if let [] | [b' ', ..] = self.rest {
                return Some(count);
            }
        }
    }

    // A byte string behind a blank.
    pub fn field(&mut self, out: &mut [u8]) -> Option<usize>
        ensures { IfSome result (λ count. count ≤ length out.old) }
    {
        self.skip(b" ")?;
        self.text(out)
    }
}
