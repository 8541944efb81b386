// Bytes and decimal numbers of a line.
ghost use Rattle.std.specs.Prelude.{◌≤◌, ◌<◌, ◌^◌, length, IfSome};
ghost use Rattle.lines.specs.Within.{FromMost, Shortens};

// The bytes of a line that are still to be read. A method takes what it reads off their front.
#[derive(Drop)]
pub struct Reader<'a> {
    pub rest: &'a [u8],
}

impl Reader<'_> {
    // The bytes, where they stand next.
    pub fn skip(&mut self, bytes: &[u8]) -> Option<()>
        ensures { length self.new.rest.now ≤ length self.old.rest.now }
    {
        self.rest = self.rest.strip_prefix(bytes)?;
        Some(())
    }

    fn digit(&mut self) -> Option<u8>
        ensures bound { IfSome result (λ digit. digit ≤ 9) }
        ensures left { Shortens self.old result self.new }
    {
        match self.rest {
            [byte @ b'0'..=b'9', rest @ ..] => {
                self.rest = rest;
                Some(*byte - b'0')
            }
            _ => None,
        }
    }

    // A number that is at most `most`.
    pub fn digits(&mut self, most: u64) -> Option<u64>
        ensures bound { IfSome result (λ value. value ≤ most) }
        ensures left { Shortens self.old result self.new }
    {
        let mut value = u64::from(self.digit()?);
        while let Some(digit) = self.digit() {
            value = value.checked_mul(10)?.checked_add(u64::from(digit))?;
        }
        if value <= most { Some(value) } else { None }
    }

    // A number behind a blank.
    pub fn number(&mut self, most: u64) -> Option<u64>
        ensures bound { IfSome result (λ value. value ≤ most) }
        ensures left { Shortens self.old result self.new }
    {
        self.skip(b" ")?;
        self.digits(most)
    }

    // A number from -1 - `most` to `most`, behind a blank. There is no -0.
    pub fn signed(&mut self, most: u64) -> Option<i64>
        requires { most < 2 ^ 63 }
        ensures { IfSome result (FromMost most) }
    {
        self.skip(b" ")?;
        if self.skip(b"-").is_none() {
            return Some(self.digits(most)? as i64);
        }
        let value = self.digits(most + 1)?;
        if value == 0 {
            return None;
        }
        Some(-1 - (value - 1) as i64)
    }
}
