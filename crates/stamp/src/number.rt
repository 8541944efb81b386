// Decimal numbers of the command line, read exactly: every number of the range, and nothing else.
ghost use Rattle.std.specs.Prelude.{◌≡◌, ◌^◌, ◌<◌};
ghost use Rattle.stamp.specs.Numbers.{number_of, signed_of};

// What the bytes say, where they are the digits of a number of at most `most`. Not by `parse`, which takes a plus sign too.
pub fn read_number(bytes: &[u8], most: u64) -> Option<u64>
    ensures { result ≡ number_of most bytes.now }
{
    if bytes.is_empty() {
        return None;
    }
    let mut value: u64 = 0;
    for &byte in bytes {
        if !byte.is_ascii_digit() {
            return None;
        }
        let digit = u64::from(byte - b'0');
        value = value.checked_mul(10)?.checked_add(digit)?;
    }
    if most < value {
        return None;
    }
    Some(value)
}

// What the bytes say, where that is a number from -1 - `most` to `most`.
pub fn read_signed(bytes: &[u8], most: u64) -> Option<i64>
    requires { most < 2 ^ 63 }
    ensures { result ≡ signed_of most bytes.now }
{
    match bytes.strip_prefix(b"-") {
        Some(digits) => 0i64.checked_sub_unsigned(read_number(digits, most + 1)?),
        None => 0i64.checked_add_unsigned(read_number(bytes, most)?),
    }
}
