// Bytes in hexadecimal digits, lower case, two to a byte: written into a lent slice, and read from a text.
ghost use Rattle.std.specs.Prelude.{◌≡◌, [], ◌∷◌, reverse, ◌*◌, ◌<◌, length};
ghost use Rattle.octets.specs.Wrote.{Wrote, HasRoom};
ghost use Rattle.octets.specs.hex.Hex.{hex_digit, hex, digit_value, byte_of, all_hex, unhex};

fn digit(n: u8) -> u8
    requires { n < 16 }
    ensures { result ≡ hex_digit n }
{
    if n < 10 {
        return 48 + n;
    }
    87 + n
}

fn put_byte(out: &mut [u8], at: usize, b: u8) -> usize
    requires { HasRoom out.old at (hex (b ∷ [])) }
    ensures { Wrote out.old out.new at result (hex (b ∷ [])) }
{
    let high = digit(b / 16);
    let low = digit(b % 16);
    out[at] = high;
    out[at + 1] = low;
    at + 2
}

pub fn put_hex(out: &mut [u8], at: usize, bytes: &[u8]) -> usize
    requires { HasRoom out.old at (hex bytes.now) }
    ensures { Wrote out.old out.new at result (hex bytes.now) }
{
    let mut end = at;
    for byte in bytes {
        end = put_byte(out, end, *byte);
    }
    end
}

// The last byte first: a number whose bytes stand the lowest first, as its digits are written. Its own loop: one over any order, handed in, would be no plainer than these three lines.
pub fn put_turned(out: &mut [u8], at: usize, bytes: &[u8]) -> usize
    requires { HasRoom out.old at (hex (reverse bytes.now)) }
    ensures { Wrote out.old out.new at result (hex (reverse bytes.now)) }
{
    let mut end = at;
    for i in (0..bytes.len()).rev() {
        end = put_byte(out, end, bytes[i]);
    }
    end
}

// What a digit is worth; 16 is no digit.
fn value(d: u8) -> u8
    ensures { result ≡ digit_value d }
{
    if d < 48 {
        return 16;
    }
    if d < 58 {
        return d - 48;
    }
    if d < 97 {
        return 16;
    }
    if d < 103 {
        return d - 87;
    }
    16
}

pub fn all_digits(text: &[u8]) -> bool
    ensures { result ≡ all_hex text.now }
{
    text.iter().all(|d| value(*d) < 16)
}

// The byte of two digits.
pub fn byte_of(high: u8, low: u8) -> u8
    ensures { result ≡ byte_of high low }
{
    value(high) % 16 * 16 + value(low) % 16
}

// The bytes of digits, into a slice that is half as long.
pub fn get_hex(text: &[u8], out: &mut [u8])
    requires { length text.now ≡ 2 * length out.old }
    ensures { out.new ≡ unhex text.now }
{
    for (i, byte) in out.iter_mut().enumerate() {
        *byte = byte_of(text[2 * i], text[2 * i + 1]);
    }
}
