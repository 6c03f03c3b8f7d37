// The line that an answer is printed as, laid down in a text from its front on.
#![tactic(auto)]

ghost use Rattle.std.specs.Prelude.{◌+◌, ◌≤◌, ◌<◌, ◌≡◌, length};
ghost use Rattle.io.specs.Counts.{IsPrefixLen};
ghost use Rattle.io.specs.Digits.{hex_digit_ascii};
ghost use Rattle.lines.specs.Line.{field_of, output_of, line_of, Puts};

// The ASCII code of a digit below 16.
fn digit(d: u8) -> u8
    requires { d < 16 }
    ensures { result ≡ hex_digit_ascii d }
{
    if d < 10 { 48 + d } else { 87 + d }
}

// A number in decimal and a space, at the front of the text; answers how many bytes these are.
fn field(n: u64, text: &mut [u8]) -> usize
    requires { 21 ≤ length text.old }
    ensures { (result ≤ 21) × Puts (field_of n) result text.old text.new }
{
    let mut digits = [0u8; 20];
    let k = io::decimal(n, &mut digits);
    text[..k].copy_from_slice(&digits[..k]);
    text[k] = 32;
    k + 1
}

// Bytes in hex, or '-' where there are none, and the line's end.
fn output(bytes: &[u8], text: &mut [u8]) -> usize
    requires { length bytes.now + length bytes.now + 2 ≤ length text.old }
    ensures { (result ≤ length bytes.now + length bytes.now + 2) × Puts (output_of bytes.now) result text.old text.new }
{
    if bytes.is_empty() {
        text[0] = 45;
        text[1] = 10;
        return 2;
    }
    for (i, b) in bytes.iter().enumerate() {
        text[2 * i] = digit(*b / 16);
        text[2 * i + 1] = digit(*b % 16);
    }
    let end = 2 * bytes.len();
    text[end] = 10;
    end + 1
}

// The line of an answer, at the front of the text; answers how long it is.
pub fn line(number: u32, size: usize, bytes: &[u8], text: &mut [u8]) -> usize
    requires { length bytes.now + length bytes.now + 64 ≤ length text.old }
    ensures prefix_len { IsPrefixLen result text.new }
    ensures puts { Puts (line_of number size bytes.now) result text.old text.new }
{
    let a = field(number as u64, text);
    let b = field(size as u64, &mut text[a..]);
    let c = output(bytes, &mut text[a + b..]);
    a + b + c
}
