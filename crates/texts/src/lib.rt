// 01, "Sheets, views and the report": numbers as text, put into a lent room. "Hex is upper case. Numbers are decimal
// without leading zeros, except today and expires (eight digits) and agency and system (four)." Where the room ends, so
// does the text: no writer asks anything of its caller.
#![tactic(auto)]

ghost use Rattle.std.specs.Prelude.{◌≡◌, ◌++◌, ◌<◌};
ghost use Rattle.laws.specs.Room.{Put};
ghost use Rattle.texts.specs.Text.{fixed, decimal, numeral, digits_line, hex_digit, hex2, hex_tag};

use room::{put_all, put_byte};

// The last `width` digits of n. They come lowest first, so they are laid from the last place to the first: no byte is
// written twice, and no call nests.
pub fn put_fixed(width: usize, n: u64, out: &mut [u8]) -> usize
    ensures { Put (fixed width n) out.old out.new result }
{
    let mut rest = n;
    for i in (0..width).rev() {
        // Stays a test and an index: tried with `get_mut`, whose contract does not say what the room ends as.
        if i < out.len() {
            out[i] = 48 + (rest % 10) as u8;
        }
        rest /= 10;
    }
    width.min(out.len())
}

// How many digits n has: 0 has one.
fn places(n: u64) -> usize
    ensures { decimal n ≡ fixed result n }
{
    n.max(1).ilog10() as usize + 1
}

// n without leading zeros.
pub fn put_decimal(n: u64, out: &mut [u8]) -> usize
    ensures { Put (decimal n) out.old out.new result }
{
    put_fixed(places(n), n, out)
}

// A number without leading zeros, and the mark that ends it. One digit, as most lengths have, is put at once with its mark.
#[tactic(auto, using(crate::proofs::Texts::decimal_one))]
pub fn put_number(n: u64, mark: u8, out: &mut [u8]) -> usize
    ensures { Put (numeral n mark) out.old out.new result }
{
    if n < 10 {
        return room::put_pair(48 + n as u8, mark, out);
    }
    let at = put_decimal(n, out);
    at + put_byte(mark, &mut out[at..])
}

// A line: a name, and a number without leading zeros.
pub fn put_count(name: &[u8], n: u64, out: &mut [u8]) -> usize
    ensures { Put (name.now ++ numeral n 10) out.old out.new result }
{
    let at = put_all(name, out);
    at + put_number(n, b'\n', &mut out[at..])
}

// A line: a name, and a number of so many digits.
pub fn put_digits(name: &[u8], width: usize, n: u64, out: &mut [u8]) -> usize
    ensures { Put (name.now ++ digits_line width n) out.old out.new result }
{
    let mut at = put_all(name, out);
    at += put_fixed(width, n, &mut out[at..]);
    at + put_byte(b'\n', &mut out[at..])
}

// "Hex is upper case": 0 to 9, and A to F.
fn hex_digit(d: u8) -> u8
    requires { d < 16 }
    ensures { result ≡ hex_digit d }
{
    if d < 10 { 48 + d } else { 55 + d }
}

// A byte as two hex digits.
#[tactic(auto, unfolding(crate::specs::Text::hex2))]
pub fn put_hex(b: u8, out: &mut [u8]) -> usize
    ensures { Put (hex2 b) out.old out.new result }
{
    room::put_pair(hex_digit(b / 16), hex_digit(b % 16), out)
}

// A tag as two hex digits, or as four.
#[tactic(auto, unfolding(crate::specs::Text::hex_tag))]
pub fn put_tag(tag: u64, out: &mut [u8]) -> usize
    ensures { Put (hex_tag tag) out.old out.new result }
{
    if tag < 256 {
        return put_hex(tag as u8, out);
    }
    let at = put_hex((tag / 256 % 256) as u8, out);
    at + put_hex((tag % 256) as u8, &mut out[at..])
}
