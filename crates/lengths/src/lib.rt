// 01, "Container form": the length of an element, read where one is due in any of its forms, and written in the
// fewest bytes.
#![tactic(auto)]

ghost use Rattle.std.specs.Prelude.{◌≡◌, ◌+◌, ◌<◌, ◌≤◌, length, drop, get_or};
ghost use Rattle.laws.specs.Room.{Put};
ghost use Rattle.lengths.specs.Length.{length_at, length_bytes};

use room::{put_byte, put_pair};

// A length, and the offset of what follows it.
#[derive(Clone, Copy)]
pub struct Length {
    pub number: usize,
    pub next: usize,
}

// The length at `at`, whose first byte counts so many bytes after it: these hold 128 or more. However large the number, no sum of
// it is made here: who asks compares it with the bytes that are left.
#[tactic(auto, using(crate::proofs::Reading::counting))]
fn counted(c: &[u8], at: usize, count: usize) -> Option<Length>
    requires { (at < length c.now) × (count ≤ 4) × (get_or c.now at 0 ≡ 0x80 + count) }
    ensures { result ≡ length_at at (drop at c.now) }
{
    if c.len() - at <= count {
        return None;
    }
    let number = numbers::number(c, at + 1, count) as usize;
    if number < 128 {
        return None;
    }
    Some(Length {
        number,
        next: at + 1 + count,
    })
}

// The length at `at`: "up to 127 one byte, above that 81 to 84 with any count of bytes that holds the number", and nothing else
// is one. 80 needs no test of its own: it counts no bytes, and these hold no number over 127. In the fewest bytes a length over
// 127 takes one or two more: these are told apart, so that no loop is gone through for them.
#[tactic(auto, using(crate::proofs::Reading::reading))]
pub fn read_length(c: &[u8], at: usize) -> Option<Length>
    ensures { result ≡ length_at at (drop at c.now) }
{
    let first = usize::from(*c.get(at)?);
    if first < 0x80 {
        return Some(Length {
            number: first,
            next: at + 1,
        });
    }
    if 0x84 < first {
        return None;
    }
    let count = first - 0x80;
    match count {
        1 => counted(c, at, 1),
        2 => counted(c, at, 2),
        _ => counted(c, at, count),
    }
}

// "Writing keeps the fewest bytes": those of n go into the room.
#[tactic(auto, unfolding(crate::specs::Length::length_bytes))]
pub fn write_length(n: usize, out: &mut [u8]) -> usize
    ensures { Put (length_bytes n) out.old out.new result }
{
    if n < 128 {
        return put_byte(n as u8, out);
    }
    if n < 256 {
        return put_pair(0x81, n as u8, out);
    }
    let at = put_byte(0x82, out);
    at + put_pair((n / 256 % 256) as u8, (n % 256) as u8, &mut out[at..])
}

// How many bytes that is. A caller's sums want that it is one to three.
#[tactic(auto, unfolding(crate::specs::Length::length_bytes))]
pub fn length_width(n: usize) -> usize
    ensures { (result ≡ length (length_bytes n)) × (1 ≤ result) × (result ≤ 3) }
{
    match n {
        0..=127 => 1,
        128..=255 => 2,
        _ => 3,
    }
}
