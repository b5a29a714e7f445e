// Request 2026-04: the front of a DER item, which is its tag and its length, and whether the item fits.
#![tactic(auto)]

ghost use Rattle.std.specs.Prelude.{◌≡◌, ◌<◌, ◌≤◌, length, get_or};
ghost use Rattle.heads.specs.Head.{head_of, headed, Inside};

// What stands where an item is due: how many bytes the item takes and, of a constructed one, how many stand before its parts.
#[derive(Clone, Copy)]
pub enum Head {
    Leaf(usize),
    Open(usize, usize),
}

// A tag, and a length of n in `width` bytes: that the tag is good and n bytes fit, where `room` bytes stand behind the tag.
fn fitting(tag: usize, room: usize, n: usize, width: usize) -> Option<Head>
    requires { (width ≤ room) × (room < 18446744073709551615) }
    ensures { result ≡ headed tag room n width }
{
    if 31 <= tag % 32 {
        return None;
    }
    if room - width < n {
        return None;
    }
    if tag / 32 % 2 == 1 {
        return Some(Head::Open(1 + width, 1 + width + n));
    }
    Some(Head::Leaf(1 + width + n))
}

// Where the length takes more than one byte: its first holds 80 hex and how many follow, the first of those no zero. A number
// that takes a ninth byte is longer than any slice.
fn long_front(s: &[u8]) -> Option<Head>
    requires { (1 < length s.now) × (128 ≤ get_or s.now 1 0) }
    ensures { result ≡ head_of s.now }
{
    let k = usize::from(s[1]) - 128;
    if k == 0 {
        return None;
    }
    if s.len() - 2 < k {
        return None;
    }
    let mut n = usize::from(s[2]);
    let zero_first = n == 0;
    if zero_first {
        return None;
    }
    for &byte in &s[3..2 + k] {
        if 0xFFFFFFFFFFFFFF < n {
            return None;
        }
        n = n * 256 + usize::from(byte);
    }
    if n < 128 {
        return None;
    }
    fitting(usize::from(s[0]), s.len() - 1, n, 1 + k)
}

// The item at the front of what its surroundings still have: its tag, its length, and that it fits.
pub fn front(s: &[u8]) -> Option<Head>
    ensures head { result ≡ head_of s.now }
    ensures inside { Inside (length s.now) result }
{
    if s.len() < 2 {
        return None;
    }
    let n = usize::from(s[1]);
    if 128 <= n {
        return long_front(s);
    }
    fitting(usize::from(s[0]), s.len() - 1, n, 1)
}
