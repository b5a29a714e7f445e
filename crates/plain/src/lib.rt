// 01, "Values": the small rules, each a test of some bytes.
#![tactic(auto)]

ghost use Rattle.std.specs.Prelude.{◌≡◌, get_or};
ghost use Rattle.laws.specs.Tests.{same};
ghost use Rattle.plain.specs.Plain.{is_uuid, is_policy, is_printed, is_text, ended, is_creator};
ghost use Rattle.plain.specs.Quality.{signed, is_quality};

// Byte i of s, and 0 past its end: no caller has an index to justify.
pub fn at(s: &[u8], i: usize) -> u8
    ensures { result ≡ get_or s.now i 0 }
{
    s.get(i).copied().unwrap_or(0)
}

// "High four bits of the byte at offset 6 are 1, 4 or 5; top two bits at offset 8 are 10."
#[tactic(auto, unfolding(crate::specs::Plain::is_uuid))]
pub fn is_uuid(s: &[u8]) -> bool
    ensures { result ≡ is_uuid s.now }
{
    let version = at(s, 6) / 16;
    let variant = at(s, 8) / 64;
    ((version == 1) | (version == 4) | (version == 5)) & (variant == 2)
}

// "First byte: 80, 02 and 01 clear, 40 set, 04 only with 08. Second byte: 10 or 20 hex if 20 is set in the first, else 00."
#[tactic(auto, unfolding(crate::specs::Plain::is_policy))]
pub fn is_policy(s: &[u8]) -> bool
    ensures { result ≡ is_policy s.now }
{
    let first = at(s, 0);
    let second = at(s, 1);
    (first / 0x80 % 2 == 0)
        & (first / 0x02 % 2 == 0)
        & (first / 0x01 % 2 == 0)
        & (first / 0x40 % 2 == 1)
        & (first / 0x04 % 2 <= first / 0x08 % 2)
        & (((first / 0x20 % 2 == 1) & ((second == 0x10) | (second == 0x20)))
            | ((first / 0x20 % 2 == 0) & (second == 0)))
}

// 20 to 7E hex.
fn is_printed(b: u8) -> bool
    ensures { result ≡ is_printed b }
{
    (0x20 <= b) & (b <= 0x7E)
}

// "text, bytes 20 to 7E hex". Every byte is looked at, so that the compiler takes sixteen at a time.
pub fn is_text(s: &[u8]) -> bool
    ensures { result ≡ is_text s.now }
{
    let mut text = true;
    for &b in s {
        text &= is_printed(b);
    }
    text
}

// A fixed value is compared with its bytes.
pub fn same(a: &[u8], b: &[u8]) -> bool
    ensures { result ≡ same a.now b.now }
{
    a == b
}

// A byte as a signed number: 80 to FF are -128 to -1, so FE is -2 and not 254.
fn signed(b: u8) -> i16
    ensures { result ≡ signed b }
{
    i16::from(b.cast_signed())
}

// "The quality is a signed byte, -2 to 100"; -1, a missing one, only where the format has it.
pub fn is_quality(missing: bool, b: u8) -> bool
    ensures { result ≡ is_quality missing b }
{
    let q = signed(b);
    (-2 <= q) & (q <= 100) & (missing | (q != -1))
}

// Printed bytes, and then 00.
fn ended(s: &[u8]) -> bool
    ensures { result ≡ ended s.now }
{
    for &b in s {
        if b == 0 {
            return true;
        }
        if !is_printed(b) {
            return false;
        }
    }
    false
}

// "k bytes 20 to 7E, k at most 17, then 00; bytes after that 00 are kept and not examined": so the 00 is one of the first 18.
#[tactic(auto, unfolding(crate::specs::Plain::is_creator))]
pub fn is_creator(s: &[u8]) -> bool
    ensures { result ≡ is_creator s.now }
{
    ended(&s[..s.len().min(18)])
}
