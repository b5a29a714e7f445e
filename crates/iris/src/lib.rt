// The iris record, judged in one pass over its representations.
// Their images are not looked at, and their fields by `pictures`.
#![tactic(auto)]

ghost use Rattle.std.specs.Prelude.{◌≡◌, ◌-◌, ◌≤◌, length};
ghost use Rattle.iris.specs.Judged.{extent, extent_of, record_head, is_iris};
ghost use Rattle.iris.specs.Within.{representation_within};

use numbers::number;
use pictures::{date_holds, image_holds};
use records::{Parts, is_either};

// The representation with this number that stands at the front: its length is what its parts make, 52 bytes, 5 for each
// quality block and the image, and lies within the record.
#[tactic(auto, unfolding(crate::specs::Judged::extent))]
fn representation(s: &[u8], index: u64) -> Option<usize>
    ensures { result ≡ extent index s.now }
{
    if s.len() < 52 {
        return None;
    }
    let blocks = 5 * number(s, 18, 1) as usize;
    if s.len() < 52 + blocks {
        return None;
    }
    let size = number(s, 0, 4) as usize;
    let parts = 52 + blocks + number(s, 48 + blocks, 4) as usize;
    let kept = date_holds(s)
        & image_holds(&s[19 + blocks..], index)
        & (size == parts)
        & (size <= s.len());
    kept.then_some(size)
}

// The representations of a record that has so many, numbered from 1 on.
#[derive(Clone, Copy)]
struct Representations {
    count: usize,
}

impl Parts for Representations {
    ghost told = { λ it. extent_of it.count };

    ghost inside = { λ it more. representation_within (it.count - more) };

    fn extent(&self, more: usize, s: &[u8]) -> Option<usize> {
        representation(s, self.count.saturating_sub(more) as u64)
    }
}

// "Format identifier is 0x49495200", "Version number is 0x30323000", the record's length, at most 3,072 bytes for each of one or
// two representations, "Certification flag is 0x00", "Number of eyes represented is 1 or 2". The number of representations is
// handed in, since these are counted by it too.
#[tactic(auto, unfolding(crate::specs::Judged::record_head))]
fn record_head(d: &[u8], count: usize) -> bool
    requires { 16 ≤ length d.now }
    ensures { result ≡ record_head count d.now }
{
    let size = d.len() as u64;
    (number(d, 0, 4) == 0x49495200)
        & (number(d, 4, 4) == 0x30323000)
        & (number(d, 8, 4) == size)
        & (matches!(count, 1 | 2) && d.len() <= 3072 * count)
        & (number(d, 14, 1) == 0)
        & is_either(number(d, 15, 1), 1, 2)
}

// Whether these bytes are an iris record: the 16 bytes of its header, then as many representations as it says, and nothing after.
#[tactic(auto, unfolding(crate::specs::Judged::is_iris, records::specs::Fills::whole))]
pub fn is_iris(d: &[u8]) -> bool
    ensures { result ≡ is_iris d.now }
{
    if d.len() < 16 {
        return false;
    }
    let count = number(d, 12, 2) as usize;
    if !record_head(d, count) {
        return false;
    }
    records::fills(&Representations { count }, count, 16, d)
}
