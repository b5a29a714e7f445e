// The facial record, judged in one pass over its images. Their pixels are not looked at.
#![tactic(auto)]

ghost use Rattle.std.specs.Prelude.{◌≡◌, ◌≤◌, length};
ghost use Rattle.facial.specs.Judged.{informed, extent, record_head, is_facial};
ghost use Rattle.facial.specs.Within.{block_within};

use numbers::number;
use records::{Parts, is_either};

// "Facial Image Type is 1", "Image Data Type is 0 or 1", "Image Color Space is 1", "Source Type is 2 or 6"
#[tactic(auto, unfolding(crate::specs::Judged::informed))]
fn information(s: &[u8]) -> bool
    requires { 12 ≤ length s.now }
    ensures { result ≡ informed s.now }
{
    (number(s, 0, 1) == 1)
        & is_either(number(s, 1, 1), 0, 1)
        & (number(s, 6, 1) == 1)
        & is_either(number(s, 7, 1), 2, 6)
}

// The block that stands at the front: it has at least 32 bytes and 8 for each feature point, and lies within the record.
#[tactic(auto, unfolding(crate::specs::Judged::extent))]
fn block(s: &[u8]) -> Option<usize>
    ensures { result ≡ extent s.now }
{
    if s.len() < 32 {
        return None;
    }
    let size = number(s, 0, 4) as usize;
    let points = 8 * number(s, 4, 2) as usize;
    let kept = 32 + points <= size && size <= s.len() && information(&s[20 + points..]);
    kept.then_some(size)
}

// Images, one behind the other: each is a block.
struct Images;

impl Parts for Images {
    ghost told = { λ _ _. extent };

    ghost inside = { λ _ _. block_within };

    fn extent(&self, _more: usize, s: &[u8]) -> Option<usize> {
        block(s)
    }
}

// "Format Identifier has a value 0x46414300", "Version Number has a value of 0x30313000", the record length, and "Number of
// Facial Images value is ≥ 1". That number is handed in, since the images are counted by it too.
#[tactic(auto, unfolding(crate::specs::Judged::record_head))]
fn record_head(d: &[u8], count: usize) -> bool
    requires { 14 ≤ length d.now }
    ensures { result ≡ record_head count d.now }
{
    (number(d, 0, 4) == 0x46414300)
        & (number(d, 4, 4) == 0x30313000)
        & (number(d, 8, 4) == d.len() as u64)
        & (1 <= count)
}

// Whether these bytes are a facial record: the 14 bytes of its header, then as many images as it says, and nothing after.
#[tactic(auto, unfolding(crate::specs::Judged::is_facial, records::specs::Fills::whole))]
pub fn is_facial(d: &[u8]) -> bool
    ensures { result ≡ is_facial d.now }
{
    if d.len() < 14 {
        return false;
    }
    let count = number(d, 12, 2) as usize;
    if !record_head(d, count) {
        return false;
    }
    records::fills(&Images, count, 14, d)
}
