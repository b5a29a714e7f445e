// The finger minutiae record, judged in one pass.
#![tactic(auto)]

ghost use Rattle.std.specs.Prelude.{◌≡◌, ◌*◌, ◌≤◌, length};
ghost use Rattle.std.specs.List.{list_all};
ghost use Rattle.minutiae.specs.Minutiae.{quality};
ghost use Rattle.minutiae.specs.Judged.{point_holds, points_hold, view_head, extent, record_head, is_minutiae};
ghost use Rattle.minutiae.specs.Within.{view_within};

use numbers::number;
use records::{Parts, is_either};

// The version number, 20 32 30 30: document 004's figure (9.4.1 b), which decides. Document 01 has 20 32 30 00, and so do
// the cards in the field, which are refused by it. It stands here and in the definition `version`, and nowhere else.
const VERSION: u64 = 0x20323030;

// "type in two bits, 0 to 2, x in 14; two zero bits, y in 14; angle 0 to 179; quality 0 to 100"
#[tactic(auto, unfolding(crate::specs::Judged::point_holds))]
fn point(s: &[u8; 6]) -> bool
    ensures { result ≡ point_holds s.now }
{
    (number(s, 0, 2) / 16384 <= 2)
        & (number(s, 2, 2) <= 16383)
        & (number(s, 4, 1) <= 179)
        & (number(s, 5, 1) <= 100)
}

// "m minutiae of 6 bytes"
fn points(s: &[[u8; 6]]) -> bool
    ensures { result ≡ list_all point_holds s.now }
{
    s.iter().all(point)
}

fn is_quality(q: u64) -> bool
    ensures { result ≡ quality.test q }
{
    matches!(q, 20 | 40 | 60 | 80 | 100 | 254 | 255)
}

// "position 0 to 10; view number 0 in the high four bits, impression 0 or 2 in the low; quality": the second byte is 0 or 2.
#[tactic(auto, unfolding(crate::specs::Judged::view_head))]
fn view_head(s: &[u8]) -> bool
    requires { 6 ≤ length s.now }
    ensures { result ≡ view_head s.now }
{
    (number(s, 0, 1) <= 10) & is_either(number(s, 1, 1), 0, 2) & is_quality(number(s, 2, 1))
}

// The view that stands at the front: its head, "count m, 0 to 128; m minutiae of 6 bytes; two zero bytes".
#[tactic(auto, using(crate::proofs::Listed::points_listed), unfolding(crate::specs::Judged::extent))]
fn view(s: &[u8]) -> Option<usize>
    ensures { result ≡ extent s.now }
{
    if s.len() < 6 {
        return None;
    }
    let m = number(s, 3, 1) as usize;
    let zeros = 4 + 6 * m;
    if s.len() < zeros + 2 {
        return None;
    }
    let kept = view_head(s)
        && m <= 128
        && points(s[4..zeros].as_chunks().0)
        && number(s, zeros, 2) == 0;
    kept.then_some(zeros + 2)
}

// Views, one behind the other.
struct Views;

impl Parts for Views {
    ghost told = { λ _ _. extent };

    ghost inside = { λ _ _. view_within };

    fn extent(&self, _more: usize, s: &[u8]) -> Option<usize> {
        view(s)
    }
}

// "46 4D 52 00, version, record length (2); 10 bytes not examined; resolution x and y, 2 each, both 197; views 2 (1); zero (1)"
#[tactic(auto, unfolding(crate::specs::Judged::record_head))]
fn record_head(d: &[u8]) -> bool
    requires { 26 ≤ length d.now }
    ensures { result ≡ record_head d.now }
{
    (number(d, 0, 4) == 0x464D5200)
        & (number(d, 4, 4) == VERSION)
        & (number(d, 8, 2) == d.len() as u64)
        & (number(d, 20, 2) == 197)
        & (number(d, 22, 2) == 197)
        & (number(d, 24, 1) == 2)
        & (number(d, 25, 1) == 0)
}

// Whether these bytes are a minutiae record: the 26 bytes at the front, then twice a view, and nothing after.
#[tactic(auto, unfolding(crate::specs::Judged::is_minutiae, records::specs::Fills::whole))]
pub fn is_minutiae(d: &[u8]) -> bool
    ensures { result ≡ is_minutiae d.now }
{
    if d.len() < 26 {
        return false;
    }
    if !record_head(d) {
        return false;
    }
    records::fills(&Views, 2, 26, d)
}
