// Request 2026-04: whether bytes are one DER item, to a depth that is a parameter, in one pass over the items.
#![tactic(auto)]

ghost use Rattle.std.specs.Prelude.{◌≡◌, ◌≤◌};
ghost use Rattle.der.specs.Walk.{items, filled, PassesOver, Counts, judged, fault_of, certificate, depth_for};

use heads::{Head, front};
use verdicts::Fault;

// What is wrong with bytes that should be one item: 24, or 25.
#[derive(Clone, Copy)]
pub enum Malformed {
    Bad,
    Deep,
}

impl From<Malformed> for Fault {
    ghost from_gives = { λ m f. f ≡ fault_of m };

    fn from(m: Malformed) -> Fault {
        match m {
            Malformed::Bad => Fault::BadDer,
            Malformed::Deep => Fault::TooDeep,
        }
    }
}

// What is behind the primitive items at the front with a length of one byte. Items stand mostly in such runs: one test of the
// tag says that it is primitive and of a number under 31.
fn past_leaves(s: &[u8]) -> &[u8]
    ensures { PassesOver s.now result.now }
{
    let mut rest = s;
    while let [tag, length, behind @ ..] = rest {
        if 31 <= *tag % 64 || 127 < *length {
            break;
        }
        let n = usize::from(*length);
        if behind.len() < n {
            break;
        }
        rest = &behind[n..];
    }
    rest
}

// Whether parts fill v, one after the other; `depth` levels may be opened, with a call for each.
fn parts(v: &[u8], depth: usize) -> Result<(), Malformed>
    requires { depth ≤ 16 }
    ensures { result ≡ filled (items depth v.now) }
{
    if depth == 0 {
        return if v.is_empty() {
            Ok(())
        } else {
            Err(Malformed::Deep)
        };
    }
    let mut rest = v;
    while let Some(head) = front(rest) {
        match head {
            Head::Leaf(size) => rest = past_leaves(&rest[size..]),
            Head::Open(first, size) => {
                parts(&rest[first..size], depth - 1)?;
                rest = &rest[size..];
            }
        }
    }
    if !rest.is_empty() {
        return Err(Malformed::Bad);
    }
    Ok(())
}

// How many parts there are, where they fill v.
fn count(v: &[u8]) -> usize
    ensures { Counts v.now result }
{
    let mut n = 0;
    let mut rest = v;
    while let Some(head) = front(rest) {
        n += 1;
        match head {
            Head::Leaf(size) | Head::Open(_, size) => rest = &rest[size..],
        }
    }
    n
}

// Whether v is one item, at most `depth` levels deep, and how many parts it has.
pub fn item(v: &[u8], depth: usize) -> Result<usize, Malformed>
    ensures { result ≡ judged (depth_for depth) v.now }
{
    let deep = depth.min(16);
    if v.is_empty() {
        return Err(Malformed::Bad);
    }
    if deep == 0 {
        return Err(Malformed::Deep);
    }
    let (contents, size) = match front(v).ok_or(Malformed::Bad)? {
        Head::Leaf(size) => (&v[..0], size),
        Head::Open(first, size) => (&v[first..size], size),
    };
    parts(contents, deep - 1)?;
    let bytes_behind = size != v.len();
    if bytes_behind {
        return Err(Malformed::Bad);
    }
    Ok(count(contents))
}

// "the outermost a SEQUENCE of three parts, judged when its last part has been read"
pub fn judge(v: &[u8], depth: usize) -> Result<(), Fault>
    ensures { result ≡ certificate (depth_for depth) v.now }
{
    let count = item(v, depth)?;
    let sequence = v.first().copied() == Some(0x30);
    let three = count == 3;
    if sequence & three {
        Ok(())
    } else {
        Err(Fault::BadDer)
    }
}
