// What records have in common: a field that is one number or another, and parts that stand one after the other, each as long
// as it says itself.
#![tactic(auto)]

ghost use Rattle.std.specs.Prelude.{◌≡◌, ◌≤◌, ℕ, List, Option, Some, length};
ghost use Rattle.laws.specs.Format.{◌or◌};
ghost use Rattle.records.specs.Fills.{fills};

// Whether a field is this number or that.
pub fn is_either(n: u64, this: u64, that: u64) -> bool
    ensures { result ≡ (this or that).test n }
{
    (n == this) | (n == that)
}

// Parts that stand one after the other in a record.
pub trait Parts {
    // How many bytes the part takes that stands at the front of some bytes, where so many parts more are due; none, where none stands.
    ghost told: { Self → ℕ → List ℕ → Option ℕ };

    fn extent(&self, more: usize, s: &[u8]) -> Option<usize>
        ensures { result ≡ told self.now more s.now };

    // A part lies within the bytes.
    ghost inside: { (p : Self) (more : ℕ) (s : List ℕ) (n : ℕ) → told p more s ≡ Some n → n ≤ length s };
}

// Whether from an offset on so many parts stand one after the other, and nothing after them.
pub fn fills<P: Parts>(parts: &P, count: usize, front: usize, d: &[u8]) -> bool
    requires { front ≤ length d.now }
    ensures { result ≡ fills (P.told parts.now) count front d.now }
{
    let mut at = front;
    for more in (0..count).rev() {
        let Some(size) = parts.extent(more, &d[at..]) else {
            return false;
        };
        at += size;
    }
    at == d.len()
}
