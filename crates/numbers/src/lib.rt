// Numbers that stand in bytes, most significant digit first.
#![tactic(auto)]

ghost use Rattle.std.specs.Prelude.{◌≡◌, ℕ, ◌+◌, ◌-◌, ◌*◌, ◌^◌, ◌<◌, ◌≤◌, length};
ghost use Rattle.laws.specs.Digits.{value};
ghost use Rattle.laws.specs.Layout.{part, field};

// The number whose `width` digits in `BASE` stand at `at`, a byte each. A byte may be more than a digit.
pub fn number_in<const BASE: u64>(s: &[u8], at: usize, width: usize) -> u64
    requires { (at + width ≤ length s.now) × (1 < BASE) × (255 * BASE ^ width < 2 ^ 64 * (BASE - 1) + 255) }
    ensures { (result ≡ value BASE (part s.now at width)) × (result * (BASE - 1) + 255 ≤ 255 * BASE ^ width) }
{
    let mut n = 0;
    for &digit in &s[at..at + width] {
        n = n * BASE + u64::from(digit);
    }
    n
}

// The number that stands at `at` in `width` bytes.
pub fn number(s: &[u8], at: usize, width: usize) -> u64
    requires { (at + width ≤ length s.now) × (width ≤ 8) }
    ensures { (result ≡ field s.now at width) × (result < 256 ^ width) }
{
    number_in::<256>(s, at, width)
}
