// The FASC-N, in 25 bytes: decoded, and encoded into a lent room.
#![tactic(auto)]

ghost use Rattle.std.specs.Prelude.{◌≡◌, Some, None, Bool, cond, eqb, [], ◌∷◌, ◌++◌, map, ℕ, ◌+◌, ◌-◌, ◌*◌, ◌^◌, ◌<◌, ◌≤◌, length};
ghost use Rattle.std.specs.List.{list_all};
ghost use Rattle.laws.specs.Digits.{digits, value, stored, groups};
ghost use Rattle.laws.specs.Layout.{part};
ghost use Rattle.verdicts.specs.Verdicts.{code_of};
ghost use Rattle.fascn.specs.Fascn.{symbol, exclusive, values, checked, encoded, in_range};
ghost use Rattle.fascn.specs.Reading.{value_of, is_digit, framed, fields, decoded, origin_of};
ghost use Rattle.fascn.specs.Calls.{decoded_by, Encoded};

use numbers::{number, number_in};
use verdicts::Fault;

// Laid out as in C, where a list of answers is lent.
#[repr(C)]
#[derive(Clone, Copy, Default)]
pub struct Numbers {
    pub agency: u64,
    pub system: u64,
    pub credential: u64,
    pub series: u64,
    pub issue: u64,
    pub person: u64,
    pub category: u64,
    pub organisation: u64,
    pub association: u64,
}

// Where a card is from.
#[derive(Clone, Copy, Default)]
pub struct Origin {
    pub agency: u64,
    pub system: u64,
}

// What decoding answers in 01's numbers: 0 and the numbers, or 17 and nine zeros.
#[repr(C)]
#[derive(Clone, Copy, Default)]
pub struct Decoded {
    pub number: u64,
    pub numbers: Numbers,
}

impl From<Option<Numbers>> for Decoded {
    ghost from_gives = { λ read d. d ≡ decoded_by read };

    fn from(read: Option<Numbers>) -> Decoded {
        match read {
            Some(numbers) => Decoded { number: 0, numbers },
            None => Decoded {
                number: Fault::BadFascn.into(),
                numbers: Numbers::default(),
            },
        }
    }
}

// `v` with the `count` lowest digits of `x` in `base` stored from `at` on.
fn put<const N: usize>(v: [u8; N], at: usize, count: usize, base: u64, x: u64) -> [u8; N]
    requires { (at + count ≤ N) × (1 < base) × (base ≤ 256) }
    ensures { result ≡ stored v.entry at (digits base count x) }
{
    let mut out = v;
    let mut rest = x;
    for i in (0..count).rev() {
        out[at + i] = (rest % base) as u8;
        rest /= base;
    }
    out
}

// The exclusive or of all the values.
fn exclusive(v: [u8; 40]) -> u8
    ensures { result ≡ exclusive 0 v }
{
    v.iter().fold(0, |c, &x| c ^ x)
}

// ---- reading

// 25 bytes as forty characters: five bytes hold eight.
fn unpack(s: &[u8; 25]) -> [u8; 40]
    ensures { result ≡ groups 256 5 32 8 5 0 s.now }
{
    let out = [0u8; 40];
    let out = put(out, 0, 8, 32, number(s, 0, 5));
    let out = put(out, 8, 8, 32, number(s, 5, 5));
    let out = put(out, 16, 8, 32, number(s, 10, 5));
    let out = put(out, 24, 8, 32, number(s, 15, 5));
    put(out, 32, 8, 32, number(s, 20, 5))
}

// The forty characters, where there are 25 bytes. Their values are taken by those who call this, so that one who needs few of
// them takes few.
fn characters_in(bytes: &[u8]) -> Option<[u8; 40]>
    ensures { result ≡ cond (eqb (length bytes.now) 25) (Some (digits 32 40 (value 256 bytes.now))) None }
{
    let bytes = bytes.try_into().ok()?;
    Some(unpack(bytes))
}

// A character's value, its bits lowest first; or 16 where the number of ones in its five bits is even.
// Stays a number beyond the values: 16 fails every test of the frame as it stands, and an Option is no plainer, since each test
// and the exclusive or would have to take it apart.
fn value_of(c: u8) -> u8
    ensures { result ≡ value_of c }
{
    if u8::count_ones(c) % 2 == 1 {
        c / 2 % 2 * 8 + c / 4 % 2 * 4 + c / 8 % 2 * 2 + c / 16 % 2
    } else {
        16
    }
}

// Stays a loop, as in `symbols`: the array's `map` takes each element out and lays it into another array; tried, 1735 instructions
// in place of 545.
fn values_of(v: [u8; 40]) -> [u8; 40]
    ensures { result ≡ map value_of v }
{
    let mut out = v;
    for c in &mut out {
        *c = value_of(*c);
    }
    out
}

// Whether the `count` values from `at` on are digits, 0 to 9.
fn are_digits(v: [u8; 40], at: usize, count: usize) -> bool
    requires { at + count ≤ 40 }
    ensures { result ≡ list_all is_digit (part v at count) }
{
    v[at..at + count].iter().all(|&d| d < 10)
}

// Start, separators, end and check stand where they belong, and digits between them.
fn is_framed(v: [u8; 40]) -> bool
    ensures { result ≡ framed v }
{
    (v[0] == 11)
        & are_digits(v, 1, 4)
        & (v[5] == 13)
        & are_digits(v, 6, 4)
        & (v[10] == 13)
        & are_digits(v, 11, 6)
        & (v[17] == 13)
        & (v[18] < 10)
        & (v[19] == 13)
        & (v[20] < 10)
        & (v[21] == 13)
        & are_digits(v, 22, 16)
        & (v[38] == 15)
        & (exclusive(v) == 0)
}

fn fields(v: [u8; 40]) -> Numbers
    ensures { result ≡ fields v }
{
    Numbers {
        agency: number_in::<10>(&v, 1, 4),
        system: number_in::<10>(&v, 6, 4),
        credential: number_in::<10>(&v, 11, 6),
        series: number_in::<10>(&v, 18, 1),
        issue: number_in::<10>(&v, 20, 1),
        person: number_in::<10>(&v, 22, 10),
        category: number_in::<10>(&v, 32, 1),
        organisation: number_in::<10>(&v, 33, 4),
        association: number_in::<10>(&v, 37, 1),
    }
}

// The numbers of 25 conforming bytes.
pub fn decode(bytes: &[u8]) -> Option<Numbers>
    ensures { decoded_by result ≡ decoded bytes.now }
{
    let v = values_of(characters_in(bytes)?);
    if !is_framed(v) {
        return None;
    }
    Some(fields(v))
}

// The agency and the system where they stand in 25 bytes. That these are a FASC-N is not asked: it is for those who know it, and
// spares them the frame and seven numbers.
pub fn origin_of(bytes: &[u8]) -> Origin
    ensures { result ≡ origin_of bytes.now }
{
    let Some(characters) = characters_in(bytes) else {
        return Origin::default();
    };
    let v = values_of(characters);
    let agency = number_in::<10>(&v, 1, 4);
    let system = number_in::<10>(&v, 6, 4);
    Origin { agency, system }
}

// ---- writing

// A value's character: its bits lowest first, and a parity that makes the number of ones odd.
fn symbol(v: u8) -> u8
    ensures { result ≡ symbol v }
{
    let parity = 1 - u8::count_ones(v) % 2;
    v % 2 * 16 + v / 2 % 2 * 8 + v / 4 % 2 * 4 + v / 8 % 2 * 2 + parity as u8
}

fn symbols(v: [u8; 40]) -> [u8; 40]
    ensures { result ≡ map symbol v }
{
    let mut out = v;
    for c in &mut out {
        *c = symbol(*c);
    }
    out
}

// The 39 values before the check, and a zero.
fn values(n: Numbers) -> [u8; 40]
    ensures { result ≡ values n ++ (0 ∷ []) }
{
    let mut v = [0u8; 40];
    v[0] = 11;
    v[5] = 13;
    v[10] = 13;
    v[17] = 13;
    v[19] = 13;
    v[21] = 13;
    v[38] = 15;
    let v = put(v, 1, 4, 10, n.agency);
    let v = put(v, 6, 4, 10, n.system);
    let v = put(v, 11, 6, 10, n.credential);
    let v = put(v, 18, 1, 10, n.series);
    let v = put(v, 20, 1, 10, n.issue);
    let v = put(v, 22, 10, 10, n.person);
    let v = put(v, 32, 1, 10, n.category);
    let v = put(v, 33, 4, 10, n.organisation);
    put(v, 37, 1, 10, n.association)
}

// The 40 values.
fn checked(n: Numbers) -> [u8; 40]
    ensures { result ≡ checked n }
{
    let mut v = values(n);
    v[39] = exclusive(v);
    v
}

// Forty characters as 25 bytes.
fn pack(v: [u8; 40]) -> [u8; 25]
    ensures { result ≡ groups 32 8 256 5 5 0 v }
{
    let out = [0u8; 25];
    let out = put(out, 0, 5, 256, number_in::<32>(&v, 0, 8));
    let out = put(out, 5, 5, 256, number_in::<32>(&v, 8, 8));
    let out = put(out, 10, 5, 256, number_in::<32>(&v, 16, 8));
    let out = put(out, 15, 5, 256, number_in::<32>(&v, 24, 8));
    put(out, 20, 5, 256, number_in::<32>(&v, 32, 8))
}

// The numbers' 25 bytes.
fn encoded(n: Numbers) -> [u8; 25]
    ensures { result ≡ encoded n }
{
    pack(symbols(checked(n)))
}

// Whether each number has no more digits than its field.
fn is_in_range(n: Numbers) -> bool
    ensures { result ≡ in_range n }
{
    (n.agency < 10000)
        & (n.system < 10000)
        & (n.credential < 1000000)
        & (n.series < 10)
        & (n.issue < 10)
        & (n.person < 10000000000)
        & (n.category < 10)
        & (n.organisation < 10000)
        & (n.association < 10)
}

// "7, then 3 for a room under 25": the numbers' 25 bytes, and zeros after them: 0; or zeros alone. The room is cleared
// before, so that every refusal is a plain return.
pub fn encode(numbers: Numbers, room: &mut [u8]) -> Result<(), Fault>
    ensures { Encoded numbers room.old room.new (code_of result) }
{
    let long = !is_in_range(numbers);
    let small = room.len() < 25;
    room::clear(room);
    if long {
        return Err(Fault::LongNumber);
    }
    if small {
        return Err(Fault::SmallRoom);
    }
    let bytes = encoded(numbers);
    room::put_all(&bytes, room);
    Ok(())
}
