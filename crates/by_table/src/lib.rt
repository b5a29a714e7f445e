// The second reader of a FASC-N (2026-09), which "takes ten bits at once through a table of 1,024 entries". It answers what the
// first one does, `fascn::decode`, and is there for many strings at once too.
#![tactic(auto)]

ghost use Rattle.std.specs.Prelude.{◌≡◌, ◌*◌, ◌≤◌, cond, eqb, Some, None, map, length};
ghost use Rattle.laws.specs.Digits.{groups};
ghost use Rattle.verdicts.specs.Verdicts.{code_of};
ghost use Rattle.fascn.specs.Calls.{decoded_by};
ghost use Rattle.by_table.specs.Each.{planned, entry_at, entries, number_of_each};
ghost use Rattle.fascn.specs.Reading.{decoded, is_fascn};
ghost use Rattle.pairs.specs.Pairs.{entry};
ghost use Rattle.by_table.specs.Reading.{pairs_of, in_place, framed_by, firsts, seconds, four_digits, six_digits, two_pairs, five_pairs, numbers_of};

use fascn::{Decoded, Numbers};
use numbers::number;
use pairs::{Pair, Sort, pair_in};
use verdicts::Fault;

// 25 bytes as twenty pairs: five bytes hold four. It and `pairs_of` are put into their callers, so that the pairs need not be laid
// into memory and taken out again: 311 instructions a string in place of 354.
#[inline(always)]
fn look_up(s: &[u8; 25]) -> [Pair; 20]
    ensures { result ≡ map entry (groups 256 5 1024 4 5 0 s.now) }
{
    let a = number(s, 0, 5);
    let b = number(s, 5, 5);
    let c = number(s, 10, 5);
    let d = number(s, 15, 5);
    let e = number(s, 20, 5);
    [
        pair_in(a / 1073741824),
        pair_in(a / 1048576),
        pair_in(a / 1024),
        pair_in(a),
        pair_in(b / 1073741824),
        pair_in(b / 1048576),
        pair_in(b / 1024),
        pair_in(b),
        pair_in(c / 1073741824),
        pair_in(c / 1048576),
        pair_in(c / 1024),
        pair_in(c),
        pair_in(d / 1073741824),
        pair_in(d / 1048576),
        pair_in(d / 1024),
        pair_in(d),
        pair_in(e / 1073741824),
        pair_in(e / 1048576),
        pair_in(e / 1024),
        pair_in(e),
    ]
}

// The twenty pairs, where there are 25 bytes.
#[inline(always)]
fn pairs_of(bytes: &[u8]) -> Option<[Pair; 20]>
    ensures { result ≡ cond (eqb (length bytes.now) 25) (Some (pairs_of bytes.now)) None }
{
    let bytes = bytes.try_into().ok()?;
    Some(look_up(bytes))
}

// Whether each pair may stand where it does.
fn is_in_place(p: [Pair; 20]) -> bool
    ensures { result ≡ in_place p }
{
    p[0].is(Sort::Start)
        & p[1].is(Sort::Digits)
        & p[2].is(Sort::Before)
        & p[3].is(Sort::Digits)
        & p[4].is(Sort::Digits)
        & p[5].is(Sort::Behind)
        & p[6].is(Sort::Digits)
        & p[7].is(Sort::Digits)
        & p[8].is(Sort::Before)
        & p[9].is(Sort::Before)
        & p[10].is(Sort::Before)
        & p[11].is(Sort::Digits)
        & p[12].is(Sort::Digits)
        & p[13].is(Sort::Digits)
        & p[14].is(Sort::Digits)
        & p[15].is(Sort::Digits)
        & p[16].is(Sort::Digits)
        & p[17].is(Sort::Digits)
        & p[18].is(Sort::Digits)
        & p[19].is(Sort::End)
}

// The exclusive or of the first of each pair.
fn firsts(p: [Pair; 20]) -> u8
    ensures { result ≡ firsts p }
{
    p.iter().fold(0, |c, pair| c ^ pair.first)
}

// That of the second of each pair.
fn seconds(p: [Pair; 20]) -> u8
    ensures { result ≡ seconds p }
{
    p.iter().fold(0, |c, pair| c ^ pair.second)
}

// Each pair stands where it may, and the exclusive or of all the values is 0.
fn is_framed(p: [Pair; 20]) -> bool
    ensures { result ≡ framed_by p }
{
    is_in_place(p) & (firsts(p) == seconds(p))
}

// A number of four digits, of which the first is the second of a pair, and the last the first of another.
fn four_digits(a: Pair, b: Pair, c: Pair) -> u64
    ensures { result ≡ four_digits a b c }
{
    u64::from(a.second) * 1000 + u64::from(b.both) * 10 + u64::from(c.first)
}

fn six_digits(a: Pair, b: Pair, c: Pair, d: Pair) -> u64
    ensures { result ≡ six_digits a b c d }
{
    u64::from(a.second) * 100000
        + u64::from(b.both) * 1000
        + u64::from(c.both) * 10
        + u64::from(d.first)
}

// A number of whole pairs.
fn two_pairs(a: Pair, b: Pair) -> u64
    ensures { result ≡ two_pairs a b }
{
    u64::from(a.both) * 100 + u64::from(b.both)
}

fn five_pairs(a: Pair, b: Pair, c: Pair, d: Pair, e: Pair) -> u64
    ensures { result ≡ five_pairs a b c d e }
{
    u64::from(a.both) * 100000000
        + u64::from(b.both) * 1000000
        + u64::from(c.both) * 10000
        + u64::from(d.both) * 100
        + u64::from(e.both)
}

// The nine numbers, where the pairs stand in their places.
fn fields(p: [Pair; 20]) -> Numbers
    ensures { result ≡ numbers_of p }
{
    Numbers {
        agency: four_digits(p[0], p[1], p[2]),
        system: two_pairs(p[3], p[4]),
        credential: six_digits(p[5], p[6], p[7], p[8]),
        series: u64::from(p[9].first),
        issue: u64::from(p[10].first),
        person: five_pairs(p[11], p[12], p[13], p[14], p[15]),
        category: u64::from(p[16].first),
        organisation: four_digits(p[16], p[17], p[18]),
        association: u64::from(p[18].second),
    }
}

// Whether the bytes are a FASC-N.
pub fn is_fascn(bytes: &[u8]) -> bool
    ensures { result ≡ is_fascn bytes.now }
{
    let Some(pairs) = pairs_of(bytes) else {
        return false;
    };
    is_framed(pairs)
}

// The numbers of 25 conforming bytes.
pub fn decode(bytes: &[u8]) -> Option<Numbers>
    ensures { decoded_by result ≡ decoded bytes.now }
{
    let pairs = pairs_of(bytes)?;
    if !is_framed(pairs) {
        return None;
    }
    Some(fields(pairs))
}

// ---- many strings at once

// How many strings of 25 bytes there are, where an entry is lent for each.
#[tactic(auto, unfolding(crate::specs::Each::planned))]
fn planned(size: usize, room: usize) -> Result<usize, Fault>
    ensures { result ≡ planned size room }
{
    if size % 25 != 0 {
        return Err(Fault::BadFascn);
    }
    if room < size / 25 {
        return Err(Fault::SmallRoom);
    }
    Ok(size / 25)
}

// Entry i of a list: what decoding string i alone answers, and zeros past the last.
#[tactic(auto, unfolding(crate::specs::Each::entry_at))]
fn entry_at(strings: &[u8], count: usize, i: usize) -> Decoded
    requires { 25 * count ≤ length strings.now }
    ensures { result ≡ entry_at strings.now count i }
{
    if count <= i {
        return Decoded::default();
    }
    decode(&strings[25 * i..25 * i + 25]).into()
}

// "n strings of 25 bytes, a lent list for each one's number and nine numbers; bytes left over or a list that is too short are refused
// by number with zeros alone". Each entry is written once, so that the list is gone through once.
pub fn decode_each(strings: &[u8], list: &mut [Decoded]) -> Result<(), Fault>
    ensures number { code_of result ≡ number_of_each (length strings.now) (length list.old) }
    ensures list { list.new ≡ entries strings.now (length list.old) }
{
    let planned = planned(strings.len(), list.len());
    let count = planned.unwrap_or(0);
    for (i, entry) in list.iter_mut().enumerate() {
        *entry = entry_at(strings, count, i);
    }
    planned.map(|_| ())
}
