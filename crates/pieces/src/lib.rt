// Request 2026-14: a folder is gone over before any container of it is looked at. "a two-byte count, at most 256, then for each a
// kind byte, a four-byte length and the bytes, all big-endian, nothing after": it comes in pieces of any size.
#![tactic(auto)]

ghost use Rattle.std.specs.Prelude.{◌≡◌, ◌<◌, length};
ghost use Rattle.verdicts.specs.Verdicts.{code_of};
ghost use Rattle.pieces.specs.Pieces.{one, passed, counted, long, over, Turns, ended};

use verdicts::Fault;

// How far it is. Which byte comes next: 0 and 1 the count's; 2 an entry's kind; 3 to 6 its length's; 7 one of its container; 8 none,
// the folder is whole; 9 none, it is torn. The number that is being read, or how many bytes of the container come behind the next
// one. How many entries are left, with this one. It begins as zeros.
// Stays three numbers, not an enum: the callers of C and of `folder_step` hand in any three of them, and each set has an answer.
#[derive(Clone, Copy)]
pub struct State {
    pub phase: u64,
    pub value: u64,
    pub left: u64,
}

// The folder is whole.
const WHOLE: State = State {
    phase: 8,
    value: 0,
    left: 0,
};

// It is torn.
const TORN: State = State {
    phase: 9,
    value: 0,
    left: 0,
};

// An entry lies behind.
fn next_entry(left: u64) -> State
    ensures { result ≡ passed left }
{
    if left <= 1 {
        return WHOLE;
    }
    State {
        phase: 2,
        value: 0,
        left: left - 1,
    }
}

// The count was read: "at most 256".
fn after_count(n: u64) -> State
    ensures { result ≡ counted n }
{
    if 256 < n {
        return TORN;
    }
    if n == 0 {
        return WHOLE;
    }
    State {
        phase: 2,
        value: 0,
        left: n,
    }
}

// So many bytes of a container are left: a length was read, or a byte lies behind.
fn after_length(n: u64, left: u64) -> State
    ensures { result ≡ long n left }
{
    if n == 0 {
        return next_entry(left);
    }
    State {
        phase: 7,
        value: n - 1,
        left,
    }
}

// One byte more. Of a number that is being read four bytes are kept, so that a kind is gone once the length behind it is whole, and
// no state that a caller may have made grows too large.
#[tactic(auto, unfolding(crate::specs::Pieces::one))]
fn one_byte(s: State, x: u8) -> State
    ensures { result ≡ one s x }
{
    let n = s.value % 16777216 * 256 + u64::from(x);
    match s.phase {
        1 => after_count(n),
        0..=5 => State {
            phase: s.phase + 1,
            value: n,
            left: s.left,
        },
        6 => after_length(n, s.left),
        7 => after_length(s.value, s.left),
        _ => TORN,
    }
}

// The state after a byte, or after as many as can be passed over at once, and what of the piece is behind them. What is left of a
// container, as far as the piece goes, and the kind and length of an entry that stand in the piece whole, are taken at once; any
// other byte by itself.
fn turn(s: State, piece: &[u8]) -> (State, &[u8])
    requires { 0 < length piece.now }
    ensures { Turns s piece.now result.0 result.1.now }
{
    let room = piece.len() as u64;
    if s.phase == 7 {
        if room <= s.value {
            let part = State {
                value: s.value - room,
                ..s
            };
            return (part, &[]);
        }
        return (next_entry(s.left), &piece[s.value as usize + 1..]);
    }
    if (s.phase == 2) & (5 <= room) {
        let size = numbers::number(piece, 1, 4);
        return (after_length(size, s.left), &piece[5..]);
    }
    (one_byte(s, piece[0]), &piece[1..])
}

// A piece more.
pub fn step(s: State, piece: &[u8]) -> State
    ensures { result ≡ over s piece.now }
{
    let mut state = s;
    let mut rest = piece;
    while !rest.is_empty() {
        (state, rest) = turn(state, rest);
    }
    state
}

// "Refusals: 32, folder cut short, bytes left over or count above 256, before any container; 2 for today comes first of all"
pub fn finish(today: u64, s: State) -> Result<(), Fault>
    ensures { code_of result ≡ ended today s }
{
    if !dates::is_date(today) {
        return Err(Fault::NoDate);
    }
    if s.phase == 8 {
        Ok(())
    } else {
        Err(Fault::TornFolder)
    }
}
