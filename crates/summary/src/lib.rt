// Request 2026-14, "The order's folder": a row for each container of a folder, and the two last lines, each as text into a lent room;
// and the state that goes from row to row.
#![tactic(auto)]

ghost use Rattle.std.specs.Prelude.{true, ◌≡◌, ltb, length};
ghost use Rattle.laws.specs.Room.{zeros, Put};
ghost use Rattle.verdicts.specs.Output.{Leaves};
ghost use Rattle.dates.specs.Date.{is_date};
ghost use Rattle.container.specs.Judged.{contents};
ghost use Rattle.summary.specs.Rows.{one_more, seen, counted, by_length, lent, Judged, row_text, last_text, alike, rowed, row_room, RowAnswers, last_output};

use container::Conforming;
use verdicts::{Done, Fault, Finding, Verdict};

// "the state of the folder by value": how many conform so far; 0 while no FASC-N was seen, 1 while all that were seen are alike,
// else they differ; the first that was seen. It begins as zeros.
#[derive(Clone, Copy)]
pub struct Tally {
    pub good: u64,
    pub agreement: u64,
    pub fascn: [u8; 25],
}

// What a row's call answers: the number, the length of the line, and the state.
#[derive(Clone, Copy)]
pub struct Rowed {
    pub number: u64,
    pub length: u64,
    pub tally: Tally,
}

// One container more conforms. A state that a caller made may hold any number: the count stays at the largest.
fn one_more(tally: Tally) -> Tally
    ensures { result ≡ one_more tally }
{
    Tally {
        good: tally.good.saturating_add(1),
        ..tally
    }
}

// A FASC-N was seen: it is the first, or it is compared with the first.
#[tactic(auto, unfolding(crate::specs::Rows::seen))]
fn note(tally: Tally, fascn: &[u8]) -> Tally
    requires { length fascn.now ≡ 25 }
    ensures { result ≡ seen fascn.now tally }
{
    match tally.agreement {
        0 => {
            let mut first = [0u8; 25];
            first.copy_from_slice(fascn);
            Tally {
                agreement: 1,
                fascn: first,
                ..tally
            }
        }
        1 if !plain::same(&tally.fascn, fascn) => Tally {
            agreement: 2,
            ..tally
        },
        _ => tally,
    }
}

// A container that conforms: "all FASC-N in conforming CHUID, FINGERS, FACE and iris containers". A CHUID's is its second row; a
// biometric's stands at 59 of the value of its first.
fn conforming(c: Conforming, tally: Tally) -> Tally
    ensures { result ≡ counted c.entry.kind (contents c.entry) tally }
{
    let more = one_more(tally);
    match c.kind {
        2 => note(more, c.rows.part(1)),
        6 | 7 | 12 => {
            let value = c.rows.part(0);
            note(more, &value[59..84])
        }
        _ => more,
    }
}

// "one over 32,768 by its length alone": an unknown kind wins over that.
fn too_long(kind: u64) -> Fault
    ensures { result ≡ by_length kind }
{
    if kinds::is_kind(kind) {
        Fault::LargeContainer
    } else {
        Fault::UnknownKind
    }
}

// The verdict on a container of so many bytes, and the state with it.
fn judge(kind: u64, today: u64, size: u64, c: &[u8], tally: Tally) -> (Verdict, Tally)
    requires { is_date today ≡ true }
    ensures { Judged kind today size c.now tally result }
{
    if 32768 < size {
        return (Finding::from(too_long(kind)).into(), tally);
    }
    match container::judge(kind, today, c) {
        Err(f) => (f.into(), tally),
        Ok(read) => (Verdict::CONFORMS, conforming(read, tally)),
    }
}

// "a line of kind, offset of the container's first byte in the folder, length, number, place (all decimal, a space between) and tag"
fn put_row(kind: u64, offset: u64, size: u64, verdict: Verdict, out: &mut [u8]) -> usize
    ensures { Put (row_text kind offset size verdict) out.old out.new result }
{
    let mut at = texts::put_number(kind, b' ', out);
    at += texts::put_number(offset, b' ', &mut out[at..]);
    at += texts::put_number(size, b' ', &mut out[at..]);
    at + card::put_numbers(verdict, &mut out[at..])
}

// Whether the container that is lent has the length that the folder says: one that is judged by its length is not looked at.
fn is_lent(size: u64, length: usize) -> bool
    ensures { result ≡ lent size length }
{
    (32768 < size) | (length as u64 == size)
}

// "room under 64 bytes": of a row, and of the last lines.
fn is_small(room: &[u8]) -> bool
    ensures { result ≡ ltb (length room.now) row_room }
{
    room.len() < 64
}

// A row's line and the state after it: "2 for today comes first of all; 3 for a row's .. room under 64 bytes, before that container is
// looked at"; 32 where it was cut short.
fn line(
    today: u64,
    kind: u8,
    offset: u64,
    size: u64,
    container: &[u8],
    tally: Tally,
    room: &mut [u8],
) -> Result<(usize, Tally), Fault>
    requires { room.old ≡ zeros (length room.old) }
    ensures { RowAnswers today kind offset size container.now tally room.old room.new (rowed tally result) }
{
    if !dates::is_date(today) {
        return Err(Fault::NoDate);
    }
    if is_small(room) {
        return Err(Fault::SmallRoom);
    }
    if !is_lent(size, container.len()) {
        return Err(Fault::TornFolder);
    }
    let kind = u64::from(kind);
    let (verdict, tally) = judge(kind, today, size, container, tally);
    Ok((put_row(kind, offset, size, verdict, room), tally))
}

// A row. The room is cleared, once, before; and a refusal leaves the state as it was.
pub fn row(
    today: u64,
    kind: u8,
    offset: u64,
    size: u64,
    container: &[u8],
    tally: Tally,
    room: &mut [u8],
) -> Rowed
    ensures { RowAnswers today kind offset size container.now tally room.old room.new result }
{
    room::clear(room);
    match line(today, kind, offset, size, container, tally, room) {
        Ok((length, tally)) => Rowed {
            number: 0,
            length: length as u64,
            tally,
        },
        Err(fault) => Rowed {
            number: fault.into(),
            length: 0,
            tally,
        },
    }
}

// "`good N`, then `agree yes` or `agree no`"
fn put_last(good: u64, agreement: u64, out: &mut [u8]) -> usize
    ensures { Put (last_text good (alike agreement)) out.old out.new result }
{
    let at = texts::put_count(b"good ", good, out);
    if agreement < 2 {
        return at + room::put_all(b"agree yes\n", &mut out[at..]);
    }
    at + room::put_all(b"agree no\n", &mut out[at..])
}

// The two last lines: "3 for .. the last lines' room under 64 bytes".
pub fn last(good: u64, agreement: u64, room: &mut [u8]) -> Done
    ensures { Leaves (last_output good agreement (length room.old)) room.old room.new result }
{
    room::clear(room);
    if is_small(room) {
        return Done::from(Err(Fault::SmallRoom.into()));
    }
    Done::from(Ok(put_last(good, agreement, room)))
}
