// Judges a container: its outer form, then its elements against the kind's table, in one pass that notes where each row's
// value lies.
#![tactic(auto)]

ghost use Rattle.std.specs.Prelude.{◌≡◌, ◌<◌, ◌≤◌, ◌+◌, ltb, length, drop, get_or, IfOk};
ghost use Rattle.kinds.specs.Tables.{table};
ghost use Rattle.container.specs.Container.{long, outer_tag, largest};
ghost use Rattle.container.specs.Reading.{element, tag_here, outer, located};
ghost use Rattle.container.specs.Spans.{no_rows, Inside};
ghost use Rattle.container.specs.Map.{map_of, map_from, Steps, value_at};
ghost use Rattle.container.specs.Judged.{rows_of, Of};

mod conforming;
mod rows;

pub use conforming::Conforming;
use kinds::Row;
pub use rows::{Rows, Span};
use std::ops::Range;
use verdicts::{Fault, Finding};

// An element that keeps its rules: the number of its row, counted from 1, and where its value lies.
struct Found {
    row: u64,
    value: Range<usize>,
}

// The length and the value that start at `at`: 11, 12, 16, then the value's rules.
#[tactic(auto, using(crate::proofs::Lengthy::no_length, crate::proofs::Lengthy::inside, crate::proofs::Lengthy::over, crate::proofs::Lengthy::broke, crate::proofs::Lengthy::ends))]
fn value_at(c: &[u8], at: usize, row: Row, today: u64) -> Result<Range<usize>, Fault>
    ensures { result ≡ value_at at (element row.lengths row.rule today (drop at c.now)) }
{
    let length = lengths::read_length(c, at).ok_or(Fault::LengthForm)?;
    let start = length.next;
    if c.len() - start < length.number {
        return Err(Fault::Overrun);
    }
    let end = start + length.number;
    rules::fits(row, today, &c[start..end])?;
    Ok(start..end)
}

// How many bytes a tag has.
pub fn tag_len(tag: u64) -> usize
    ensures { (result ≡ long tag) × (1 ≤ result) × (result ≤ 2) }
{
    if tag < 256 { 1 } else { 2 }
}

// The tag at `at`: one byte, or 5F2F in kind 3.
fn tag_at(kind: u64, c: &[u8], at: usize) -> u64
    requires { at < length c.now }
    ensures { result ≡ tag_here (table kind) (get_or c.now at 0) (drop (at + 1) c.now) }
{
    let one = u64::from(c[at]);
    if kind != 3 {
        return one;
    }
    if one != 0x5F {
        return one;
    }
    if c.len() - at < 2 {
        return one;
    }
    if c[at + 1] != 0x2F {
        return one;
    }
    0x5F2F
}

// The element whose tag is at `at`, after the row `done`: 13, 14, 15, then its length and value. Whatever is wrong, the finding
// names the tag that stands here.
#[tactic(auto, using(crate::proofs::Turn::unknown, crate::proofs::Turn::earlier, crate::proofs::Turn::missed, crate::proofs::Turn::breaks, crate::proofs::Turn::goes_on))]
fn element(kind: u64, today: u64, c: &[u8], at: usize, done: u64) -> Result<Found, Finding>
    requires { at < length c.now }
    ensures { Steps kind today c.now at done result }
{
    let tag = tag_at(kind, c, at);
    let found = |fault: Fault| Finding {
        fault,
        place: at,
        tag: Some(tag),
    };
    let row = kinds::row_of(kind, tag).ok_or(found(Fault::UnknownTag))?;
    if row.index <= done {
        return Err(found(Fault::TagOrder));
    }
    if done < row.after {
        return Err(found(Fault::MissingRow));
    }
    match value_at(c, at + tag_len(tag), row, today) {
        Ok(value) => Ok(Found {
            row: row.index,
            value,
        }),
        Err(fault) => Err(found(fault)),
    }
}

// The elements from `start` on: where the value of each row lies.
#[tactic(auto, using(crate::proofs::Turn::cut_off, crate::proofs::Turn::complete, crate::proofs::Noting::inside_first, crate::proofs::Noting::inside_next))]
fn elements(kind: u64, today: u64, c: &[u8], start: usize) -> Result<[Span; 16], Finding>
    requires { (start ≤ length c.now) × (length c.now ≤ largest) }
    ensures value { result ≡ map_from kind today c.now start 0 no_rows }
    ensures inside { IfOk result (λ rows. Inside rows (length c.now)) }
{
    let mut rows = [Span::ABSENT; 16];
    let mut at = start;
    let mut done = 0;
    while at < c.len() {
        let Found { row, value } = element(kind, today, c, at, done)?;
        rows[(row - 1) as usize] = Span {
            from: value.start as u32,
            to: value.end as u32,
        };
        at = value.end;
        done = row;
    }
    if done < kinds::last_row(kind) {
        return Err(Finding {
            fault: Fault::MissingRow,
            place: at,
            tag: None,
        });
    }
    Ok(rows)
}

// "7E for kind 3, else 53"
pub fn outer_tag(kind: u64) -> u8
    ensures { result ≡ outer_tag kind }
{
    if kind == 3 { 0x7E } else { 0x53 }
}

// The outer form: 10, 11, 12, each with place 0 and no tag; then the elements.
#[tactic(auto, using(crate::proofs::Ways::no_bytes, crate::proofs::Ways::wrong_tag, crate::proofs::Ways::no_length, crate::proofs::Ways::within_outer, crate::proofs::Ways::off_end, crate::proofs::Ways::fits_outer))]
fn whole(kind: u64, today: u64, c: &[u8]) -> Result<[Span; 16], Finding>
    requires { length c.now ≤ largest }
    ensures value { result ≡ map_of (outer kind today c.now) }
    ensures inside { IfOk result (λ rows. Inside rows (length c.now)) }
{
    if c.is_empty() || c[0] != outer_tag(kind) {
        return Err(Fault::OuterTag.into());
    }
    let length = lengths::read_length(c, 1).ok_or(Fault::LengthForm)?;
    if c.len() - length.next != length.number {
        return Err(Fault::Overrun.into());
    }
    elements(kind, today, c, length.next)
}

// "A container has at most 32,768 bytes": whether so many are more.
pub fn too_large(size: usize) -> bool
    ensures { result ≡ ltb largest size }
{
    32768 < size
}

// The check, and the map of what it read: 1, 2, 4, then the outer form, then each element.
#[tactic(auto, using(crate::proofs::Ways::bad_kind, crate::proofs::Ways::bad_date, crate::proofs::Ways::too_large, crate::proofs::Ways::goes_in))]
pub fn judge<'a>(kind: u64, today: u64, c: &'a [u8]) -> Result<Conforming<'a>, Finding>
    ensures value { rows_of result ≡ map_of (located kind today c.now) }
    ensures of { IfOk result (Of kind today c.entry) }
{
    if !kinds::is_kind(kind) {
        return Err(Fault::UnknownKind.into());
    }
    if !dates::is_date(today) {
        return Err(Fault::NoDate.into());
    }
    if too_large(c.len()) {
        return Err(Fault::LargeContainer.into());
    }
    Ok(Conforming {
        kind,
        today,
        rows: Rows {
            bytes: c,
            spans: whole(kind, today, c)?,
        },
    })
}
