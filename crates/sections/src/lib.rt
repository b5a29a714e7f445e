// A value sheet taken apart: where each row's value lies, and what the values come to: 1, 2, 5, then row by row 15, 16 and the
// value's rules.
#![tactic(auto)]

ghost use Rattle.std.specs.Prelude.{◌≡◌, ◌≤◌, ◌+◌, length, IfOk};
ghost use Rattle.kinds.specs.Tables.{table, row_of};
ghost use Rattle.lengths.specs.Length.{length_bytes};
ghost use Rattle.verdicts.specs.Verdicts.{found};
ghost use Rattle.container.specs.Container.{tag_bytes, encode};
ghost use Rattle.container.specs.Spans.{Inside};
ghost use Rattle.sections.specs.Opened.{judged};
ghost use Rattle.sections.specs.Passes.{furthest, lying, Apart, judged_by, plan_of, Small, plan_for};
ghost use Rattle.sections.specs.Taken.{size_of, Lies};

use container::{Rows, Span};
use verdicts::{Fault, Finding};

// A sheet whose values are allowed: how many bytes their elements take, and where each row's value lies in the sheet.
#[derive(Clone, Copy)]
pub struct Sheet<'a> {
    pub size: usize,
    pub rows: Rows<'a>,
}

// A first pass, from count to count: "a two-byte big-endian count, 0 for absent, else n + 1, then n bytes". The sheet is torn
// where it is cut short or has bytes left over.
#[tactic(auto, using(crate::proofs::Opened::no_count, crate::proofs::Opened::left_over))]
fn sections(kind: u64, s: &[u8]) -> Option<[Span; 16]>
    ensures { Apart kind s.now result }
{
    let mut spans = [Span::ABSENT; 16];
    let mut at = 0;
    for row in 0..kinds::last_row(kind) as usize {
        let left = s.len() - at;
        if left < 2 {
            return None;
        }
        let count = numbers::number(s, at, 2) as usize;
        if count == 0 {
            at += 2;
        } else {
            let cut_short = left <= count;
            if cut_short {
                return None;
            }
            let start = at + 2;
            let end = at + 1 + count;
            spans[row] = Span {
                from: start as u32,
                to: end as u32,
            };
            at = end;
        }
    }
    let whole = at == s.len();
    if !whole {
        return None;
    }
    Some(spans)
}

// How many bytes an element takes.
fn element_length(tag: u64, n: usize) -> usize
    requires { n ≤ furthest }
    ensures { (result ≡ length (tag_bytes tag) + length (length_bytes n) + n) × (result ≤ n + 5) }
{
    container::tag_len(tag) + lengths::length_width(n) + n
}

// A value, by its tag's row: 16, then its rules. A tag that the table gave is in it.
fn judge_value(kind: u64, today: u64, tag: u64, v: &[u8]) -> Result<(), Fault>
    ensures { result ≡ judged_by (row_of kind tag) today v.now }
{
    let row = kinds::row_of(kind, tag).ok_or(Fault::UnknownTag)?;
    rules::fits(row, today, v)
}

// A refusal of a row: the place of its count, and its tag, also where the row is missing.
fn refuse_row(fault: Fault, place: usize, tag: u64) -> Finding
    ensures { result ≡ found fault place (Some tag) }
{
    Finding {
        fault,
        place,
        tag: Some(tag),
    }
}

// A second pass: "row by row 15, 16 and the value's rules, with the place of the row's count", and with the row's tag. It answers
// how many bytes the elements take.
fn judge_rows(kind: u64, today: u64, rows: Rows) -> Result<usize, Finding>
    requires { Inside rows.spans furthest }
    ensures value { result ≡ plan_of (judged today (table kind) (lying kind rows.entry.spans rows.entry.bytes.now) 0) (length (encode (table kind) (lying kind rows.entry.spans rows.entry.bytes.now))) }
    ensures small { Small result }
{
    let mut at = 0;
    let mut size = 0;
    for row in 0..16 {
        let Some(slot) = kinds::row_at(kind, row as u64) else {
            break;
        };
        let tag = slot.tag;
        match rows.value(row) {
            None => {
                if !slot.optional {
                    return Err(refuse_row(Fault::MissingRow, at, tag));
                }
                at += 2;
            }
            Some(value) => {
                if let Err(fault) = judge_value(kind, today, tag, value) {
                    return Err(refuse_row(fault, at, tag));
                }
                size += element_length(tag, value.len());
                at += 2 + value.len();
            }
        }
    }
    Ok(size)
}

// The sheet judged, and where its values lie: 1, 2, 5, then the second pass.
#[tactic(auto, using(crate::proofs::Ways::bad_kind, crate::proofs::Ways::bad_date))]
pub fn judge<'a>(kind: u64, today: u64, s: &'a [u8]) -> Result<Sheet<'a>, Finding>
    ensures value { size_of result ≡ plan_for kind today s.now }
    ensures lies { IfOk result (Lies kind s.entry) }
{
    if !kinds::is_kind(kind) {
        return Err(Fault::UnknownKind.into());
    }
    if !dates::is_date(today) {
        return Err(Fault::NoDate.into());
    }
    let spans = sections(kind, s).ok_or(Fault::TornSheet)?;
    let rows = Rows { bytes: s, spans };
    Ok(Sheet {
        size: judge_rows(kind, today, rows)?,
        rows,
    })
}
