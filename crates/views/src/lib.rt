// "A view gives the element's value as a part of the caller's container; its place and length are fixed."
#![tactic(auto)]

ghost use Rattle.std.specs.Prelude.{◌≡◌};
ghost use Rattle.kinds.specs.Tables.{row_of};
ghost use Rattle.views.specs.ByMap.{by_map};
ghost use Rattle.views.specs.Views.{viewed, located, Locates, Answers};

use container::Span;
use std::ops::Range;
use verdicts::{Fault, Finding, Verdict};

// Where the value of the tag's row lies; None where the element is absent or the tag is not of the kind.
fn by_map(kind: u64, element: u64, rows: &[Span; 16]) -> Option<Range<usize>>
    ensures { result ≡ by_map (row_of kind element) rows.now }
{
    let row = kinds::row_of(kind, element)?;
    let Span { from, to } = rows[(row.index - 1) as usize];
    if to == 0 {
        return None;
    }
    Some(from as usize..to as usize)
}

// "View: check, then 6." Where the part lies in the container.
#[tactic(auto, using(crate::proofs::Ways::out_broken))]
pub fn locate(
    kind: u64,
    today: u64,
    container: &[u8],
    element: u64,
) -> Result<Range<usize>, Finding>
    ensures { Locates (viewed kind today container.now element) container.now (located result) }
{
    let read = container::judge(kind, today, container)?;
    by_map(kind, element, &read.rows.spans).ok_or(Fault::NoElement.into())
}

// The verdict, and from where to where the part lies. A refused part is empty and stands at the container's start.
pub fn told(part: Result<Range<usize>, Finding>) -> (Verdict, Range<usize>)
    ensures { (result.0 ≡ (located part).verdict) × (result.1.start ≡ (located part).from) × (result.1.end ≡ (located part).to) }
{
    match part {
        Ok(part) => (Verdict::CONFORMS, part),
        Err(f) => (f.into(), 0..0),
    }
}

// The same, with the part itself.
pub fn view<'a>(
    kind: u64,
    today: u64,
    container: &'a [u8],
    element: u64,
    number: &mut u64,
    place: &mut u64,
    tag: &mut u64,
) -> &'a [u8]
    ensures { Answers (viewed kind today container.now element) container.entry.ref_ptr number.new place.new tag.new result.ref_ptr result.now }
{
    let (verdict, part) = told(locate(kind, today, container, element));
    *number = verdict.number;
    *place = verdict.place;
    *tag = verdicts::tag_number(verdict.tag);
    &container[part]
}
