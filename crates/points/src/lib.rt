// "From a conforming FINGERS container fill the caller's list of points (type, x, y, angle, quality), first view then second,
// and give both counts." (2026-10) Here is what both forms of the call share: what is listed, where it stands, and which entry is
// which point. `columns` fills five lists of numbers, and the door a list of points.
#![tactic(auto)]

ghost use Rattle.std.specs.Prelude.{◌≡◌, ◌+◌, ◌≤◌, length};
ghost use Rattle.points.specs.Places.{point_at, entry_of, plan_at, answer_of, Inside, Stands, Plans};

use numbers::number;
use verdicts::{Fault, Finding, Verdict};

// A point: its type, where it is, its angle, its quality.
#[derive(Clone, Copy, Default)]
pub struct Point {
    pub sort: u64,
    pub x: u64,
    pub y: u64,
    pub angle: u64,
    pub quality: u64,
}

// What both calls answer: the verdict, and how many points each view has.
#[derive(Clone, Copy)]
pub struct Listed {
    pub verdict: Verdict,
    pub first: u64,
    pub second: u64,
}

// Where in the container the first view's points stand, how many they are, and how many the second view has.
#[derive(Clone, Copy, Default)]
pub struct Plan {
    pub at: usize,
    pub first: usize,
    pub second: usize,
}

// "type in two bits, 0 to 2, x in 14; two zero bits, y in 14; angle 0 to 179; quality 0 to 100"
pub fn point_at(s: &[u8], at: usize) -> Point
    requires { at + 6 ≤ length s.now }
    ensures { result ≡ point_at s.now at }
{
    let typed = number(s, at, 2);
    Point {
        sort: typed / 16384,
        x: typed % 16384,
        y: number(s, at + 2, 2),
        angle: number(s, at + 4, 1),
        quality: number(s, at + 5, 1),
    }
}

// The value of BC starts at `start`: 88 bytes on is the record, and its views' counts stand behind 29 bytes of it, and behind the
// first view's points and five bytes more. "3 if the list is shorter than the sum of the counts, after the check".
#[tactic(auto, unfolding(crate::specs::Places::plan_at))]
fn plan_at(c: &[u8], start: usize, room: usize) -> Result<Plan, Finding>
    requires { Stands c.now start }
    ensures { result ≡ plan_at c.now start room }
{
    let first = number(c, start + 117, 1) as usize;
    let second = number(c, start + 123 + 6 * first, 1) as usize;
    if room < first + second {
        return Err(Fault::SmallRoom.into());
    }
    Ok(Plan {
        at: start + 118,
        first,
        second,
    })
}

// The check as kind 6, and then which points are listed where there is room for so many. BC is the first row.
pub fn locate(today: u64, container: &[u8], room: usize) -> Result<Plan, Finding>
    ensures { Plans today container.now room result }
{
    let read = container::judge(6, today, container)?;
    plan_at(container, read.rows.spans[0].from as usize, room)
}

// Entry i of a list: the point, and zeros past the last.
#[tactic(auto, using(crate::proofs::Entries::entry_first, crate::proofs::Entries::entry_second, crate::proofs::Entries::entry_past, crate::proofs::Entries::within_first, crate::proofs::Entries::within_second))]
pub fn entry(container: &[u8], plan: Plan, i: usize) -> Point
    requires { Inside plan (length container.now) }
    ensures { result ≡ entry_of container.now plan i }
{
    if i < plan.first {
        return point_at(container, plan.at + 6 * i);
    }
    if i < plan.first + plan.second {
        return point_at(container, plan.at + 6 * i + 6);
    }
    Point::default()
}

// What is answered by a plan: a refusal has none to list.
impl From<Result<Plan, Finding>> for Listed {
    ghost from_gives = { λ plan l. l ≡ answer_of plan };

    fn from(plan: Result<Plan, Finding>) -> Listed {
        match plan {
            Ok(plan) => Listed {
                verdict: Verdict::CONFORMS,
                first: plan.first as u64,
                second: plan.second as u64,
            },
            Err(f) => Listed {
                verdict: f.into(),
                first: 0,
                second: 0,
            },
        }
    }
}
