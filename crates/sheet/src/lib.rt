// The value sheet, "a section for each table row in order: a two-byte big-endian count, 0 for absent, else n + 1, then n
// bytes"; and the check, which gives it beside its verdict.
#![tactic(auto)]

ghost use Rattle.std.specs.Prelude.{◌≡◌, length};
ghost use Rattle.std.proofs.Math.Option.{some};
ghost use Rattle.laws.specs.Room.{laid, Put};
ghost use Rattle.verdicts.specs.Output.{answered};
ghost use Rattle.container.specs.Judged.{contents};
ghost use Rattle.sheet.specs.Sheet.{count, section, sheet_of};
ghost use Rattle.sheet.specs.Calls.{Given, Says};

use container::Conforming;
use verdicts::{Done, Fault, Finding, Verdict};

// What a check answers: the verdict; 3 where it is 0 and the lent room is under the sheet's length, else 0; and how long the
// sheet is that was written, 0 where none was.
#[derive(Clone, Copy)]
pub struct Checked {
    pub verdict: Verdict,
    pub room: u64,
    pub length: u64,
}

// A count in two bytes, big-endian.
fn put_count(n: usize, out: &mut [u8]) -> usize
    ensures { Put (count n) out.old out.new result }
{
    room::put_pair((n / 256 % 256) as u8, (n % 256) as u8, out)
}

// A value's section: a count of one more than its bytes, so that an empty value is not an absent one; then its bytes.
#[tactic(auto, using(laws::proofs::Rooms::then))]
fn put_section(value: &[u8], out: &mut [u8]) -> usize
    ensures { Put (section (some value.now)) out.old out.new result }
{
    let at = put_count(value.len() + 1, out);
    at + room::put_all(value, &mut out[at..])
}

// The sheet of a container's values, a section for each row, as far as the room goes; and its whole length, which is two bytes for
// each row, and the values.
fn put_sheet(c: Conforming, out: &mut [u8]) -> usize
    ensures size { result ≡ length (sheet_of (contents c.entry)) }
    ensures out_after { out.new ≡ laid (sheet_of (contents c.entry)) out.old }
{
    let mut at = 0;
    let mut size = 0;
    for row in 0..kinds::last_row(c.kind) as usize {
        match c.rows.value(row) {
            None => {
                at += put_count(0, &mut out[at..]);
                size += 2;
            }
            Some(value) => {
                at += put_section(value, &mut out[at..]);
                size += 2 + value.len();
            }
        }
    }
    size
}

// The sheet of a container's values, and zeros behind it: its length; or, where the room is too small, zeros alone. An empty room asks
// for no sheet: it is too small for any, and nothing is written.
#[tactic(auto, using(laws::proofs::Rooms::laid_filled))]
fn give_sheet(c: Conforming, out: &mut [u8]) -> Result<usize, Finding>
    ensures { Given (sheet_of (contents c.entry)) out.old out.new (answered result).number (answered result).length }
{
    if out.is_empty() {
        return Err(Fault::SmallRoom.into());
    }
    let size = put_sheet(c, out);
    if out.len() < size {
        room::clear(out);
        return Err(Fault::SmallRoom.into());
    }
    room::clear(&mut out[size..]);
    Ok(size)
}

// The verdict, and beside a verdict of 0 the sheet, by one walk. A broken rule leaves zeros alone, and whether the room would have
// sufficed is not asked.
pub fn check(kind: u64, today: u64, container: &[u8], sheet: &mut [u8]) -> Checked
    ensures { Says kind today container.now sheet.old sheet.new result }
{
    match container::judge(kind, today, container) {
        Err(f) => {
            room::clear(sheet);
            Checked {
                verdict: f.into(),
                room: 0,
                length: 0,
            }
        }
        Ok(c) => {
            let given = Done::from(give_sheet(c, sheet));
            Checked {
                verdict: Verdict::CONFORMS,
                room: given.number,
                length: given.length,
            }
        }
    }
}
