// The desk report: CARD, ELEMENTS and OPEN, as text into a lent room. The container is walked once, by the judge; all that is
// written of it is taken by the map.
#![tactic(auto)]

ghost use Rattle.std.specs.Prelude.{◌≡◌, length};
ghost use Rattle.laws.specs.Room.{zeros, Put};
ghost use Rattle.verdicts.specs.Output.{answered, Leaves};
ghost use Rattle.container.specs.Reading.{values, fault, parsed};
ghost use Rattle.container.specs.Judged.{contents};
ghost use Rattle.report.specs.Report.{report_text};
ghost use Rattle.report.specs.Calls.{report_output};

use container::Conforming;
use verdicts::{Done, Fault, Finding};

// A container that conforms.
fn put_fine(c: Conforming, out: &mut [u8]) -> usize
    ensures { Put (report_text c.entry.kind c.entry.today (length c.entry.rows.bytes.now) (values (contents c.entry))) out.old out.new result }
{
    let mut at = card::put_card(c.kind, c.rows.bytes.len(), c.today, Ok(()), out);
    at += elements::put_elements(c.kind, &c.rows.spans, &mut out[at..]);
    at + opens::put_open(c.kind, c.rows, &mut out[at..])
}

// "A broken rule gives a report with ELEMENTS 0 and OPEN 0."
fn put_broken(kind: u64, today: u64, size: usize, f: Finding, out: &mut [u8]) -> usize
    ensures { Put (report_text kind today size (fault f)) out.old out.new result }
{
    let at = card::put_card(kind, size, today, Err(f), out);
    at + room::put_all(b"ELEMENTS 0\nOPEN 0\n", &mut out[at..])
}

fn put_report(kind: u64, today: u64, c: &[u8], out: &mut [u8]) -> usize
    ensures { Put (report_text kind today (length c.now) (parsed kind today c.now)) out.old out.new result }
{
    match container::judge(kind, today, c) {
        Ok(read) => put_fine(read, out),
        Err(f) => put_broken(kind, today, c.len(), f, out),
    }
}

// "Report: 1, 2, 3, 4 ..; broken rules are reported." Any report fits a room of 512 bytes (proofs/Bound.antt), so none is cut off and
// none is refused for its length.
fn reported(kind: u64, today: u64, container: &[u8], room: &mut [u8]) -> Result<usize, Finding>
    requires { room.old ≡ zeros (length room.old) }
    ensures { Leaves (report_output kind today container.now (length room.old)) room.old room.new (answered result) }
{
    if !kinds::is_kind(kind) {
        return Err(Fault::UnknownKind.into());
    }
    if !dates::is_date(today) {
        return Err(Fault::NoDate.into());
    }
    if room.len() < 512 {
        return Err(Fault::SmallRoom.into());
    }
    if container::too_large(container.len()) {
        return Err(Fault::LargeContainer.into());
    }
    Ok(put_report(kind, today, container, room))
}

// The room is cleared first, so that every refusal is a plain return.
pub fn report(kind: u64, today: u64, container: &[u8], room: &mut [u8]) -> Done
    ensures { Leaves (report_output kind today container.now (length room.old)) room.old room.new result }
{
    room::clear(room);
    reported(kind, today, container, room).into()
}
