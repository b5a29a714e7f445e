// Writes a container from a value sheet: 1, 2, 5, then row by row 15, 16 and the value's rules, then 4, 3.
#![tactic(auto)]

ghost use Rattle.std.specs.Prelude.{◌≡◌, ◌<◌, length, Ok, IfOk};
ghost use Rattle.laws.specs.Room.{Put};
ghost use Rattle.kinds.specs.Tables.{table};
ghost use Rattle.container.specs.Container.{tag_bytes, encode};
ghost use Rattle.sections.specs.Passes.{lying, Small, plan_for};
ghost use Rattle.sections.specs.Taken.{size_of, Lies};
ghost use Rattle.writing.specs.Calls.{Puts};
ghost use Rattle.writing.specs.Passes.{element_bytes, boxed, fitted};

use container::{Rows, outer_tag};
use sections::Sheet;
use verdicts::{Done, Fault, Finding};

// "Tags are one byte, except 5F2F".
fn put_tag(tag: u64, out: &mut [u8]) -> usize
    requires { tag < 65536 }
    ensures { Put (tag_bytes tag) out.old out.new result }
{
    if tag < 256 {
        return room::put_byte(tag as u8, out);
    }
    room::put_pair((tag / 256) as u8, (tag % 256) as u8, out)
}

// "An element is tag, length, value."
fn put_element(tag: u64, v: &[u8], out: &mut [u8]) -> usize
    requires { tag < 65536 }
    ensures { Put (element_bytes tag v.now) out.old out.new result }
{
    let mut at = put_tag(tag, out);
    at += lengths::write_length(v.len(), &mut out[at..]);
    at += room::put_all(v, &mut out[at..]);
    at
}

// A third pass: "each element goes into the room that is left after the one before".
fn put_elements(kind: u64, rows: Rows, out: &mut [u8]) -> usize
    ensures { Put (encode (table kind) (lying kind rows.entry.spans rows.entry.bytes.now)) out.old out.new result }
{
    let mut at = 0;
    for row in 0..16 {
        let Some(slot) = kinds::row_at(kind, row as u64) else {
            break;
        };
        if let Some(value) = rows.value(row) {
            at += put_element(slot.tag, value, &mut out[at..]);
        }
    }
    at
}

// "A container is an outer tag, a length, and elements; nothing follows."
fn put_container(kind: u64, x: Sheet, out: &mut [u8]) -> usize
    ensures { Put (boxed kind x.entry.size (lying kind x.entry.rows.spans x.entry.rows.bytes.now)) out.old out.new result }
{
    let mut at = room::put_byte(outer_tag(kind), out);
    at += lengths::write_length(x.size, &mut out[at..]);
    at += put_elements(kind, x.rows, &mut out[at..]);
    at
}

// Whether the container of elements that take n bytes is small enough, and goes into a room of so many bytes: 4, 3.
fn fitted(n: usize, room: usize) -> Result<usize, Finding>
    requires { Small (Ok n) }
    ensures { result ≡ fitted (Ok n) room }
{
    let size = 1 + lengths::length_width(n) + n;
    let large = container::too_large(size);
    if large {
        return Err(Fault::LargeContainer.into());
    }
    if room < size {
        return Err(Fault::SmallRoom.into());
    }
    Ok(n)
}

// The sheet judged, and whether its container goes into the room.
fn planned<'a>(kind: u64, today: u64, s: &'a [u8], room: usize) -> Result<Sheet<'a>, Finding>
    ensures value { size_of result ≡ fitted (plan_for kind today s.now) room }
    ensures lies { IfOk result (Lies kind s.entry) }
{
    let x = sections::judge(kind, today, s)?;
    fitted(x.size, room)?;
    Ok(x)
}

// Writes the container of the sheet's values. Only what it leaves of the room is cleared.
pub fn write(kind: u64, today: u64, sheet: &[u8], container: &mut [u8]) -> Done
    ensures { Puts kind today sheet.now container.old container.new result }
{
    match planned(kind, today, sheet, container.len()) {
        Err(f) => {
            room::clear(container);
            Done::from(Err(f))
        }
        Ok(x) => {
            let size = put_container(kind, x, container);
            room::clear(&mut container[size..]);
            Done::from(Ok(size))
        }
    }
}
