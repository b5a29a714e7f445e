// The report's second section: "ELEMENTS (tag in hex, length)", "after its count of lines", as text into a lent room. All that
// it is given is the kind and the map, from where to where each row's value lies: no byte of a card comes here. Where the room
// ends, so does the text: no writer asks anything of its caller.
#![tactic(auto)]

ghost use Rattle.std.specs.Prelude.{◌≡◌, length};
ghost use Rattle.laws.specs.Room.{Put};
ghost use Rattle.kinds.specs.Tables.{table};
ghost use Rattle.elements.specs.Elements.{element_line, element_lines, element_count, elements_part};
ghost use Rattle.elements.specs.Map.{map_shape};

use container::Span;

// How many elements are there.
fn element_count(kind: u64, rows: &[Span; 16]) -> u64
    ensures { result ≡ element_count (map_shape rows.now (length (table kind)) 0) }
{
    let mut count = 0;
    for span in &rows[..kinds::last_row(kind) as usize] {
        if span.to != 0 {
            count += 1;
        }
    }
    count
}

// "tag in hex, length"
fn put_element(tag: u64, n: u64, out: &mut [u8]) -> usize
    ensures { Put (element_line tag n) out.old out.new result }
{
    let mut at = texts::put_tag(tag, out);
    at += room::put_byte(b' ', &mut out[at..]);
    at + texts::put_number(n, b'\n', &mut out[at..])
}

// A line for each element that is there.
fn put_lines(kind: u64, rows: &[Span; 16], out: &mut [u8]) -> usize
    ensures { Put (element_lines (table kind) (map_shape rows.now (length (table kind)) 0)) out.old out.new result }
{
    let mut at = 0;
    for (i, span) in rows.iter().enumerate() {
        let Some(slot) = kinds::row_at(kind, i as u64) else {
            break;
        };
        if span.to != 0 {
            let size = span.to.saturating_sub(span.from);
            at += put_element(slot.tag, size.into(), &mut out[at..]);
        }
    }
    at
}

// The section, after its count of lines.
pub fn put_elements(kind: u64, rows: &[Span; 16], out: &mut [u8]) -> usize
    ensures { Put (elements_part (table kind) (map_shape rows.now (length (table kind)) 0)) out.old out.new result }
{
    let at = texts::put_count(b"ELEMENTS ", element_count(kind, rows), out);
    at + put_lines(kind, rows, &mut out[at..])
}
