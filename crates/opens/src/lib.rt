// The report's third section: "OPEN (named values)", "after its count of lines", as text into a lent room. "Every other value is
// personal": no other row is taken out of the container here. Where the room ends, so does the text.
#![tactic(auto)]

ghost use Rattle.std.specs.Prelude.{◌≡◌, ◌++◌, unwrap_or, ℕ, length};
ghost use Rattle.laws.specs.Room.{Put};
ghost use Rattle.texts.specs.Text.{ascii, digits_line};
ghost use Rattle.fascn.specs.Reading.{origin_of};
ghost use Rattle.dates.specs.Date.{date_of};
ghost use Rattle.kinds.specs.Tables.{table};
ghost use Rattle.container.specs.Container.{Allowed};
ghost use Rattle.container.specs.Map.{row_values};
ghost use Rattle.opens.specs.Open.{holder, card, policy, issuer, in_header, open_of, open_part};

use container::Rows;
use fascn::Origin;

// The FASC-N of a biometric record stands at 59 of the value of BC.
#[tactic(auto, using(crate::proofs::Opens::no_header))]
fn in_header(v: &[u8]) -> Origin
    ensures { result ≡ origin_of (in_header v.now) }
{
    fascn::origin_of(v.get(59..84).unwrap_or(&[]))
}

// "agency and system (four)"; the count of lines stands before.
fn put_holder(name: &[u8], agency: u64, system: u64, out: &mut [u8]) -> usize
    ensures { Put (name.now ++ digits_line 4 agency ++ (ascii "system " ++ digits_line 4 system)) out.old out.new result }
{
    let at = texts::put_digits(name, 4, agency, out);
    at + texts::put_digits(b"system ", 4, system, &mut out[at..])
}

// "CHUID agency, system, expires"
fn put_chuid(fascn: &[u8], expiry: &[u8], out: &mut [u8]) -> usize
    ensures { Put (open_part (card (origin_of fascn.now).agency (origin_of fascn.now).system (unwrap_or (date_of expiry.now) 0))) out.old out.new result }
{
    let origin = fascn::origin_of(fascn);
    let at = put_holder(b"OPEN 3\nagency ", origin.agency, origin.system, out);
    at + texts::put_digits(
        b"expires ",
        8,
        dates::date_of(expiry).unwrap_or(0),
        &mut out[at..],
    )
}

// "DISCOVERY policy with four hex digits"
fn put_policy(v: &[u8], out: &mut [u8]) -> usize
    ensures { Put (open_part (policy v.now)) out.old out.new result }
{
    let mut at = room::put_all(b"OPEN 1\npolicy ", out);
    at += texts::put_hex(plain::at(v, 0), &mut out[at..]);
    at += texts::put_hex(plain::at(v, 1), &mut out[at..]);
    at + room::put_byte(b'\n', &mut out[at..])
}

// "PRINTED issuer and tag 06"
fn put_issuer(v: &[u8], out: &mut [u8]) -> usize
    ensures { Put (open_part (issuer v.now)) out.old out.new result }
{
    let mut at = room::put_all(b"OPEN 1\nissuer ", out);
    at += room::put_all(v, &mut out[at..]);
    at + room::put_byte(b'\n', &mut out[at..])
}

// "FINGERS and FACE agency, system", and so of IRIS
fn put_biometric(v: &[u8], out: &mut [u8]) -> usize
    ensures { Put (open_part (holder (origin_of (in_header v.now)).agency (origin_of (in_header v.now)).system)) out.old out.new result }
{
    let origin = in_header(v);
    put_holder(b"OPEN 2\nagency ", origin.agency, origin.system, out)
}

// "CCC `model 10`"; of SECURITY and of the certificates nothing; the others from the values of the rows that are open, by their
// numbers from 0: a container that conforms has them, and so an expiry that is a date, and a FASC-N that is one.
pub fn put_open(kind: u64, rows: Rows<'_>, out: &mut [u8]) -> usize
    requires { (today : ℕ) × Allowed today (table kind) (row_values rows.spans rows.bytes.now (length (table kind)) 0) }
    ensures { Put (open_part (open_of kind (row_values rows.entry.spans rows.entry.bytes.now (length (table kind)) 0))) out.old out.new result }
{
    match kind {
        1 => room::put_all(b"OPEN 1\nmodel 10\n", out),
        2 => put_chuid(rows.part(1), rows.part(5), out),
        3 => put_policy(rows.part(1), out),
        4 => put_issuer(rows.part(4), out),
        6 | 7 | 12 => put_biometric(rows.part(0), out),
        _ => room::put_all(b"OPEN 0\n", out),
    }
}
