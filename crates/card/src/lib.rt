// The report's first section: "CARD (kind, bytes in the container, today, verdict number and place)", and the verdict's tag, as
// text into a lent room. Where the room ends, so does the text: no writer asks anything of its caller.
#![tactic(auto)]

ghost use Rattle.std.specs.Prelude.{◌≡◌, [], ◌∷◌, ◌++◌};
ghost use Rattle.laws.specs.Room.{Put};
ghost use Rattle.verdicts.specs.Verdicts.{verdict_of};
ghost use Rattle.card.specs.Card.{kind_name, tag_text, verdict_text, verdict_line, card_part};

use verdicts::{Finding, Verdict};

// "1 CCC, 2 CHUID, 3 DISCOVERY, 4 PRINTED, 5 SECURITY, 6 FINGERS, 7 FACE", 2026-04: "8 to 11, printed PIVAUTH, DIGSIG, KEYMGMT,
// CARDAUTH", 2026-06: "12, printed IRIS", and the line's end.
fn kind_line(kind: u64) -> &'static [u8]
    ensures { result.now ≡ kind_name kind ++ 10 ∷ [] }
{
    match kind {
        1 => b"CCC\n",
        2 => b"CHUID\n",
        3 => b"DISCOVERY\n",
        4 => b"PRINTED\n",
        5 => b"SECURITY\n",
        6 => b"FINGERS\n",
        7 => b"FACE\n",
        8 => b"PIVAUTH\n",
        9 => b"DIGSIG\n",
        10 => b"KEYMGMT\n",
        11 => b"CARDAUTH\n",
        12 => b"IRIS\n",
        _ => b"\n",
    }
}

// "`--`" for none, else two hex digits or four: a byte 00 is a tag, and prints as one.
fn put_tag(tag: Option<u64>, out: &mut [u8]) -> usize
    ensures { Put (tag_text tag) out.old out.new result }
{
    match tag {
        None => room::put_pair(b'-', b'-', out),
        Some(t) => texts::put_tag(t, out),
    }
}

// "verdict number and place", and the tag: the end of a line.
pub fn put_numbers(verdict: Verdict, out: &mut [u8]) -> usize
    ensures { Put (verdict_text verdict) out.old out.new result }
{
    let mut at = texts::put_number(verdict.number, b' ', out);
    at += texts::put_number(verdict.place, b' ', &mut out[at..]);
    at += put_tag(verdict.tag, &mut out[at..]);
    at + room::put_byte(b'\n', &mut out[at..])
}

// The line of the verdict. That of a container that conforms is always the same, and is put in one piece.
fn put_verdict(outcome: Result<(), Finding>, out: &mut [u8]) -> usize
    ensures { Put (verdict_line (verdict_of outcome)) out.old out.new result }
{
    let Err(f) = outcome else {
        return room::put_all(b"verdict 0 0 --\n", out);
    };
    let at = room::put_all(b"verdict ", out);
    at + put_numbers(f.into(), &mut out[at..])
}

// The section, after its count of lines.
pub fn put_card(
    kind: u64,
    size: usize,
    today: u64,
    outcome: Result<(), Finding>,
    out: &mut [u8],
) -> usize
    ensures { Put (card_part kind size today (verdict_of outcome)) out.old out.new result }
{
    let mut at = room::put_all(b"CARD 4\nkind ", out);
    at += room::put_all(kind_line(kind), &mut out[at..]);
    at += texts::put_count(b"bytes ", size as u64, &mut out[at..]);
    at += texts::put_digits(b"today ", 8, today, &mut out[at..]);
    at + put_verdict(outcome, &mut out[at..])
}
