// The door: the fourteen calls, and nothing else. Each contract is one record of specs/Calls.antt.
//
// kind is 1 CCC, 2 CHUID, 3 DISCOVERY, 4 PRINTED, 5 SECURITY, 6 FINGERS, 7 FACE, 8 PIVAUTH, 9 DIGSIG, 10 KEYMGMT, 11 CARDAUTH,
// 12 IRIS; today is a date as an eight-digit number.
// Every input gets an answer. A room that is lent holds the output afterwards, and zeros: nothing of what was there.
#![tactic(auto)]

ghost use Rattle.prosianek.specs.Calls.{Checks, Writes, Views, Reports, Lists, Points, Signers, Decodes, DecodesByTable, Encodes, FolderSteps, FolderEnds, Rows, Lasts};
ghost use Rattle.points.specs.Calls.{five};

use fascn::{Decoded, Numbers};
use pieces::State;
use points::{Listed, Point};
use sheet::Checked;
use summary::{Rowed, Tally};
use verdicts::Done;

// Whether a container conforms, or the first broken rule, its place and the tag there; and the value sheet of one that does, where
// the room suffices. With an empty room it gives the verdict alone, and 3 beside a verdict of 0.
pub fn check(kind: u64, today: u64, container: &[u8], sheet: &mut [u8]) -> Checked
    ensures { Checks kind today container.now sheet.old sheet.new result }
{
    sheet::check(kind, today, container, sheet)
}

// The container of a value sheet, or the first broken rule, the place of its row and the row's tag.
pub fn write(kind: u64, today: u64, sheet: &[u8], container: &mut [u8]) -> Done
    ensures { Writes kind today sheet.now container.old container.new result }
{
    writing::write(kind, today, sheet, container)
}

// The value of the element that has this tag, as a part of the container. The tag that is stored is the verdict's, by its number.
pub fn view<'a>(
    kind: u64,
    today: u64,
    container: &'a [u8],
    element: u64,
    number: &mut u64,
    place: &mut u64,
    tag: &mut u64,
) -> &'a [u8]
    ensures { Views kind today container.now element container.entry.ref_ptr number.new place.new tag.new result.ref_ptr result.now }
{
    views::view(kind, today, container, element, number, place, tag)
}

// The desk report of a container. Its own answer has no place and no tag: those of a broken rule stand in the report.
pub fn report(kind: u64, today: u64, container: &[u8], room: &mut [u8]) -> Done
    ensures { Reports kind today container.now room.old room.new result }
{
    report::report(kind, today, container, room)
}

// The points of a FINGERS container as five lists of numbers: type, x, y, angle, quality.
pub fn lists(
    today: u64,
    container: &[u8],
    types: &mut [u64],
    xs: &mut [u64],
    ys: &mut [u64],
    angles: &mut [u64],
    qualities: &mut [u64],
) -> Listed
    ensures { Lists today container.now (five types.old xs.old ys.old angles.old qualities.old) (five types.new xs.new ys.new angles.new qualities.new) result }
{
    columns::lists(today, container, types, xs, ys, angles, qualities)
}

// The same as one list of points. The language leaves the proof of a function with such a list to hand, so the loop is here and
// nowhere else: what is listed, and which entry is which point, are those of the five lists.
pub fn points(today: u64, container: &[u8], list: &mut [Point]) -> Listed
    ensures { Points today container.now list.old list.new result }
{
    let located = points::locate(today, container, list.len());
    let plan = located.unwrap_or_default();
    for (i, point) in list.iter_mut().enumerate() {
        *point = points::entry(container, plan, i);
    }
    located.into()
}

// The certificate of who signed a biometric of this kind, as a part of the biometric or of the CHUID; which is 0 for neither, 1
// for the CHUID, 2 for the biometric.
pub fn signer<'a>(
    kind: u64,
    today: u64,
    chuid: &'a [u8],
    biometric: &'a [u8],
    number: &mut u64,
    place: &mut u64,
    tag: &mut u64,
    which: &mut u64,
) -> &'a [u8]
    ensures { Signers kind today chuid.now biometric.now chuid.entry.ref_ptr biometric.entry.ref_ptr number.new place.new tag.new which.new result.ref_ptr result.now }
{
    signer::signer(kind, today, chuid, biometric, number, place, tag, which)
}

// The nine numbers of a FASC-N, by the first reader, which takes it character by character.
pub fn decode(bytes: &[u8]) -> Decoded
    ensures { Decodes bytes.now result }
{
    fascn::decode(bytes).into()
}

// The same of many FASC-N at once, by the second reader, which takes two characters at a time through a table: strings of 25 bytes, one
// after the other, and an entry for what `decode` answers of each.
pub fn decode_by_table(strings: &[u8], list: &mut [Decoded]) -> u64
    ensures { DecodesByTable strings.now list.old list.new result }
{
    verdicts::code_of(by_table::decode_each(strings, list))
}

// The FASC-N of nine numbers.
pub fn encode(numbers: Numbers, room: &mut [u8]) -> u64
    ensures { Encodes numbers room.old room.new result }
{
    verdicts::code_of(fascn::encode(numbers, room))
}

// A folder is gone over before any container of it is looked at: a piece of it more, of any size. The state begins as zeros.
pub fn folder_step(state: State, piece: &[u8]) -> State
    ensures { FolderSteps state piece.now result }
{
    pieces::step(state, piece)
}

// Whether the pieces are a folder: 2 if today is no date, 32 if they are none, else 0.
pub fn folder_end(today: u64, state: State) -> u64
    ensures { FolderEnds today state result }
{
    verdicts::code_of(pieces::finish(today, state))
}

// The row of a folder's container, whose first byte stands at this offset of the folder and which has this size: one over 32,768
// bytes is judged by its size, and what is lent for it is not looked at. The tally begins as zeros and goes from row to row.
pub fn row(
    today: u64,
    kind: u8,
    offset: u64,
    size: u64,
    container: &[u8],
    tally: Tally,
    room: &mut [u8],
) -> Rowed
    ensures { Rows today kind offset size container.now tally room.old room.new result }
{
    summary::row(today, kind, offset, size, container, tally, room)
}

// A folder's two last lines, by the good and the agreement of its tally.
pub fn last(good: u64, agreement: u64, room: &mut [u8]) -> Done
    ensures { Lasts good agreement room.old room.new result }
{
    summary::last(good, agreement, room)
}
