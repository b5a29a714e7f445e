// The thirteen calls for C, four of them in folder.rt: include/prosianek.h declares them, and the crate capi_c exports them. A slice is
// a pointer and a length there, a lent number a pointer; each function answers 01's number. Each contract is one record of
// specs/Calls.antt.
#![tactic(auto)]

pub mod folder;

ghost use Rattle.capi.specs.Calls.{CChecks, CWrites, CViews, CReports, CLists, CSigners, CDecodes, CDecodesByTable, CEncodes};
ghost use Rattle.std.specs.Prelude.{◌≡◌};
ghost use Rattle.verdicts.specs.Verdicts.{tag_number};
ghost use Rattle.points.specs.Calls.{five};

use fascn::{Decoded, Numbers};
use verdicts::Verdict;

// A verdict is stored by its place and its tag, and answered by its number.
fn told(verdict: Verdict, place: &mut u64, tag: &mut u64) -> u64
    ensures number { result ≡ verdict.number }
    ensures place { place.new ≡ verdict.place }
    ensures tag { tag.new ≡ tag_number verdict.tag }
{
    *place = verdict.place;
    *tag = verdicts::tag_number(verdict.tag);
    verdict.number
}

pub fn prosianek_check(
    kind: u64,
    today: u64,
    container: &[u8],
    sheet: &mut [u8],
    place: &mut u64,
    tag: &mut u64,
    room: &mut u64,
    length: &mut u64,
) -> u64
    ensures { CChecks kind today container.now sheet.old sheet.new result place.new tag.new room.new length.new }
{
    let checked = prosianek::check(kind, today, container, sheet);
    *room = checked.room;
    *length = checked.length;
    told(checked.verdict, place, tag)
}

pub fn prosianek_write(
    kind: u64,
    today: u64,
    sheet: &[u8],
    container: &mut [u8],
    place: &mut u64,
    tag: &mut u64,
    length: &mut u64,
) -> u64
    ensures { CWrites kind today sheet.now container.old container.new result place.new tag.new length.new }
{
    let done = prosianek::write(kind, today, sheet, container);
    *place = done.place;
    *tag = verdicts::tag_number(done.tag);
    *length = done.length;
    done.number
}

// The part is told by its offset in the container: no exported function hands out a reference.
pub fn prosianek_view(
    kind: u64,
    today: u64,
    container: &[u8],
    element: u64,
    place: &mut u64,
    tag: &mut u64,
    offset: &mut u64,
    length: &mut u64,
) -> u64
    ensures { CViews kind today container.now element result place.new tag.new offset.new length.new }
{
    let (verdict, part) = views::told(views::locate(kind, today, container, element));
    *offset = part.start as u64;
    *length = (part.end - part.start) as u64;
    told(verdict, place, tag)
}

// No refusal of a report has another place than 0, or a tag.
pub fn prosianek_report(
    kind: u64,
    today: u64,
    container: &[u8],
    room: &mut [u8],
    length: &mut u64,
) -> u64
    ensures { CReports kind today container.now room.old room.new result length.new }
{
    let done = prosianek::report(kind, today, container, room);
    *length = done.length;
    done.number
}

pub fn prosianek_lists(
    today: u64,
    container: &[u8],
    types: &mut [u64],
    xs: &mut [u64],
    ys: &mut [u64],
    angles: &mut [u64],
    qualities: &mut [u64],
    place: &mut u64,
    tag: &mut u64,
    first: &mut u64,
    second: &mut u64,
) -> u64
    ensures { CLists today container.now (five types.old xs.old ys.old angles.old qualities.old) (five types.new xs.new ys.new angles.new qualities.new) result place.new tag.new first.new second.new }
{
    let listed = prosianek::lists(today, container, types, xs, ys, angles, qualities);
    *first = listed.first;
    *second = listed.second;
    told(listed.verdict, place, tag)
}

// The certificate is told by its offset in the container that is named, as the part of a view is.
pub fn prosianek_signer(
    kind: u64,
    today: u64,
    chuid: &[u8],
    biometric: &[u8],
    place: &mut u64,
    tag: &mut u64,
    which: &mut u64,
    offset: &mut u64,
    length: &mut u64,
) -> u64
    ensures { CSigners kind today chuid.now biometric.now result place.new tag.new which.new offset.new length.new }
{
    let (verdict, holder, certificate) = signer::told(signer::locate(
        kind, today, chuid, biometric,
    ));
    *which = holder;
    *offset = certificate.start as u64;
    *length = (certificate.end - certificate.start) as u64;
    told(verdict, place, tag)
}

pub fn prosianek_fascn_decode(bytes: &[u8], numbers: &mut [u64; 9]) -> u64
    ensures { CDecodes bytes.now result numbers.new }
{
    let d = prosianek::decode(bytes);
    let n = d.numbers;
    *numbers = [
        n.agency,
        n.system,
        n.credential,
        n.series,
        n.issue,
        n.person,
        n.category,
        n.organisation,
        n.association,
    ];
    d.number
}

// The entries lie as C has them, so that the door's call fills the list that was lent.
pub fn prosianek_fascn_decode_by_table(strings: &[u8], list: &mut [Decoded]) -> u64
    ensures { CDecodesByTable strings.now list.old list.new result }
{
    prosianek::decode_by_table(strings, list)
}

pub fn prosianek_fascn_encode(numbers: &[u64; 9], room: &mut [u8]) -> u64
    ensures { CEncodes numbers.now room.old room.new result }
{
    prosianek::encode(
        Numbers {
            agency: numbers[0],
            system: numbers[1],
            credential: numbers[2],
            series: numbers[3],
            issue: numbers[4],
            person: numbers[5],
            category: numbers[6],
            organisation: numbers[7],
            association: numbers[8],
        },
        room,
    )
}
