// The library for C: the functions of the crate capi under their names, by C's calling convention. include/prosianek.h declares
// them, and each contract is that of the function that is called. A library for crates above it and one for C are two crates.
#![tactic(auto)]

ghost use Rattle.capi.specs.Calls.{CChecks, CWrites, CViews, CReports, CLists, CSigners, CDecodes, CDecodesByTable, CEncodes};
ghost use Rattle.points.specs.Calls.{five};
ghost use Rattle.capi.specs.Folder.{CFolderSteps, CFolderEnds, CRows, CLasts};

use fascn::Decoded;

#[unsafe(no_mangle)]
pub extern "C" fn prosianek_check(
    kind: u64,
    today: u64,
    container: &[u8],
    sheet: &mut [u8],
    place: &mut u64,
    tag: &mut u64,
    room: &mut u64,
    length: &mut u64,
) -> u64
    ensures { CChecks kind today container.now sheet.old sheet.new result place.new tag.new room.new length.new }
{
    capi::prosianek_check(kind, today, container, sheet, place, tag, room, length)
}

#[unsafe(no_mangle)]
pub extern "C" fn prosianek_write(
    kind: u64,
    today: u64,
    sheet: &[u8],
    container: &mut [u8],
    place: &mut u64,
    tag: &mut u64,
    length: &mut u64,
) -> u64
    ensures { CWrites kind today sheet.now container.old container.new result place.new tag.new length.new }
{
    capi::prosianek_write(kind, today, sheet, container, place, tag, length)
}

#[unsafe(no_mangle)]
pub extern "C" fn prosianek_view(
    kind: u64,
    today: u64,
    container: &[u8],
    element: u64,
    place: &mut u64,
    tag: &mut u64,
    offset: &mut u64,
    length: &mut u64,
) -> u64
    ensures { CViews kind today container.now element result place.new tag.new offset.new length.new }
{
    capi::prosianek_view(kind, today, container, element, place, tag, offset, length)
}

#[unsafe(no_mangle)]
pub extern "C" fn prosianek_report(
    kind: u64,
    today: u64,
    container: &[u8],
    room: &mut [u8],
    length: &mut u64,
) -> u64
    ensures { CReports kind today container.now room.old room.new result length.new }
{
    capi::prosianek_report(kind, today, container, room, length)
}

#[unsafe(no_mangle)]
pub extern "C" fn prosianek_lists(
    today: u64,
    container: &[u8],
    types: &mut [u64],
    xs: &mut [u64],
    ys: &mut [u64],
    angles: &mut [u64],
    qualities: &mut [u64],
    place: &mut u64,
    tag: &mut u64,
    first: &mut u64,
    second: &mut u64,
) -> u64
    ensures { CLists today container.now (five types.old xs.old ys.old angles.old qualities.old) (five types.new xs.new ys.new angles.new qualities.new) result place.new tag.new first.new second.new }
{
    capi::prosianek_lists(
        today, container, types, xs, ys, angles, qualities, place, tag, first, second,
    )
}

#[unsafe(no_mangle)]
pub extern "C" fn prosianek_signer(
    kind: u64,
    today: u64,
    chuid: &[u8],
    biometric: &[u8],
    place: &mut u64,
    tag: &mut u64,
    which: &mut u64,
    offset: &mut u64,
    length: &mut u64,
) -> u64
    ensures { CSigners kind today chuid.now biometric.now result place.new tag.new which.new offset.new length.new }
{
    capi::prosianek_signer(
        kind, today, chuid, biometric, place, tag, which, offset, length,
    )
}

#[unsafe(no_mangle)]
pub extern "C" fn prosianek_fascn_decode(bytes: &[u8], numbers: &mut [u64; 9]) -> u64
    ensures { CDecodes bytes.now result numbers.new }
{
    capi::prosianek_fascn_decode(bytes, numbers)
}

#[unsafe(no_mangle)]
pub extern "C" fn prosianek_fascn_decode_by_table(strings: &[u8], list: &mut [Decoded]) -> u64
    ensures { CDecodesByTable strings.now list.old list.new result }
{
    capi::prosianek_fascn_decode_by_table(strings, list)
}

#[unsafe(no_mangle)]
pub extern "C" fn prosianek_fascn_encode(numbers: &[u64; 9], room: &mut [u8]) -> u64
    ensures { CEncodes numbers.now room.old room.new result }
{
    capi::prosianek_fascn_encode(numbers, room)
}

#[unsafe(no_mangle)]
pub extern "C" fn prosianek_folder_step(state: &mut [u64; 3], piece: &[u8])
    ensures { CFolderSteps state.old piece.now state.new }
{
    capi::folder::prosianek_folder_step(state, piece);
}

#[unsafe(no_mangle)]
pub extern "C" fn prosianek_folder_end(today: u64, state: &[u64; 3]) -> u64
    ensures { CFolderEnds today state.now result }
{
    capi::folder::prosianek_folder_end(today, state)
}

#[unsafe(no_mangle)]
pub extern "C" fn prosianek_row(
    today: u64,
    kind: u8,
    offset: u64,
    size: u64,
    container: &[u8],
    good: &mut u64,
    agreement: &mut u64,
    fascn: &mut [u8; 25],
    room: &mut [u8],
    length: &mut u64,
) -> u64
    ensures { CRows today kind offset size container.now good.old agreement.old fascn.old room.old room.new good.new agreement.new fascn.new result length.new }
{
    capi::folder::prosianek_row(
        today, kind, offset, size, container, good, agreement, fascn, room, length,
    )
}

#[unsafe(no_mangle)]
pub extern "C" fn prosianek_last(
    good: u64,
    agreement: u64,
    room: &mut [u8],
    length: &mut u64,
) -> u64
    ensures { CLasts good agreement room.old room.new result length.new }
{
    capi::folder::prosianek_last(good, agreement, room, length)
}
