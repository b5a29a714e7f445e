// The four calls of a folder for C: include/prosianek.h declares them. A slice is a pointer and a length there, a lent number or array
// a pointer. Each contract is one record of specs/Folder.antt.
ghost use Rattle.capi.specs.Folder.{CFolderSteps, CFolderEnds, CRows, CLasts};

use pieces::State;
use summary::Tally;

pub fn prosianek_folder_step(state: &mut [u64; 3], piece: &[u8])
    ensures { CFolderSteps state.old piece.now state.new }
{
    let before = State {
        phase: state[0],
        value: state[1],
        left: state[2],
    };
    let after = prosianek::folder_step(before, piece);
    *state = [after.phase, after.value, after.left];
}

pub fn prosianek_folder_end(today: u64, state: &[u64; 3]) -> u64
    ensures { CFolderEnds today state.now result }
{
    prosianek::folder_end(
        today,
        State {
            phase: state[0],
            value: state[1],
            left: state[2],
        },
    )
}

pub fn prosianek_row(
    today: u64,
    kind: u8,
    offset: u64,
    size: u64,
    container: &[u8],
    good: &mut u64,
    agreement: &mut u64,
    fascn: &mut [u8; 25],
    room: &mut [u8],
    length: &mut u64,
) -> u64
    ensures { CRows today kind offset size container.now good.old agreement.old fascn.old room.old room.new good.new agreement.new fascn.new result length.new }
{
    let before = Tally {
        good: *good,
        agreement: *agreement,
        fascn: *fascn,
    };
    let rowed = prosianek::row(today, kind, offset, size, container, before, room);
    let after = rowed.tally;
    *good = after.good;
    *agreement = after.agreement;
    let first = after.fascn;
    *fascn = first;
    *length = rowed.length;
    rowed.number
}

pub fn prosianek_last(good: u64, agreement: u64, room: &mut [u8], length: &mut u64) -> u64
    ensures { CLasts good agreement room.old room.new result length.new }
{
    let done = prosianek::last(good, agreement, room);
    *length = done.length;
    done.number
}
