// What the desk program prints: the report of the container in its input, or `refused N`.
#![tactic(auto)]

ghost use Rattle.std.specs.Prelude.{◌≡◌, length, unwrap_or};
ghost use Rattle.laws.specs.Room.{zeros, Put};
ghost use Rattle.printout.specs.Printout.{kind_of, desk_text, refused_text};

// The kind by its two digits; None, where there are not two.
fn kind_of(input: &[u8]) -> Option<u64>
    ensures { unwrap_or result 0 ≡ kind_of input.now }
{
    let [tens, units, ..] = input else {
        return None;
    };
    if !(tens.is_ascii_digit() & units.is_ascii_digit()) {
        return None;
    }
    Some(u64::from(*tens - b'0') * 10 + u64::from(*units - b'0'))
}

// `refused N`, and a line end.
fn put_refused(number: u64, room: &mut [u8]) -> usize
    ensures { Put (refused_text number) room.old room.new result }
{
    let mut at = room::put_all(b"refused ", room);
    at += texts::put_decimal(number, &mut room[at..]);
    at += room::put_byte(10, &mut room[at..]);
    at
}

// The same in a room that may hold anything: zeros behind it.
pub fn refuse(number: u64, room: &mut [u8]) -> usize
    ensures { Put (refused_text number) (zeros (length room.old)) room.new result }
{
    room::clear(room);
    put_refused(number, room)
}

// What is printed for an input: it goes to the front of the room, and zeros behind it. The report call clears the room by
// itself, and its refusals leave it all zeros. Of a number that is no kind, 0 stands for a kind that is not written.
pub fn answer(input: &[u8], room: &mut [u8]) -> usize
    ensures { Put (desk_text input.now (length room.old)) (zeros (length room.old)) room.new result }
{
    let kind = kind_of(input).unwrap_or(0);
    if !kinds::is_kind(kind) {
        return refuse(1, room);
    }
    if input.len() < 10 {
        return refuse(2, room);
    }
    let Some(today) = dates::date_of(&input[2..10]) else {
        return refuse(2, room);
    };
    let done = prosianek::report(kind, today, &input[10..], room);
    if done.number != 0 {
        return put_refused(done.number, room);
    }
    done.length as usize
}
