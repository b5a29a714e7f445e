// The lent room: cleared, and bytes laid into it one after the other. Where the room ends, so does the text: no writer
// asks anything of its caller, and none writes past the room.
// Stays a count of what was written, not a writer with a buffer of its own: 01, "Which shape goes where", asks that each writer is lent
// the rest of the output, `&mut out[at..]`, from the present offset.
#![tactic(auto)]

ghost use Rattle.std.specs.Prelude.{◌≡◌, [], ◌∷◌, length};
ghost use Rattle.laws.specs.Room.{zeros, Put};

// The room is all zeros.
pub fn clear(out: &mut [u8])
    ensures { out.new ≡ zeros (length out.old) }
{
    out.fill(0);
}

// One byte.
pub fn put_byte(b: u8, out: &mut [u8]) -> usize
    ensures { Put (b ∷ []) out.old out.new result }
{
    if out.is_empty() {
        return 0;
    }
    out[0] = b;
    1
}

// Two bytes, one after the other; where the room ends between them, the first alone.
pub fn put_pair(a: u8, b: u8, out: &mut [u8]) -> usize
    ensures { Put (a ∷ b ∷ []) out.old out.new result }
{
    if out.len() < 2 {
        return put_byte(a, out);
    }
    out[0] = a;
    out[1] = b;
    2
}

// The bytes of s.
pub fn put_all(s: &[u8], out: &mut [u8]) -> usize
    ensures { Put s.now out.old out.new result }
{
    let count = s.len().min(out.len());
    out[..count].copy_from_slice(&s[..count]);
    count
}
