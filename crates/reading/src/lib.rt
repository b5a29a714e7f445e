// Reading into a buffer that a caller lends, until it is full.
#![tactic(auto)]

ghost use Rattle.std.specs.Prelude.{◌≤◌, length, take};
ghost use Rattle.std.specs.Io.KnownBytes.{Consumes};

use std::io::Read;

// Reads until the buffer is full, the input ends or a read fails, and answers how many bytes came: they stand at its front, and are
// the next ones of the input.
pub fn read_full<R: Read>(input: &mut R, buffer: &mut [u8]) -> usize
    ensures within { result ≤ length buffer.new }
    ensures bytes { Consumes (R.remaining input.old) (R.remaining input.new) (take result buffer.new) }
{
    let mut done = 0;
    while done < buffer.len() {
        match input.read(&mut buffer[done..]) {
            Ok(0) | Err(_) => break,
            Ok(n) => done += n,
        }
    }
    done
}
