// The desk program: reads two digits for the kind, eight for today and a container from standard input, and prints the report,
// or `refused N`. What it prints is said and proved in the crate printout; here it is read and written.
#![tactic(auto)]

ghost use Rattle.std.specs.Prelude.{IsTrue};
ghost use Rattle.std.specs.Io.KnownBytes.{IsAtEnd};
ghost use Rattle.printout.specs.Printout.{Prints};

use std::io::Read;

// The one function of the program that writes. What it may write is a demand on its caller: what is printed for the bytes
// that were read, and nothing else.
fn print(rt: &(impl Print + Eprint), input: &[u8], got: usize, text: &[u8])
    requires { Prints input.now got text.now }
{
    if rt.write_all(text).is_err() {
        let _ = eprintln!(rt; "desk: not all could be written");
    }
}

// Whether the input is at its end. `read_full` stops at a read that fails as it stops at the end; one more read tells the two
// apart.
fn at_end<R: Read>(input: &mut R) -> bool
    ensures { IsTrue result → IsAtEnd (R.remaining input.old) }
{
    let mut more = [0u8; 1];
    matches!(input.read(&mut more), Ok(0))
}

fn main(rt: HostRuntime) {
    let mut stdin = rt.stdin();
    let mut input = [0u8; 32779];
    let mut room = [0u8; 512];
    let got = reading::read_full(&mut stdin, &mut input);
    // a full buffer holds a container that is too large, whatever follows
    if got < input.len() && !at_end(&mut stdin) {
        let _ = eprintln!(rt; "desk: the input could not be read whole");
        return;
    }
    let n = printout::answer(&input[..got], &mut room);
    print(&rt, &input, got, &room[..n]);
}
