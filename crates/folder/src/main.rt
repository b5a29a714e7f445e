// The folder program, `folder TODAY FILE`: goes over the counts and lengths of a folder, then goes through it again with one container
// at a time, writes the summary beside it and prints it; or prints `refused N`. What is said and proved of it is in the crates pieces
// and summary; here the file is read and the text is written.
#![tactic(auto)]

ghost use Rattle.std.specs.Prelude.{IfSome, ◌≡◌, ◌<◌, ◌≤◌, length, take, ◌++◌};
ghost use Rattle.laws.specs.Ascii.{ascii};
ghost use Rattle.laws.specs.Room.{Put};
ghost use Rattle.dates.specs.Date.{IsDate};
ghost use Rattle.folder.specs.Going.{text_size, lent_of, SoFar, OneMore, Summarises};

use pieces::State;
use std::fs::{OpenFile, OpenOptions};
use std::io::{Cursor, Error, IsTerminal, Read, Seek, SeekFrom, Write};
use std::random::RandomSource;
use std::rt::{Env, Files};
use std::{fs, io, str};
use summary::Tally;

// How far the second time through is: how many rows are written, the offset of the next container, how many bytes of text there
// are, and the state that goes from row to row.
#[derive(Clone, Copy)]
pub struct Going {
    pub count: u64,
    pub offset: u64,
    pub length: usize,
    pub tally: Tally,
}

fn refuse(rt: &impl Print, number: u64) {
    let mut room = [0u8; 32];
    let n = printout::refuse(number, &mut room);
    let _ = rt.write_all(&room[..n]);
}

// A line on standard error: what failed, and why in the system's words, without the number that it has for them.
fn fail(rt: &impl Eprint, what: &str, why: Error) {
    let mut text = Cursor::new([0u8; 128]);
    let _ = write!(text, "{why}");
    let end = 128.min(text.position() as usize);
    let words = str::from_utf8(&text.get_ref()[..end]).unwrap_or("");
    let words = words
        .split_once(" (os error")
        .map_or(words, |(front, _)| front);
    let _ = eprintln!(rt; "folder: {what}: {words}");
}

// Where standard error is a terminal, how much was gone over: a line that the next one, or any message, is written over.
fn show_progress(stderr: &(impl Eprint + IsTerminal), turns: u64) {
    if turns % 1024 == 0 && stderr.is_terminal() {
        let size = turns / 16;
        let _ = eprint!(stderr; "folder: {size} MiB gone over\r");
    }
}

fn clear_progress(stderr: &(impl Eprint + IsTerminal), turns: u64) {
    if 1024 <= turns && stderr.is_terminal() {
        let _ = eprint!(stderr; "\x1B[K");
    }
}

// The first time through: all bytes, in pieces. A folder has less than 2 to the 41 bytes, so that the turns do not run out before one
// ends.
fn go_over(file: &mut impl Read, stderr: &(impl Eprint + IsTerminal)) -> io::Result<State> {
    let mut piece = [0u8; 65536];
    let mut state = State {
        phase: 0,
        value: 0,
        left: 0,
    };
    let mut turns: u64 = 0;
    while turns < 2199023255552 {
        let n = file.read(&mut piece)?;
        if n == 0 {
            break;
        }
        state = prosianek::folder_step(state, &piece[..n]);
        turns += 1;
        show_progress(stderr, turns);
    }
    clear_progress(stderr, turns);
    Ok(state)
}

// How many bytes of a container are lent: "one over 32,768 by its length alone".
fn lent(size: u64) -> usize
    ensures { result ≡ lent_of size }
{
    if 32768 < size {
        return 0;
    }
    size as usize
}

// The bytes of a container, or the place behind them where it is too long to be lent; None where they cannot be read.
fn fetch(file: &mut (impl Read + Seek), size: u64, container: &mut [u8]) -> Option<()>
    requires { (size < 4294967296) × (length container.old ≡ 32768) }
{
    if 32768 < size {
        file.seek(SeekFrom::Current(size as i64)).ok()?;
        return Some(());
    }
    let n = size as usize;
    (reading::read_full(file, &mut container[..n]) == n).then_some(())
}

// The row of a container more, behind the rows before it.
fn append(today: u64, kind: u8, size: u64, container: &[u8], going: Going, text: &mut [u8]) -> Going
    requires { IsDate today × SoFar today going text.old × (going.count < 256) × (size < 4294967296) × (length container.now ≡ lent_of size) }
    ensures { OneMore today going result text.new }
{
    let at = going.length;
    let end = at + 64;
    let offset = going.offset;
    let rowed = prosianek::row(
        today,
        kind,
        offset,
        size,
        container,
        going.tally,
        &mut text[at..end],
    );
    Going {
        count: going.count + 1,
        offset: offset + size + 5,
        length: at + rowed.length as usize,
        tally: rowed.tally,
    }
}

// One container more: its kind and its length, then its bytes, and its row; None where the file cannot be read.
fn next(file: &mut (impl Read + Seek), today: u64, going: Going, text: &mut [u8]) -> Option<Going>
    requires { IsDate today × SoFar today going text.old × (going.count < 256) }
    ensures more { IfSome result (λ r. OneMore today going r text.new) }
    ensures same_size { length text.new ≡ length text.old }
{
    let mut head = [0u8; 5];
    if reading::read_full(file, &mut head) < 5 {
        return None;
    }
    let kind = head[0];
    let size = numbers::number(&head, 1, 4);
    let mut container = [0u8; 32768];
    fetch(file, size, &mut container)?;
    let n = lent(size);
    Some(append(today, kind, size, &container[..n], going, text))
}

// How many containers there are, where that can be read.
fn read_count(file: &mut impl Read) -> Option<u64> {
    let mut head = [0u8; 2];
    if reading::read_full(file, &mut head) < 2 {
        return None;
    }
    Some(numbers::number(&head, 0, 2))
}

// The second time through: a row for each container; None where the file cannot be read again as it was.
fn rows(file: &mut (impl Read + Seek), today: u64, text: &mut [u8]) -> Option<Going>
    requires { IsDate today × (length text.old ≡ text_size) }
    ensures { IfSome result (λ r. SoFar today r text.new) }
{
    let count = read_count(file)?;
    if 256 < count {
        return None;
    }
    let mut going = Going {
        count: 0,
        offset: 7,
        length: 0,
        tally: Tally {
            good: 0,
            agreement: 0,
            fascn: [0u8; 25],
        },
    };
    while going.count < count {
        going = next(file, today, going, text)?;
    }
    Some(going)
}

// The two last lines, behind the rows: how long the whole text is.
fn close(today: u64, going: Going, text: &mut [u8]) -> usize
    requires { SoFar today going text.old }
    ensures inside { result ≤ length text.new }
    ensures summarises { Summarises today (take result text.new) }
{
    let at = going.length;
    let end = at + 64;
    let Tally {
        good,
        agreement,
        ..
    } = going.tally;
    let done = prosianek::last(good, agreement, &mut text[at..end]);
    at + done.length as usize
}

// The name of the folder with `.summary` behind it. One that does not fit fills the room, and is then too long for any file.
fn put_name(path: &[u8], name: &mut [u8]) -> usize
    ensures inside { result ≤ length name.new }
    ensures put { Put (path.now ++ ascii ".summary") name.old name.new result }
{
    let at = room::put_all(path, name);
    at + room::put_all(b".summary", &mut name[at..])
}

// A name that no other run has: the summary's, and random digits behind it.
fn put_new_name(rt: &impl RandomSource, path: &[u8], name: &mut [u8]) -> usize
    ensures { result ≤ length name.new }
{
    let mut seed = [0u8; 8];
    let _ = rt.fill_bytes(&mut seed);
    let mut digits = Cursor::new([0u8; 16]);
    let number = numbers::number(&seed, 0, 8);
    let _ = write!(digits, "{number:016x}");
    let mut at = put_name(path, name);
    at += room::put_byte(b'.', &mut name[at..]);
    at + room::put_all(digits.get_ref(), &mut name[at..])
}

// A name as std takes it: text. What the system says of one that fills its room and is too long, and of one that is no text, are
// its errors 36 and 84.
fn name_of(name: &[u8]) -> io::Result<&str> {
    if 4096 <= name.len() {
        return Err(Error::from_raw_os_error(36));
    }
    match str::from_utf8(name) {
        Ok(text) => Ok(text),
        Err(_) => Err(Error::from_raw_os_error(84)),
    }
}

// Writes the text to a file, and closes it once it is whole.
fn fill(mut file: impl Write + OpenFile + Drop, text: &[u8]) -> io::Result<()> {
    file.write_all(text)?;
    file.sync_all()
}

// Writes the text to a new file, which gets the summary's name once it is whole; where it cannot be written, no half of it stays.
fn make(rt: &impl Files, new: &str, name: &str, text: &[u8]) -> io::Result<()> {
    let file = OpenOptions::new()
        .write(true)
        .create_new(true)
        .open(rt, new)?;
    if let Err(why) = fill(file, text) {
        let _ = fs::remove_file(rt, new);
        return Err(why);
    }
    if let Err(why) = fs::rename(rt, new, name) {
        let _ = fs::remove_file(rt, new);
        return Err(why);
    }
    Ok(())
}

// The same beside the folder.
fn save(rt: &(impl Files + RandomSource), path: &[u8], text: &[u8]) -> io::Result<()> {
    let mut new = [0u8; 4096];
    let mut name = [0u8; 4096];
    let new_length = put_new_name(rt, path, &mut new);
    let name_length = put_name(path, &mut name);
    make(
        rt,
        name_of(&new[..new_length])?,
        name_of(&name[..name_length])?,
        text,
    )
}

// The one function of the program that writes a text. What it may write is a demand on its caller: a summary under this date, and
// nothing else.
fn publish(rt: &(impl Files + RandomSource + Print + Eprint), today: u64, path: &[u8], text: &[u8])
    requires { Summarises today text.now }
{
    if let Err(why) = save(rt, path, text) {
        fail(rt, "the summary cannot be written", why);
        return;
    }
    if rt.write_all(text).is_err() {
        let _ = eprintln!(rt; "folder: not all could be written");
    }
}

// The second time through, and what comes of it.
fn summarise<R: Files + RandomSource + Print + Eprint>(
    rt: &R,
    file: &mut R::File,
    today: u64,
    path: &[u8],
)
    requires { IsDate today }
{
    if let Err(why) = file.seek(SeekFrom::Start(0)) {
        fail(rt, "the file cannot be read twice", why);
        return;
    }
    let mut text = [0u8; 16448];
    let Some(going) = rows(file, today, &mut text) else {
        let _ = eprintln!(rt; "folder: the file could not be read again as it was");
        return;
    };
    let n = close(today, going, &mut text);
    publish(rt, today, path, &text[..n]);
}

// Both times: "32 .., before any container".
fn go_through<R: Files + RandomSource + Print + Eprint>(
    rt: &R,
    stderr: &(impl Eprint + IsTerminal),
    file: &mut R::File,
    today: u64,
    path: &[u8],
)
    requires { IsDate today }
{
    match go_over(file, stderr) {
        Err(why) => fail(rt, "the file cannot be read", why),
        Ok(state) => {
            let number = prosianek::folder_end(today, state);
            if number != 0 {
                refuse(rt, number);
                return;
            }
            summarise(rt, file, today, path);
        }
    }
}

// Opens the folder for reading.
fn open<R: Files>(rt: &R, path: &[u8]) -> io::Result<R::File> {
    fs::open(rt, name_of(path)?)
}

// "2 for today comes first of all"
fn main(rt: HostRuntime) {
    let mut word = [0u8; 16];
    let mut path = [0u8; 4096];
    let word_length = rt.arg(1, &mut word).unwrap_or(0);
    let path_length = rt.arg(2, &mut path).unwrap_or(0);
    let Some(today) = dates::date_of(&word[..word_length]) else {
        refuse(&rt, 2);
        return;
    };
    if path_length == 0 {
        let _ = eprintln!(rt; "folder: no file is named, or by a name that is too long");
        return;
    }
    match open(&rt, &path[..path_length]) {
        Err(why) => fail(&rt, "the file cannot be opened", why),
        Ok(mut file) => go_through(&rt, &rt.stderr(), &mut file, today, &path[..path_length]),
    }
}
