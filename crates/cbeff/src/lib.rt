// The value of BC: the CBEFF header, field by field in 01's order,
// and its data part.
#![tactic(auto)]

ghost use Rattle.std.specs.Prelude.{◌≡◌, ◌^◌, ◌<◌, ◌≤◌, length};
ghost use Rattle.laws.specs.Format.{judge};
ghost use Rattle.verdicts.specs.Verdicts.{ruled};
ghost use Rattle.cbeff.specs.Header.{fingers, face, iris, header, data_part};
ghost use Rattle.cbeff.specs.Judged.{sizes_hold, dates_hold, form_holds};

use by_table::is_fascn;
use dates::is_moment;
use facial::is_facial;
use iris::is_iris;
use minutiae::is_minutiae;
use numbers::number;
use plain::{is_creator, is_quality};
use verdicts::Fault;

// What the data part of a format is.
#[derive(Clone, Copy)]
pub enum Body {
    Minutiae,
    Facial,
    Iris,
}

// What differs by format: its owner, its number, the type, the top three bits of the data type, whether a quality of -1 is
// known, what the data part is, and the fault of one that is no such record.
#[derive(Clone, Copy)]
pub struct Biometric {
    pub owner: u64,
    pub format: u64,
    pub sort: u64,
    pub top: u64,
    pub missing: bool,
    pub body: Body,
    pub broken: Fault,
}

// Stays a function, and so do the next two: of a constant no contract says that it is `fingers`.
// "format 0201 fingers", "type 000008 fingers", "data type, top three bits 100 fingers"; its data are minutiae.
pub fn fingers() -> Biometric
    ensures { result ≡ fingers }
{
    Biometric {
        owner: 0x001B,
        format: 0x0201,
        sort: 0x000008,
        top: 4,
        missing: true,
        body: Body::Minutiae,
        broken: Fault::BadMinutiae,
    }
}

// "0501 face", "000002 face", "001 face"; its data are a facial record.
pub fn face() -> Biometric
    ensures { result ≡ face }
{
    Biometric {
        owner: 0x001B,
        format: 0x0501,
        sort: 0x000002,
        top: 1,
        missing: false,
        body: Body::Facial,
        broken: Fault::BadFace,
    }
}

// Document 004, 9.3: "The BDB Format Owner field has a value of 0x0101", "Format Type field .. 0x0009", "Biometric Type field for
// the iris image is 0x000010", "Data Type field .. b010xxxxx"; its data are an iris record.
pub fn iris() -> Biometric
    ensures { result ≡ iris }
{
    Biometric {
        owner: 0x0101,
        format: 0x0009,
        sort: 0x000010,
        top: 2,
        missing: true,
        body: Body::Iris,
        broken: Fault::BadIris,
    }
}

// Version, security, the lengths, owner, format. The data length d is handed in, since the data are found by it too.
#[tactic(auto, unfolding(crate::specs::Judged::sizes_hold))]
fn sizes_hold(b: Biometric, d: u64, v: &[u8]) -> bool
    requires { (88 ≤ length v.now) × (d < 256 ^ 4) }
    ensures { result ≡ sizes_hold b d v.now }
{
    let s = number(v, 6, 2);
    (number(v, 0, 1) == 0x03)
        & (number(v, 1, 1) == 0x0D)
        & (1 <= d)
        & (1 <= s)
        & (88 + d + s == v.len() as u64)
        & (number(v, 8, 2) == b.owner)
        & (number(v, 10, 2) == b.format)
}

// "creation date (8), validity from and to (16), from not after to": moments are in order by the numbers of their bytes.
#[tactic(auto, unfolding(crate::specs::Judged::dates_hold))]
fn dates_hold(v: &[u8]) -> bool
    requires { 88 ≤ length v.now }
    ensures { result ≡ dates_hold v.now }
{
    if !(is_moment(&v[12..20]) && is_moment(&v[20..28]) && is_moment(&v[28..36])) {
        return false;
    }
    let from = number(v, 20, 8);
    let to = number(v, 28, 8);
    from <= to
}

// Type, data type, quality, creator.
#[tactic(auto, unfolding(crate::specs::Judged::form_holds))]
fn form_holds(b: Biometric, v: &[u8]) -> bool
    requires { 88 ≤ length v.now }
    ensures { result ≡ form_holds b v.now }
{
    (number(v, 36, 3) == b.sort)
        & (number(v, 39, 1) / 32 == b.top)
        & is_quality(b.missing, v[40])
        & is_creator(&v[41..59])
}

// "Minutiae (the d bytes, kind 6)", in kind 7 a facial record, in kind 12 an iris record.
fn data_holds(body: Body, bytes: &[u8]) -> bool
    ensures { result ≡ (data_part body).test bytes.now }
{
    match body {
        Body::Minutiae => is_minutiae(bytes),
        Body::Facial => is_facial(bytes),
        Body::Iris => is_iris(bytes),
    }
}

// The value of a BC of this format, judged in the order of the rules: a value that is too short for its header breaks the
// length rule, and every fault that could come before that one is the same.
pub fn judge(b: Biometric, v: &[u8]) -> Result<(), Fault>
    ensures { result ≡ ruled (judge (header b (length v.now)) 0 v.now) }
{
    if v.len() < 88 {
        return Err(Fault::BadHeader);
    }
    let d = number(v, 2, 4);
    if !sizes_hold(b, d, v) {
        return Err(Fault::BadHeader);
    }
    if !dates_hold(v) {
        return Err(Fault::BadHeader);
    }
    if !form_holds(b, v) {
        return Err(Fault::BadHeader);
    }
    if !is_fascn(&v[59..84]) {
        return Err(Fault::BadFascn);
    }
    if number(v, 84, 4) != 0 {
        return Err(Fault::BadHeader);
    }
    let end = 88 + d as usize;
    if !data_holds(b.body, &v[88..end]) {
        return Err(b.broken);
    }
    Ok(())
}
