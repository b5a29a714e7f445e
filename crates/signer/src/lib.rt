// Request 2026-11: "The signer's certificate stands in the biometric's own signature block or, if that block has none, in the
// CHUID's 3E. Given both containers, hand back the certificate as a part of the one it lies in, and say which."
#![tactic(auto)]

ghost use Rattle.std.specs.Prelude.{◌≡◌, ◌+◌, ◌-◌, ◌≤◌, ◌<◌, length, get_or};
ghost use Rattle.laws.specs.Layout.{field, part};
ghost use Rattle.verdicts.specs.Verdicts.{outright};
ghost use Rattle.container.specs.Container.{largest};
ghost use Rattle.container.specs.Spans.{absent};
ghost use Rattle.signer.specs.Signer.{IsBiometric, InBlocks, Signs};
ghost use Rattle.signer.specs.Locating.{is_biometric, number_of, of_neither, in_numbers, lies_in, Tells, InValue, Second, Locates};

use blocks::{Part, Unsigned};
use container::Conforming;
use numbers::number;
use std::ops::Range;
use verdicts::{Fault, Finding, Verdict};

// One of the two containers.
#[derive(Clone, Copy)]
pub enum Holder {
    Chuid,
    Biometric,
}

// A certificate: the container that has it, and from where to where it stands there.
#[derive(Clone, Copy)]
pub struct Certificate {
    pub holder: Holder,
    pub from: usize,
    pub to: usize,
}

// What is wrong; and with which container, where a check found it.
#[derive(Clone, Copy)]
pub struct Refusal {
    pub of: Option<Holder>,
    pub finding: Finding,
}

// Some bytes of a container, and where they stand in it.
#[derive(Clone, Copy)]
struct Placed<'a> {
    bytes: &'a [u8],
    at: usize,
    ghost small: { at + length bytes.now ≤ largest },
}

// Which container, in the numbers of a call.
impl From<Holder> for u64 {
    ghost from_gives = { λ h n. n ≡ number_of h };

    fn from(h: Holder) -> u64 {
        match h {
            Holder::Chuid => 1,
            Holder::Biometric => 2,
        }
    }
}

// "one from a check says which container, others say neither"
impl From<Fault> for Refusal {
    ghost from_gives = { λ fault r. r ≡ of_neither fault };

    fn from(fault: Fault) -> Refusal {
        Refusal {
            of: None,
            finding: fault.into(),
        }
    }
}

// "FINGERS, FACE or iris"
fn is_biometric(kind: u64) -> bool
    ensures { result ≡ is_biometric kind }
{
    (kind == 6) | (kind == 7) | (kind == 12)
}

// The value of a row.
fn value<'a>(read: Conforming<'a>, row: usize) -> Placed<'a>
    requires { row < 16 }
    ensures bytes { result.bytes.now ≡ part read.entry.rows.bytes.now (get_or read.entry.rows.spans row absent).from ((get_or read.entry.rows.spans row absent).to - (get_or read.entry.rows.spans row absent).from) }
    ensures at { result.at ≡ (get_or read.entry.rows.spans row absent).from }
{
    Placed {
        bytes: read.rows.part(row),
        at: read.rows.spans[row].from as usize,
    }
}

// A certificate that stands in a block of this container.
fn found(holder: Holder, at: usize, part: Part) -> Certificate
    requires { (part.from ≤ part.to) × (at + part.to ≤ largest) }
    ensures { result ≡ record { holder = holder; from = at + part.from; to = at + part.to } }
{
    Certificate {
        holder,
        from: at + part.from,
        to: at + part.to,
    }
}

// "The biometric's block is tried first": 29; the CHUID's is read only where that holds no certificate: 30, 31.
#[tactic(auto, using(crate::proofs::Ways::out_29, crate::proofs::Ways::within, crate::proofs::Ways::out_own, crate::proofs::Ways::out_30, crate::proofs::Ways::out_31, crate::proofs::Ways::out_block))]
fn in_blocks(own: Placed<'_>, block: Placed<'_>) -> Result<Certificate, Refusal>
    ensures { Tells (InBlocks own.entry.bytes.now own.entry.at block.entry.bytes.now block.entry.at) result }
{
    match blocks::read(own.bytes) {
        Err(Unsigned) => Err(Fault::BiometricBlock.into()),
        Ok(Some(part)) => Ok(found(Holder::Biometric, own.at, part)),
        Ok(None) => match blocks::read(block.bytes) {
            Err(Unsigned) => Err(Fault::ChuidBlock.into()),
            Ok(Some(part)) => Ok(found(Holder::Chuid, block.at, part)),
            Ok(None) => Err(Fault::NeitherHolds.into()),
        },
    }
}

// "The two containers must carry the same FASC-N": 28. The biometric's stands at 59 of the value of BC, and its block behind the 88
// bytes of the header and the data.
#[tactic(auto, using(crate::proofs::Ways::out_28, crate::proofs::Ways::out_same))]
fn in_value(fascn: &[u8], block: Placed<'_>, value: Placed<'_>) -> Result<Certificate, Refusal>
    requires { 88 + field value.bytes.now 2 4 ≤ length value.bytes.now }
    ensures { Tells (InValue fascn.now block.entry.bytes.now block.entry.at value.entry.bytes.now value.entry.at) result }
{
    if !plain::same(fascn, &value.bytes[59..84]) {
        return Err(Fault::FascnDiffer.into());
    }
    let front = 88 + number(value.bytes, 2, 4) as usize;
    let own = Placed {
        bytes: &value.bytes[front..],
        at: value.at + front,
    };
    in_blocks(own, block)
}

// The biometric's check; its BC is the first row.
fn in_biometric(
    kind: u64,
    today: u64,
    biometric: &[u8],
    fascn: &[u8],
    block: Placed<'_>,
) -> Result<Certificate, Refusal>
    requires { IsBiometric kind }
    ensures { Tells (Second kind today biometric.now fascn.now block.entry.bytes.now block.entry.at) result }
{
    match container::judge(kind, today, biometric) {
        Ok(read) => in_value(fascn, block, value(read, 0)),
        Err(finding) => Err(Refusal {
            of: Some(Holder::Biometric),
            finding,
        }),
    }
}

// "1 if the second is not FINGERS, FACE or iris, before all"; then the CHUID's check, whose 30 is the second row and whose 3E is
// the eighth.
pub fn locate(kind: u64, today: u64, chuid: &[u8], biometric: &[u8]) -> Result<Certificate, Refusal>
    ensures { Locates kind today chuid.now biometric.now result }
{
    if !is_biometric(kind) {
        return Err(Fault::UnknownKind.into());
    }
    match container::judge(2, today, chuid) {
        Ok(read) => in_biometric(kind, today, biometric, value(read, 1).bytes, value(read, 7)),
        Err(finding) => Err(Refusal {
            of: Some(Holder::Chuid),
            finding,
        }),
    }
}

// The verdict; which container it is about, or has the certificate: 1 the CHUID, 2 the biometric, 0 neither; and from where to
// where the certificate stands there. "a refusal returns an empty part": at the start.
pub fn told(answer: Result<Certificate, Refusal>) -> (Verdict, u64, Range<usize>)
    ensures verdict { result.0 ≡ (in_numbers answer).verdict }
    ensures which { result.1 ≡ (in_numbers answer).which }
    ensures part { (result.2.start ≡ (in_numbers answer).from) × (result.2.end ≡ (in_numbers answer).to) }
{
    match answer {
        Ok(c) => (Verdict::CONFORMS, c.holder.into(), c.from..c.to),
        Err(r) => (r.finding.into(), r.of.map_or(0, u64::from), 0..0),
    }
}

// The container that the part is of: a refusal's empty part is the biometric's, also where it is about the CHUID.
fn lies_in(answer: Result<Certificate, Refusal>) -> Holder
    ensures { result ≡ lies_in answer }
{
    match answer {
        Ok(c) => c.holder,
        Err(_) => Holder::Biometric,
    }
}

// The same, with the certificate itself.
#[tactic(auto, using(crate::proofs::Handing::ordered, crate::proofs::Handing::in_chuid_inside, crate::proofs::Handing::in_biometric_inside))]
pub fn signer<'a>(
    kind: u64,
    today: u64,
    chuid: &'a [u8],
    biometric: &'a [u8],
    number: &mut u64,
    place: &mut u64,
    tag: &mut u64,
    which: &mut u64,
) -> &'a [u8]
    ensures { Signs kind today chuid.now biometric.now chuid.entry.ref_ptr biometric.entry.ref_ptr number.new place.new tag.new which.new result.ref_ptr result.now }
{
    let answer = locate(kind, today, chuid, biometric);
    let (verdict, of, part) = told(answer);
    *number = verdict.number;
    *place = verdict.place;
    *tag = verdicts::tag_number(verdict.tag);
    *which = of;
    match lies_in(answer) {
        Holder::Chuid => &chuid[part],
        Holder::Biometric => &biometric[part],
    }
}
