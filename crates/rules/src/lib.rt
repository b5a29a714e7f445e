// The rule of a value, by its name in the tables.
#![tactic(auto)]

ghost use Rattle.std.specs.Prelude.{◌≡◌};
ghost use Rattle.verdicts.specs.Verdicts.{unless};
ghost use Rattle.rules.specs.Rules.{expires, rule_of, fitting};

use cbeff::{face, fingers, iris};
use kinds::{Row, ValueRule};
use verdicts::Fault;

// What a test with one fault answers.
fn unless(f: Fault, kept: bool) -> Result<(), Fault>
    ensures { result ≡ unless f kept }
{
    if kept { Ok(()) } else { Err(f) }
}

// "CHUID expiry e and today t": a date, and in its window.
fn expiry(today: u64, d: Option<u64>) -> Result<(), Fault>
    ensures { result ≡ expires today d }
{
    let expiry = d.ok_or(Fault::BadDate)?;
    unless(Fault::BadDate, dates::in_window(today, expiry))
}

// Whether a value keeps the rule under the date today, or which fault it has. The judges of the biometric records and of
// certificates stay calls: they get a part that is made for them, and their answer goes through a local, so that the compiler
// keeps the value and the answer of every other rule in registers.
#[tactic(auto, unfolding(crate::specs::Rules::rule_of), using(laws::proofs::Turns::rest))]
pub fn judge(rule: ValueRule, today: u64, v: &[u8]) -> Result<(), Fault>
    ensures { result ≡ rule_of rule today v.now }
{
    match rule {
        ValueRule::Free => Ok(()),
        ValueRule::Fascn => unless(Fault::BadFascn, by_table::is_fascn(v)),
        ValueRule::Uuid => unless(Fault::BadUuid, plain::is_uuid(v)),
        ValueRule::Expiry => expiry(today, dates::date_of(v)),
        ValueRule::Model => unless(Fault::BadFixed, plain::same(v, b"\x10")),
        ValueRule::Application => unless(
            Fault::BadFixed,
            plain::same(v, b"\xA0\x00\x00\x03\x08\x00\x00\x10\x00\x01\x00"),
        ),
        ValueRule::Policy => unless(Fault::BadFixed, plain::is_policy(v)),
        ValueRule::Text => unless(Fault::BadText, plain::is_text(v)),
        ValueRule::Date => unless(Fault::BadDate, dates::is_printed_date(v)),
        ValueRule::Fingers => {
            let answer = cbeff::judge(fingers(), &v[0..]);
            answer
        }
        ValueRule::Face => {
            let answer = cbeff::judge(face(), &v[0..]);
            answer
        }
        ValueRule::Iris => {
            let answer = cbeff::judge(iris(), &v[0..]);
            answer
        }
        ValueRule::Certificate => {
            let answer = der::judge(&v[0..], 8);
            answer
        }
        ValueRule::CertInfo => unless(Fault::BadFixed, plain::same(v, b"\x00")),
    }
}

// Whether a value is one that a row may have: 16, then its rules.
#[tactic(auto, unfolding(crate::specs::Rules::rule_of))]
pub fn fits(row: Row, today: u64, v: &[u8]) -> Result<(), Fault>
    ensures { result ≡ fitting row today v.now }
{
    if !row.lengths.permit(v.len()) {
        return Err(Fault::ElementLength);
    }
    match row.rule {
        // most values are free: they are told here, without a call
        ValueRule::Free => Ok(()),
        rule => judge(rule, today, v),
    }
}
