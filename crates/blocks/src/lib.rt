// Request 2026-11: a signature block read as a CMS SignedData in its ContentInfo, and where its first certificate stands.
#![tactic(auto)]

ghost use Rattle.std.specs.Prelude.{◌≡◌, ◌+◌, ◌<◌, ◌≤◌, MatchOption, MatchResult, IfSome, IfOk, None, Some, length};
ghost use Rattle.blocks.specs.Reading.{Reads, next, find, optional, signed_data, content_info};

use heads::{Head, front};

// Where something stands in a block: from here to there.
#[derive(Clone, Copy)]
pub struct Part {
    pub from: usize,
    pub to: usize,
}

// What is no SignedData in its ContentInfo, of at most sixteen levels.
#[derive(Clone, Copy)]
pub struct Unsigned;

// An item: its contents, of a constructed one, and what is behind it.
#[derive(Clone, Copy)]
struct Item<'a> {
    inside: &'a [u8],
    behind: &'a [u8],
}

// The first of some items that stand one after the other.
#[tactic(auto, unfolding(crate::specs::Reading::next))]
fn next(items: &[u8]) -> Option<Item<'_>>
    ensures is { MatchOption result (next items.now ≡ None) (λ i. next items.now ≡ Some (i.inside.now, i.behind.now)) }
    ensures within { IfSome result (λ i. length i.inside.now + length i.behind.now ≤ length items.now) }
{
    let (inside, size) = match front(items)? {
        Head::Leaf(size) => (&items[..0], size),
        Head::Open(first, size) => (&items[first..size], size),
    };
    Some(Item {
        inside,
        behind: &items[size..],
    })
}

// The same, if it has this tag.
#[tactic(auto, unfolding(crate::specs::Reading::find))]
fn find(items: &[u8], tag: u8) -> Option<Item<'_>>
    ensures is { MatchOption result (find items.now tag ≡ None) (λ i. find items.now tag ≡ Some (i.inside.now, i.behind.now)) }
    ensures within { IfSome result (λ i. length i.inside.now + length i.behind.now ≤ length items.now) }
{
    if items.first().copied() != Some(tag) {
        return None;
    }
    next(items)
}

// One that has to be there.
fn required(items: &[u8], tag: u8) -> Result<Item<'_>, Unsigned>
    ensures is { MatchResult result (λ i. find items.now tag ≡ Some (i.inside.now, i.behind.now)) (λ _. find items.now tag ≡ None) }
    ensures within { IfOk result (λ i. length i.inside.now + length i.behind.now ≤ length items.now) }
{
    find(items, tag).ok_or(Unsigned)
}

// One that may be absent: it has no contents then, and takes no bytes.
fn optional(items: &[u8], tag: u8) -> Item<'_>
    ensures is { optional items.now tag ≡ (result.inside.now, result.behind.now) }
    ensures within { length result.inside.now + length result.behind.now ≤ length items.now }
{
    find(items, tag).unwrap_or(Item {
        inside: &items[..0],
        behind: items,
    })
}

// "02, 31, 30, then A0 (certificates) and A1 where present, then 31", and nothing else; so many bytes stand before them. "the first
// item of its certificates field, tag and length included, is meant, and an empty field holds none"
#[tactic(auto, unfolding(crate::specs::Reading::signed_data))]
fn signed_data(parts: &[u8], outside: usize) -> Result<Option<Part>, Unsigned>
    requires { outside + length parts.now < 18446744073709551616 }
    ensures { result ≡ signed_data parts.now outside }
{
    let version = required(parts, 0x02)?;
    let digests = required(version.behind, 0x31)?;
    let content = required(digests.behind, 0x30)?;
    let certificates = optional(content.behind, 0xA0);
    let crls = optional(certificates.behind, 0xA1);
    let signers = required(crls.behind, 0x31)?;
    if !signers.behind.is_empty() {
        return Err(Unsigned);
    }
    let Some(first) = next(certificates.inside) else {
        return Ok(None);
    };
    let end = outside + parts.len() - certificates.behind.len();
    Ok(Some(Part {
        from: end - certificates.inside.len(),
        to: end - first.behind.len(),
    }))
}

// "30 holding 06 (id-signedData) and A0; in that A0 one 30", and nothing else, in an item that is good.
#[tactic(auto, unfolding(crate::specs::Reading::content_info))]
fn content_info(v: &[u8]) -> Result<Option<Part>, Unsigned>
    ensures { result ≡ content_info v.now }
{
    let info = required(v, 0x30)?;
    let id = required(info.inside, 0x06)?;
    if !plain::same(
        &info.inside[..info.inside.len() - id.behind.len()],
        b"\x06\x09\x2A\x86\x48\x86\xF7\x0D\x01\x07\x02",
    ) {
        return Err(Unsigned);
    }
    let wrapped = required(id.behind, 0xA0)?;
    if !wrapped.behind.is_empty() {
        return Err(Unsigned);
    }
    let signed = required(wrapped.inside, 0x30)?;
    if !signed.behind.is_empty() {
        return Err(Unsigned);
    }
    signed_data(signed.inside, v.len() - signed.inside.len())
}

// One DER item of at most sixteen levels, and then of that shape.
pub fn read(v: &[u8]) -> Result<Option<Part>, Unsigned>
    ensures { Reads v.now result }
{
    match der::item(v, 16) {
        Ok(_) => content_info(v),
        Err(_) => Err(Unsigned),
    }
}
