// The fields of an iris's picture: when it was captured, what it
// is, and how large.
#![tactic(auto)]

ghost use Rattle.std.specs.Prelude.{◌≡◌, ◌≤◌, length};
ghost use Rattle.pictures.specs.Pictures.{properties, centre};
ghost use Rattle.pictures.specs.Judged.{date_holds, image_holds};

use dates::exists;
use numbers::number;
use records::is_either;

// "Capture date and time is 2011 onwards": a date that exists, hour, minute, second and milliseconds.
#[tactic(auto, unfolding(crate::specs::Judged::date_holds))]
pub fn date_holds(s: &[u8]) -> bool
    requires { 52 ≤ length s.now }
    ensures { result ≡ date_holds s.now }
{
    let year = number(s, 4, 2);
    (2011 <= year)
        & exists(year, number(s, 6, 1), number(s, 7, 1))
        & (number(s, 8, 1) <= 23)
        & (number(s, 9, 1) <= 59)
        & (number(s, 10, 1) <= 59)
        & (number(s, 11, 2) <= 999)
}

// "(Bits 1-2: 01 or 10), (Bits 3-4: 01 or 10), (Bits 5-6: 01 ..), and (Bits 7-8: 01 ..)"
fn has_properties(n: u64) -> bool
    ensures { result ≡ properties.test n }
{
    matches!(n, 0x55 | 0x56 | 0x59 | 0x5A)
}

// The centre of a width or a height W: W/2 and W/2 + 1 where W is even, twice (W + 1)/2 where it is odd.
fn is_centre(size: u64, lowest: u64, highest: u64) -> bool
    ensures { result ≡ (centre size lowest).test highest }
{
    (lowest == size.div_ceil(2)) & (highest == size / 2 + 1)
}

// Behind the quality blocks: representation number, eye label, image type, image format, properties; then width, height, bit
// depth, centre, diameter.
#[tactic(auto, unfolding(crate::specs::Judged::marks_hold, crate::specs::Judged::shape_holds))]
pub fn image_holds(s: &[u8], index: u64) -> bool
    requires { 33 ≤ length s.now }
    ensures { result ≡ image_holds index s.now }
{
    let marks = (number(s, 0, 2) == index)
        & is_either(number(s, 2, 1), 1, 2)
        & (number(s, 3, 1) == 7)
        & (number(s, 4, 1) == 10)
        & has_properties(number(s, 5, 1));
    let width = number(s, 6, 2);
    let height = number(s, 8, 2);
    let shape = ((288 <= width) & (width <= 448))
        & ((216 <= height) & (height <= 336))
        & (number(s, 10, 1) == 8)
        & is_centre(width, number(s, 17, 2), number(s, 19, 2))
        & is_centre(height, number(s, 21, 2), number(s, 23, 2))
        & (160 <= number(s, 25, 2))
        & (number(s, 27, 2) <= 280);
    marks & shape
}
