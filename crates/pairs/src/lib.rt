// "a second reader that takes ten bits at once through a table of 1,024 entries .. : the two values, or bad" (2026-09). Here is the
// table; `by_table` reads with it.
#![tactic(auto)]

mod table;

ghost use Rattle.std.specs.Prelude.{◌≡◌, ◌%◌};
ghost use Rattle.pairs.specs.Pairs.{same_sort, entry};

// Where in a FASC-N a pair of characters may stand.
#[derive(Clone, Copy, PartialEq, Eq)]
pub enum Sort {
    // two digits
    Digits,
    // the start and a digit
    Start,
    // a digit and the separator behind it
    Before,
    // a separator and the digit behind it
    Behind,
    // the end, and whatever the check is
    End,
    // nowhere
    Other,
}

// Two characters: the value of each, or 16 where it is bad, the two as a number of two digits, and where they may stand.
#[derive(Clone, Copy)]
pub struct Pair {
    pub first: u8,
    pub second: u8,
    pub both: u8,
    pub sort: Sort,
}

impl Pair {
    // Whether it may stand where pairs of a sort do.
    pub fn is(self, sort: Sort) -> bool
        ensures { result ≡ same_sort self.sort sort }
    {
        self.sort == sort
    }
}

// The pair in the lowest ten bits.
pub fn pair_in(bits: u64) -> Pair
    ensures { result ≡ entry (bits % 1024) }
{
    table::PAIRS[(bits % 1024) as usize]
}
