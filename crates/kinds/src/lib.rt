// The tables of the twelve kinds: which row a tag has, which tag a row has, and which row is the last that must be there.
#![tactic(auto)]

ghost use Rattle.std.specs.Prelude.{◌≡◌, true, false};
ghost use Rattle.kinds.specs.Tables.{exactly, up_to, zero_or, at_least, permitted, is_kind, row_of, row_at, last_row};

// The rule of a row's value.
#[derive(Clone, Copy)]
pub enum ValueRule {
    Free,
    Fascn,
    Uuid,
    Expiry,
    Model,
    Application,
    Policy,
    Text,
    Date,
    Fingers,
    Face,
    Iris,
    Certificate,
    CertInfo,
}

// "Numbers are permitted lengths": from least to most, and 0 too where `empty` is true.
#[derive(Clone, Copy)]
pub struct Lengths {
    pub least: usize,
    pub most: usize,
    pub empty: bool,
}

// What a kind's table says of a tag: the row's number from 1; the last mandatory row before it, 0 for none; the lengths that its value
// may have, and the rule that it keeps.
#[derive(Clone, Copy)]
pub struct Row {
    pub index: u64,
    pub after: u64,
    pub lengths: Lengths,
    pub rule: ValueRule,
}

// What a kind's table has at a row's number, counted from 0: the row's tag, and whether it is optional.
#[derive(Clone, Copy)]
pub struct Slot {
    pub tag: u64,
    pub optional: bool,
}

impl Lengths {
    // Whether this length is one of them.
    pub fn permit(self, n: usize) -> bool
        ensures { result ≡ permitted self n }
    {
        ((self.least <= n) & (n <= self.most)) | (self.empty & (n == 0))
    }
}

fn exactly(n: usize) -> Lengths
    ensures { result ≡ exactly n }
{
    Lengths {
        least: n,
        most: n,
        empty: false,
    }
}

fn up_to(n: usize) -> Lengths
    ensures { result ≡ up_to n }
{
    Lengths {
        least: 0,
        most: n,
        empty: false,
    }
}

fn zero_or(n: usize) -> Lengths
    ensures { result ≡ zero_or n }
{
    Lengths {
        least: n,
        most: n,
        empty: true,
    }
}

// No length over 65,535 can be written.
fn at_least(n: usize) -> Lengths
    ensures { result ≡ at_least n }
{
    Lengths {
        least: n,
        most: 65535,
        empty: false,
    }
}

fn nth(index: u64, after: u64, lengths: Lengths, rule: ValueRule) -> Option<Row>
    ensures { result ≡ Some (record { index = index; after = after; lengths = lengths; rule = rule }) }
{
    Some(Row {
        index,
        after,
        lengths,
        rule,
    })
}

fn must(tag: u64) -> Option<Slot>
    ensures { result ≡ Some (record { tag = tag; optional = false }) }
{
    Some(Slot {
        tag,
        optional: false,
    })
}

fn may(tag: u64) -> Option<Slot>
    ensures { result ≡ Some (record { tag = tag; optional = true }) }
{
    Some(Slot {
        tag,
        optional: true,
    })
}

// "1: kind not 1 to 7"; 2026-06: "1 now begins above 12"
pub fn is_kind(kind: u64) -> bool
    ensures { result ≡ is_kind kind }
{
    (1 <= kind) & (kind <= 12)
}

pub fn row_of(kind: u64, tag: u64) -> Option<Row>
    ensures { result ≡ row_of kind tag }
{
    match kind {
        1 => match tag {
            0xF0 => nth(1, 0, zero_or(21), ValueRule::Free),
            0xF1 => nth(2, 1, zero_or(1), ValueRule::Free),
            0xF2 => nth(3, 2, zero_or(1), ValueRule::Free),
            0xF3 => nth(4, 3, up_to(128), ValueRule::Free),
            0xF4 => nth(5, 4, zero_or(1), ValueRule::Free),
            0xF5 => nth(6, 5, exactly(1), ValueRule::Model),
            0xF6 => nth(7, 6, zero_or(17), ValueRule::Free),
            0xF7 => nth(8, 7, exactly(0), ValueRule::Free),
            0xFA => nth(9, 8, exactly(0), ValueRule::Free),
            0xFB => nth(10, 9, exactly(0), ValueRule::Free),
            0xFC => nth(11, 10, exactly(0), ValueRule::Free),
            0xFD => nth(12, 11, exactly(0), ValueRule::Free),
            0xE3 => nth(13, 12, exactly(48), ValueRule::Free),
            0xB4 => nth(14, 12, exactly(48), ValueRule::Free),
            0xFE => nth(15, 12, exactly(0), ValueRule::Free),
            _ => None,
        },
        2 => match tag {
            0xEE => nth(1, 0, exactly(2), ValueRule::Free),
            0x30 => nth(2, 0, exactly(25), ValueRule::Fascn),
            0x32 => nth(3, 2, exactly(4), ValueRule::Free),
            0x33 => nth(4, 2, exactly(9), ValueRule::Free),
            0x34 => nth(5, 2, exactly(16), ValueRule::Uuid),
            0x35 => nth(6, 5, exactly(8), ValueRule::Expiry),
            0x36 => nth(7, 6, exactly(16), ValueRule::Uuid),
            0x3E => nth(8, 6, at_least(0), ValueRule::Free),
            0xFE => nth(9, 8, exactly(0), ValueRule::Free),
            _ => None,
        },
        3 => match tag {
            0x4F => nth(1, 0, exactly(11), ValueRule::Application),
            0x5F2F => nth(2, 1, exactly(2), ValueRule::Policy),
            _ => None,
        },
        4 => match tag {
            0x01 => nth(1, 0, up_to(125), ValueRule::Text),
            0x02 => nth(2, 1, up_to(20), ValueRule::Text),
            0x04 => nth(3, 2, exactly(9), ValueRule::Date),
            0x05 => nth(4, 3, up_to(20), ValueRule::Text),
            0x06 => nth(5, 4, exactly(15), ValueRule::Text),
            0x07 => nth(6, 5, up_to(20), ValueRule::Text),
            0x08 => nth(7, 5, up_to(20), ValueRule::Text),
            0xFE => nth(8, 5, exactly(0), ValueRule::Free),
            _ => None,
        },
        5 => match tag {
            0xBA => nth(1, 0, up_to(30), ValueRule::Free),
            0xBB => nth(2, 1, up_to(1298), ValueRule::Free),
            0xFE => nth(3, 2, exactly(0), ValueRule::Free),
            _ => None,
        },
        6 => match tag {
            0xBC => nth(1, 0, at_least(88), ValueRule::Fingers),
            0xFE => nth(2, 1, exactly(0), ValueRule::Free),
            _ => None,
        },
        7 => match tag {
            0xBC => nth(1, 0, at_least(88), ValueRule::Face),
            0xFE => nth(2, 1, exactly(0), ValueRule::Free),
            _ => None,
        },
        8..=11 => match tag {
            0x70 => nth(1, 0, at_least(0), ValueRule::Certificate),
            0x71 => nth(2, 1, exactly(1), ValueRule::CertInfo),
            0x72 => nth(3, 2, up_to(38), ValueRule::Free),
            0xFE => nth(4, 2, exactly(0), ValueRule::Free),
            _ => None,
        },
        12 => match tag {
            0xBC => nth(1, 0, at_least(88), ValueRule::Iris),
            0xFE => nth(2, 1, exactly(0), ValueRule::Free),
            _ => None,
        },
        _ => None,
    }
}

// The row with this number, counted from 0: what is written goes through the rows in order.
pub fn row_at(kind: u64, index: u64) -> Option<Slot>
    ensures { result ≡ row_at kind index }
{
    match kind {
        1 => match index {
            0 => must(0xF0),
            1 => must(0xF1),
            2 => must(0xF2),
            3 => must(0xF3),
            4 => must(0xF4),
            5 => must(0xF5),
            6 => must(0xF6),
            7 => must(0xF7),
            8 => must(0xFA),
            9 => must(0xFB),
            10 => must(0xFC),
            11 => must(0xFD),
            12 => may(0xE3),
            13 => may(0xB4),
            14 => must(0xFE),
            _ => None,
        },
        2 => match index {
            0 => may(0xEE),
            1 => must(0x30),
            2 => may(0x32),
            3 => may(0x33),
            4 => must(0x34),
            5 => must(0x35),
            6 => may(0x36),
            7 => must(0x3E),
            8 => must(0xFE),
            _ => None,
        },
        3 => match index {
            0 => must(0x4F),
            1 => must(0x5F2F),
            _ => None,
        },
        4 => match index {
            0 => must(0x01),
            1 => must(0x02),
            2 => must(0x04),
            3 => must(0x05),
            4 => must(0x06),
            5 => may(0x07),
            6 => may(0x08),
            7 => must(0xFE),
            _ => None,
        },
        5 => match index {
            0 => must(0xBA),
            1 => must(0xBB),
            2 => must(0xFE),
            _ => None,
        },
        6 | 7 | 12 => match index {
            0 => must(0xBC),
            1 => must(0xFE),
            _ => None,
        },
        8..=11 => match index {
            0 => must(0x70),
            1 => must(0x71),
            2 => may(0x72),
            3 => must(0xFE),
            _ => None,
        },
        _ => None,
    }
}

// The last mandatory row of a kind, 0 for no kind.
pub fn last_row(kind: u64) -> u64
    ensures { result ≡ last_row kind }
{
    match kind {
        1 => 15,
        2 => 9,
        3 => 2,
        4 => 8,
        5 => 3,
        6 | 7 | 12 => 2,
        8..=11 => 4,
        _ => 0,
    }
}
