// The table: of each of the 1,024 ways that ten bits can be, the values of the two characters, of which 16 is bad, and where such a pair
// may stand. A block has one first character and each second one in turn, eight a line.
use super::{Pair, Sort};

macro_rules! pairs {
    ($($first:literal $second:literal $sort:ident)*) => {
        &[$(Pair { first: $first, second: $second, both: 10 * $first + $second, sort: Sort::$sort }),*]
    };
}

pub const PAIRS: &[Pair; 1024] = pairs![
    // 00000: bad
    16 16 Other  16 0 Other  16 8 Other  16 16 Other  16 4 Other  16 16 Other  16 16 Other  16 12 Other
    16 2 Other  16 16 Other  16 16 Other  16 10 Other  16 16 Other  16 6 Other  16 14 Other  16 16 Other
    16 1 Other  16 16 Other  16 16 Other  16 9 Other  16 16 Other  16 5 Other  16 13 Other  16 16 Other
    16 16 Other  16 3 Other  16 11 Other  16 16 Other  16 7 Other  16 16 Other  16 16 Other  16 15 Other
    // 00001: 0
    0 16 Other  0 0 Digits  0 8 Digits  0 16 Other  0 4 Digits  0 16 Other  0 16 Other  0 12 Other
    0 2 Digits  0 16 Other  0 16 Other  0 10 Other  0 16 Other  0 6 Digits  0 14 Other  0 16 Other
    0 1 Digits  0 16 Other  0 16 Other  0 9 Digits  0 16 Other  0 5 Digits  0 13 Before  0 16 Other
    0 16 Other  0 3 Digits  0 11 Other  0 16 Other  0 7 Digits  0 16 Other  0 16 Other  0 15 Other
    // 00010: 8
    8 16 Other  8 0 Digits  8 8 Digits  8 16 Other  8 4 Digits  8 16 Other  8 16 Other  8 12 Other
    8 2 Digits  8 16 Other  8 16 Other  8 10 Other  8 16 Other  8 6 Digits  8 14 Other  8 16 Other
    8 1 Digits  8 16 Other  8 16 Other  8 9 Digits  8 16 Other  8 5 Digits  8 13 Before  8 16 Other
    8 16 Other  8 3 Digits  8 11 Other  8 16 Other  8 7 Digits  8 16 Other  8 16 Other  8 15 Other
    // 00011: bad
    16 16 Other  16 0 Other  16 8 Other  16 16 Other  16 4 Other  16 16 Other  16 16 Other  16 12 Other
    16 2 Other  16 16 Other  16 16 Other  16 10 Other  16 16 Other  16 6 Other  16 14 Other  16 16 Other
    16 1 Other  16 16 Other  16 16 Other  16 9 Other  16 16 Other  16 5 Other  16 13 Other  16 16 Other
    16 16 Other  16 3 Other  16 11 Other  16 16 Other  16 7 Other  16 16 Other  16 16 Other  16 15 Other
    // 00100: 4
    4 16 Other  4 0 Digits  4 8 Digits  4 16 Other  4 4 Digits  4 16 Other  4 16 Other  4 12 Other
    4 2 Digits  4 16 Other  4 16 Other  4 10 Other  4 16 Other  4 6 Digits  4 14 Other  4 16 Other
    4 1 Digits  4 16 Other  4 16 Other  4 9 Digits  4 16 Other  4 5 Digits  4 13 Before  4 16 Other
    4 16 Other  4 3 Digits  4 11 Other  4 16 Other  4 7 Digits  4 16 Other  4 16 Other  4 15 Other
    // 00101: bad
    16 16 Other  16 0 Other  16 8 Other  16 16 Other  16 4 Other  16 16 Other  16 16 Other  16 12 Other
    16 2 Other  16 16 Other  16 16 Other  16 10 Other  16 16 Other  16 6 Other  16 14 Other  16 16 Other
    16 1 Other  16 16 Other  16 16 Other  16 9 Other  16 16 Other  16 5 Other  16 13 Other  16 16 Other
    16 16 Other  16 3 Other  16 11 Other  16 16 Other  16 7 Other  16 16 Other  16 16 Other  16 15 Other
    // 00110: bad
    16 16 Other  16 0 Other  16 8 Other  16 16 Other  16 4 Other  16 16 Other  16 16 Other  16 12 Other
    16 2 Other  16 16 Other  16 16 Other  16 10 Other  16 16 Other  16 6 Other  16 14 Other  16 16 Other
    16 1 Other  16 16 Other  16 16 Other  16 9 Other  16 16 Other  16 5 Other  16 13 Other  16 16 Other
    16 16 Other  16 3 Other  16 11 Other  16 16 Other  16 7 Other  16 16 Other  16 16 Other  16 15 Other
    // 00111: 12
    12 16 Other  12 0 Other  12 8 Other  12 16 Other  12 4 Other  12 16 Other  12 16 Other  12 12 Other
    12 2 Other  12 16 Other  12 16 Other  12 10 Other  12 16 Other  12 6 Other  12 14 Other  12 16 Other
    12 1 Other  12 16 Other  12 16 Other  12 9 Other  12 16 Other  12 5 Other  12 13 Other  12 16 Other
    12 16 Other  12 3 Other  12 11 Other  12 16 Other  12 7 Other  12 16 Other  12 16 Other  12 15 Other
    // 01000: 2
    2 16 Other  2 0 Digits  2 8 Digits  2 16 Other  2 4 Digits  2 16 Other  2 16 Other  2 12 Other
    2 2 Digits  2 16 Other  2 16 Other  2 10 Other  2 16 Other  2 6 Digits  2 14 Other  2 16 Other
    2 1 Digits  2 16 Other  2 16 Other  2 9 Digits  2 16 Other  2 5 Digits  2 13 Before  2 16 Other
    2 16 Other  2 3 Digits  2 11 Other  2 16 Other  2 7 Digits  2 16 Other  2 16 Other  2 15 Other
    // 01001: bad
    16 16 Other  16 0 Other  16 8 Other  16 16 Other  16 4 Other  16 16 Other  16 16 Other  16 12 Other
    16 2 Other  16 16 Other  16 16 Other  16 10 Other  16 16 Other  16 6 Other  16 14 Other  16 16 Other
    16 1 Other  16 16 Other  16 16 Other  16 9 Other  16 16 Other  16 5 Other  16 13 Other  16 16 Other
    16 16 Other  16 3 Other  16 11 Other  16 16 Other  16 7 Other  16 16 Other  16 16 Other  16 15 Other
    // 01010: bad
    16 16 Other  16 0 Other  16 8 Other  16 16 Other  16 4 Other  16 16 Other  16 16 Other  16 12 Other
    16 2 Other  16 16 Other  16 16 Other  16 10 Other  16 16 Other  16 6 Other  16 14 Other  16 16 Other
    16 1 Other  16 16 Other  16 16 Other  16 9 Other  16 16 Other  16 5 Other  16 13 Other  16 16 Other
    16 16 Other  16 3 Other  16 11 Other  16 16 Other  16 7 Other  16 16 Other  16 16 Other  16 15 Other
    // 01011: 10
    10 16 Other  10 0 Other  10 8 Other  10 16 Other  10 4 Other  10 16 Other  10 16 Other  10 12 Other
    10 2 Other  10 16 Other  10 16 Other  10 10 Other  10 16 Other  10 6 Other  10 14 Other  10 16 Other
    10 1 Other  10 16 Other  10 16 Other  10 9 Other  10 16 Other  10 5 Other  10 13 Other  10 16 Other
    10 16 Other  10 3 Other  10 11 Other  10 16 Other  10 7 Other  10 16 Other  10 16 Other  10 15 Other
    // 01100: bad
    16 16 Other  16 0 Other  16 8 Other  16 16 Other  16 4 Other  16 16 Other  16 16 Other  16 12 Other
    16 2 Other  16 16 Other  16 16 Other  16 10 Other  16 16 Other  16 6 Other  16 14 Other  16 16 Other
    16 1 Other  16 16 Other  16 16 Other  16 9 Other  16 16 Other  16 5 Other  16 13 Other  16 16 Other
    16 16 Other  16 3 Other  16 11 Other  16 16 Other  16 7 Other  16 16 Other  16 16 Other  16 15 Other
    // 01101: 6
    6 16 Other  6 0 Digits  6 8 Digits  6 16 Other  6 4 Digits  6 16 Other  6 16 Other  6 12 Other
    6 2 Digits  6 16 Other  6 16 Other  6 10 Other  6 16 Other  6 6 Digits  6 14 Other  6 16 Other
    6 1 Digits  6 16 Other  6 16 Other  6 9 Digits  6 16 Other  6 5 Digits  6 13 Before  6 16 Other
    6 16 Other  6 3 Digits  6 11 Other  6 16 Other  6 7 Digits  6 16 Other  6 16 Other  6 15 Other
    // 01110: 14
    14 16 Other  14 0 Other  14 8 Other  14 16 Other  14 4 Other  14 16 Other  14 16 Other  14 12 Other
    14 2 Other  14 16 Other  14 16 Other  14 10 Other  14 16 Other  14 6 Other  14 14 Other  14 16 Other
    14 1 Other  14 16 Other  14 16 Other  14 9 Other  14 16 Other  14 5 Other  14 13 Other  14 16 Other
    14 16 Other  14 3 Other  14 11 Other  14 16 Other  14 7 Other  14 16 Other  14 16 Other  14 15 Other
    // 01111: bad
    16 16 Other  16 0 Other  16 8 Other  16 16 Other  16 4 Other  16 16 Other  16 16 Other  16 12 Other
    16 2 Other  16 16 Other  16 16 Other  16 10 Other  16 16 Other  16 6 Other  16 14 Other  16 16 Other
    16 1 Other  16 16 Other  16 16 Other  16 9 Other  16 16 Other  16 5 Other  16 13 Other  16 16 Other
    16 16 Other  16 3 Other  16 11 Other  16 16 Other  16 7 Other  16 16 Other  16 16 Other  16 15 Other
    // 10000: 1
    1 16 Other  1 0 Digits  1 8 Digits  1 16 Other  1 4 Digits  1 16 Other  1 16 Other  1 12 Other
    1 2 Digits  1 16 Other  1 16 Other  1 10 Other  1 16 Other  1 6 Digits  1 14 Other  1 16 Other
    1 1 Digits  1 16 Other  1 16 Other  1 9 Digits  1 16 Other  1 5 Digits  1 13 Before  1 16 Other
    1 16 Other  1 3 Digits  1 11 Other  1 16 Other  1 7 Digits  1 16 Other  1 16 Other  1 15 Other
    // 10001: bad
    16 16 Other  16 0 Other  16 8 Other  16 16 Other  16 4 Other  16 16 Other  16 16 Other  16 12 Other
    16 2 Other  16 16 Other  16 16 Other  16 10 Other  16 16 Other  16 6 Other  16 14 Other  16 16 Other
    16 1 Other  16 16 Other  16 16 Other  16 9 Other  16 16 Other  16 5 Other  16 13 Other  16 16 Other
    16 16 Other  16 3 Other  16 11 Other  16 16 Other  16 7 Other  16 16 Other  16 16 Other  16 15 Other
    // 10010: bad
    16 16 Other  16 0 Other  16 8 Other  16 16 Other  16 4 Other  16 16 Other  16 16 Other  16 12 Other
    16 2 Other  16 16 Other  16 16 Other  16 10 Other  16 16 Other  16 6 Other  16 14 Other  16 16 Other
    16 1 Other  16 16 Other  16 16 Other  16 9 Other  16 16 Other  16 5 Other  16 13 Other  16 16 Other
    16 16 Other  16 3 Other  16 11 Other  16 16 Other  16 7 Other  16 16 Other  16 16 Other  16 15 Other
    // 10011: 9
    9 16 Other  9 0 Digits  9 8 Digits  9 16 Other  9 4 Digits  9 16 Other  9 16 Other  9 12 Other
    9 2 Digits  9 16 Other  9 16 Other  9 10 Other  9 16 Other  9 6 Digits  9 14 Other  9 16 Other
    9 1 Digits  9 16 Other  9 16 Other  9 9 Digits  9 16 Other  9 5 Digits  9 13 Before  9 16 Other
    9 16 Other  9 3 Digits  9 11 Other  9 16 Other  9 7 Digits  9 16 Other  9 16 Other  9 15 Other
    // 10100: bad
    16 16 Other  16 0 Other  16 8 Other  16 16 Other  16 4 Other  16 16 Other  16 16 Other  16 12 Other
    16 2 Other  16 16 Other  16 16 Other  16 10 Other  16 16 Other  16 6 Other  16 14 Other  16 16 Other
    16 1 Other  16 16 Other  16 16 Other  16 9 Other  16 16 Other  16 5 Other  16 13 Other  16 16 Other
    16 16 Other  16 3 Other  16 11 Other  16 16 Other  16 7 Other  16 16 Other  16 16 Other  16 15 Other
    // 10101: 5
    5 16 Other  5 0 Digits  5 8 Digits  5 16 Other  5 4 Digits  5 16 Other  5 16 Other  5 12 Other
    5 2 Digits  5 16 Other  5 16 Other  5 10 Other  5 16 Other  5 6 Digits  5 14 Other  5 16 Other
    5 1 Digits  5 16 Other  5 16 Other  5 9 Digits  5 16 Other  5 5 Digits  5 13 Before  5 16 Other
    5 16 Other  5 3 Digits  5 11 Other  5 16 Other  5 7 Digits  5 16 Other  5 16 Other  5 15 Other
    // 10110: 13
    13 16 Other  13 0 Behind  13 8 Behind  13 16 Other  13 4 Behind  13 16 Other  13 16 Other  13 12 Other
    13 2 Behind  13 16 Other  13 16 Other  13 10 Other  13 16 Other  13 6 Behind  13 14 Other  13 16 Other
    13 1 Behind  13 16 Other  13 16 Other  13 9 Behind  13 16 Other  13 5 Behind  13 13 Other  13 16 Other
    13 16 Other  13 3 Behind  13 11 Other  13 16 Other  13 7 Behind  13 16 Other  13 16 Other  13 15 Other
    // 10111: bad
    16 16 Other  16 0 Other  16 8 Other  16 16 Other  16 4 Other  16 16 Other  16 16 Other  16 12 Other
    16 2 Other  16 16 Other  16 16 Other  16 10 Other  16 16 Other  16 6 Other  16 14 Other  16 16 Other
    16 1 Other  16 16 Other  16 16 Other  16 9 Other  16 16 Other  16 5 Other  16 13 Other  16 16 Other
    16 16 Other  16 3 Other  16 11 Other  16 16 Other  16 7 Other  16 16 Other  16 16 Other  16 15 Other
    // 11000: bad
    16 16 Other  16 0 Other  16 8 Other  16 16 Other  16 4 Other  16 16 Other  16 16 Other  16 12 Other
    16 2 Other  16 16 Other  16 16 Other  16 10 Other  16 16 Other  16 6 Other  16 14 Other  16 16 Other
    16 1 Other  16 16 Other  16 16 Other  16 9 Other  16 16 Other  16 5 Other  16 13 Other  16 16 Other
    16 16 Other  16 3 Other  16 11 Other  16 16 Other  16 7 Other  16 16 Other  16 16 Other  16 15 Other
    // 11001: 3
    3 16 Other  3 0 Digits  3 8 Digits  3 16 Other  3 4 Digits  3 16 Other  3 16 Other  3 12 Other
    3 2 Digits  3 16 Other  3 16 Other  3 10 Other  3 16 Other  3 6 Digits  3 14 Other  3 16 Other
    3 1 Digits  3 16 Other  3 16 Other  3 9 Digits  3 16 Other  3 5 Digits  3 13 Before  3 16 Other
    3 16 Other  3 3 Digits  3 11 Other  3 16 Other  3 7 Digits  3 16 Other  3 16 Other  3 15 Other
    // 11010: 11
    11 16 Other  11 0 Start  11 8 Start  11 16 Other  11 4 Start  11 16 Other  11 16 Other  11 12 Other
    11 2 Start  11 16 Other  11 16 Other  11 10 Other  11 16 Other  11 6 Start  11 14 Other  11 16 Other
    11 1 Start  11 16 Other  11 16 Other  11 9 Start  11 16 Other  11 5 Start  11 13 Other  11 16 Other
    11 16 Other  11 3 Start  11 11 Other  11 16 Other  11 7 Start  11 16 Other  11 16 Other  11 15 Other
    // 11011: bad
    16 16 Other  16 0 Other  16 8 Other  16 16 Other  16 4 Other  16 16 Other  16 16 Other  16 12 Other
    16 2 Other  16 16 Other  16 16 Other  16 10 Other  16 16 Other  16 6 Other  16 14 Other  16 16 Other
    16 1 Other  16 16 Other  16 16 Other  16 9 Other  16 16 Other  16 5 Other  16 13 Other  16 16 Other
    16 16 Other  16 3 Other  16 11 Other  16 16 Other  16 7 Other  16 16 Other  16 16 Other  16 15 Other
    // 11100: 7
    7 16 Other  7 0 Digits  7 8 Digits  7 16 Other  7 4 Digits  7 16 Other  7 16 Other  7 12 Other
    7 2 Digits  7 16 Other  7 16 Other  7 10 Other  7 16 Other  7 6 Digits  7 14 Other  7 16 Other
    7 1 Digits  7 16 Other  7 16 Other  7 9 Digits  7 16 Other  7 5 Digits  7 13 Before  7 16 Other
    7 16 Other  7 3 Digits  7 11 Other  7 16 Other  7 7 Digits  7 16 Other  7 16 Other  7 15 Other
    // 11101: bad
    16 16 Other  16 0 Other  16 8 Other  16 16 Other  16 4 Other  16 16 Other  16 16 Other  16 12 Other
    16 2 Other  16 16 Other  16 16 Other  16 10 Other  16 16 Other  16 6 Other  16 14 Other  16 16 Other
    16 1 Other  16 16 Other  16 16 Other  16 9 Other  16 16 Other  16 5 Other  16 13 Other  16 16 Other
    16 16 Other  16 3 Other  16 11 Other  16 16 Other  16 7 Other  16 16 Other  16 16 Other  16 15 Other
    // 11110: bad
    16 16 Other  16 0 Other  16 8 Other  16 16 Other  16 4 Other  16 16 Other  16 16 Other  16 12 Other
    16 2 Other  16 16 Other  16 16 Other  16 10 Other  16 16 Other  16 6 Other  16 14 Other  16 16 Other
    16 1 Other  16 16 Other  16 16 Other  16 9 Other  16 16 Other  16 5 Other  16 13 Other  16 16 Other
    16 16 Other  16 3 Other  16 11 Other  16 16 Other  16 7 Other  16 16 Other  16 16 Other  16 15 Other
    // 11111: 15
    15 16 End  15 0 End  15 8 End  15 16 End  15 4 End  15 16 End  15 16 End  15 12 End
    15 2 End  15 16 End  15 16 End  15 10 End  15 16 End  15 6 End  15 14 End  15 16 End
    15 1 End  15 16 End  15 16 End  15 9 End  15 16 End  15 5 End  15 13 End  15 16 End
    15 16 End  15 3 End  15 11 End  15 16 End  15 7 End  15 16 End  15 16 End  15 15 End
];
