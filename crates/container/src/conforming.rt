// A container that conforms.
ghost use Rattle.std.specs.Prelude.{◌≤◌, length, IsTrue};
ghost use Rattle.kinds.specs.Tables.{table, IsKind};
ghost use Rattle.container.specs.Container.{largest};
ghost use Rattle.container.specs.Map.{row_values, allows};

use crate::rows::Rows;

// A container that conforms under a date: its kind, the date, and its bytes, with where the value of each row of its kind's table lies
// in them. That the kind is one, that the bytes are not too many and that the values are allowed holds of every value of this type.
#[derive(Clone, Copy)]
pub struct Conforming<'a> {
    pub kind: u64,
    pub today: u64,
    pub rows: Rows<'a>,
    ghost known: { IsKind kind },
    ghost small: { length rows.bytes.now ≤ largest },
    ghost allowed: { IsTrue (allows today (table kind) (row_values rows.spans rows.bytes.now (length (table kind)) 0)) },
}
