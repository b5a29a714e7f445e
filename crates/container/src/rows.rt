// Where the values of a table's rows lie in some bytes.
ghost use Rattle.std.specs.Prelude.{ℕ, ◌≡◌, ◌<◌, ◌+◌, ◌-◌, length, get_or, MatchOption};
ghost use Rattle.laws.specs.Layout.{part};
ghost use Rattle.std.proofs.Math.Option.{none, some};
ghost use Rattle.container.specs.Spans.{absent, Inside, shown};

// From where to where the value of a row lies; from 0 to 0, where no value can lie, if the row is absent.
#[derive(Clone, Copy)]
pub struct Span {
    pub from: u32,
    pub to: u32,
}

impl Span {
    pub const ABSENT: Span = Span { from: 0, to: 0 };
}

// Some bytes, and where in them the value of each row lies.
#[derive(Clone, Copy)]
pub struct Rows<'a> {
    pub bytes: &'a [u8],
    pub spans: [Span; 16],
    ghost inside: { Inside spans (length bytes.now) },
    ghost are_bytes: { (k : ℕ) → get_or bytes.now k 0 < 256 },
}

impl<'a> Rows<'a> {
    // The value of a row; None where it is absent.
    pub fn value(self, row: usize) -> Option<&'a [u8]>
        requires { row < 16 }
        ensures { MatchOption result (shown self.entry.bytes.now (get_or self.entry.spans row absent) ≡ none) (λ v. shown self.entry.bytes.now (get_or self.entry.spans row absent) ≡ some v.now) }
    {
        let Span { from, to } = self.spans[row];
        if to == 0 {
            return None;
        }
        Some(&self.bytes[from as usize..to as usize])
    }

    // The value of a row; no bytes where it is absent.
    pub fn part(self, row: usize) -> &'a [u8]
        requires { row < 16 }
        ensures result_value { result.now ≡ part self.entry.bytes.now (get_or self.entry.spans row absent).from ((get_or self.entry.spans row absent).to - (get_or self.entry.spans row absent).from) }
        ensures ref_ptr_value { (result.ref_ptr.0 ≡ self.entry.bytes.ref_ptr.0) × (result.ref_ptr.1 ≡ self.entry.bytes.ref_ptr.1 + (get_or self.entry.spans row absent).from) }
    {
        let Span { from, to } = self.spans[row];
        &self.bytes[from as usize..to as usize]
    }
}
