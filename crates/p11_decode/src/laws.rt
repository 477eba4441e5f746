//! What the instruction table says of every word.
ghost use Rattle.std.specs.Prelude.{◌≡◌, ◌≤◌, All, IsTrue, count_by};
ghost use Rattle.p11_decode.specs.Table.{fits, op_of, table};
ghost use Rattle.p11_decode.specs.declared.op.Op.TheVariants.{Reserved};

/// At most one row of the instruction table fits a word.
pub fn at_most_one_row_fits(word: u16)
    ensures { count_by (fits word) table ≤ 1 }
{}

/// A word that a row of the instruction table fits is the instruction of that row, wherever the row stands in the
/// table. Any other word is reserved.
pub fn the_row_that_fits_decides(word: u16)
    ensures fitting { All (λ r. IsTrue (fits word r) → op_of word ≡ r.op word) table }
    ensures reserved { count_by (fits word) table ≡ 0 → op_of word ≡ Reserved }
{}
