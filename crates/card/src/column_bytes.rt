// Columns, as numbers and in their bytes: two for each, low byte first.
//
// Which numbers are columns is said in flat/specs/Cards.antt.
ghost use Rattle.std.specs.Prelude.{◌≡◌, ◌+◌, ◌*◌, ◌<◌, ◌≤◌, length, IfSome, unwrap_or};
ghost use Rattle.flat.specs.Lists.{field};
ghost use Rattle.flat.specs.Cards.{column_ok, first_bad, columns_in};

// 1 to 2 ^ k - 1.
#[tactic(auto, using(gf2::proofs::Bits::one_shifted), unfolding(flat::specs::Cards::column_ok))]
fn column_ok(k: usize, c: u16) -> bool
    requires { k ≤ 16 }
    ensures { result ≡ column_ok k c }
{
    1 <= c && (c as u32) < 1u32 << k
}

// The index of the first number that is no column.
pub fn first_bad(k: usize, columns: &[u16]) -> Option<usize>
    requires { k ≤ 16 }
    ensures value { unwrap_or result (length columns.now) ≡ first_bad k columns.now }
    ensures bound { IfSome result (λ j. j < length columns.now) }
{
    columns.iter().position(|c| !column_ok(k, *c))
}

// Column j out of the bytes of the columns.
#[tactic(auto, using(crate::proofs::Inside::two_bytes_read))]
pub fn column(columns: &[u8], j: usize) -> u16
    requires { 2 * j + 1 < length columns.now }
    ensures { result ≡ field (2 * j) 2 columns.now }
{
    u16::from_le_bytes([columns[2 * j], columns[2 * j + 1]])
}

// The same of the m columns that stand in bytes. They are read where they stand, with no copy made first, since
// every call makes this search.
pub(crate) fn first_bad_in(k: usize, m: usize, columns: &[u8]) -> Option<usize>
    requires { (k ≤ 16) × (2 * m ≤ length columns.now) }
    ensures value { unwrap_or result m ≡ first_bad k (columns_in m columns.now) }
    ensures bound { IfSome result (λ j. j < m) }
{
    (0..m).position(|j| !column_ok(k, column(columns, j)))
}
