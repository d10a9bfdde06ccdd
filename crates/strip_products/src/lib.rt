// A data byte times a column's bit, the one product that the encoder is made of, and the table of these bits.
#![tactic(auto)]

ghost use Rattle.std.specs.Prelude.{◌≡◌, ◌*◌, ◌≤◌, eqb, if◌then◌else◌};

mod table;

pub use table::BitTable;

// The byte for bit 1, and 0 for bit 0.
pub fn product(byte: u8, bit: u8) -> u8
    requires { bit ≤ 1 }
    ensures product { result ≡ byte * bit }
    ensures chosen { result ≡ (if eqb bit 1 then byte else 0) }
{
    let product = byte * bit;
    product
}
