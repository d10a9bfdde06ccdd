// Whether two cards are alike: the same counts of disks, and columns that are a rearrangement of each
// other.
//
// Every two byte strings, in either edition, are legal arguments. What alike means is said in flat/specs/Alike.antt, and what
// is answered for which input in flat/specs/Faults.antt.
#![tactic(auto)]

ghost use Rattle.std.specs.Prelude.{◌≡◌, ◌+◌};
ghost use Rattle.flat.specs.Cards.{card_of};
ghost use Rattle.flat.specs.Alike.{occurrences, rearranged};
ghost use Rattle.flat.specs.Faults.{alike_report};
ghost use Rattle.likeness.specs.Reports.{report};

use card::{CardFault, Code, Edition};

// The balance of a column that stands as often in both codes.
const LEVEL: u16 = 16;

// The balance of a column: up from level for each column of the one code that is equal to it, and down for each of the
// other's. It is as wide as a column, so that the compiler compares and counts eight of each at once. The columns are counted by
// the own m: by the other's, the same number, the compiler knows that it is at most 16, and takes the last m % 8 one by one.
fn balance(own: &Code<'_>, other: &Code<'_>, column: u16) -> u16
    requires { own.now.m ≡ other.now.m }
    ensures { result + occurrences other.now column ≡ 16 + occurrences own.now column }
{
    let mut balance = LEVEL;
    for i in 0..own.m() {
        let up = u16::from(own.column(i) == column);
        let down = u16::from(other.column(i) == column);
        balance = balance + up - down;
    }
    balance
}

// Whether the columns of two codes are a rearrangement of each other. With as many in both, it is enough
// to look at those of the first.
fn rearranged(first: &Code<'_>, second: &Code<'_>) -> bool
    requires { first.now.m ≡ second.now.m }
    ensures { result ≡ rearranged first.now second.now }
{
    (0..first.m()).all(|j| balance(first, second, first.column(j)) == LEVEL)
}

// Whether two cards are alike, the first in edition a and the second in edition b. The first card's
// refusals come before the second's.
#[tactic(auto, using(card::proofs::Callers::good_with, card::proofs::Callers::bad_card), unfolding(flat::specs::Faults::alike_report))]
pub fn alike(a: Edition, first: &[u8], b: Edition, second: &[u8]) -> Result<bool, CardFault>
    ensures { report result ≡ alike_report (card_of a first.now) (card_of b second.now) }
{
    let own = card::check(a, first)?;
    let other = card::check(b, second)?;
    Ok(own.k() == other.k() && own.m() == other.m() && rearranged(&own, &other))
}
