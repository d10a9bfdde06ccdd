// A card from three numbers, document 02's request [7]: the Stepped Combination card of distance d, m parity disks and k
// data disks, into a buffer of exactly the card's length.
//
// Every number and buffer is a legal argument of `write`. What is answered for which input, and what is left in the
// buffer, is said in stepped_codes/specs/Faults.antt.
#![tactic(auto)]

ghost use Rattle.std.specs.Prelude.{◌≡◌, ◌≤◌, ◌<◌, [], length, get_or, MatchResult};
ghost use Rattle.gf2.specs.Sets.{has};
ghost use Rattle.flat.specs.Lists.{set_of, padded};
ghost use Rattle.flat.specs.Faults.{accepted};
ghost use Rattle.stepped_codes.specs.Stepped.{parity_sets, stepped, within_bounds};
ghost use Rattle.stepped_codes.specs.Faults.{stepped_report, stepped_buffer};
ghost use Rattle.stepped_sets.specs.Distances.{number_of};
ghost use Rattle.stepped_card.specs.Reports.{fault_report, report};
ghost use Rattle.stepped_card.specs.declared.SteppedFault.TheVariants.{Distance as DistanceFault};

use card::Edition;
use stepped_sets::{Distance, OtherDistance};

// Why no card was written: k or m outside 1 to 16, a distance that is neither 3 nor 4, k outside the bounds for d and m,
// or a buffer of another length.
#[derive(Clone, Copy, Debug, PartialEq, Eq)]
pub enum SteppedFault {
    DataCount,
    ParityCount,
    Distance,
    Bounds,
    Buffer,
}

impl From<OtherDistance> for SteppedFault {
    ghost from_gives = { λ _ fault. fault ≡ DistanceFault };

    fn from(_other: OtherDistance) -> SteppedFault {
        SteppedFault::Distance
    }
}

// Whether k is within the bounds for a distance and m: `all` is 2^m, and the bounds are put as in
// stepped_codes/specs/Stepped.antt.
fn within_bounds(distance: Distance, m: usize, k: usize) -> bool
    requires { (m ≤ 16) × (k ≤ 16) }
    ensures { result ≡ within_bounds (number_of distance) m k }
{
    let all = 1usize << m;
    let n = k + m;
    match distance {
        Distance::Three => all < 2 * n && n + 1 <= all,
        Distance::Four => all + 4 < 4 * n && 2 * n <= all,
    }
}

// The distance that d is, or what is refused, for a buffer of n bytes.
fn check(d: usize, m: usize, k: usize, n: usize) -> Result<Distance, SteppedFault>
    ensures { MatchResult result
        (λ distance. (number_of distance ≡ d) × (accepted [] ≡ stepped_report d m k n))
        (λ fault. fault_report fault ≡ stepped_report d m k n) }
{
    if !card::count_ok(k) {
        return Err(SteppedFault::DataCount);
    }
    if !card::count_ok(m) {
        return Err(SteppedFault::ParityCount);
    }
    let distance = Distance::try_from(d)?;
    if !within_bounds(distance, m, k) {
        return Err(SteppedFault::Bounds);
    }
    if n != 2 + 2 * m {
        return Err(SteppedFault::Buffer);
    }
    Ok(distance)
}

// The column of a parity disk: the data disks whose parity set has it.
fn column(sets: &[u32], j: u32) -> u16
    requires { (length sets.now ≤ 16) × (j < 32) }
    ensures { result ≡ set_of (length sets.now) (λ i. has (get_or sets.now i 0) j) }
{
    let mut c = 0u16;
    for (i, &set) in sets.iter().enumerate() {
        if gf2::has(set, j) {
            c += 1u16 << i;
        }
    }
    c
}

// The m columns, then zeros.
fn columns(distance: Distance, m: usize, k: usize) -> [u16; 16]
    requires { (m ≤ 6) × (k ≤ 16) × (k ≤ length (parity_sets (number_of distance) m)) }
    ensures { result ≡ padded 16 (stepped (number_of distance) m k).columns }
{
    let sets = stepped_sets::sets(distance, m, k);
    let mut out = [0u16; 16];
    for j in 0..m {
        out[j] = column(&sets[..k], j as u32);
    }
    out
}

// The card of d, m and k into a buffer of exactly its length. The card writer refuses nothing that comes from here.
pub fn write(d: usize, m: usize, k: usize, out: &mut [u8]) -> Result<(), SteppedFault>
    ensures result_value { report result ≡ stepped_report d m k (length out.old) }
    ensures out_after { out.new ≡ stepped_buffer d m k out.old }
{
    let distance = check(d, m, k, out.len())?;
    let all = columns(distance, m, k);
    let _ = card_writer::write(Edition::First, k, m, &all[..m], b"", out);
    Ok(())
}
