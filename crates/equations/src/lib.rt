// The recovery equations of a disk: the sets of disks whose XOR gives it, as far as none lies inside
// another.
//
// Every byte string, disk and slice is a legal argument. What is answered for which input is said in
// flat/specs/Faults.antt.
#![tactic(auto)]

ghost use Rattle.std.specs.Prelude.{◌≡◌, ◌<◌, length};
ghost use Rattle.flat.specs.Cards.{card_of, disks};
ghost use Rattle.flat.specs.Equations.{equations};
ghost use Rattle.flat.specs.Faults.{unless_refused, list_report, list_slice, equations_report, equations_slice};
ghost use Rattle.equations.specs.declared.EquationsError.TheVariants.{Card};
ghost use Rattle.equations.specs.Reports.{report};
ghost use Rattle.equations.specs.Parities.{parities};

use card::{CardFault, Code, Edition};
use minimal_marks::{KEYS, Marks};

// Why no equations were written: the card's fault, a disk that the code lacks, or a slice that is too short, with
// the count needed.
#[derive(Clone, Copy, Debug, PartialEq, Eq)]
pub enum EquationsError {
    Card(CardFault),
    NoDisk,
    Short(usize),
}

impl From<CardFault> for EquationsError {
    ghost from_gives = { λ fault error. error ≡ Card fault };

    fn from(fault: CardFault) -> EquationsError {
        EquationsError::Card(fault)
    }
}

// The parity disks: those that are left without the data disks.
fn parities(code: &Code<'_>) -> u32
    ensures { result ≡ parities code.now.k code.now.m }
{
    gf2::survivors(code.n(), gf2::first(code.k() as u32))
}

// The equations of a disk, for the code of an accepted card: nothing is written before the count is
// known. They are the minimal words of the checks' span that hold the disk, without it; among those of
// one size the mask puts fewer parity disks first.
fn list_code(code: &Code<'_>, disk: usize, out: &mut [u32]) -> Result<usize, EquationsError>
    requires { disk < disks code.now }
    ensures result_value { report result ≡ list_report (equations code.now disk) (length out.old) }
    ensures out_after { out.new ≡ unless_refused (report result) (list_slice (equations code.now disk) out.old) out.old }
{
    let n = code.n();
    let basis = bases::checks(code);
    let set = 1u32 << disk;
    let mask = parities(code);
    let mut marks = Marks::new();
    let places = minimal_lists::starts(minimal_marks::mark(&basis, n, set, mask, &mut marks));
    let count = places[KEYS];
    if out.len() < count {
        return Err(EquationsError::Short(count));
    }
    minimal_lists::fill(&basis, set, mask, &marks, places, out);
    Ok(count)
}

// The equation call: the equations of the disk into the slice, smaller size first, then fewer parity
// disks, then smaller set number.
pub fn list(
    edition: Edition,
    card: &[u8],
    disk: usize,
    out: &mut [u32],
) -> Result<usize, EquationsError>
    ensures result_value { report result ≡ equations_report (card_of edition card.now) disk (length out.old) }
    ensures out_after { out.new ≡ equations_slice (card_of edition card.now) disk out.old }
{
    let code = card::check(edition, card)?;
    if code.n() <= disk {
        return Err(EquationsError::NoDisk);
    }
    list_code(&code, disk, out)
}
