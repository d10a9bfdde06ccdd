// Which losses of disks are fatal: the list of all minimal erasures with its vector.
//
// Every byte string and slice is a legal argument. What is answered for which input is said in
// flat/specs/Faults.antt.
#![tactic(auto)]

ghost use Rattle.std.specs.Prelude.{◌≡◌, ◌+◌, ◌*◌, ◌≤◌, length, get_or, IfOk};
ghost use Rattle.flat.specs.Lists.{padded, tabulate};
ghost use Rattle.flat.specs.Cards.{card_of};
ghost use Rattle.flat.specs.Erasures.{erasures, vector};
ghost use Rattle.flat.specs.Faults.{unless_refused, list_report, list_slice, erasures_report, erasures_vector, erasures_slice};
ghost use Rattle.minimal_words.specs.Listed.{sizes};
ghost use Rattle.erasures.specs.declared.ListError.TheVariants.{Card};
ghost use Rattle.erasures.specs.Reports.{report, counted};

use card::{CardFault, Code, Edition};
use minimal_marks::{KEYS, Marks, SIZES};

// A list that was written: how many entries it has, and its vector: place i - 1 has how many of them hold
// i disks, for i from 1 to m + 1. The other places are 0.
#[derive(Clone, Copy)]
pub struct Listing {
    pub count: usize,
    pub vector: [usize; 17],
}

// Why no list was written: the card's fault, or a slice that is too short, with the count needed.
#[derive(Clone, Copy, Debug, PartialEq, Eq)]
pub enum ListError {
    Card(CardFault),
    Short(usize),
}

impl From<CardFault> for ListError {
    ghost from_gives = { λ fault error. error ≡ Card fault };

    fn from(fault: CardFault) -> ListError {
        ListError::Card(fault)
    }
}

// The vector out of the counts of entries by key. The mask is empty, so that each size is one key.
#[tactic(auto, using(flat::proofs::Lists::fill_none, flat::proofs::Lists::fill_more))]
fn vector(counts: [usize; KEYS], m: usize) -> [usize; 17]
    requires { m ≤ 16 }
    ensures { result ≡ padded 17 (tabulate (m + 1) (λ i. get_or counts ((i + 1) * sizes) 0)) }
{
    let mut out = [0usize; 17];
    let places = m + 1;
    for i in 0..places {
        out[i] = counts[(i + 1) * SIZES];
    }
    out
}

// The lister, for the code of an accepted card: nothing is written before the count is known.
fn list_code(code: &Code<'_>, out: &mut [u32]) -> Result<Listing, ListError>
    ensures answer_value { report (counted result) ≡ list_report (erasures code.now) (length out.old) }
    ensures vector_value { IfOk result (λ listing. listing.vector ≡ padded 17 (vector code.now)) }
    ensures out_after { out.new ≡ unless_refused (report (counted result)) (list_slice (erasures code.now) out.old) out.old }
{
    let basis = bases::rows(code);
    let mut marks = Marks::new();
    let counts = minimal_marks::mark(&basis, code.n(), 0, 0, &mut marks);
    let places = minimal_lists::starts(counts);
    let count = places[KEYS];
    if out.len() < count {
        return Err(ListError::Short(count));
    }
    minimal_lists::fill(&basis, 0, 0, &marks, places, out);
    let vector = vector(counts, code.m());
    Ok(Listing { count, vector })
}

// The lister: all minimal erasures into the slice, smaller size first, then smaller data part.
pub fn list(edition: Edition, card: &[u8], out: &mut [u32]) -> Result<Listing, ListError>
    ensures answer_value { report (counted result) ≡ erasures_report (card_of edition card.now) (length out.old) }
    ensures vector_value { IfOk result (λ listing. listing.vector ≡ erasures_vector (card_of edition card.now) (length out.old)) }
    ensures out_after { out.new ≡ erasures_slice (card_of edition card.now) out.old }
{
    let code = card::check(edition, card)?;
    list_code(&code, out)
}
