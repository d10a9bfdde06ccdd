// Quick repair of a tray of stripes, document 02's request [1]: up to eight stripes of one card in one buffer,
// peeled in turn (crate peeler) within one budget of steps.
//
// Every byte string, length, list of sets, budget and tray is a legal argument. What is answered for which
// input, and what is left in the tray, is said in peeling/specs/Faults.antt. No byte is written before every
// refusal is decided.
#![tactic(auto)]

ghost use Rattle.std.specs.Prelude.{◌≡◌, ℕ, List, [], ◌∷◌, ◌+◌, ◌*◌, ◌≤◌, length, take, drop, IfOk, IfErr, OnOk};
ghost use Rattle.flat.specs.Lists.{padded, put};
ghost use Rattle.flat.specs.Cards.{disks, card_of};
ghost use Rattle.flat.specs.Faults.{accepted};
ghost use Rattle.peeling.specs.Peeling.{peeled};
ghost use Rattle.peeling.specs.Trays.{tray_peeled, total, lefts, joined};
ghost use Rattle.peeling.specs.Faults.{tray_ok, sets_ok, tray_tests, tray_report, tray_lefts, tray_bytes};
ghost use Rattle.tray.specs.declared.TrayError.TheVariants.{Card};
ghost use Rattle.tray.specs.Reports.{error_report, answer, report};

use card::{CardFault, Code, Edition};
use peeler::Made;

// Why nothing was repaired: the card's fault, a strip length that is none, a tray of no stripes or of more than
// eight, a set with a disk that the code lacks, or a tray of another length.
#[derive(Clone, Copy, Debug, PartialEq, Eq)]
pub enum TrayError {
    Card(CardFault),
    StripLength,
    StripeCount,
    OutsideSet,
    TrayLength,
}

impl From<CardFault> for TrayError {
    ghost from_gives = { λ fault error. error ≡ Card fault };

    fn from(fault: CardFault) -> TrayError {
        TrayError::Card(fault)
    }
}

// How many steps were made in a tray, and what is left of each set. The other places are 0.
#[derive(Clone, Copy, Debug, PartialEq, Eq)]
pub struct Repaired {
    pub steps: usize,
    pub left: [u32; 8],
}

// The stripe of a tray that begins at a place.
fn peel_at(code: &Code<'_>, l: usize, lost: u32, budget: usize, tray: &mut [u8], at: usize) -> Made
    requires { (1 ≤ l) × (at + disks code.now * l ≤ length tray.old) }
    ensures steps { result.steps ≡ (peeled code.now l budget lost (take (disks code.now * l) (drop at tray.old))).steps }
    ensures left { result.left ≡ (peeled code.now l budget lost (take (disks code.now * l) (drop at tray.old))).left }
    ensures tray { tray.new ≡ put tray.old at (peeled code.now l budget lost (take (disks code.now * l) (drop at tray.old))).stripe }
{
    let end = at + code.n() * l;
    peeler::peel(code, l, lost, budget, &mut tray[at..end])
}

// The stripes of a tray in turn, each until it sticks, with one budget for all.
fn peel_each(code: &Code<'_>, l: usize, sets: &[u32], budget: usize, tray: &mut [u8]) -> Repaired
    requires { (1 ≤ l) × (length sets.now ≤ 8) × (length tray.old ≡ length sets.now * (disks code.now * l)) }
    ensures steps { result.steps ≡ total (tray_peeled code.now l budget sets.now tray.old) }
    ensures left { result.left ≡ padded 8 (lefts (tray_peeled code.now l budget sets.now tray.old)) }
    ensures tray { tray.new ≡ joined (tray_peeled code.now l budget sets.now tray.old) }
{
    let n = code.n();
    let mut left = [0u32; 8];
    let mut steps = 0usize;
    for i in 0..sets.len() {
        let at = i * (n * l);
        let made = peel_at(code, l, sets[i], budget - steps, tray, at);
        left[i] = made.left;
        steps += made.steps;
    }
    Repaired { steps, left }
}

// Whether a tray has 1 to 8 stripes.
#[tactic(auto, unfolding(peeling::specs::Faults::tray_ok))]
fn count_ok(count: usize) -> bool
    ensures { result ≡ tray_ok count }
{
    1 <= count && count <= 8
}

// Whether each set has the code's disks only.
fn sets_ok(code: &Code<'_>, sets: &[u32]) -> bool
    ensures { result ≡ sets_ok code.now sets.now }
{
    let n = code.n() as u32;
    sets.iter().all(|set| gf2::below(*set, n))
}

// Whether stripes with these lost sets may be repaired in a tray of size bytes, in strips of l bytes: the tests
// stand in the document's order, whatever the budget.
#[tactic(auto, unfolding(peeling::specs::Faults::tray_tests))]
fn tests(code: &Code<'_>, l: usize, sets: &[u32], size: usize) -> Result<(), TrayError>
    ensures refused { IfErr result (λ error.
        (budget : ℕ) (tray : List ℕ) → length tray ≡ size → error_report error ≡ tray_tests code.now l budget sets.now tray) }
    ensures accepted { OnOk result (
        (budget : ℕ) (tray : List ℕ) → length tray ≡ size
        → accepted (total (tray_peeled code.now l budget sets.now tray) ∷ []) ≡ tray_tests code.now l budget sets.now tray) }
    ensures sizes { OnOk result ((1 ≤ l) × (length sets.now ≤ 8) × (size ≡ length sets.now * (disks code.now * l))) }
{
    let n = code.n();
    if !card::length_ok(l) {
        return Err(TrayError::StripLength);
    }
    if !count_ok(sets.len()) {
        return Err(TrayError::StripeCount);
    }
    if !sets_ok(code, sets) {
        return Err(TrayError::OutsideSet);
    }
    if size != sets.len() * (n * l) {
        return Err(TrayError::TrayLength);
    }
    Ok(())
}

// Quick repair: the stripes of a tray in turn, each step by step until it sticks, within one budget of steps.
#[tactic(auto, using(card::proofs::Callers::good_with, card::proofs::Callers::bad_card), unfolding(peeling::specs::Faults::tray_report))]
pub fn repair(
    edition: Edition,
    card: &[u8],
    l: usize,
    sets: &[u32],
    budget: usize,
    tray: &mut [u8],
) -> Result<Repaired, TrayError>
    ensures answer_value { report (answer result) ≡ tray_report (card_of edition card.now) l budget sets.now tray.old }
    ensures left_value { IfOk result (λ repaired. repaired.left ≡ tray_lefts (card_of edition card.now) l budget sets.now tray.old) }
    ensures tray_after { tray.new ≡ tray_bytes (card_of edition card.now) l budget sets.now tray.old }
{
    let code = card::check(edition, card)?;
    tests(&code, l, sets, tray.len())?;
    Ok(peel_each(&code, l, sets, budget, tray))
}
