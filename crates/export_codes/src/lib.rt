// The answers of the calls as one number each, for a caller in C: the report's number, 0 where the call is
// accepted, and 256 times the value that the report names, if it names one. Here stand those of the calls
// on cards, sets and stripes, in module records those of the calls on record files.
//
// Every function assumes that the report fits: its value is below 2 ^ 32, so that both fit into 64 bits.
#![tactic(auto)]

ghost use Rattle.std.specs.Prelude.{◌≡◌, [], ◌∷◌};
ghost use Rattle.flat.specs.Faults.{refused};
ghost use Rattle.card.specs.Reports.{fault_report};
ghost use Rattle.card_writer.specs.Reports.{report as written_report};
ghost use Rattle.verdicts.specs.Reports.{report as set_verdict_report};
ghost use Rattle.likeness.specs.Reports.{report as likeness_report};
ghost use Rattle.erasures.specs.Reports.{report as listed_report, counted};
ghost use Rattle.equations.specs.Reports.{report as told_report};
ghost use Rattle.encoder.specs.Reports.{report as encoded_report};
ghost use Rattle.restorer.specs.Reports.{fault_report as stripe_fault_report};
ghost use Rattle.rebuilder.specs.Reports.{report as rebuilt_report};
ghost use Rattle.partial_rebuilder.specs.Reports.{report as partly_rebuilt_report};
ghost use Rattle.turner.specs.Reports.{report as turned_report};
ghost use Rattle.tray.specs.Reports.{report as repaired_report, answer as repaired_answer};
ghost use Rattle.updater.specs.Reports.{report as updated_report};
ghost use Rattle.stepped_card.specs.Reports.{report as stepped_written_report};
ghost use Rattle.converter.specs.Reports.{report as converted_report};
ghost use Rattle.least_wear.specs.Reports.{report as least_wear_report};
ghost use Rattle.export_bounds.specs.Coded.{coded, named, Fits};

use card::{CardFault, Edition};
use card_writer::CardWriteError;
use converter::ConvertError;
use encoder::EncodeError;
use equations::EquationsError;
use erasures::{ListError, Listing};
use least_wear::LeastWearError;
use partial_rebuilder::PartialError;
use rebuilder::RebuildError;
use restorer::StripeFault;
use stepped_card::SteppedFault;
use tray::{Repaired, TrayError};
use turner::TurnError;
use updater::UpdateError;
use verdicts::VerdictError;

mod records;

pub use records::{record_fault_code, record_written_code, there_code};

// The edition that the caller names.
pub fn edition(second: bool) -> Edition
    ensures { result ≡ named second }
{
    if second {
        Edition::Second
    } else {
        Edition::First
    }
}

// A report's number and its value packed into one.
pub fn packed(number: u64, value: usize) -> u64
    requires { Fits (refused number (value ∷ [])) }
    ensures { result ≡ coded (refused number (value ∷ [])) }
{
    number + 256 * (value as u64)
}

// A card's fault.
pub fn fault_code(fault: CardFault) -> u64
    requires { Fits (fault_report fault) }
    ensures { result ≡ coded (fault_report fault) }
{
    packed(fault.number() as u64, fault.value())
}

// The fault of a strip length, a lost set or a stripe.
pub fn stripe_fault_code(fault: StripeFault) -> u64
    ensures { result ≡ coded (stripe_fault_report fault) }
{
    match fault {
        StripeFault::StripLength => 6,
        StripeFault::OutsideSet => 8,
        StripeFault::StripeLength => 7,
    }
}

// The card writer's answer.
pub fn written_code(written: Result<(), CardWriteError>) -> u64
    requires { Fits (written_report written) }
    ensures { result ≡ coded (written_report written) }
{
    match written {
        Ok(()) => 0,
        Err(CardWriteError::Card(fault)) => fault_code(fault),
        Err(CardWriteError::Buffer) => 7,
    }
}

// The converter's answer.
pub fn converted_code(converted: Result<(), ConvertError>) -> u64
    requires { Fits (converted_report converted) }
    ensures { result ≡ coded (converted_report converted) }
{
    match converted {
        Ok(()) => 0,
        Err(ConvertError::Card(fault)) => fault_code(fault),
        Err(ConvertError::Buffer) => 7,
        Err(ConvertError::Lossy) => 24,
    }
}

// The stepped card's answer.
pub fn stepped_code(written: Result<(), SteppedFault>) -> u64
    ensures { result ≡ coded (stepped_written_report written) }
{
    match written {
        Ok(()) => 0,
        Err(SteppedFault::DataCount) => 2,
        Err(SteppedFault::ParityCount) => 3,
        Err(SteppedFault::Distance) => 20,
        Err(SteppedFault::Bounds) => 21,
        Err(SteppedFault::Buffer) => 7,
    }
}

// The least-wear call's answer.
pub fn least_wear_code(least: Result<u32, LeastWearError>) -> u64
    requires { Fits (least_wear_report least) }
    ensures { result ≡ coded (least_wear_report least) }
{
    match least {
        Ok(equation) => packed(0, equation as usize),
        Err(LeastWearError::Card(fault)) => fault_code(fault),
        Err(LeastWearError::OutsideSet) => 8,
        Err(LeastWearError::NoDisk) => 9,
        Err(LeastWearError::NoneSurvives) => 11,
    }
}

// The encoder's answer.
pub fn encoded_code(encoded: Result<(), EncodeError>) -> u64
    requires { Fits (encoded_report encoded) }
    ensures { result ≡ coded (encoded_report encoded) }
{
    match encoded {
        Ok(()) => 0,
        Err(EncodeError::Card(fault)) => fault_code(fault),
        Err(EncodeError::StripLength) => 6,
        Err(EncodeError::StripeLength) => 7,
    }
}

// The answer to whether two cards are alike.
pub fn likeness_code(alike: Result<bool, CardFault>) -> u64
    requires { Fits (likeness_report alike) }
    ensures { result ≡ coded (likeness_report alike) }
{
    match alike {
        Ok(true) => packed(0, 1),
        Ok(false) => packed(0, 0),
        Err(fault) => fault_code(fault),
    }
}

// The rebuilder's answer.
pub fn rebuilt_code(rebuilt: Result<u32, RebuildError>) -> u64
    requires { Fits (rebuilt_report rebuilt) }
    ensures { result ≡ coded (rebuilt_report rebuilt) }
{
    match rebuilt {
        Ok(count) => packed(0, count as usize),
        Err(RebuildError::Card(fault)) => fault_code(fault),
        Err(RebuildError::Stripe(fault)) => stripe_fault_code(fault),
        Err(RebuildError::Fatal) => 11,
        Err(RebuildError::Inconsistent) => 12,
    }
}

// A partial rebuild's answer.
pub fn partly_rebuilt_code(rebuilt: Result<u32, PartialError>) -> u64
    requires { Fits (partly_rebuilt_report rebuilt) }
    ensures { result ≡ coded (partly_rebuilt_report rebuilt) }
{
    match rebuilt {
        Ok(undetermined) => packed(0, undetermined as usize),
        Err(PartialError::Card(fault)) => fault_code(fault),
        Err(PartialError::Stripe(fault)) => stripe_fault_code(fault),
        Err(PartialError::Inconsistent) => 12,
    }
}

// The update's answer.
pub fn updated_code(updated: Result<usize, UpdateError>) -> u64
    requires { Fits (updated_report updated) }
    ensures { result ≡ coded (updated_report updated) }
{
    match updated {
        Ok(count) => packed(0, count),
        Err(UpdateError::Card(fault)) => fault_code(fault),
        Err(UpdateError::StripLength) => 6,
        Err(UpdateError::NoDisk) => 9,
        Err(UpdateError::ParityDisk) => 18,
        Err(UpdateError::StripeLength) => 7,
        Err(UpdateError::NewLength) => 19,
    }
}

// The verdict call's answer.
pub fn verdict_code(verdict: Result<u32, VerdictError>) -> u64
    requires { Fits (set_verdict_report verdict) }
    ensures { result ≡ coded (set_verdict_report verdict) }
{
    match verdict {
        Ok(undetermined) => packed(0, undetermined as usize),
        Err(VerdictError::Card(fault)) => fault_code(fault),
        Err(VerdictError::OutsideSet) => 8,
    }
}

// The lister's answer.
pub fn listed_code(listed: Result<Listing, ListError>) -> u64
    requires { Fits (listed_report (counted listed)) }
    ensures { result ≡ coded (listed_report (counted listed)) }
{
    match listed {
        Ok(listing) => packed(0, listing.count),
        Err(ListError::Card(fault)) => fault_code(fault),
        Err(ListError::Short(count)) => packed(10, count),
    }
}

// The equation call's answer.
pub fn told_code(told: Result<usize, EquationsError>) -> u64
    requires { Fits (told_report told) }
    ensures { result ≡ coded (told_report told) }
{
    match told {
        Ok(count) => packed(0, count),
        Err(EquationsError::Card(fault)) => fault_code(fault),
        Err(EquationsError::NoDisk) => 9,
        Err(EquationsError::Short(count)) => packed(10, count),
    }
}

// Quick repair's answer.
pub fn repaired_code(repaired: Result<Repaired, TrayError>) -> u64
    requires { Fits (repaired_report (repaired_answer repaired)) }
    ensures { result ≡ coded (repaired_report (repaired_answer repaired)) }
{
    match repaired {
        Ok(tray) => packed(0, tray.steps),
        Err(TrayError::Card(fault)) => fault_code(fault),
        Err(TrayError::StripLength) => 6,
        Err(TrayError::StripeCount) => 17,
        Err(TrayError::OutsideSet) => 8,
        Err(TrayError::TrayLength) => 7,
    }
}

// The answer of turning and of turning back.
pub fn turned_code(turned: Result<(), TurnError>) -> u64
    requires { Fits (turned_report turned) }
    ensures { result ≡ coded (turned_report turned) }
{
    match turned {
        Ok(()) => 0,
        Err(TurnError::Card(fault)) => fault_code(fault),
        Err(TurnError::StripLength) => 6,
        Err(TurnError::BufferLength) => 7,
    }
}
