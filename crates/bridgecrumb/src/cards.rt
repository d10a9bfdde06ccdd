// The calls on cards alone: the card reader, the card writer, the converter, the stepped card, and two cards
// alike.
ghost use Rattle.std.specs.Prelude.{◌≡◌, length};
ghost use Rattle.flat.specs.Cards.{code, card_of};
ghost use Rattle.flat.specs.Faults.{unless_refused, card_report, card_columns, card_wears, card_write_report, card_write_buffer, alike_report};
ghost use Rattle.editions.specs.Converting.{up_report, up_buffer, down_report, down_buffer};
ghost use Rattle.stepped_codes.specs.Faults.{stepped_report, stepped_buffer};
ghost use Rattle.export_bounds.specs.Coded.{coded, coded_fault, named};

use export_codes::{
    converted_code, edition, fault_code, likeness_code, stepped_code, written_code,
};

// The card reader: k and m, the columns, then zeros, and the wears, then zeros. A refused call writes nothing.
#[tactic(auto, using(export_bounds::proofs::Values::card_fits))]
#[unsafe(no_mangle)]
pub extern "C" fn bridgecrumb_card_read(
    second: bool,
    card: &[u8],
    counts: &mut [usize; 2],
    columns: &mut [u16; 16],
    wears: &mut [u8; 32],
) -> u64
    ensures value { result ≡ coded_fault (card_report (card_of (named second) card.now)) }
    ensures counts_after { counts.new ≡ unless_refused (card_report (card_of (named second) card.now)) (card_report (card_of (named second) card.now)).values counts.old }
    ensures columns_after { columns.new ≡ unless_refused (card_report (card_of (named second) card.now)) (card_columns (card_of (named second) card.now)) columns.old }
    ensures wears_after { wears.new ≡ unless_refused (card_report (card_of (named second) card.now)) (card_wears (card_of (named second) card.now)) wears.old }
{
    match card::read(edition(second), card) {
        Ok(read) => {
            let found = read.columns;
            let worn = read.wears;
            *counts = [read.k, read.m];
            *columns = found;
            *wears = worn;
            0
        }
        Err(fault) => fault_code(fault),
    }
}

// The card writer: the card of k, m, the columns and the wears into a buffer of exactly its length. A refused
// call writes nothing.
#[unsafe(no_mangle)]
pub extern "C" fn bridgecrumb_card_write(
    second: bool,
    k: usize,
    m: usize,
    columns: &[u16],
    wears: &[u8],
    out: &mut [u8],
) -> u64
    ensures value { result ≡ coded (card_write_report (named second) (code k m columns.now) wears.now (length out.old)) }
    ensures out_after { out.new ≡ card_write_buffer (named second) (code k m columns.now) wears.now out.old }
{
    written_code(card_writer::write(edition(second), k, m, columns, wears, out))
}

// The converter, up from edition 1: the card in edition 2, with wear 1 for each disk, into a buffer of exactly its
// length. A refused call writes nothing.
#[tactic(auto, using(export_bounds::proofs::EditionValues::up_fits))]
#[unsafe(no_mangle)]
pub extern "C" fn bridgecrumb_card_up(card: &[u8], out: &mut [u8]) -> u64
    ensures value { result ≡ coded (up_report card.now (length out.old)) }
    ensures out_after { out.new ≡ up_buffer card.now out.old }
{
    converted_code(converter::up(card, out))
}

// The converter, down from edition 2 where each wear is 1: the card in edition 1 into a buffer of exactly its
// length. A refused call writes nothing.
#[tactic(auto, using(export_bounds::proofs::EditionValues::down_fits))]
#[unsafe(no_mangle)]
pub extern "C" fn bridgecrumb_card_down(card: &[u8], out: &mut [u8]) -> u64
    ensures value { result ≡ coded (down_report card.now (length out.old)) }
    ensures out_after { out.new ≡ down_buffer card.now out.old }
{
    converted_code(converter::down(card, out))
}

// The Stepped Combination card of d, m and k into a buffer of exactly its length. A refused call writes
// nothing.
#[unsafe(no_mangle)]
pub extern "C" fn bridgecrumb_card_stepped(d: usize, m: usize, k: usize, out: &mut [u8]) -> u64
    ensures value { result ≡ coded (stepped_report d m k (length out.old)) }
    ensures out_after { out.new ≡ stepped_buffer d m k out.old }
{
    stepped_code(stepped_card::write(d, m, k, out))
}

// Whether two cards are alike: the first is in the second edition where a says so, and the other where b does. The
// first card's refusals come before the other's.
#[tactic(auto, using(export_bounds::proofs::Values::alike_fits))]
#[unsafe(no_mangle)]
pub extern "C" fn bridgecrumb_alike(a: bool, first: &[u8], b: bool, other: &[u8]) -> u64
    ensures { result ≡ coded (alike_report (card_of (named a) first.now) (card_of (named b) other.now)) }
{
    likeness_code(likeness::alike(edition(a), first, edition(b), other))
}
