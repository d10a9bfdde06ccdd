// Document 02's calls on trays of stripes, exported.
ghost use Rattle.std.specs.Prelude.{◌≡◌};
ghost use Rattle.flat.specs.Cards.{card_of};
ghost use Rattle.flat.specs.Faults.{unless_refused};
ghost use Rattle.peeling.specs.Faults.{tray_report, tray_lefts, tray_bytes};
ghost use Rattle.export_bounds.specs.Coded.{coded, named};

use export_codes::{edition, repaired_code};

// Quick repair: the stripes of a tray in turn, each step by step until it sticks, within one budget of steps,
// and what is left of each set into `left`. A refused call writes nothing.
#[tactic(auto, using(export_bounds::proofs::TrayValues::tray_fits))]
#[unsafe(no_mangle)]
pub extern "C" fn bridgecrumb_quick_repair(
    second: bool,
    card: &[u8],
    l: usize,
    sets: &[u32],
    budget: usize,
    tray: &mut [u8],
    left: &mut [u32; 8],
) -> u64
    ensures value { result ≡ coded (tray_report (card_of (named second) card.now) l budget sets.now tray.old) }
    ensures tray_after { tray.new ≡ tray_bytes (card_of (named second) card.now) l budget sets.now tray.old }
    ensures left_after { left.new ≡ unless_refused (tray_report (card_of (named second) card.now) l budget sets.now tray.old) (tray_lefts (card_of (named second) card.now) l budget sets.now tray.old) left.old }
{
    match tray::repair(edition(second), card, l, sets, budget, tray) {
        Ok(repaired) => {
            let sets_left = repaired.left;
            *left = sets_left;
            repaired_code(Ok(repaired))
        }
        Err(error) => repaired_code(Err(error)),
    }
}
