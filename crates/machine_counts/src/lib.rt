// The counts, each of which stops at the largest number of conversions.
#![tactic(auto)]

ghost use Rattle.std.specs.Prelude.{◌≡◌, ◌-◌};
ghost use Rattle.machine.specs.Counts as counts;

use machine::Ledger;

// Whether an event that begins a conversion would begin one too many.
pub fn is_barred(begins: bool, l: Ledger) -> bool
    ensures { result ≡ counts.is_barred begins l }
{
    begins & (paper::MOST_BEGUN <= l.begun)
}

// One more has begun, and stands.
pub fn count_begun(yes: bool, l: Ledger) -> Ledger
    ensures { result ≡ counts.begun_if yes l }
{
    if yes {
        Ledger {
            begun: l.begun.saturating_add(1),
            standing: l.standing.saturating_add(1),
            ..l
        }
    } else {
        l
    }
}

// One that stood is delivered.
// This and the next differ in the count that they raise: one function of both would have to be told which.
pub fn count_delivered(yes: bool, l: Ledger) -> Ledger
    ensures { result ≡ counts.delivered_if yes l }
{
    if yes {
        Ledger {
            delivered: l.delivered.saturating_add(1),
            ..with_one_less(l)
        }
    } else {
        l
    }
}

// One that stood is overwritten.
pub fn count_overwritten(yes: bool, l: Ledger) -> Ledger
    ensures { result ≡ counts.overwritten_if yes l }
{
    if yes {
        Ledger {
            overwritten: l.overwritten.saturating_add(1),
            ..with_one_less(l)
        }
    } else {
        l
    }
}

// One fewer stands, and none of none.
fn with_one_less(l: Ledger) -> Ledger
    ensures { result ≡ counts.with_standing (l.standing - 1) l }
{
    Ledger {
        standing: l.standing.saturating_sub(1),
        ..l
    }
}

// All that stood are abandoned.
pub fn count_abandoned(l: Ledger) -> Ledger
    ensures { result ≡ counts.abandoned_all l }
{
    Ledger {
        abandoned: l.abandoned.saturating_add(l.standing),
        standing: 0,
        ..l
    }
}
