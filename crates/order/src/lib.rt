// Orders of the places: what is wrong with one, and whether it is a permutation of them.
#![tactic(auto)]

ghost use Rattle.std.specs.Prelude.{◌≡◌};
ghost use Rattle.order.specs.Order.{permutation, order_fault};
ghost use Rattle.order.specs.Answer.{fault_position};
ghost use Rattle.order.specs.FirstFault.{FirstFault};
ghost use Rattle.order.specs.OrderLaws.{OrderLaws};

use catalogue::PLACES;
use marks::{is_marked, with_mark};

/// What is wrong with an order: the position, from 0, of the first entry that is no place or
/// repeats an earlier one; the length if entries are only missing; or nothing: it is a permutation
/// of the places. One pass from the front, in which the places met are marked. It ends within the
/// first 23 entries: no more than 22 have marks of their own.
#[tactic(auto, using(crate::proofs::Faults::too_short, crate::proofs::Faults::long_enough, marks::proofs::Laws::unmarked, crate::proofs::Faults::at_outside, crate::proofs::Faults::at_repeat, crate::proofs::Faults::next_met))]
pub fn order_fault(order: &[u8]) -> Option<usize>
    ensures { fault_position result ≡ order_fault order.now }
{
    let mut met: u32 = 0;
    for (i, &entry) in order.iter().enumerate() {
        let place = usize::from(entry);
        if PLACES <= place || is_marked(met, place) {
            return Some(i);
        }
        met = with_mark(met, place);
    }
    if order.len() < PLACES {
        return Some(order.len());
    }
    None
}

/// Whether an order is a permutation of the places: nothing is wrong with it.
pub fn is_permutation(order: &[u8]) -> bool
    ensures { result ≡ permutation order.now }
{
    order_fault(order).is_none()
}

/// What a position of `order_fault` says: the entry there is out of range or repeats an earlier
/// one, none before it does, and where there is none the order is short; and there is no position
/// exactly for a permutation.
#[tactic(auto, using(crate::proofs::Faults::first_fault))]
pub fn first_fault()
    ensures { FirstFault }
{}

/// A permutation has every place; catalogue order is one.
#[tactic(auto, using(crate::proofs::OrderLaws::order_laws))]
pub fn order_laws()
    ensures { OrderLaws }
{}
