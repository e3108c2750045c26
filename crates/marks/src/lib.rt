// Marks of places already met: bit k of the mask is place k's. The masks are plain numbers: the
// catalogue's constants are masks too. Reading asks for each parameter, so the tests return early
// and shift by a `u32`, and are no one expression.
#![tactic(auto)]

ghost use Rattle.std.specs.Prelude.{◌≡◌, ltb};
ghost use Rattle.refusal.specs.Outcome.{pick};
ghost use Rattle.marks.specs.Mark.{marked, mark};

/// Whether a place is marked; none from 32 on is.
#[tactic(auto, using(crate::proofs::Laws::marked_beyond), unfolding(crate::specs::Mark::marked))]
pub fn is_marked(marks: u32, place: usize) -> bool
    ensures { result ≡ marked marks place }
{
    if 32 <= place {
        return false;
    }
    let k = place as u32;
    (marks >> k) & 1 == 1
}

/// The marks with that of a place set; there is none for places from 32 on.
#[tactic(auto, unfolding(crate::specs::Mark::mark))]
pub fn with_mark(marks: u32, place: usize) -> u32
    ensures { result ≡ pick (ltb place 32) (mark marks place) marks }
{
    if 32 <= place {
        return marks;
    }
    let k = place as u32;
    marks | (1u32 << k)
}
