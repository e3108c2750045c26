// Tidying an extension: reading it for a side, and writing what was read in its one shortest form.
// The parameters are written straight from where they were found; no record stands between.
#![tactic(auto)]

ghost use Rattle.std.specs.Prelude.{◌≡◌, [], ◌≤◌, ◌<◌, length};
ghost use Rattle.refusal.specs.Outcome.{store};
ghost use Rattle.refusal.specs.Answer.{outcome_of};
ghost use Rattle.catalogue.specs.Catalogue.{places, id_at};
ghost use Rattle.index.specs.Answer.{found_of};
ghost use Rattle.wire.specs.Wire.{put, due_number_at};
ghost use Rattle.wire.specs.Stored.{joined, each};
ghost use Rattle.writer.specs.Laid.{laid};
ghost use Rattle.tidy.specs.Tidying.{tidy};
ghost use Rattle.tidy.specs.Pieces.{piece_for, others, pieces};
ghost use Rattle.tidy.specs.TidyingLaws.{TidyingLaws};

use catalogue::{
    DEFAULTS, IDS, MAX_EXTENSION, NUMBER_PLACES, NUMBERS, STATELESS_RESET_TOKEN,
    VERSION_INFORMATION,
};
use index::{Entries, Kept};
use marks::is_marked;
use refusal::Refusal;
use rules::Side;
use wire::{put_bytes, put_number, put_value};

// What was found at a place, behind the identifier. Gives its byte count, 0 for nothing, as the
// writers of crate wire do.
fn put_at(place: usize, kept: &Kept, out: &mut [u8]) -> usize
    requires { place < places }
    ensures { (result, out.new)
        ≡ put (piece_for (id_at place) kept.now.src.now (found_of kept.now.entries) place) out.old }
{
    let entries = kept.entries();
    if !entries.is_met(place) {
        return 0;
    }
    if is_marked(NUMBER_PLACES, place) {
        return put_number(true, IDS[place], entries.kept[place], out);
    }
    match kept.value(place) {
        Some(v) => put_value(true, IDS[place], v, out),
        None => 0,
    }
}

// The numbers of places 0 to 10, but for those that are the default. By place, since three tables
// go by it.
fn put_numbers(entries: &Entries, out: &mut [u8]) -> usize
    ensures { (result, out.new, [])
        ≡ laid (each (due_number_at entries.now.kept) 11) 1 0 out.old [] }
{
    let mut at: usize = 0;
    for place in 0..NUMBERS {
        let x = entries.kept[place];
        at += put_number(x != DEFAULTS[place], IDS[place], x, &mut out[at..]);
    }
    at
}

// What was found at the places from 12 on, behind the first `start` bytes. The last stands alone: a
// loop over ten places is not unrolled.
fn put_others(kept: &Kept, start: usize, out: &mut [u8]) -> usize
    requires { start ≤ length out.old }
    ensures { (result, out.new, [])
        ≡ laid (others kept.now.src.now (found_of kept.now.entries)) 12 start out.old [] }
{
    let mut at = start;
    for place in STATELESS_RESET_TOKEN..VERSION_INFORMATION {
        at += put_at(place, kept, &mut out[at..]);
    }
    at + put_at(VERSION_INFORMATION, kept, &mut out[at..])
}

// All of it.
fn put_all(kept: &Kept, out: &mut [u8]) -> usize
    ensures { (result, out.new, [])
        ≡ laid (pieces kept.now.src.now (found_of kept.now.entries)) 1 0 out.old [] }
{
    let start = put_numbers(kept.entries(), out);
    put_others(kept, start, out)
}

// It goes straight to a buffer that has room for any, else by way of an array: the library has no
// heap.
#[tactic(auto, using(crate::proofs::Storing::laid_front, crate::proofs::Storing::kept_front, crate::proofs::Storing::put_front, crate::proofs::Storing::stored_front, crate::proofs::Storing::stored_none))]
fn put_tidied(kept: &Kept, out: &mut [u8]) -> Result<usize, Refusal>
    requires { length (joined (pieces kept.now.src.now (found_of kept.now.entries))) ≤ 385 }
    ensures { (outcome_of result, out.new)
        ≡ store (joined (pieces kept.now.src.now (found_of kept.now.entries))) out.old }
{
    if MAX_EXTENSION <= out.len() {
        return Ok(put_all(kept, out));
    }
    let mut parts = [0u8; MAX_EXTENSION];
    let n = put_all(kept, &mut parts);
    if out.len() < n {
        return Err(Refusal::BufferTooShort);
    }
    put_bytes(&parts[..n], out);
    Ok(n)
}

/// Tidies `src` to the front of `out`.
#[tactic(auto, using(crate::proofs::Pieces::stored, crate::proofs::Pieces::few_kept))]
pub fn tidy(side: Side, src: &[u8], out: &mut [u8]) -> Result<usize, Refusal>
    ensures { (outcome_of result, out.new) ≡ tidy side src.now out.old }
{
    let kept = index::index(side, src)?;
    put_tidied(&kept, out)
}

/// What is stored of an accepted extension are the parameters of its record, in catalogue order,
/// and these are the pieces that are found in the extension.
#[tactic(auto, using(crate::proofs::TidyingLaws::tidying_laws))]
pub fn tidying_laws()
    ensures { TidyingLaws }
{}
