// What the parameters of an extension waste: how many bytes each, and why; and those that waste
// most.
#![tactic(auto)]

ghost use Rattle.std.specs.Prelude.{◌≡◌, ◌≤◌, ◌+◌, length, IfOk};
ghost use Rattle.std.specs.List.Sorted.{IsPermutation, IsSortedBy, IsStableBy};
ghost use Rattle.varint.specs.Number.{read_number};
ghost use Rattle.record.specs.Values.{value};
ghost use Rattle.front.specs.Parameter.{saved};
ghost use Rattle.front.specs.Whole.{parameters};
ghost use Rattle.tally.specs.Tally.{count_of, dropped};
ghost use Rattle.wasting.specs.Wasting.{waste_of, wasters_of, wastes_more};

use catalogue::{NUMBER_PLACES, PLACES};
use front::{Parameters, parameter_at};
use marks::is_marked;
use std::alloc::{AllocError, Global};
use std::fmt;
use std::fmt::Display;
use tally::{Sums, restates};
use varint::{Decoded, VarInt};

/// Why a parameter wastes bytes.
#[derive(Clone, Copy, Debug, PartialEq, Eq)]
pub enum Reason {
    /// its identifier is unknown, so that it is skipped
    Unknown,
    /// it restates a default
    Default,
    /// longer forms of numbers than they need
    Form,
}

/// How many bytes a parameter wastes, and why. Of one that wastes none the reason says nothing.
#[derive(Clone, Copy)]
pub struct Wasted {
    pub bytes: usize,
    pub reason: Reason,
}

/// A parameter that wastes bytes: its identifier, its length in bytes with its identifier and its
/// length, and what it wastes.
#[derive(Clone, Copy)]
pub struct Waster {
    pub id: u64,
    pub len: usize,
    pub wasted: Wasted,
}

impl Display for Reason {
    ghost use Rattle.std.specs.Prelude.{Some};
    ghost use Rattle.wasting.specs.Wasting.{reason_text};

    ghost output = { λ reason. Some (reason_text reason) };

    fn fmt<W: fmt::Write>(&self, f: &mut fmt::Formatter<W>) -> fmt::Result {
        match self {
            Reason::Unknown => write!(f, "unknown, skipped"),
            Reason::Default => write!(f, "restates the default"),
            Reason::Form => write!(f, "longer forms than needed"),
        }
    }
}

// The number that a value holds; 0 of no bytes if it holds none.
#[tactic(auto, using(varint::proofs::Laws::read_within))]
fn number_in(v: &[u8]) -> Decoded
    ensures value { result.value ≡ value (read_number v.now) }
    ensures saved { result.saved ≡ saved (read_number v.now) }
    ensures within { result.saved ≤ length v.now }
{
    match VarInt::decode(v) {
        Ok(x) => x,
        Err(_) => Decoded {
            value: 0,
            count: 0,
            saved: 0,
        },
    }
}

/// What a parameter, by its own bytes from its identifier on, adds to what tidying drops: to one of
/// the three sums at most. Of bytes that are no parameter all are 0.
#[tactic(auto, using(front::proofs::Position::within, crate::proofs::Wasting::none_adds, crate::proofs::Wasting::unknown_adds, crate::proofs::Wasting::default_adds, crate::proofs::Wasting::number_adds, crate::proofs::Wasting::other_adds))]
pub fn sums_of(w: &[u8]) -> Sums
    ensures sums { result ≡ dropped (count_of w.now) }
    ensures within { result.skipped + result.restated + result.saved ≤ length w.now }
{
    let nothing = Sums {
        skipped: 0,
        restated: 0,
        saved: 0,
    };
    let Ok(p) = parameter_at::<true>(w, 0) else {
        return nothing;
    };
    let place = catalogue::place_of(p.id);
    if place == PLACES {
        return Sums {
            skipped: w.len(),
            ..nothing
        };
    }
    let x = number_in(&w[p.start..p.end]);
    if restates(place, x.value) {
        return Sums {
            restated: w.len(),
            ..nothing
        };
    }
    let saved = if is_marked(NUMBER_PLACES, place) {
        p.saved + x.saved
    } else {
        p.saved
    };
    Sums { saved, ..nothing }
}

/// What a parameter, by its own bytes from its identifier on, wastes.
pub fn waste(w: &[u8]) -> Wasted
    ensures { result ≡ waste_of (count_of w.now) }
{
    let sums = sums_of(w);
    let reason = if 0 < sums.skipped {
        Reason::Unknown
    } else if 0 < sums.restated {
        Reason::Default
    } else {
        Reason::Form
    };
    Wasted {
        bytes: sums.skipped + sums.restated + sums.saved,
        reason,
    }
}

// The parameters that waste something, in the order they stand.
#[tactic(auto, using(front::proofs::Position::within, crate::proofs::Collecting::start, crate::proofs::Collecting::done, crate::proofs::Collecting::cut, crate::proofs::Collecting::found, crate::proofs::Collecting::wastes_none))]
fn collect(alloc: Global, src: &[u8]) -> Result<Vec<Waster>, AllocError>
    ensures { IfOk result (λ found. found.items ≡ wasters_of (parameters src.now)) }
{
    let mut found = Vec::new(alloc);
    for (at, read) in (Parameters::<true> { src, at: 0 }) {
        let Ok(p) = read else {
            return Ok(found);
        };
        let w = &src[at..p.end];
        let wasted = waste(w);
        if 0 < wasted.bytes {
            found.push(Waster {
                id: p.id,
                len: w.len(),
                wasted,
            })?;
        }
    }
    Ok(found)
}

/// The parameters of an extension that waste something, up to the first that cannot be read: those
/// that waste most first; of those that waste as much, that which stands first. An error is that no
/// memory is left.
pub fn wasters(alloc: Global, src: &[u8]) -> Result<Vec<Waster>, AllocError>
    ensures all { IfOk result
        (λ found. IsPermutation (wasters_of (parameters src.now)) found.items) }
    ensures most_first { IfOk result (λ found. IsSortedBy wastes_more found.items) }
    ensures ties { IfOk result
        (λ found. IsStableBy wastes_more (wasters_of (parameters src.now)) found.items) }
{
    let mut found = collect(alloc, src)?;
    found.sort_by(|a, b| b.wasted.bytes.cmp(&a.wasted.bytes))?;
    Ok(found)
}
