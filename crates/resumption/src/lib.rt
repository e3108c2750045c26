// Resumption from remembered parameters, and how many connection IDs to issue:
// `validate_resumption_from` and `issue_cids_limit` of quinn's transport_parameters.rs.
#![tactic(auto)]

ghost use Rattle.std.specs.Prelude.{◌≡◌, leb};
ghost use Rattle.resumption.specs.Resumption.{limits_kept, size_rank, nothing_reduced, resume, issue_limit};
ghost use Rattle.resumption.specs.AbsentAsZero.{AbsentAsZero};
ghost use Rattle.resumption.specs.ResumptionLaws.{ResumptionLaws};
ghost use Rattle.refusal.specs.Answer.{outcome_of};

use catalogue::{
    ACTIVE_CONNECTION_ID_LIMIT, INITIAL_MAX_DATA, INITIAL_MAX_STREAM_DATA_BIDI_LOCAL,
    INITIAL_MAX_STREAM_DATA_BIDI_REMOTE, INITIAL_MAX_STREAM_DATA_UNI, INITIAL_MAX_STREAMS_BIDI,
    INITIAL_MAX_STREAMS_UNI, NUMBERS,
};
use record::TransportParameters;
use refusal::Refusal;

// How many connection IDs are issued at most.
const LOC_CID_COUNT: u64 = 8;

// The places of the limits that are remembered.
const REMEMBERED: [usize; 7] = [
    ACTIVE_CONNECTION_ID_LIMIT,
    INITIAL_MAX_DATA,
    INITIAL_MAX_STREAM_DATA_BIDI_LOCAL,
    INITIAL_MAX_STREAM_DATA_BIDI_REMOTE,
    INITIAL_MAX_STREAM_DATA_UNI,
    INITIAL_MAX_STREAMS_BIDI,
    INITIAL_MAX_STREAMS_UNI,
];

// Whether no remembered limit is reduced.
fn limits_kept(new: &[u64; NUMBERS], cached: &[u64; NUMBERS]) -> bool
    ensures { result ≡ limits_kept new.now cached.now }
{
    REMEMBERED.iter().all(|place| cached[*place] <= new[*place])
}

// Whether the datagram size is not reduced: an absent one counts as 0.
#[tactic(auto, unfolding(crate::specs::Resumption::size_rank))]
fn size_kept(new: Option<u64>, cached: Option<u64>) -> bool
    ensures { result ≡ leb (size_rank cached) (size_rank new) }
{
    cached.unwrap_or(0) <= new.unwrap_or(0)
}

// Whether nothing that is remembered is reduced or withdrawn.
#[tactic(auto, unfolding(refusal::specs::Outcome::all, crate::specs::Resumption::nothing_reduced))]
fn nothing_reduced(new: &TransportParameters, cached: &TransportParameters) -> bool
    ensures { result ≡ nothing_reduced new.now cached.now }
{
    limits_kept(&new.numbers, &cached.numbers)
        & size_kept(new.max_datagram_frame_size, cached.max_datagram_frame_size)
        & (!cached.grease_quic_bit | new.grease_quic_bit)
}

/// Whether 0-RTT may go on with new parameters, given those remembered: `IllFormed` for either
/// record, then `LimitReduced`.
#[tactic(auto, unfolding(crate::specs::Resumption::resume))]
pub fn validate_resumption_from(
    new: &TransportParameters,
    cached: &TransportParameters,
) -> Result<(), Refusal>
    ensures { outcome_of result ≡ resume new.now cached.now }
{
    if !(new.is_well_formed() & cached.is_well_formed()) {
        return Err(Refusal::IllFormed);
    }
    if !nothing_reduced(new, cached) {
        return Err(Refusal::LimitReduced);
    }
    Ok(())
}

/// How many connection IDs to issue to the peer of this record.
#[tactic(auto, unfolding(crate::specs::Resumption::issue_limit))]
pub fn issue_cids_limit(r: &TransportParameters) -> u64
    ensures { result ≡ issue_limit r.now }
{
    r.numbers[ACTIVE_CONNECTION_ID_LIMIT].min(LOC_CID_COUNT)
}

/// On either side an absent max_datagram_frame_size and one of 0 give the same answer; from a
/// positive one an absent one is refused; and record equality tells absent from 0.
#[tactic(auto, using(crate::proofs::Theorems::absent_as_zero))]
pub fn absent_as_zero()
    ensures { AbsentAsZero }
{}

/// A well-formed record is resumed to from itself; and what is resumed to from a record that is
/// resumed to from a third, is from the third.
#[tactic(auto, using(crate::proofs::ResumptionLaws::resumption_laws))]
pub fn resumption_laws()
    ensures { ResumptionLaws }
{}
