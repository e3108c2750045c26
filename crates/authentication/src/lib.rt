// Who is at the other end (RFC 9000 section 7.3): the connection IDs of a peer's record are held to
// those that packets carried, as in `handle_peer_params` of quinn's connection/mod.rs.
#![tactic(auto)]

ghost use Rattle.std.specs.Prelude.{◌≡◌};
ghost use Rattle.refusal.specs.Answer.{outcome_of};
ghost use Rattle.authentication.specs.Authentication.{formed_seen, has_needed, retry_as_seen, as_seen, authenticate_cids};
ghost use Rattle.authentication.specs.OtherEnd.{OtherEnd};

use connection_id::ConnectionId;
use record::{Optional, TransportParameters};
use refusal::Refusal;
use rules::Side;

/// The connection IDs that packets carried, each under the name of the parameter that is held to
/// it.
#[derive(Clone, Copy, Debug, Default, PartialEq, Eq)]
pub struct SeenConnectionIds {
    /// the Source Connection ID of the peer's first Initial
    pub initial_src_cid: ConnectionId,
    /// the Destination Connection ID of the client's first Initial
    pub original_dst_cid: ConnectionId,
    /// the Source Connection ID of the Retry, if there was one
    pub retry_src_cid: Optional<ConnectionId>,
}

impl SeenConnectionIds {
    /// Every one of them, looked at or not.
    #[tactic(auto, unfolding(crate::specs::Authentication::formed_seen, refusal::specs::Outcome::all))]
    pub fn is_well_formed(&self) -> bool
        ensures { result ≡ formed_seen self.now }
    {
        self.initial_src_cid.is_well_formed()
            & self.original_dst_cid.is_well_formed()
            & self.retry_src_cid.is_well_formed()
    }
}

// Whether the record has the IDs that a side needs.
#[tactic(auto, unfolding(crate::specs::Authentication::has_needed, refusal::specs::Outcome::all))]
fn has_needed(side: Side, r: &TransportParameters, seen: &SeenConnectionIds) -> bool
    ensures { result ≡ has_needed side r.now seen.now }
{
    match side {
        Side::Server => r.initial_src_cid.present,
        Side::Client => {
            r.initial_src_cid.present
                & r.original_dst_cid.present
                & (!seen.retry_src_cid.present | r.retry_src_cid.present)
        }
    }
}

// Whether retry_src_cid is the ID of the Retry, or there was no Retry and it is absent.
#[tactic(auto, unfolding(crate::specs::Authentication::retry_as_seen))]
fn retry_as_seen(retry_src_cid: &Optional<ConnectionId>, seen: &Optional<ConnectionId>) -> bool
    ensures { result ≡ retry_as_seen retry_src_cid.now seen.now }
{
    if seen.present {
        retry_src_cid.value.equals(seen.value)
    } else {
        !retry_src_cid.present
    }
}

// Whether the IDs that a side looks at are those seen.
#[tactic(auto, unfolding(connection_id::specs::ConnectionId::same_cid, crate::specs::Authentication::as_seen, refusal::specs::Outcome::all))]
fn as_seen(side: Side, r: &TransportParameters, seen: &SeenConnectionIds) -> bool
    ensures { result ≡ as_seen side r.now seen.now }
{
    let initial = r.initial_src_cid.value.equals(seen.initial_src_cid);
    match side {
        Side::Server => initial,
        Side::Client => {
            initial
                & r.original_dst_cid.value.equals(seen.original_dst_cid)
                & retry_as_seen(&r.retry_src_cid, &seen.retry_src_cid)
        }
    }
}

/// Whether the peer whose record this is, is the one that the packets came from, and there was a
/// Retry exactly if it says so: `IllFormed`, then `CidAbsent`, then `CidMismatch`. The side is
/// ours.
#[tactic(auto, unfolding(crate::specs::Authentication::authenticate_cids))]
pub fn authenticate_cids(
    side: Side,
    r: &TransportParameters,
    seen: &SeenConnectionIds,
) -> Result<(), Refusal>
    ensures { outcome_of result ≡ authenticate_cids side r.now seen.now }
{
    if !(r.is_well_formed() & seen.is_well_formed()) {
        return Err(Refusal::IllFormed);
    }
    if !has_needed(side, r, seen) {
        return Err(Refusal::CidAbsent);
    }
    if !as_seen(side, r, seen) {
        return Err(Refusal::CidMismatch);
    }
    Ok(())
}

/// Each side accepts exactly what RFC 9000 section 7.3 lists; when 7, 13 and 14 are given; what a
/// record is accepted with is determined by it; what each side looks at; and that this check and
/// the value rules are independent.
#[tactic(auto, using(crate::proofs::Theorem::other_end))]
pub fn other_end()
    ensures { OtherEnd }
{}
