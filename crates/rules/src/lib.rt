// The value rules (RFC 9000 sections 4.6 and 18.2, RFC 9368 section 4,
// draft-ietf-quic-ack-frequency-08 section 3), and checking a record for the side that reads it.
#![tactic(auto)]

ghost use Rattle.std.specs.Prelude.{◌≡◌, ◌*◌, leb};
ghost use Rattle.refusal.specs.Answer.{outcome_of};
ghost use Rattle.record.specs.Record.{family_rules};
ghost use Rattle.rules.specs.Rules.{is_server, number_rules, presence_rules, version_rules, value_rules, check_record};

use catalogue::{
    ACK_DELAY_EXPONENT, ACTIVE_CONNECTION_ID_LIMIT, INITIAL_MAX_STREAMS_BIDI,
    INITIAL_MAX_STREAMS_UNI, MAX_ACK_DELAY, MAX_UDP_PAYLOAD_SIZE, NUMBERS,
};
use record::{PreferredAddress, TransportParameters};
use refusal::Refusal;
use version_information::VersionInformation;

/// The side that reads an extension, or for which it is written: the other side is the one that
/// speaks.
#[derive(Clone, Copy, Debug, PartialEq, Eq)]
pub enum Side {
    /// the client reads, the server speaks
    Client,
    /// the server reads, the client speaks
    Server,
}

const MAX_STREAM_COUNT: u64 = 1 << 60;

/// The unit of min_ack_delay (draft-ietf-quic-ack-frequency-08 section 3).
#[derive(Clone, Copy, Debug, PartialEq, Eq)]
pub struct Microseconds(pub u64);

/// The unit of max_ack_delay (RFC 9000 section 18.2).
#[derive(Clone, Copy, Debug, PartialEq, Eq)]
pub struct Milliseconds(pub u64);

impl Milliseconds {
    /// Whether a time in microseconds is no longer than this one, which is longer than any if it
    /// does not fit. No `From` and `<=`: a conversion that saturates is none.
    pub fn covers(self, shorter: Microseconds) -> bool
        ensures { result ≡ leb shorter.0 (1000 * self.0) }
    {
        shorter.0 <= self.0.saturating_mul(1000)
    }
}

/// What the value rules ask of a record, but for its numbers: which of these are present. No Option
/// for address and length: it has no room for a length beside an absent address, of which the
/// definition speaks.
#[derive(Clone, Copy, Debug, PartialEq, Eq)]
pub struct Presence {
    /// original_dst_cid is
    pub original: bool,
    /// preferred_address is
    pub address: bool,
    /// retry_src_cid is
    pub retry: bool,
    /// stateless_reset_token is
    pub token: bool,
    /// the length of the preferred address's ID, in bytes
    pub id_len: u8,
}

/// The value rules of the numbers, with the minimum delay (0 if there is none).
#[tactic(auto, unfolding(refusal::specs::Outcome::all, crate::specs::Rules::number_rules))]
pub fn numbers_allowed(n: &[u64; NUMBERS], min_ack_delay: Microseconds) -> bool
    ensures { result ≡ number_rules n.now min_ack_delay.0 }
{
    (n[ACK_DELAY_EXPONENT] <= 20)
        & (n[MAX_ACK_DELAY] < 16384)
        & (2 <= n[ACTIVE_CONNECTION_ID_LIMIT])
        & (1200 <= n[MAX_UDP_PAYLOAD_SIZE])
        & (n[INITIAL_MAX_STREAMS_BIDI] <= MAX_STREAM_COUNT)
        & (n[INITIAL_MAX_STREAMS_UNI] <= MAX_STREAM_COUNT)
        & Milliseconds(n[MAX_ACK_DELAY]).covers(min_ack_delay)
}

/// The value rules of what is present.
#[tactic(auto, unfolding(refusal::specs::Outcome::all, crate::specs::Rules::presence_rules))]
pub fn presence_allowed(side: Side, p: Presence) -> bool
    ensures { result
        ≡ presence_rules (is_server side) p.original p.address p.retry p.token p.id_len }
{
    let server_only = p.original | p.address | p.retry | p.token;
    !((side == Side::Server) & server_only) & !(p.address & (p.id_len == 0))
}

/// The value rules of version information.
#[tactic(auto, unfolding(refusal::specs::Outcome::all, crate::specs::Rules::version_rules))]
pub fn versions_allowed(side: Side, v: &VersionInformation) -> bool
    ensures { result ≡ version_rules (is_server side) v.now }
{
    if !v.present {
        return true;
    }
    (v.chosen != 0) & !v.lists(0) & ((side == Side::Client) | v.lists(v.chosen))
}

// A preferred address has a family, and none present is unspecified.
#[tactic(auto, unfolding(refusal::specs::Outcome::all, record::specs::Record::family_rules))]
fn families_allowed(a: &PreferredAddress) -> bool
    ensures { result ≡ family_rules a.now }
{
    let v4 = a.address_v4;
    let v6 = a.address_v6;
    (!v4.present | !v4.is_unspecified())
        & (!v6.present | !v6.is_unspecified())
        & (!a.present | v4.present | v6.present)
}

// Whether the value rules hold of a record.
#[tactic(auto, unfolding(refusal::specs::Outcome::all, crate::specs::Rules::value_rules))]
fn is_allowed(side: Side, r: &TransportParameters) -> bool
    ensures { result ≡ value_rules side r.now }
{
    let presence = Presence {
        original: r.original_dst_cid.present,
        address: r.preferred_address.present,
        retry: r.retry_src_cid.present,
        token: r.stateless_reset_token.present,
        id_len: r.preferred_address.connection_id.len,
    };
    numbers_allowed(&r.numbers, Microseconds(r.min_ack_delay.unwrap_or(0)))
        & presence_allowed(side, presence)
        & versions_allowed(side, &r.version_information)
}

/// Checks a record for the side that reads it.
#[tactic(auto, unfolding(refusal::specs::Outcome::all, crate::specs::Rules::legal, crate::specs::Rules::check_record))]
pub fn check(side: Side, r: &TransportParameters) -> Result<(), Refusal>
    ensures { outcome_of result ≡ check_record side r.now }
{
    if !r.is_well_formed() {
        return Err(Refusal::IllFormed);
    }
    if !(families_allowed(&r.preferred_address) & is_allowed(side, r)) {
        return Err(Refusal::IllegalValue);
    }
    Ok(())
}
