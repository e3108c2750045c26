// Reading an extension: `TransportParameters::read` of quinn's transport_parameters.rs. The record
// is built once, of what the index kept.
#![tactic(auto)]

ghost use Rattle.std.specs.Prelude.{◌≡◌, ◌+◌, true, false, length, option_copied, MatchOption};
ghost use Rattle.std.proofs.Math.Option.{some};
ghost use Rattle.refusal.specs.Answer.{outcome_of};
ghost use Rattle.catalogue.specs.Catalogue.{cid, token, address, fits};
ghost use Rattle.connection_id.specs.ConnectionId.{cid_of};
ghost use Rattle.record.specs.Values.{token_of, cid_in, token_in, address_in, family_in, of_address};
ghost use Rattle.index.specs.Answer.{found_of, option_of};
ghost use Rattle.reader.specs.Reading.{read};
ghost use Rattle.reader.specs.Kept.{record_kept, FitsIfAny};
ghost use Rattle.reader.specs.ReadingLaws.{ReadingLaws};

use catalogue::{
    DISABLE_ACTIVE_MIGRATION, GREASE_QUIC_BIT, INITIAL_SRC_CID, MAX_DATAGRAM_FRAME_SIZE,
    MIN_ACK_DELAY, ORIGINAL_DST_CID, PREFERRED_ADDRESS, RETRY_SRC_CID, STATELESS_RESET_TOKEN,
};
use connection_id::ConnectionId;
use index::Kept;
use record::{
    Optional, PreferredAddress, ReservedTransportParameter, ResetToken, SocketAddr,
    TransportParameters, WriteOrder,
};
use refusal::Refusal;
use rules::Side;
use words::all_zero;

// The bytes as an array.
fn array<const N: usize>(v: &[u8]) -> [u8; N]
    requires { length v.now ≡ N }
    ensures { result ≡ v.now }
{
    v.try_into().unwrap()
}

fn cid_of(v: &[u8]) -> ConnectionId
    requires { fits cid v.now ≡ true }
    ensures { result ≡ cid_of v.now }
{
    ConnectionId::new(v).unwrap()
}

fn token_of(v: &[u8]) -> ResetToken
    requires { fits token v.now ≡ true }
    ensures { result ≡ token_of v.now }
{
    ResetToken { bytes: array(v) }
}

// As the record holds what may be missing.
fn optional<T: Default>(v: Option<T>) -> Optional<T>
    ensures { MatchOption v ((result.present ≡ false) × T.is_default result.value)
        (λ x. (result.present ≡ true) × (result.value ≡ x)) }
{
    match v {
        Some(value) => Optional {
            present: true,
            value,
        },
        None => Optional::default(),
    }
}

// Two and no generic one: each is one line, and states a definition of its own.
fn cid_in(v: Option<&[u8]>) -> Optional<ConnectionId>
    requires { FitsIfAny cid (option_of (option_copied v)) }
    ensures { result ≡ cid_in (option_of (option_copied v.entry)) }
{
    optional(v.map(cid_of))
}

fn token_in(v: Option<&[u8]>) -> Optional<ResetToken>
    requires { FitsIfAny token (option_of (option_copied v)) }
    ensures { result ≡ token_in (option_of (option_copied v.entry)) }
{
    optional(v.map(token_of))
}

// A family of an address: `N` bytes and a port. All zero it is not offered.
fn family_in<const N: usize>(v: &[u8]) -> SocketAddr<N>
    requires { length v.now ≡ N + 2 }
    ensures { of_address result ≡ family_in N v.now }
{
    SocketAddr {
        present: !all_zero(v),
        ip: array(&v[..N]),
        port: u16::from_be_bytes(array(&v[N..])),
    }
}

#[tactic(auto, using(crate::proofs::Built::address_facts))]
fn address_of(v: &[u8]) -> PreferredAddress
    requires { fits address v.now ≡ true }
    ensures { result ≡ address_in (some v.now) }
{
    let end = 25 + usize::from(v[24]);
    PreferredAddress {
        present: true,
        address_v4: family_in(&v[0..6]),
        address_v6: family_in(&v[6..24]),
        connection_id: ConnectionId::new(&v[25..end]).unwrap(),
        stateless_reset_token: ResetToken {
            bytes: array(&v[end..]),
        },
    }
}

fn address_in(v: Option<&[u8]>) -> PreferredAddress
    requires { FitsIfAny address (option_of (option_copied v)) }
    ensures { result ≡ address_in (option_of (option_copied v.entry)) }
{
    v.map(address_of).unwrap_or_default()
}

// The record of what was kept.
fn record_of(kept: &Kept) -> TransportParameters
    ensures { result ≡ record_kept kept.now.src.now (found_of kept.now.entries) }
{
    let entries = kept.entries();
    TransportParameters {
        numbers: entries.numbers(),
        disable_active_migration: entries.is_met(DISABLE_ACTIVE_MIGRATION),
        max_datagram_frame_size: entries.number(MAX_DATAGRAM_FRAME_SIZE),
        initial_src_cid: cid_in(kept.value(INITIAL_SRC_CID)),
        grease_quic_bit: entries.is_met(GREASE_QUIC_BIT),
        min_ack_delay: entries.number(MIN_ACK_DELAY),
        original_dst_cid: cid_in(kept.value(ORIGINAL_DST_CID)),
        retry_src_cid: cid_in(kept.value(RETRY_SRC_CID)),
        stateless_reset_token: token_in(kept.value(STATELESS_RESET_TOKEN)),
        preferred_address: address_in(kept.value(PREFERRED_ADDRESS)),
        version_information: kept.versions(),
        grease_transport_parameter: ReservedTransportParameter::default(),
        write_order: WriteOrder::default(),
    }
}

/// Reads an extension for a side.
#[tactic(auto, using(crate::proofs::Indexed::read_kept))]
pub fn read(side: Side, src: &[u8]) -> Result<TransportParameters, Refusal>
    ensures { outcome_of result ≡ read side src.now }
{
    let kept = index::index(side, src)?;
    Ok(record_of(&kept))
}

/// Whole parameters are received one after another; what a side accepts is legal for it, and the
/// record does not depend on the side; a second copy is 12, and nothing accepted has one; the
/// record is that of what the index keeps.
#[tactic(auto, using(crate::proofs::ReadingLaws::reading_laws))]
pub fn reading_laws()
    ensures { ReadingLaws }
{}
