// The length of a record on the wire, before its order is drawn. Sizes are added up, field by
// field; nothing is written.
#![tactic(auto)]

ghost use Rattle.std.specs.Prelude.{◌≡◌, ◌<◌, ◌^◌};
ghost use Rattle.refusal.specs.Answer.{outcome_of};
ghost use Rattle.catalogue.specs.Sum.{sum};
ghost use Rattle.writer.specs.Writing.{length_of};
ghost use Rattle.length.specs.Measure.{Measure};
ghost use Rattle.length.specs.Length.{value_length, number_length_at, optional_length, cid_length, reserved_length, address_length, versions_length, others_length};

use catalogue::{
    DEFAULTS, DISABLE_ACTIVE_MIGRATION_ID, GREASE_QUIC_BIT_ID, IDS, INITIAL_SRC_CID_ID,
    MAX_DATAGRAM_FRAME_SIZE_ID, MIN_ACK_DELAY_ID, NUMBERS, ORIGINAL_DST_CID_ID,
    PREFERRED_ADDRESS_ID, RETRY_SRC_CID_ID, STATELESS_RESET_TOKEN_ID, VERSION_INFORMATION_ID,
};
use connection_id::ConnectionId;
use record::{
    Optional, PreferredAddress, ReservedTransportParameter, ResetToken, TransportParameters,
};
use refusal::Refusal;
use varint::size_of;
use version_information::VersionInformation;

// A preferred address without its connection ID.
const ADDRESS: u16 = 41;

// Each gives the length of a parameter: 0 if it is not due, since callers add the lengths up, as
// those of crate wire do. A value is short, by its type, and so is the parameter.
#[tactic(auto, using(wire::proofs::Put::number_size_lem, crate::proofs::Lengths::not_due, crate::proofs::Lengths::is_due))]
fn value_length(due: bool, id: u64, n: u16) -> u32
    ensures { result ≡ value_length due id n }
{
    if !due {
        return 0;
    }
    (size_of(id) + size_of(u64::from(n)) + usize::from(n)) as u32
}

#[tactic(auto, using(wire::proofs::Put::number_size_lem))]
fn number_length(id: u64, o: Option<u64>) -> u32
    ensures { result ≡ optional_length id o }
{
    let n = size_of(o.unwrap_or(0)) as u16;
    value_length(o.is_some(), id, n)
}

fn cid_length(id: u64, o: &Optional<ConnectionId>) -> u32
    ensures { result ≡ cid_length id o.now }
{
    value_length(o.present, id, u16::from(o.value.len))
}

fn reserved_length(x: &ReservedTransportParameter) -> u32
    ensures { result ≡ reserved_length x.now }
{
    value_length(x.present, x.id, u16::from(x.payload_len))
}

#[tactic(auto, unfolding(catalogue::specs::Catalogue::id_at, catalogue::specs::Catalogue::ids))]
fn address_length(a: &PreferredAddress) -> u32
    ensures { result ≡ address_length a.now }
{
    let n = ADDRESS + u16::from(a.connection_id.len);
    value_length(a.present, PREFERRED_ADDRESS_ID, n)
}

#[tactic(auto, unfolding(catalogue::specs::Catalogue::id_at, catalogue::specs::Catalogue::ids))]
fn versions_length(v: &VersionInformation) -> u32
    ensures { result ≡ versions_length v.now }
{
    let n = 4 + 4 * u16::from(v.available_len);
    value_length(v.present, VERSION_INFORMATION_ID, n)
}

// Those of places 0 to 10, which hold numbers: a default is not due. By place, since three tables
// go by it.
#[tactic(auto, using(catalogue::proofs::Sums::sum_more, crate::proofs::Lengths::due_or_none), unfolding(catalogue::specs::Sum::sum, crate::specs::Length::number_length_at, catalogue::specs::Catalogue::id_at, catalogue::specs::Catalogue::ids, catalogue::specs::Catalogue::defaults))]
fn numbers_length(numbers: &[u64; NUMBERS]) -> usize
    ensures { (result ≡ sum 11 (number_length_at numbers.now)) × (result < 2 ^ 36) }
{
    let mut n: usize = 0;
    for p in 0..NUMBERS {
        let due = numbers[p] != DEFAULTS[p];
        n += number_length(IDS[p], due.then_some(numbers[p])) as usize;
    }
    n
}

// Those of places 11 to 20. The last place's is added behind them.
#[tactic(auto, unfolding(crate::specs::Length::others_length, catalogue::specs::Catalogue::id_at, catalogue::specs::Catalogue::ids))]
fn others_length(r: &TransportParameters) -> usize
    ensures { (result ≡ others_length r.now) × (result < 2 ^ 36) }
{
    let datagram = r.max_datagram_frame_size;
    let delay = r.min_ack_delay;
    let token = r.stateless_reset_token.present;
    let lengths = [
        reserved_length(&r.grease_transport_parameter),
        value_length(token, STATELESS_RESET_TOKEN_ID, ResetToken::SIZE as u16),
        value_length(r.disable_active_migration, DISABLE_ACTIVE_MIGRATION_ID, 0),
        number_length(MAX_DATAGRAM_FRAME_SIZE_ID, datagram),
        address_length(&r.preferred_address),
        cid_length(ORIGINAL_DST_CID_ID, &r.original_dst_cid),
        cid_length(INITIAL_SRC_CID_ID, &r.initial_src_cid),
        cid_length(RETRY_SRC_CID_ID, &r.retry_src_cid),
        value_length(r.grease_quic_bit, GREASE_QUIC_BIT_ID, 0),
        number_length(MIN_ACK_DELAY_ID, delay),
    ];
    lengths.iter().map(|n| *n as usize).sum()
}

/// How many bytes writing the record stores, whatever order it has or will have; `IllFormed` for a
/// record that is not well formed.
#[tactic(auto, using(crate::proofs::Lengths::measured, crate::proofs::Lengths::not_measured))]
pub fn length(r: &TransportParameters) -> Result<usize, Refusal>
    ensures { outcome_of result ≡ length_of r.now }
{
    if !r.is_well_formed() {
        return Err(Refusal::IllFormed);
    }
    let versions = versions_length(&r.version_information) as usize;
    Ok(numbers_length(&r.numbers) + others_length(r) + versions)
}

/// Whatever permutation is drawn later, writing the record stores exactly so many bytes, and is
/// refused by 5 exactly if the buffer is shorter; none is over 385, and some record is as long.
#[tactic(auto, using(crate::proofs::Theorem::measure))]
pub fn measure()
    ensures { Measure }
{}
