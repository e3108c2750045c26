// Building a record: `TransportParameters::new` and `ReservedTransportParameter::random` of quinn's
// transport_parameters.rs. What quinn draws at random is handed in.
#![tactic(auto)]

ghost use Rattle.std.specs.Prelude.{◌≡◌, ◌&&◌, not, ◌-◌, ◌<◌};
ghost use Rattle.refusal.specs.Outcome.{accepted, refused, pick};
ghost use Rattle.varint.specs.Number.{bound};
ghost use Rattle.order.specs.Order.{permutation};
ghost use Rattle.rules.specs.Rules.{is_server};
ghost use Rattle.building.specs.Building.{settings_fit, cut_size, numbers_from, draw_fits, reserved_id, reserved_from, drawn_order, built_record, build};
ghost use Rattle.refusal.specs.Answer.{outcome_of};
ghost use Rattle.building.specs.BuildingLaws.{BuildingLaws};

use catalogue::{ACK_DELAY_EXPONENT, ACTIVE_CONNECTION_ID_LIMIT, DEFAULTS, MAX_ACK_DELAY, NUMBERS};
use connection_id::ConnectionId;
use record::{Optional, ReservedTransportParameter, TransportParameters, WriteOrder};
use refusal::Refusal;
use rules::Side;
use varint::VarInt;

/// What `new` takes from the configurations of the transport, the endpoint and the server, and from
/// the generator of connection IDs.
#[derive(Clone, Copy, Debug, PartialEq, Eq)]
pub struct Settings {
    /// streams, as initial_max_streams_bidi
    pub max_concurrent_bidi_streams: u64,
    /// streams, as initial_max_streams_uni
    pub max_concurrent_uni_streams: u64,
    /// in bytes, as initial_max_data
    pub receive_window: u64,
    /// in bytes, as the three initial_max_stream_data
    pub stream_receive_window: u64,
    /// in milliseconds
    pub max_idle_timeout: Option<u64>,
    /// in bytes
    pub max_udp_payload_size: u64,
    /// whether grease_quic_bit is sent
    pub grease_quic_bit: bool,
    /// in bytes; sent as max_datagram_frame_size, 65,535 at most
    pub datagram_receive_buffer_size: Option<u64>,
    /// the length of the IDs that are generated, in bytes
    pub cid_len: usize,
    /// who builds the record, to send it
    pub side: Side,
    /// whether a server allows migration
    pub migration: bool,
}

// The active_connection_id_limit where IDs are not empty.
const CID_QUEUE_LEN: u64 = 5;

const MAX_DATAGRAM_SIZE: u64 = 65535;

// In microseconds.
const TIMER_GRANULARITY: u64 = 1000;

// Draws for a reserved identifier are below this.
const DRAWS: u64 = (1 << 62) - 27;

// Whether the settings that are sent as they are can be sent.
fn settings_fit(s: &Settings) -> bool
    ensures { result ≡ settings_fit s.now }
{
    let sent = [
        s.max_concurrent_bidi_streams,
        s.max_concurrent_uni_streams,
        s.receive_window,
        s.stream_receive_window,
        s.max_idle_timeout.unwrap_or(0),
        s.max_udp_payload_size,
    ];
    sent.iter().all(|x| *x <= VarInt::MAX.0)
}

// The active_connection_id_limit, by whether the IDs that are generated are empty.
fn cid_limit(empty: bool) -> u64
    ensures { result ≡ pick empty 2 5 }
{
    if empty {
        DEFAULTS[ACTIVE_CONNECTION_ID_LIMIT]
    } else {
        CID_QUEUE_LEN
    }
}

// A datagram size, cut to what is sent at most.
#[tactic(auto, unfolding(crate::specs::Building::cut_size))]
fn cut_size(o: Option<u64>) -> Option<u64>
    ensures { result ≡ cut_size o }
{
    o.map(|x| x.min(MAX_DATAGRAM_SIZE))
}

// Only a server that forbids migration disables it.
fn migration_disabled(side: Side, migration: bool) -> bool
    ensures { result ≡ (is_server side && not migration) }
{
    (side == Side::Server) & !migration
}

// Whether the draw and the payload are in range.
#[tactic(auto, unfolding(crate::specs::Building::draw_fits))]
fn draw_fits(draw: u64, payload: &[u8]) -> bool
    ensures { result ≡ draw_fits draw payload.now }
{
    (draw < DRAWS) & (payload.len() < ReservedTransportParameter::MAX_PAYLOAD_LEN)
}

// The reserved identifier of a draw: `generate_reserved_id`.
#[tactic(auto, unfolding(crate::specs::Building::reserved_id))]
fn reserved_id(draw: u64) -> u64
    requires { draw < bound - 27 }
    ensures { result ≡ reserved_id draw }
{
    31 * (draw / 31) + 27
}

// The reserved parameter of a draw and a payload.
#[tactic(auto, using(crate::proofs::Answers::draw_facts), unfolding(crate::specs::Building::reserved_from))]
fn reserved_of(draw: u64, payload: &[u8]) -> Result<ReservedTransportParameter, Refusal>
    ensures { outcome_of result
        ≡ pick (draw_fits draw payload.now) (accepted (reserved_from draw payload.now))
        (refused 9) }
{
    if !draw_fits(draw, payload) {
        return Err(Refusal::InvalidDraw);
    }
    let mut bytes = [0u8; ReservedTransportParameter::MAX_PAYLOAD_LEN];
    bytes[..payload.len()].copy_from_slice(payload);
    Ok(ReservedTransportParameter {
        present: true,
        id: reserved_id(draw),
        payload: bytes,
        payload_len: payload.len() as u8,
    })
}

// The order to write in.
#[tactic(auto, using(crate::proofs::Answers::order_length), unfolding(crate::specs::Building::drawn_order))]
fn order_of(order: &[u8]) -> Result<WriteOrder, Refusal>
    ensures { outcome_of result
        ≡ pick (permutation order.now) (accepted (drawn_order order.now)) (refused 6) }
{
    if !order::is_permutation(order) {
        return Err(Refusal::InvalidOrder);
    }
    Ok(WriteOrder {
        present: true,
        places: order.try_into().unwrap(),
    })
}

// The numbers of places 0 to 10, with the active_connection_id_limit.
#[tactic(auto, unfolding(crate::specs::Building::numbers_from, catalogue::specs::Catalogue::defaults))]
fn numbers_of(s: &Settings, limit: u64) -> [u64; NUMBERS]
    ensures { result ≡ numbers_from s.now limit }
{
    let window = s.stream_receive_window;
    [
        s.max_idle_timeout.unwrap_or(0),
        s.max_udp_payload_size,
        s.receive_window,
        window,
        window,
        window,
        s.max_concurrent_bidi_streams,
        s.max_concurrent_uni_streams,
        DEFAULTS[ACK_DELAY_EXPONENT],
        DEFAULTS[MAX_ACK_DELAY],
        limit,
    ]
}

// The record of settings that fit.
#[tactic(auto, unfolding(crate::specs::Building::built_record, crate::specs::Building::id_limit))]
fn record_of(
    s: &Settings,
    cid: ConnectionId,
    reserved: ReservedTransportParameter,
    order: WriteOrder,
) -> TransportParameters
    ensures { result ≡ built_record s.now cid reserved order }
{
    let limit = cid_limit(s.cid_len == 0);
    TransportParameters {
        numbers: numbers_of(s, limit),
        disable_active_migration: migration_disabled(s.side, s.migration),
        max_datagram_frame_size: cut_size(s.datagram_receive_buffer_size),
        initial_src_cid: Optional {
            present: true,
            value: cid,
        },
        grease_quic_bit: s.grease_quic_bit,
        min_ack_delay: Some(TIMER_GRANULARITY),
        grease_transport_parameter: reserved,
        write_order: order,
        ..TransportParameters::default()
    }
}

/// The record of these settings and this connection ID, with the reserved parameter and the order
/// drawn: `VarIntBoundsExceeded` for a setting, `IllFormed` for the ID, `InvalidDraw`, then
/// `InvalidOrder`.
#[tactic(auto, using(refusal::proofs::Laws::raised), unfolding(crate::specs::Building::build))]
pub fn new(
    settings: Settings,
    initial_src_cid: ConnectionId,
    draw: u64,
    payload: &[u8],
    order: &[u8],
) -> Result<TransportParameters, Refusal>
    ensures { outcome_of result ≡ build settings initial_src_cid draw payload.now order.now }
{
    if !settings_fit(&settings) {
        return Err(Refusal::VarIntBoundsExceeded);
    }
    if !initial_src_cid.is_well_formed() {
        return Err(Refusal::IllFormed);
    }
    let reserved = reserved_of(draw, payload)?;
    let places = order_of(order)?;
    Ok(record_of(&settings, initial_src_cid, reserved, places))
}

/// A record that is built is well formed, and has the order handed in, which is a permutation, and
/// a reserved identifier.
#[tactic(auto, using(crate::proofs::Theorems::building_laws))]
pub fn building_laws()
    ensures { BuildingLaws }
{}
