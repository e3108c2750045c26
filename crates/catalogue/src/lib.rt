// The catalogue of transport parameters, in the order of quinn's `SUPPORTED`: by place, their
// names, identifiers and defaults; and the place of an identifier.
#![tactic(auto)]

ghost use Rattle.std.specs.Prelude.{◌≡◌, map};
ghost use Rattle.catalogue.specs.Catalogue.{names, ids, defaults, place_of};
ghost use Rattle.catalogue.specs.PlaceLaws.{PlaceLaws};

/// How many places the catalogue has.
pub const PLACES: usize = 22;

/// How many of them, the first, hold plain numbers that have a default.
pub const NUMBERS: usize = 11;

/// No extension of a record is longer, in bytes.
pub const MAX_EXTENSION: usize = 385;

// The places: numbers and no enum, since entries of orders, bits of marks and positions in arrays
// are these. Each says the unit of what stands there, and where it is defined.

/// In milliseconds, 0 for none (RFC 9000 section 18.2).
pub const MAX_IDLE_TIMEOUT: usize = 0;

/// In bytes (RFC 9000 section 18.2).
pub const MAX_UDP_PAYLOAD_SIZE: usize = 1;

/// In bytes, of the connection (RFC 9000 section 18.2).
pub const INITIAL_MAX_DATA: usize = 2;

/// In bytes, of a stream that the sender opens (RFC 9000 section 18.2).
pub const INITIAL_MAX_STREAM_DATA_BIDI_LOCAL: usize = 3;

/// In bytes, of a stream that the receiver opens (RFC 9000 section 18.2).
pub const INITIAL_MAX_STREAM_DATA_BIDI_REMOTE: usize = 4;

/// In bytes (RFC 9000 section 18.2).
pub const INITIAL_MAX_STREAM_DATA_UNI: usize = 5;

/// A count of streams (RFC 9000 section 18.2).
pub const INITIAL_MAX_STREAMS_BIDI: usize = 6;

/// A count of streams (RFC 9000 section 18.2).
pub const INITIAL_MAX_STREAMS_UNI: usize = 7;

/// An exponent of 2 (RFC 9000 section 18.2).
pub const ACK_DELAY_EXPONENT: usize = 8;

/// In milliseconds (RFC 9000 section 18.2).
pub const MAX_ACK_DELAY: usize = 9;

/// A count of connection IDs (RFC 9000 section 18.2).
pub const ACTIVE_CONNECTION_ID_LIMIT: usize = 10;

/// A drawn identifier of 31 N + 27 and up to 16 drawn bytes (RFC 9000 section 18.1).
pub const RESERVED: usize = 11;

/// 16 bytes (RFC 9000 section 18.2).
pub const STATELESS_RESET_TOKEN: usize = 12;

/// A flag, which has no value (RFC 9000 section 18.2).
pub const DISABLE_ACTIVE_MIGRATION: usize = 13;

/// In bytes (RFC 9221 section 3).
pub const MAX_DATAGRAM_FRAME_SIZE: usize = 14;

/// Addresses of two families, a connection ID and a token (RFC 9000 section 18.2).
pub const PREFERRED_ADDRESS: usize = 15;

/// A connection ID (RFC 9000 sections 7.3 and 18.2).
pub const ORIGINAL_DST_CID: usize = 16;

/// A connection ID (RFC 9000 sections 7.3 and 18.2).
pub const INITIAL_SRC_CID: usize = 17;

/// A connection ID (RFC 9000 sections 7.3 and 18.2).
pub const RETRY_SRC_CID: usize = 18;

/// A flag, which has no value (RFC 9287 section 3).
pub const GREASE_QUIC_BIT: usize = 19;

/// In microseconds (draft-ietf-quic-ack-frequency-08 section 3).
pub const MIN_ACK_DELAY: usize = 20;

/// Four bytes a version, the chosen one first (RFC 9368 section 3).
pub const VERSION_INFORMATION: usize = 21;

// The places of each kind that has more than one, a bit for each: one look at a bit tells several
// kinds from the others.

/// Of numbers.
pub const NUMBER_PLACES: u32 = ((1 << NUMBERS) - 1)
    | (1 << MAX_DATAGRAM_FRAME_SIZE)
    | (1 << MIN_ACK_DELAY);

/// Of flags.
pub const FLAG_PLACES: u32 = (1 << DISABLE_ACTIVE_MIGRATION) | (1 << GREASE_QUIC_BIT);

/// Of connection IDs.
pub const CID_PLACES: u32 = (1 << ORIGINAL_DST_CID) | (1 << INITIAL_SRC_CID) | (1 << RETRY_SRC_CID);

/// Of numbers, flags, IDs and the token.
pub const SIMPLE_PLACES: u32 = NUMBER_PLACES
    | FLAG_PLACES
    | CID_PLACES
    | (1 << STATELESS_RESET_TOKEN);

/// The names of the places. Names, identifiers and defaults are three tables and not one of rows:
/// the defaults are fewer, and the definitions are lists.
pub const NAMES: [&str; PLACES] = [
    "max_idle_timeout",
    "max_udp_payload_size",
    "initial_max_data",
    "initial_max_stream_data_bidi_local",
    "initial_max_stream_data_bidi_remote",
    "initial_max_stream_data_uni",
    "initial_max_streams_bidi",
    "initial_max_streams_uni",
    "ack_delay_exponent",
    "max_ack_delay",
    "active_connection_id_limit",
    "reserved",
    "stateless_reset_token",
    "disable_active_migration",
    "max_datagram_frame_size",
    "preferred_address",
    "original_dst_cid",
    "initial_src_cid",
    "retry_src_cid",
    "grease_quic_bit",
    "min_ack_delay",
    "version_information",
];

/// Their identifiers. The reserved parameter has none of its own: no number on the wire is 2^62.
pub const IDS: [u64; PLACES] = [
    0x01,
    0x03,
    0x04,
    0x05,
    0x06,
    0x07,
    0x08,
    0x09,
    0x0a,
    0x0b,
    0x0e,
    0x4000000000000000,
    0x02,
    0x0c,
    0x20,
    0x0d,
    0x00,
    0x0f,
    0x10,
    0x2ab2,
    0xff04de1b,
    0x11,
];

// Those that a program asks for by name.

/// Of the token (RFC 9000 section 18.2).
pub const STATELESS_RESET_TOKEN_ID: u64 = IDS[STATELESS_RESET_TOKEN];

/// Of the flag (RFC 9000 section 18.2).
pub const DISABLE_ACTIVE_MIGRATION_ID: u64 = IDS[DISABLE_ACTIVE_MIGRATION];

/// Of the largest datagram frame (RFC 9221 section 3).
pub const MAX_DATAGRAM_FRAME_SIZE_ID: u64 = IDS[MAX_DATAGRAM_FRAME_SIZE];

/// Of the preferred address (RFC 9000 section 18.2).
pub const PREFERRED_ADDRESS_ID: u64 = IDS[PREFERRED_ADDRESS];

/// Of the client's first destination ID (RFC 9000 sections 7.3 and 18.2).
pub const ORIGINAL_DST_CID_ID: u64 = IDS[ORIGINAL_DST_CID];

/// Of the sender's first source ID (RFC 9000 sections 7.3 and 18.2).
pub const INITIAL_SRC_CID_ID: u64 = IDS[INITIAL_SRC_CID];

/// Of a Retry's source ID (RFC 9000 sections 7.3 and 18.2).
pub const RETRY_SRC_CID_ID: u64 = IDS[RETRY_SRC_CID];

/// Of the flag that the QUIC bit may be greased (RFC 9287 section 3).
pub const GREASE_QUIC_BIT_ID: u64 = IDS[GREASE_QUIC_BIT];

/// Of the least delay of an acknowledgment (draft-ietf-quic-ack-frequency-08 section 3).
pub const MIN_ACK_DELAY_ID: u64 = IDS[MIN_ACK_DELAY];

/// Of the versions (RFC 9368 section 3).
pub const VERSION_INFORMATION_ID: u64 = IDS[VERSION_INFORMATION];

/// The defaults of the plain numbers (RFC 9000 section 18.2).
pub const DEFAULTS: [u64; NUMBERS] = [0, 65527, 0, 0, 0, 0, 0, 0, 3, 25, 2];

/// The names by place: here and below, that a table is the definition's.
#[tactic(auto, unfolding(crate::specs::Catalogue::names))]
pub fn names() -> [&'static str; PLACES]
    ensures { map (λ name. name.now) result ≡ names }
{
    NAMES
}

/// The identifiers by place.
#[tactic(auto, unfolding(crate::specs::Catalogue::ids))]
pub fn identifiers() -> [u64; PLACES]
    ensures { result ≡ ids }
{
    IDS
}

/// The defaults of places 0 to 10.
#[tactic(auto, unfolding(crate::specs::Catalogue::defaults))]
pub fn default_numbers() -> [u64; NUMBERS]
    ensures { result ≡ defaults }
{
    DEFAULTS
}

/// The place of an identifier; `PLACES` if it is unknown, and no Option: a reader marks the place,
/// which has a bit too, before it asks whether the catalogue has it. Two matches and not one over
/// all identifiers: they become tables, one becomes a jump.
#[tactic(auto, unfolding(crate::specs::Catalogue::place_of, crate::specs::Catalogue::ids))]
pub fn place_of(id: u64) -> usize
    ensures { result ≡ place_of id }
{
    if id <= 0x20 {
        return match id {
            0x00 => ORIGINAL_DST_CID,
            0x01 => MAX_IDLE_TIMEOUT,
            0x02 => STATELESS_RESET_TOKEN,
            0x03 => MAX_UDP_PAYLOAD_SIZE,
            0x04 => INITIAL_MAX_DATA,
            0x05 => INITIAL_MAX_STREAM_DATA_BIDI_LOCAL,
            0x06 => INITIAL_MAX_STREAM_DATA_BIDI_REMOTE,
            0x07 => INITIAL_MAX_STREAM_DATA_UNI,
            0x08 => INITIAL_MAX_STREAMS_BIDI,
            0x09 => INITIAL_MAX_STREAMS_UNI,
            0x0a => ACK_DELAY_EXPONENT,
            0x0b => MAX_ACK_DELAY,
            0x0c => DISABLE_ACTIVE_MIGRATION,
            0x0d => PREFERRED_ADDRESS,
            0x0e => ACTIVE_CONNECTION_ID_LIMIT,
            0x0f => INITIAL_SRC_CID,
            0x10 => RETRY_SRC_CID,
            0x11 => VERSION_INFORMATION,
            0x20 => MAX_DATAGRAM_FRAME_SIZE,
            _ => PLACES,
        };
    }
    match id {
        0x2ab2 => GREASE_QUIC_BIT,
        0xff04de1b => MIN_ACK_DELAY,
        _ => PLACES,
    }
}

/// Known identifiers and places, but for the reserved parameter's, belong to one another; a
/// reserved identifier is unknown.
#[tactic(auto, using(crate::proofs::PlaceLaws::place_laws))]
pub fn place_laws()
    ensures { PlaceLaws }
{}
