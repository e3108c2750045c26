// The record of transport parameters: quinn's `TransportParameters` and what it holds; whether a
// record is well formed.
#![tactic(auto)]

ghost use Rattle.std.specs.Prelude.{◌≡◌, ◌&&◌, ◌%◌, ltb, eqb};
ghost use Rattle.refusal.specs.Outcome.{pick};
ghost use Rattle.words.specs.Words.{every};
ghost use Rattle.varint.specs.Number.{bound};
ghost use Rattle.record.specs.Record.{unspecified, formed_optional, formed_optional_cid, formed_optional_token, formed_family, formed_address, formed_reserved, formed_order, well_formed, default_record};
ghost use Rattle.record.specs.Values.{of_address};

use catalogue::{NUMBERS, PLACES};
use connection_id::ConnectionId;
use varint::VarInt;
use version_information::VersionInformation;
use words::{all_zero, zero_from};

/// What may be missing is marked by `present`, and all zero where it is absent. An `Option` has no
/// room for what is marked absent and is not zero, a record of its own that is refused as ill
/// formed.
#[derive(Clone, Copy, Debug, Default, PartialEq, Eq)]
pub struct Optional<T> {
    /// whether it is there
    pub present: bool,
    /// what it is, or zeros
    pub value: T,
}

/// A stateless reset token (RFC 9000 section 10.3). No `==`: a comparison of secrets would have to
/// take constant time.
#[derive(Clone, Copy, Debug, Default)]
pub struct ResetToken {
    /// as they are sent
    pub bytes: [u8; 16],
}

/// An address of `N` bytes and a port, of one of the two families. Here and in the next three
/// `present` stands among the fields: with an `Optional` of each a port would be
/// `preferred_address.value.address_v4.value.port`, which is no plainer.
#[derive(Clone, Copy, Debug, Default, PartialEq, Eq)]
pub struct SocketAddr<const N: usize> {
    /// whether the family is there
    pub present: bool,
    /// as it is sent, the high byte first
    pub ip: [u8; N],
    /// 0 where the family is absent
    pub port: u16,
}

/// An IPv4 address and its port.
pub type SocketAddrV4 = SocketAddr<4>;

/// An IPv6 address and its port.
pub type SocketAddrV6 = SocketAddr<16>;

/// Where a server would rather be reached (RFC 9000 section 18.2): an address of one family or of
/// both. No `==`, since it has a token.
#[derive(Clone, Copy, Debug, Default)]
pub struct PreferredAddress {
    /// whether there is one; if not, all else is absent and zero
    pub present: bool,
    /// the IPv4 address, if there is one
    pub address_v4: SocketAddrV4,
    /// the IPv6 address, if there is one
    pub address_v6: SocketAddrV6,
    /// the ID to use there
    pub connection_id: ConnectionId,
    /// the token that goes with this ID
    pub stateless_reset_token: ResetToken,
}

/// The reserved parameter that is sent so that peers go on skipping unknown ones. Fixed memory: the
/// payload is an array with a length, as in the Rust.
#[derive(Clone, Copy, Debug, Default, PartialEq, Eq)]
pub struct ReservedTransportParameter {
    /// whether it is sent
    pub present: bool,
    /// 31 * n + 27 for some n (RFC 9000 section 18.1), or 0 where it is absent
    pub id: u64,
    /// the payload, then zeros
    pub payload: [u8; 16],
    /// how many bytes the payload has
    pub payload_len: u8,
}

/// The order in which the places are written; where it is absent, catalogue order.
#[derive(Clone, Copy, Debug, Default, PartialEq, Eq)]
pub struct WriteOrder {
    /// whether there is one
    pub present: bool,
    /// all places of the catalogue, or zeros where it is absent
    pub places: [u8; PLACES],
}

/// What an extension says, and how it is written. The fields have quinn's names, and hold what the
/// parameters say (RFC 9000 section 18.2), in their units. No `==`: two records say the same if
/// they are equal without order and reserved parameter (`bare`), and then they are tidied to the
/// same bytes.
#[derive(Clone, Copy, Debug)]
pub struct TransportParameters {
    /// places 0 to 10 of the catalogue
    pub numbers: [u64; NUMBERS],
    /// the peer is not to migrate
    pub disable_active_migration: bool,
    /// in bytes (RFC 9221 section 3); absent is not 0
    pub max_datagram_frame_size: Option<u64>,
    /// initial_source_connection_id
    pub initial_src_cid: Optional<ConnectionId>,
    /// RFC 9287 section 3
    pub grease_quic_bit: bool,
    /// in microseconds (draft-ietf-quic-ack-frequency-08 section 3); absent is not 0
    pub min_ack_delay: Option<u64>,
    /// original_destination_connection_id
    pub original_dst_cid: Optional<ConnectionId>,
    /// retry_source_connection_id
    pub retry_src_cid: Optional<ConnectionId>,
    /// a server's
    pub stateless_reset_token: Optional<ResetToken>,
    /// a server's
    pub preferred_address: PreferredAddress,
    /// RFC 9368 section 3
    pub version_information: VersionInformation,
    /// what is sent under a reserved identifier; reading keeps none
    pub grease_transport_parameter: ReservedTransportParameter,
    /// how it is written; reading keeps none
    pub write_order: WriteOrder,
}

impl<const N: usize> SocketAddr<N> {
    /// An address of zeros and port 0.
    pub fn is_unspecified(self) -> bool
        ensures { result ≡ unspecified (of_address self.entry) }
    {
        zero_from(&self.ip, 0) & (self.port == 0)
    }
}

impl Optional<ConnectionId> {
    /// Whether the ID is well formed, and empty where it is absent.
    #[tactic(auto, using(std::proofs::lemmas::Bool::Decides::nat_tests), unfolding(crate::specs::Record::formed_optional_cid, refusal::specs::Outcome::all))]
    pub fn is_well_formed(&self) -> bool
        ensures { result ≡ formed_optional_cid self.now }
    {
        self.value.is_well_formed() & (self.present | (self.value.len == 0))
    }
}

impl ResetToken {
    /// How many bytes a token has.
    pub const SIZE: usize = 16;
}

impl ReservedTransportParameter {
    /// The longest payload, in bytes.
    pub const MAX_PAYLOAD_LEN: usize = 16;
}

#[tactic(auto, using(std::proofs::lemmas::Bool::Decides::nat_tests, crate::proofs::Tests::every_drop, crate::proofs::Tests::every_end, crate::proofs::Tests::at_most))]
fn formed_numbers(n: &[u64; NUMBERS]) -> bool
    ensures { result ≡ every (λ x. ltb x bound) n.now }
{
    let mut acc: u64 = 0;
    for x in n {
        acc |= *x;
    }
    acc <= VarInt::MAX.0
}

#[tactic(auto, using(std::proofs::lemmas::Bool::Decides::nat_tests, crate::proofs::Tests::optional_below))]
fn formed_number(o: Option<u64>) -> bool
    ensures { result ≡ formed_optional o }
{
    o.unwrap_or(0) <= VarInt::MAX.0
}

// By `zero_from`, which goes by words, as an ID and the addresses: `all_zero` goes by bytes.
#[tactic(auto, using(std::proofs::lemmas::Bool::Decides::nat_tests), unfolding(crate::specs::Record::formed_optional_token, crate::specs::Record::formed_token, refusal::specs::Outcome::all))]
fn formed_token(o: &Optional<ResetToken>) -> bool
    ensures { result ≡ formed_optional_token o.now }
{
    o.present | zero_from(&o.value.bytes, 0)
}

// The test of `is_unspecified` stands here once more.
#[tactic(auto, using(std::proofs::lemmas::Bool::Decides::nat_tests), unfolding(crate::specs::Record::formed_family, refusal::specs::Outcome::all))]
fn formed_family<const N: usize>(a: &SocketAddr<N>) -> bool
    ensures { result ≡ formed_family N (of_address a.now) }
{
    a.present | (zero_from(&a.ip, 0) & (a.port == 0))
}

#[tactic(auto, using(std::proofs::lemmas::Bool::Decides::nat_tests, crate::proofs::Tests::at_most), unfolding(crate::specs::Record::formed_reserved, refusal::specs::Outcome::all))]
fn formed_reserved(x: &ReservedTransportParameter) -> bool
    ensures { result ≡ formed_reserved x.now }
{
    let n = usize::from(x.payload_len);
    (x.id <= VarInt::MAX.0)
        & (n <= ReservedTransportParameter::MAX_PAYLOAD_LEN)
        & zero_from(&x.payload, n)
        & reserved_head(x.present, x.id, x.payload_len)
}

// A reserved identifier if present, else nothing.
fn reserved_head(present: bool, id: u64, len: u8) -> bool
    ensures { result ≡ pick present (eqb (id % 31) 27) (eqb id 0 && eqb len 0) }
{
    if present {
        id % 31 == 27
    } else {
        (id == 0) & (len == 0)
    }
}

#[tactic(auto, using(std::proofs::lemmas::Bool::Decides::nat_tests), unfolding(crate::specs::Record::formed_order, refusal::specs::Outcome::all))]
fn formed_order(w: &WriteOrder) -> bool
    ensures { result ≡ formed_order w.now }
{
    w.present | all_zero(&w.places)
}

#[tactic(auto, using(std::proofs::lemmas::Bool::Decides::nat_tests, crate::proofs::Tests::address_formed))]
fn formed_address(a: &PreferredAddress) -> bool
    ensures { result ≡ formed_address a.now }
{
    let absent = !a.address_v4.present
        & !a.address_v6.present
        & (a.connection_id.len == 0)
        & zero_from(&a.stateless_reset_token.bytes, 0);
    formed_family(&a.address_v4)
        & formed_family(&a.address_v6)
        & a.connection_id.is_well_formed()
        & (a.present | absent)
}

// Standard defaults, used if the peer does not supply a given parameter.
impl Default for TransportParameters {
    ghost is_default = { λ r. r ≡ default_record };

    #[tactic(auto, using(crate::proofs::Defaults::order_absent, crate::proofs::Defaults::reserved_absent, crate::proofs::Defaults::token_absent, crate::proofs::Defaults::cid_absent, crate::proofs::Defaults::address_absent, crate::proofs::Defaults::versions_absent), unfolding(catalogue::specs::Catalogue::defaults, crate::specs::Values::no_values, crate::specs::Values::number_in, crate::specs::Values::optional_in, crate::specs::Values::record_of))]
    fn default() -> TransportParameters {
        TransportParameters {
            numbers: catalogue::DEFAULTS,
            disable_active_migration: false,
            max_datagram_frame_size: None,
            initial_src_cid: Optional::default(),
            grease_quic_bit: false,
            min_ack_delay: None,
            original_dst_cid: Optional::default(),
            retry_src_cid: Optional::default(),
            stateless_reset_token: Optional::default(),
            preferred_address: PreferredAddress::default(),
            version_information: VersionInformation::default(),
            grease_transport_parameter: ReservedTransportParameter::default(),
            write_order: WriteOrder::default(),
        }
    }
}

impl TransportParameters {
    /// Whether all numbers are below 2^62, whatever has a length has one that fits it and zeros
    /// behind, what is absent is all zero, and the reserved parameter has a reserved identifier.
    #[tactic(auto, using(std::proofs::lemmas::Bool::Decides::nat_tests), unfolding(crate::specs::Record::well_formed, refusal::specs::Outcome::all))]
    pub fn is_well_formed(&self) -> bool
        ensures { result ≡ well_formed self.now }
    {
        formed_numbers(&self.numbers)
            & formed_reserved(&self.grease_transport_parameter)
            & formed_token(&self.stateless_reset_token)
            & formed_number(self.max_datagram_frame_size)
            & formed_address(&self.preferred_address)
            & self.original_dst_cid.is_well_formed()
            & self.initial_src_cid.is_well_formed()
            & self.retry_src_cid.is_well_formed()
            & formed_number(self.min_ack_delay)
            & self.version_information.is_well_formed()
            & formed_order(&self.write_order)
    }
}
