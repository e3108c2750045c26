// The records and connection IDs of images: reading what crate image stores.
#![tactic(auto)]

ghost use Rattle.std.specs.Prelude.{◌≡◌, [], ◌+◌, ◌≤◌, ◌<◌, length, get_or, IfOk, IfErr};
ghost use Rattle.refusal.specs.Number.{number_of};
ghost use Rattle.refusal.specs.Outcome.{accepted, refused};
ghost use Rattle.refusal.specs.Answer.{outcome_of};
ghost use Rattle.record.specs.Values.{token_of, of_address};
ghost use Rattle.version_information.specs.VersionInformation.{versions_with};
ghost use Rattle.image.specs.Image.{part, flag_at, number_at, numbers_at, optional_at, cid_at, optional_cid_at, address_at, record_at, flags_hold, zero_if_absent, is_image, record_from, cid_from};
ghost use Rattle.imaged.specs.ImageLaws.{ImageLaws};

use catalogue::NUMBERS;
use connection_id::ConnectionId;
use image::{CID_SIZE, RECORD_SIZE};
use record::{
    Optional, PreferredAddress, ReservedTransportParameter, ResetToken, SocketAddr,
    TransportParameters, WriteOrder,
};
use refusal::Refusal;
use version_information::VersionInformation;

// Where the flags stand in the image of a record.
const FLAGS: [usize; 14] = [
    88, 89, 90, 99, 108, 130, 152, 174, 191, 192, 199, 255, 281, 304,
];

// Bytes at a place, as an array. Here and below `s` and `at` stand apart: images are of two sizes,
// and a struct of both would be made at each call.
fn bytes_at<const N: usize>(s: &[u8], at: usize) -> [u8; N]
    requires { at + N ≤ length s.now }
    ensures { result ≡ part at N s.now }
{
    s[at..at + N].try_into().unwrap()
}

// Numbers have the high byte first. They and ports are two functions: from_be_bytes is no method of
// a trait.
fn number_at(s: &[u8], at: usize) -> u64
    requires { at + 8 ≤ length s.now }
    ensures { result ≡ number_at at 8 s.now }
{
    u64::from_be_bytes(bytes_at(s, at))
}

fn port_at(s: &[u8], at: usize) -> u16
    requires { at + 2 ≤ length s.now }
    ensures { result ≡ number_at at 2 s.now }
{
    u16::from_be_bytes(bytes_at(s, at))
}

fn flag_at(s: &[u8], at: usize) -> bool
    requires { at < length s.now }
    ensures { result ≡ flag_at at s.now }
{
    s[at] == 1
}

fn numbers_at(s: &[u8; RECORD_SIZE]) -> [u64; NUMBERS]
    ensures { result ≡ numbers_at 11 0 s.now }
{
    let mut numbers = [0; NUMBERS];
    for (i, x) in numbers.iter_mut().enumerate() {
        *x = number_at(s, 8 * i);
    }
    numbers
}

// The number is loaded whether it is there or not.
#[tactic(auto, unfolding(image::specs::Image::optional_at))]
fn optional_at(s: &[u8], at: usize) -> Option<u64>
    requires { at + 9 ≤ length s.now }
    ensures { result ≡ optional_at at s.now }
{
    flag_at(s, at).then_some(number_at(s, at + 1))
}

#[tactic(auto, unfolding(image::specs::Image::cid_at))]
fn cid_at(s: &[u8], at: usize) -> ConnectionId
    requires { at + 21 ≤ length s.now }
    ensures { result ≡ cid_at at s.now }
{
    ConnectionId {
        len: s[at],
        bytes: bytes_at(s, at + 1),
    }
}

#[tactic(auto, unfolding(image::specs::Image::optional_cid_at))]
fn optional_cid_at(s: &[u8], at: usize) -> Optional<ConnectionId>
    requires { at + 22 ≤ length s.now }
    ensures { result ≡ optional_cid_at at s.now }
{
    Optional {
        present: flag_at(s, at),
        value: cid_at(s, at + 1),
    }
}

fn token_at(s: &[u8], at: usize) -> ResetToken
    requires { at + 16 ≤ length s.now }
    ensures { result ≡ token_of (part at 16 s.now) }
{
    ResetToken {
        bytes: bytes_at(s, at),
    }
}

fn family_at<const N: usize>(s: &[u8], at: usize) -> SocketAddr<N>
    requires { at + N + 3 ≤ length s.now }
    ensures { of_address result
        ≡ (flag_at at s.now, part (at + 1) N s.now, number_at (at + 1 + N) 2 s.now) }
{
    SocketAddr {
        present: flag_at(s, at),
        ip: bytes_at(s, at + 1),
        port: port_at(s, at + 1 + N),
    }
}

#[tactic(auto, unfolding(image::specs::Image::address_at))]
fn address_at(s: &[u8; RECORD_SIZE]) -> PreferredAddress
    ensures { result ≡ address_at s.now }
{
    PreferredAddress {
        present: flag_at(s, 191),
        address_v4: family_at(s, 192),
        address_v6: family_at(s, 199),
        connection_id: cid_at(s, 218),
        stateless_reset_token: token_at(s, 239),
    }
}

fn versions_at(s: &[u8; RECORD_SIZE]) -> VersionInformation
    ensures { result
        ≡ versions_with (flag_at 304 s.now) (get_or s.now 305 0) (part 306 68 s.now) }
{
    VersionInformation::from_bytes(flag_at(s, 304), s[305], &bytes_at(s, 306))
}

/// The record of an image, which need not be well formed.
pub fn record_at(s: &[u8; RECORD_SIZE]) -> TransportParameters
    ensures { result ≡ record_at s.now }
{
    TransportParameters {
        numbers: numbers_at(s),
        disable_active_migration: flag_at(s, 88),
        max_datagram_frame_size: optional_at(s, 90),
        initial_src_cid: optional_cid_at(s, 130),
        grease_quic_bit: flag_at(s, 89),
        min_ack_delay: optional_at(s, 99),
        original_dst_cid: optional_cid_at(s, 108),
        retry_src_cid: optional_cid_at(s, 152),
        stateless_reset_token: Optional {
            present: flag_at(s, 174),
            value: token_at(s, 175),
        },
        preferred_address: address_at(s),
        version_information: versions_at(s),
        grease_transport_parameter: ReservedTransportParameter {
            present: flag_at(s, 255),
            id: number_at(s, 256),
            payload: bytes_at(s, 265),
            payload_len: s[264],
        },
        write_order: WriteOrder {
            present: flag_at(s, 281),
            places: bytes_at(s, 282),
        },
    }
}

// Whether every flag is 0 or 1.
#[tactic(auto, using(crate::proofs::Places::flags_more, crate::proofs::Places::flags_none, crate::proofs::Places::flags_all), unfolding(image::specs::Image::flag_places))]
fn flags_hold(s: &[u8; RECORD_SIZE]) -> bool
    ensures { result ≡ flags_hold s.now }
{
    let mut acc: u8 = 0;
    for at in FLAGS {
        acc |= s[at];
    }
    acc <= 1
}

// Whether a number that is absent is 0.
#[tactic(auto, unfolding(image::specs::Image::zero_if_absent))]
fn zero_if_absent(s: &[u8], at: usize) -> bool
    requires { at + 9 ≤ length s.now }
    ensures { result ≡ zero_if_absent at s.now }
{
    flag_at(s, at) | (number_at(s, at + 1) == 0)
}

#[tactic(auto, unfolding(image::specs::Image::is_image, refusal::specs::Outcome::all))]
fn is_image(s: &[u8; RECORD_SIZE]) -> bool
    ensures { result ≡ is_image s.now }
{
    flags_hold(s) & zero_if_absent(s, 90) & zero_if_absent(s, 99)
}

/// The image that some bytes are; `IllFormed` for what is none.
#[tactic(auto, using(crate::proofs::Places::image_long), unfolding(image::specs::Image::record_from))]
pub fn image_in(bytes: &[u8]) -> Result<&[u8; RECORD_SIZE], Refusal>
    ensures same { IfOk result (λ image. image.now ≡ bytes.now) }
    ensures image { IfOk result (λ image. record_from bytes.now ≡ accepted (record_at image.now)) }
    ensures none { IfErr result (λ e. record_from bytes.now ≡ refused (number_of e)) }
{
    let Some(image) = bytes.as_array() else {
        return Err(Refusal::IllFormed);
    };
    if !is_image(image) {
        return Err(Refusal::IllFormed);
    }
    Ok(image)
}

/// The record of an image, which need not be well formed; `IllFormed` for what is no image.
#[tactic(auto, using(refusal::proofs::Laws::raised))]
pub fn record_from(image: &[u8]) -> Result<TransportParameters, Refusal>
    ensures { outcome_of result ≡ record_from image.now }
{
    let image = image_in(image)?;
    Ok(record_at(image))
}

/// The connection ID of an image, which need not be well formed; `IllFormed` for what is no image.
#[tactic(auto, unfolding(image::specs::Image::cid_from))]
pub fn cid_from(image: &[u8]) -> Result<ConnectionId, Refusal>
    ensures { outcome_of result ≡ cid_from image.now }
{
    if image.len() != CID_SIZE {
        return Err(Refusal::IllFormed);
    }
    Ok(cid_at(image, 0))
}

/// The image of a well-formed record has 374 bytes and gives the record back; that of a connection
/// ID does too.
#[tactic(auto, using(crate::proofs::ImageLaws::image_laws))]
pub fn image_laws()
    ensures { ImageLaws }
{}
