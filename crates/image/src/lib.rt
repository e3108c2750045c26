// The images of records and connection IDs, in 374 and 21 bytes: the form in which the C interface
// passes them. Crate imaged reads them.
#![tactic(auto)]

ghost use Rattle.std.specs.Prelude.{◌≡◌, ◌∷◌, ◌+◌, ◌≤◌, length};
ghost use Rattle.std.proofs.lemmas.List.Edits.{sets};
ghost use Rattle.refusal.specs.Answer.{outcome_of};
ghost use Rattle.refusal.specs.Outcome.{store};
ghost use Rattle.record.specs.Values.{of_address};
ghost use Rattle.image.specs.Image.{numbers_image, cid_image, optional_parts, optional_cid_parts, family_parts, address_parts, joined_parts, front_parts, id_parts, rest_parts, versions_parts, image_of, Sized};

use catalogue::NUMBERS;
use connection_id::ConnectionId;
use record::{Optional, PreferredAddress, SocketAddr, TransportParameters};
use refusal::Refusal;
use version_information::VersionInformation;

/// How many bytes the image of a record has.
pub const RECORD_SIZE: usize = 374;

/// How many bytes the image of a connection ID has.
pub const CID_SIZE: usize = 21;

// Storing an image, at a place where there is room. Arrays are passed by value: so the compiler
// knows that none lies in `out`. `at` and `out` stand apart, as in crate imaged: a struct of both
// would be made at each call.

fn put_array<const N: usize>(bytes: [u8; N], at: usize, out: &mut [u8])
    requires { at + N ≤ length out.old }
    ensures { out.new ≡ sets out.old at bytes.entry }
{
    out[at..at + N].copy_from_slice(&bytes);
}

// Stores a byte, a flag or a length, and what stands behind it. Here and below the size of what is
// stored is told too: a caller sees no length of an array, and would have to show it each time.
fn put_behind<const N: usize>(first: u8, bytes: [u8; N], at: usize, out: &mut [u8])
    requires { at + 1 + N ≤ length out.old }
    ensures stored { out.new ≡ sets out.old at (first ∷ bytes.entry) }
    ensures size { length bytes.entry ≡ N }
{
    out[at] = first;
    put_array(bytes, at + 1, out);
}

#[tactic(auto, using(crate::proofs::Stores::numbers_stored, crate::proofs::Stores::eighty_eight), unfolding(crate::specs::Image::eight_bytes, words::specs::Words::numbers_bytes))]
fn put_numbers(numbers: &[u64; NUMBERS], out: &mut [u8; RECORD_SIZE])
    ensures stored { out.new ≡ sets out.old 0 (numbers_image numbers.now) }
    ensures size { length (numbers_image numbers.now) ≡ 88 }
{
    for (i, x) in numbers.iter().enumerate() {
        put_array(x.to_be_bytes(), i * 8, out);
    }
}

#[tactic(auto, using(crate::proofs::Stores::behind, crate::proofs::Stores::done, crate::proofs::Stores::laid, crate::proofs::Stores::flag_stored, crate::proofs::Stores::joined_parts_size, crate::proofs::Stores::eight), unfolding(crate::specs::Image::eight_bytes))]
fn put_optional(o: Option<u64>, at: usize, out: &mut [u8])
    requires { at + 9 ≤ length out.old }
    ensures stored { out.new ≡ sets out.old at (joined_parts (optional_parts o)) }
    ensures size { length (joined_parts (optional_parts o)) ≡ 9 }
{
    let bytes = o.unwrap_or(0).to_be_bytes();
    put_behind(u8::from(o.is_some()), bytes, at, out);
}

fn put_cid(c: &ConnectionId, at: usize, out: &mut [u8])
    requires { at + 21 ≤ length out.old }
    ensures stored { out.new ≡ sets out.old at (cid_image c.now) }
    ensures size { length (cid_image c.now) ≡ 21 }
{
    put_behind(c.len, c.bytes, at, out);
}

fn put_optional_cid(o: &Optional<ConnectionId>, at: usize, out: &mut [u8])
    requires { at + 22 ≤ length out.old }
    ensures stored { out.new ≡ sets out.old at (joined_parts (optional_cid_parts o.now)) }
    ensures size { length (joined_parts (optional_cid_parts o.now)) ≡ 22 }
{
    out[at] = u8::from(o.present);
    put_cid(&o.value, at + 1, out);
}

#[tactic(auto, using(crate::proofs::Stores::joined_parts_size))]
fn put_family<const N: usize>(a: &SocketAddr<N>, at: usize, out: &mut [u8])
    requires { at + 3 + N ≤ length out.old }
    ensures stored { out.new ≡ sets out.old at (joined_parts (family_parts (of_address a.now))) }
    ensures size { length (joined_parts (family_parts (of_address a.now))) ≡ N + 3 }
{
    put_behind(u8::from(a.present), a.ip, at, out);
    put_array(a.port.to_be_bytes(), at + 1 + N, out);
}

// The parts of a record's image: up to the connection IDs, up to the address, the address, the
// reserved parameter and the order, and version information.
fn put_front(r: &TransportParameters, out: &mut [u8; RECORD_SIZE])
    ensures { out.new ≡ sets out.old 0 (joined_parts (front_parts r.now)) }
{
    put_numbers(&r.numbers, out);
    out[88] = u8::from(r.disable_active_migration);
    out[89] = u8::from(r.grease_quic_bit);
    put_optional(r.max_datagram_frame_size, 90, out);
    put_optional(r.min_ack_delay, 99, out);
}

fn put_ids(r: &TransportParameters, out: &mut [u8; RECORD_SIZE])
    ensures { out.new ≡ sets out.old 108 (joined_parts (id_parts r.now)) }
{
    let token = &r.stateless_reset_token;
    put_optional_cid(&r.original_dst_cid, 108, out);
    put_optional_cid(&r.initial_src_cid, 130, out);
    put_optional_cid(&r.retry_src_cid, 152, out);
    put_behind(u8::from(token.present), token.value.bytes, 174, out);
}

fn put_address(a: &PreferredAddress, out: &mut [u8; RECORD_SIZE])
    ensures { out.new ≡ sets out.old 191 (joined_parts (address_parts a.now)) }
{
    out[191] = u8::from(a.present);
    put_family(&a.address_v4, 192, out);
    put_family(&a.address_v6, 199, out);
    put_cid(&a.connection_id, 218, out);
    put_array(a.stateless_reset_token.bytes, 239, out);
}

fn put_rest(r: &TransportParameters, out: &mut [u8; RECORD_SIZE])
    ensures { out.new ≡ sets out.old 255 (joined_parts (rest_parts r.now)) }
{
    let reserved = &r.grease_transport_parameter;
    let order = &r.write_order;
    put_behind(
        u8::from(reserved.present),
        reserved.id.to_be_bytes(),
        255,
        out,
    );
    put_behind(reserved.payload_len, reserved.payload, 264, out);
    put_behind(u8::from(order.present), order.places, 281, out);
}

fn put_versions(v: &VersionInformation, out: &mut [u8; RECORD_SIZE])
    ensures { out.new ≡ sets out.old 304 (joined_parts (versions_parts v.now)) }
{
    out[304] = u8::from(v.present);
    put_behind(v.available_len, v.to_bytes(), 305, out);
}

// How long a record's arrays are, as their types say: behind a reference a proof does not see it.
#[inline(always)]
fn tell_sizes(r: TransportParameters)
    ensures { Sized r }
{}

/// Stores the image of a record at the front of `out`; `BufferTooShort` if there is no room.
#[tactic(auto, using(crate::proofs::Stores::image_size, crate::proofs::Stores::no_room))]
pub fn image_to(r: &TransportParameters, out: &mut [u8]) -> Result<usize, Refusal>
    ensures { (outcome_of result, out.new) ≡ store (image_of r.now) out.old }
{
    tell_sizes(*r);
    let Some(image) = out.first_chunk_mut() else {
        return Err(Refusal::BufferTooShort);
    };
    put_front(r, image);
    put_ids(r, image);
    put_address(&r.preferred_address, image);
    put_rest(r, image);
    put_versions(&r.version_information, image);
    Ok(RECORD_SIZE)
}

/// Stores the image of a connection ID at the front of `out`; `BufferTooShort` if there is no room.
#[tactic(auto, using(crate::proofs::Stores::no_room, crate::proofs::Stores::room))]
pub fn cid_to(c: ConnectionId, out: &mut [u8]) -> Result<usize, Refusal>
    ensures { (outcome_of result, out.new) ≡ store (cid_image c) out.old }
{
    if out.len() < CID_SIZE {
        return Err(Refusal::BufferTooShort);
    }
    put_cid(&c, 0, out);
    Ok(CID_SIZE)
}
