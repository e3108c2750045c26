// Writing an extension: `TransportParameters::write` of quinn's transport_parameters.rs.
#![tactic(auto)]

ghost use Rattle.std.specs.Prelude.{◌≡◌, [], ◌∷◌, ◌++◌, true, ◌+◌, ◌<◌, ◌≤◌, length, take, drop};
ghost use Rattle.refusal.specs.Outcome.{front, store};
ghost use Rattle.refusal.specs.Answer.{outcome_of};
ghost use Rattle.connection_id.specs.ConnectionId.{cid_bytes, formed_cid};
ghost use Rattle.version_information.specs.VersionInformation.{formed_versions, versions_bytes};
ghost use Rattle.catalogue.specs.Catalogue.{places, id_at};
ghost use Rattle.record.specs.Record.{is_present, least, formed_optional_cid, formed_address, formed_reserved, well_formed};
ghost use Rattle.order.specs.Order.{permutation};
ghost use Rattle.wire.specs.Wire.{put, due_value, due_number, due_number_at};
ghost use Rattle.wire.specs.Stored.{Wrote, each};
ghost use Rattle.address.specs.Address.{address_bytes};
ghost use Rattle.writer.specs.Writing.{parameter_at, concat_of, order_of, write};
ghost use Rattle.writer.specs.WritingLaws.{WritingLaws};
ghost use Rattle.writer.specs.Laid.{five, Field, Adds, RoomFor, Before, part_at, InOrder, Fit, Front, bytes_in, Ready};

use address::put_address;
use catalogue::{
    DEFAULTS, DISABLE_ACTIVE_MIGRATION, GREASE_QUIC_BIT, IDS, INITIAL_SRC_CID,
    MAX_DATAGRAM_FRAME_SIZE, MAX_EXTENSION, MIN_ACK_DELAY, NUMBERS, ORIGINAL_DST_CID, PLACES,
    PREFERRED_ADDRESS, RESERVED, RETRY_SRC_CID, STATELESS_RESET_TOKEN, STATELESS_RESET_TOKEN_ID,
    VERSION_INFORMATION, VERSION_INFORMATION_ID,
};
use connection_id::ConnectionId;
use laying::{lay_field, lay_number};
use order::is_permutation;
use record::{
    Optional, PreferredAddress, ReservedTransportParameter, ResetToken, TransportParameters,
    WriteOrder,
};
use refusal::Refusal;
use version_information::VersionInformation;
use wire::{put_bytes, put_value};

// So many bytes are copied at once.
const BLOCK: usize = 16;

// Room for any extension, and for what writers and copies store behind it.
const SCRATCH: usize = MAX_EXTENSION + 32;

// An extension in catalogue order: parameters laid one after another, and zeros behind them, so
// that zeros may be stored behind a parameter: fields are stored whole, and numbers without a
// branch on their width. Arrays of the longest extension: the library has no heap.
#[derive(Drop)]
struct Draft {
    // where the parameter of each place starts, and the last one ends
    starts: [usize; PLACES + 1],
    parts: [u8; SCRATCH],
}

// Version information as a parameter, if it is present. Gives its byte count, 0 for nothing, as the
// writers of crate wire do.
#[tactic(auto, using(crate::proofs::Parts::versions_none))]
fn put_versions(v: &VersionInformation, out: &mut [u8]) -> usize
    requires { formed_versions v.now ≡ true }
    ensures { (result, out.new)
        ≡ put (due_value v.now.present (id_at 21) (versions_bytes v.now)) out.old }
{
    if !v.present {
        return 0;
    }
    let bytes = v.to_bytes();
    put_value(true, VERSION_INFORMATION_ID, &bytes[..v.size()], out)
}

// Each lays the parameter due at a place, if it is, behind the first `at` bytes, notes where the
// next place starts, and gives that. `at` is no field, by which writing is slower; so what holds
// before a place is a clause of each, and no invariant. Four end in the same two lines: a helper
// would be longer than what it saves. Those that several places have are inlined: there a place's
// identifier is a constant.
impl Draft {
    #[inline(always)]
    fn number(&mut self, at: usize, p: usize, o: Option<u64>) -> usize
        requires { Before p at self.old }
        ensures { Adds (due_number (is_present o) (id_at p) (least o) ∷ [])
            (p + 1) at self.old result self.new }
    {
        let end = at + lay_number(o.is_some(), IDS[p], o.unwrap_or(0), &mut self.parts[at..]);
        self.starts[p + 1] = end;
        end
    }

    fn field(&mut self, at: usize, p: usize, due: bool, id: u64, n: usize, v: &[u8]) -> usize
        requires { Field n v.now × Before p at self.old }
        ensures { Adds (due_value due id (take n v.now) ∷ []) (p + 1) at self.old result self.new }
    {
        let end = at + lay_field(due, id, n, v, &mut self.parts[at..]);
        self.starts[p + 1] = end;
        end
    }

    fn preferred(&mut self, at: usize, a: &PreferredAddress) -> usize
        requires { (formed_address a.now ≡ true) × Before 15 at self.old }
        ensures { Adds (due_value a.now.present (id_at 15) (address_bytes a.now) ∷ [])
            16 at self.old result self.new }
    {
        let end = at + put_address(*a, &mut self.parts[at..]);
        self.starts[PREFERRED_ADDRESS + 1] = end;
        end
    }

    fn versions(&mut self, at: usize, v: &VersionInformation) -> usize
        requires { (formed_versions v.now ≡ true) × Before 21 at self.old }
        ensures { Adds (due_value v.now.present (id_at 21) (versions_bytes v.now) ∷ [])
            22 at self.old result self.new }
    {
        let end = at + put_versions(v, &mut self.parts[at..]);
        self.starts[VERSION_INFORMATION + 1] = end;
        end
    }

    #[inline(always)]
    #[tactic(auto, unfolding(catalogue::specs::Catalogue::id_at, catalogue::specs::Catalogue::ids))]
    fn cid(&mut self, at: usize, p: usize, o: &Optional<ConnectionId>) -> usize
        requires { (formed_optional_cid o.now ≡ true) × Before p at self.old }
        ensures { Adds (due_value o.now.present (id_at p) (cid_bytes o.now.value) ∷ [])
            (p + 1) at self.old result self.new }
    {
        let n = usize::from(o.value.len);
        self.field(at, p, o.present, IDS[p], n, &o.value.bytes)
    }

    fn reserved(&mut self, at: usize, x: &ReservedTransportParameter) -> usize
        requires { (formed_reserved x.now ≡ true) × Before 11 at self.old }
        ensures { Adds
            (due_value x.now.present x.now.id (take x.now.payload_len x.now.payload) ∷ [])
            12 at self.old result self.new }
    {
        let n = usize::from(x.payload_len);
        self.field(at, RESERVED, x.present, x.id, n, &x.payload)
    }

    #[tactic(auto, using(crate::proofs::Parts::token_field), unfolding(catalogue::specs::Catalogue::id_at, catalogue::specs::Catalogue::ids))]
    fn token(&mut self, at: usize, t: &Optional<ResetToken>) -> usize
        requires { Before 12 at self.old }
        ensures { Adds (due_value t.now.present (id_at 12) t.now.value.bytes ∷ [])
            13 at self.old result self.new }
    {
        self.field(
            at,
            STATELESS_RESET_TOKEN,
            t.present,
            STATELESS_RESET_TOKEN_ID,
            ResetToken::SIZE,
            &t.value.bytes,
        )
    }

    #[inline(always)]
    #[tactic(auto, unfolding(catalogue::specs::Catalogue::id_at, catalogue::specs::Catalogue::ids))]
    fn flag(&mut self, at: usize, p: usize, flag: bool) -> usize
        requires { Before p at self.old }
        ensures { Adds (due_value flag (id_at p) [] ∷ []) (p + 1) at self.old result self.new }
    {
        self.field(at, p, flag, IDS[p], 0, &[0; 8])
    }
}

// Each lays those due at some places, then at all of them. Numbers go by place: they and their
// defaults are two tables. That the record is well formed is asked of three: a type that says so
// would wrap it for these.
impl Draft {
    fn numbers(&mut self, numbers: &[u64; NUMBERS]) -> usize
        requires { RoomFor (each (due_number_at numbers.now) 11) 0 self.old }
        ensures { Adds (each (due_number_at numbers.now) 11) 1 0 self.old result self.new }
    {
        let mut at: usize = 0;
        for p in 0..NUMBERS {
            let due = numbers[p] != DEFAULTS[p];
            at = self.number(at, p, due.then_some(numbers[p]));
        }
        at
    }

    fn places_11_to_15(&mut self, at: usize, r: &TransportParameters) -> usize
        requires { (well_formed r.now ≡ true) × RoomFor (five r.now 11) at self.old }
        ensures { Adds (five r.now 11) 12 at self.old result self.new }
    {
        let a = self.reserved(at, &r.grease_transport_parameter);
        let b = self.token(a, &r.stateless_reset_token);
        let c = self.flag(b, DISABLE_ACTIVE_MIGRATION, r.disable_active_migration);
        let d = self.number(c, MAX_DATAGRAM_FRAME_SIZE, r.max_datagram_frame_size);
        self.preferred(d, &r.preferred_address)
    }

    fn places_16_to_20(&mut self, at: usize, r: &TransportParameters) -> usize
        requires { (well_formed r.now ≡ true) × RoomFor (five r.now 16) at self.old }
        ensures { Adds (five r.now 16) 17 at self.old result self.new }
    {
        let a = self.cid(at, ORIGINAL_DST_CID, &r.original_dst_cid);
        let b = self.cid(a, INITIAL_SRC_CID, &r.initial_src_cid);
        let c = self.cid(b, RETRY_SRC_CID, &r.retry_src_cid);
        let d = self.flag(c, GREASE_QUIC_BIT, r.grease_quic_bit);
        self.number(d, MIN_ACK_DELAY, r.min_ack_delay)
    }

    fn catalogue(&mut self, r: &TransportParameters) -> usize
        requires { (well_formed r.now ≡ true)
            × RoomFor (each (parameter_at r.now) places) 0 self.old }
        ensures { Adds (each (parameter_at r.now) places) 1 0 self.old result self.new }
    {
        let a = self.numbers(&r.numbers);
        let b = self.places_11_to_15(a, r);
        let c = self.places_16_to_20(b, r);
        self.versions(c, &r.version_information)
    }
}

// Stores the first `len` bytes of what lies there. Where sixteen more are still to come behind
// them, of the `room` there is, they are copied sixteen at a time, over the end: no branch goes by
// how many of sixteen there are, which in an order of its own is guessed wrong.
fn put_part(len: usize, room: usize, part: &[u8], out: &mut [u8])
    requires { Fit len room part.now out.old }
    ensures { Front len room part.now out.old out.new }
{
    if room < len + BLOCK {
        put_few(&part[..len], out);
        return;
    }
    put_few(&part[..BLOCK], out);
    for i in (BLOCK..len).step_by(BLOCK) {
        put_few(&part[i..i + BLOCK], &mut out[i..]);
    }
}

// Copies the bytes by a loop: `copy_from_slice` is a call for each part, most of them empty, and
// tests each time that the two are apart.
#[tactic(auto, using(wire::proofs::Stored::front_paste, wire::proofs::Stored::copied))]
fn put_few(bytes: &[u8], out: &mut [u8])
    requires { length bytes.now ≤ length out.old }
    ensures { out.new ≡ front bytes.now out.old }
{
    for i in 0..bytes.len() {
        out[i] = bytes[i];
    }
}

impl Draft {
    // Copies the `n` bytes that are laid, in an order.
    fn put_ordered(&self, n: usize, order: &[u8; PLACES], out: &mut [u8]) -> usize
        requires { InOrder order.now self.now.starts self.now.parts
            × (n ≡ length (concat_of (part_at self.now.starts self.now.parts) order.now))
            × (n ≤ length out.old) }
        ensures { Wrote (length out.old)
            (concat_of (part_at self.now.starts self.now.parts) order.now) out.old result out.new }
    {
        let mut at: usize = 0;
        for place in order {
            let p = usize::from(*place);
            let from = self.starts[p];
            let len = self.starts[p + 1] - from;
            put_part(len, n - at, &self.parts[from..], &mut out[at..]);
            at += len;
        }
        at
    }

    // Copies them in the order, if one is present.
    #[tactic(auto, using(wire::proofs::Stored::stored_short, crate::proofs::Answers::laid_count))]
    fn put(&self, n: usize, order: &WriteOrder, out: &mut [u8]) -> Result<usize, Refusal>
        requires { Ready n order.now.present order.now.places self.now.starts self.now.parts }
        ensures { (outcome_of result, out.new)
            ≡ store
            (bytes_in n order.now.present order.now.places self.now.starts self.now.parts)
            out.old }
    {
        if out.len() < n {
            return Err(Refusal::BufferTooShort);
        }
        if order.present {
            return Ok(self.put_ordered(n, &order.places, out));
        }
        Ok(put_bytes(&self.parts[..n], out))
    }
}

// Whether the places can be written so: where no order is present, they are in catalogue order.
#[tactic(auto, using(order::proofs::Orders::in_catalogue), unfolding(crate::specs::Writing::order_of))]
fn is_order(w: &WriteOrder) -> bool
    ensures { result ≡ permutation (order_of w.now) }
{
    !w.present || is_permutation(&w.places)
}

/// Writes the record to the front of `out`, in its order: `IllFormed`, then `InvalidOrder`, then
/// `BufferTooShort`. It is laid in an array first, so that the count is known before a byte of
/// `out` is touched.
#[tactic(auto, using(crate::proofs::Answers::write_ill, crate::proofs::Answers::write_invalid, words::proofs::Laws::zeros_replicate, order::proofs::Orders::in_catalogue, crate::proofs::Extension::longest, crate::proofs::Places::in_catalogue_order), unfolding(crate::specs::Writing::order_of))]
pub fn write(r: &TransportParameters, out: &mut [u8]) -> Result<usize, Refusal>
    ensures { (outcome_of result, out.new) ≡ write r.now out.old }
{
    if !r.is_well_formed() {
        return Err(Refusal::IllFormed);
    }
    if !is_order(&r.write_order) {
        return Err(Refusal::InvalidOrder);
    }
    let mut draft = Draft {
        starts: [0; PLACES + 1],
        parts: [0; SCRATCH],
    };
    let n = draft.catalogue(r);
    draft.put(n, &r.write_order, out)
}

/// The bytes of a record are as many in every order; no well-formed record is longer than 385
/// bytes, and there is one of exactly so many.
#[tactic(auto, using(crate::proofs::WritingLaws::writing_laws))]
pub fn writing_laws()
    ensures { WritingLaws }
{}
