// Connection IDs, and their form behind a length byte (RFC 9000 section 17.2): `ConnectionId` of
// quinn's shared.rs.
#![tactic(auto)]

ghost use Rattle.std.specs.Prelude.{◌≡◌, [], ◌≤◌, length};
ghost use Rattle.connection_id.specs.ConnectionId.{cid_of, formed_cid, same_cid, make_cid, read_cid, write_cid};
ghost use Rattle.refusal.specs.Answer.{outcome_of};
ghost use Rattle.connection_id.specs.ConnectionIdLaws.{ConnectionIdLaws};

use refusal::Refusal;
use words::zero_from;

/// Fixed memory: an array with a length, as in the Rust.
#[derive(Clone, Copy, Debug, Default, PartialEq, Eq)]
pub struct ConnectionId {
    /// how many bytes the ID has
    pub len: u8,
    /// the ID, then zeros
    pub bytes: [u8; 20],
}

impl ConnectionId {
    /// The longest ID, in bytes.
    pub const MAX_SIZE: usize = 20;

    /// The ID of no bytes.
    #[tactic(auto, using(crate::proofs::Defaults::cid_default))]
    pub fn empty() -> ConnectionId
        ensures { result ≡ cid_of [] }
    {
        ConnectionId::default()
    }

    /// The ID of these bytes; `IllFormed` if there are more than 20.
    #[tactic(auto, using(std::proofs::lemmas::Bool::Decides::nat_tests), unfolding(crate::specs::ConnectionId::make_cid))]
    pub fn new(bytes: &[u8]) -> Result<ConnectionId, Refusal>
        ensures { outcome_of result ≡ make_cid bytes.now }
    {
        if ConnectionId::MAX_SIZE < bytes.len() {
            return Err(Refusal::IllFormed);
        }
        Ok(cid_of(bytes))
    }

    /// At most 20 bytes, and zeros after them.
    #[tactic(auto, using(std::proofs::lemmas::Bool::Decides::nat_tests), unfolding(refusal::specs::Outcome::all, crate::specs::ConnectionId::formed_cid))]
    pub fn is_well_formed(self) -> bool
        ensures { result ≡ formed_cid self }
    {
        let n = usize::from(self.len);
        n <= ConnectionId::MAX_SIZE && zero_from(&self.bytes, n)
    }

    /// Whether two IDs are the same, well formed or not: `==`, with a promise in the definitions'
    /// terms.
    #[tactic(auto, unfolding(crate::specs::ConnectionId::same_cid))]
    pub fn equals(self, other: ConnectionId) -> bool
        ensures { result ≡ same_cid self other }
    {
        self == other
    }

    /// The ID behind the length byte at the front of `src`, and the byte count of both; `Malformed`
    /// if it is too long or cut off.
    #[tactic(auto, using(crate::proofs::Answers::read_none, crate::proofs::Answers::read_long, crate::proofs::Answers::read_short, crate::proofs::Answers::read_whole))]
    pub fn decode_long(src: &[u8]) -> Result<(ConnectionId, usize), Refusal>
        ensures { outcome_of result ≡ read_cid src.now }
    {
        if src.is_empty() {
            return Err(Refusal::Malformed);
        }
        let n = usize::from(src[0]);
        if ConnectionId::MAX_SIZE < n {
            return Err(Refusal::Malformed);
        }
        let end = n + 1;
        if src.len() < end {
            return Err(Refusal::Malformed);
        }
        Ok((cid_of(&src[1..end]), end))
    }

    /// Writes the length byte and the ID to the front of `out`: `IllFormed` for an ID that is not
    /// well formed, then `BufferTooShort`.
    #[tactic(auto, using(crate::proofs::Laws::formed_within, crate::proofs::Answers::write_ill, crate::proofs::Answers::write_short, crate::proofs::Answers::write_whole))]
    pub fn encode_long(self, out: &mut [u8]) -> Result<usize, Refusal>
        ensures { (outcome_of result, out.new) ≡ write_cid self out.old }
    {
        if !self.is_well_formed() {
            return Err(Refusal::IllFormed);
        }
        let n = usize::from(self.len);
        let end = n + 1;
        if out.len() < end {
            return Err(Refusal::BufferTooShort);
        }
        let id = &self.bytes[..n];
        out[0] = self.len;
        out[1..end].copy_from_slice(id);
        Ok(end)
    }
}

// The ID of at most 20 bytes.
#[tactic(auto, unfolding(crate::specs::ConnectionId::cid_of))]
fn cid_of(v: &[u8]) -> ConnectionId
    requires { length v.now ≤ 20 }
    ensures { result ≡ cid_of v.now }
{
    let mut bytes = [0u8; 20];
    bytes[..v.len()].copy_from_slice(v);
    ConnectionId {
        len: v.len() as u8,
        bytes,
    }
}

/// A written ID is read back, whatever follows; what is read is well formed, within the input and
/// in its only form; two IDs are the same exactly if they are equal, well-formed ones exactly if
/// their bytes are.
#[tactic(auto, using(crate::proofs::ConnectionIdLaws::connection_id_laws))]
pub fn connection_id_laws()
    ensures { ConnectionIdLaws }
{}
