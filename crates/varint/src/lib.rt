// Variable-length integers (RFC 9000 section 16): `VarInt` of quinn's varint.rs.
#![tactic(auto)]

ghost use Rattle.std.specs.Prelude.{◌≡◌, ◌/◌, ◌%◌, ◌^◌, ◌<◌, ◌≤◌, length, get_or};
ghost use Rattle.refusal.specs.Outcome.{accepted, front};
ghost use Rattle.words.specs.Words.{bytes_of};
ghost use Rattle.varint.specs.Number.{number_bytes, with_saved, read_number, read_wide, write_number, convert_number, size_number};
ghost use Rattle.varint.specs.Answer.{convert_outcome};
ghost use Rattle.refusal.specs.Answer.{outcome_of};
ghost use Rattle.varint.specs.NumberLaws.{NumberLaws};

use refusal::Refusal;
use words::bytes_at;

/// A number for the wire. One of 2^62 or more has no form there: size and writing refuse it with
/// `VarIntBoundsExceeded`, and so does `try_from`.
#[derive(Clone, Copy, Debug, PartialEq, Eq)]
pub struct VarInt(pub u64);

/// What reading gives: the number, how many bytes it was read from, and how many of these its
/// shortest form would have saved.
#[derive(Clone, Copy, Debug, PartialEq, Eq)]
pub struct Decoded {
    /// the number
    pub value: u64,
    /// in bytes
    pub count: usize,
    /// in bytes
    pub saved: usize,
}

impl From<u32> for VarInt {
    ghost from_gives = { λ x v. v.0 ≡ x };

    fn from(x: u32) -> VarInt {
        VarInt(u64::from(x))
    }
}

impl TryFrom<u64> for VarInt {
    type Error = Refusal;

    ghost try_from_gives = { λ x r. convert_outcome r ≡ convert_number x };

    #[tactic(auto, using(std::proofs::lemmas::Bool::Decides::nat_tests), unfolding(crate::specs::Number::convert_number))]
    fn try_from(x: u64) -> Result<VarInt, Refusal> {
        if VarInt::MAX.0 < x {
            return Err(Refusal::VarIntBoundsExceeded);
        }
        Ok(VarInt(x))
    }
}

impl From<VarInt> for u64 {
    ghost from_gives = { λ v x. x ≡ v.0 };

    fn from(v: VarInt) -> u64 {
        v.0
    }
}

impl VarInt {
    /// The largest number that the wire form carries.
    pub const MAX: VarInt = VarInt((1 << 62) - 1);

    /// The longest form, in bytes.
    pub const MAX_SIZE: usize = 8;

    /// How many bytes the shortest form has.
    #[tactic(auto, using(std::proofs::lemmas::Bool::Decides::nat_tests), unfolding(crate::specs::Number::size_number))]
    pub fn size(self) -> Result<usize, Refusal>
        ensures { outcome_of result ≡ size_number self.0 }
    {
        let x = self.0;
        if VarInt::MAX.0 < x {
            return Err(Refusal::VarIntBoundsExceeded);
        }
        Ok(size_of(x))
    }

    /// The number at the front of `src`; `UnexpectedEnd` if it is cut off. The one-byte form stands
    /// apart: most numbers are short.
    #[tactic(auto, using(crate::proofs::Bytes::read_none))]
    pub fn decode(src: &[u8]) -> Result<Decoded, Refusal>
        ensures { outcome_of result ≡ read_number src.now }
    {
        if src.is_empty() {
            return Err(Refusal::UnexpectedEnd);
        }
        let b = src[0];
        let tag = b >> 6;
        if tag == 0 {
            return Ok(Decoded {
                value: u64::from(b),
                count: 1,
                saved: 0,
            });
        }
        decode_longer(tag, src)
    }

    /// The same where eight bytes are there, with no branch on the number's width. Zeros if there
    /// are fewer, and no Option: its caller has counted the bytes, and would branch once more.
    #[tactic(auto, using(crate::proofs::Word::read_front))]
    pub fn decode_wide(src: &[u8]) -> Decoded
        ensures { (accepted result ≡ read_wide src.now) × (result.count ≤ 8) }
    {
        if src.len() < VarInt::MAX_SIZE {
            return Decoded {
                value: 0,
                count: 0,
                saved: 0,
            };
        }
        wide_of(u64::from_be_bytes(bytes_at(src, 0)))
    }

    /// Writes the shortest form to the front of `out`; `BufferTooShort` if there is no room.
    #[tactic(auto, using(refusal::proofs::Laws::raised, crate::proofs::Laws::write_refused, crate::proofs::Laws::write_sized), unfolding(crate::specs::Number::write_number, refusal::specs::Outcome::store))]
    pub fn encode(self, out: &mut [u8]) -> Result<usize, Refusal>
        ensures { (outcome_of result, out.new) ≡ write_number self.0 out.old }
    {
        let size = self.size()?;
        if out.len() < size {
            return Err(Refusal::BufferTooShort);
        }
        Ok(put(self.0, out))
    }
}

/// How many bytes the shortest form has; 8 for a value that has none, since this never fails:
/// `VarInt::size` refuses it.
#[tactic(auto, using(crate::proofs::Bytes::size_1, crate::proofs::Bytes::size_2, crate::proofs::Bytes::size_4, crate::proofs::Bytes::size_8))]
pub fn size_of(x: u64) -> usize
    ensures { result ≡ length (number_bytes x) }
{
    if x < 64 {
        1
    } else if x < 16384 {
        2
    } else if x < 1073741824 {
        4
    } else {
        VarInt::MAX_SIZE
    }
}

// A number read from so many bytes, which are as many as its shortest form has, or more.
fn with_saved(value: u64, count: usize) -> Decoded
    requires { length (number_bytes value) ≤ count }
    ensures { result ≡ with_saved value count }
{
    Decoded {
        value,
        count,
        saved: count - size_of(value),
    }
}

// The bits behind the tag.
fn untagged(word: u64) -> u64
    ensures { result ≡ word % 2 ^ 62 }
{
    word & VarInt::MAX.0
}

// The number at the front of eight bytes, which make `word`.
#[tactic(auto, using(crate::proofs::Word::bits_range, crate::proofs::Word::word_room))]
fn wide_of(word: u64) -> Decoded
    ensures { (accepted result ≡ read_number (bytes_of 8 word)) × (result.count ≤ 8) }
{
    let tag = (word >> 62) as u32;
    let bits = 8u32 << tag;
    with_saved(untagged(word) >> (64 - bits), 1usize << tag)
}

// A number of two, four or eight bytes, as `tag` of the first byte says: a `match`, since const
// arguments are constants.
fn decode_longer(tag: u8, src: &[u8]) -> Result<Decoded, Refusal>
    requires { (0 < length src.now) × (tag ≡ get_or src.now 0 0 / 64) × (0 < tag) }
    ensures { outcome_of result ≡ read_number src.now }
{
    match tag {
        1 => read_form::<2>(src),
        2 => read_form::<4>(src),
        _ => read_form::<8>(src),
    }
}

// The number at the front, whose form has N bytes. The tag is no part of it.
#[tactic(auto, using(crate::proofs::Bytes::read_short, crate::proofs::Bytes::read_sized, crate::proofs::Bytes::bits_room, crate::proofs::Bytes::low_end))]
fn read_form<const N: usize>(src: &[u8]) -> Result<Decoded, Refusal>
    requires { (0 < N) × (N ≤ 8) × (0 < length src.now) × (N ≡ 2 ^ (get_or src.now 0 0 / 64)) }
    ensures { outcome_of result ≡ read_number src.now }
{
    if src.len() < N {
        return Err(Refusal::UnexpectedEnd);
    }
    let mut bytes = [0u8; 8];
    bytes[8 - N..].copy_from_slice(&src[..N]);
    Ok(with_saved(
        u64::from_be_bytes(bytes) & (VarInt::MAX.0 >> (64 - 8 * N)),
        N,
    ))
}

// Stores bytes, for which there is room, at the front, and gives their number.
#[tactic(auto, unfolding(refusal::specs::Outcome::front))]
fn store<const N: usize>(bytes: [u8; N], out: &mut [u8]) -> usize
    requires { N ≤ length out.old }
    ensures { (result ≡ N) × (out.new ≡ front bytes.entry out.old) }
{
    out[..N].copy_from_slice(&bytes);
    N
}

// Stores the shortest form, for which there is room, and gives its length.
#[tactic(auto, using(crate::proofs::Bytes::size_1, crate::proofs::Bytes::size_2, crate::proofs::Bytes::size_4, crate::proofs::Bytes::size_8))]
fn put(x: u64, out: &mut [u8]) -> usize
    requires { (x < 2 ^ 62) × (length (number_bytes x) ≤ length out.old) }
    ensures { (result ≡ length (number_bytes x)) × (out.new ≡ front (number_bytes x) out.old) }
{
    if x < 1 << 6 {
        store([x as u8], out)
    } else if x < 1 << 14 {
        store(((1 << 14) | x as u16).to_be_bytes(), out)
    } else if x < 1 << 30 {
        store(((2 << 30) | x as u32).to_be_bytes(), out)
    } else {
        store(((3 << 62) | x).to_be_bytes(), out)
    }
}

/// A written number is read back, in every form that has room for it and whatever follows; what is
/// read is below 2^62, within the input, and as long as its shortest form and what this would have
/// saved.
#[tactic(auto, using(crate::proofs::NumberLaws::number_laws))]
pub fn number_laws()
    ensures { NumberLaws }
{}
