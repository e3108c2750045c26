// Parameters laid at the front of a buffer with room to spare: others that do not count are stored
// behind each, as zeros where the buffer is zeros. So a number is stored without a branch on its
// width, and a field whole. Each gives the parameter's byte count, or stores nothing and gives 0,
// as the writers of crate wire do, and `due` stands beside the value for the reason given there.
#![tactic(auto)]

ghost use Rattle.std.specs.Prelude.{◌≡◌, true, ◌&&◌, ◌++◌, ◌-◌, ◌*◌, ◌^◌, ◌<◌, ◌≤◌, length, replicate, leb, ltb};
ghost use Rattle.refusal.specs.Outcome.{pick, front};
ghost use Rattle.words.specs.Words.{bytes_of};
ghost use Rattle.varint.specs.Number.{form, tag_of, number_bytes};
ghost use Rattle.laying.specs.Laying.{laid_number, laid_field};

use varint::VarInt;
use wire::put_bytes;

// Room for any identifier, the length of a number, and any number.
const WIDEST: usize = 17;

// The tag of the shortest form, without a branch.
#[tactic(auto, using(crate::proofs::Wide::tag_sum))]
fn tag_of(x: u64) -> u32
    ensures { result ≡ tag_of x }
{
    u32::from(64 <= x) + u32::from(16384 <= x) + u32::from(1073741824 <= x)
}

// The form of a tag, and zeros behind it.
#[tactic(auto, using(crate::proofs::Wide::bits, crate::proofs::Wide::wide_bytes, crate::proofs::Wide::eight_bytes))]
fn wide_form(tag: u32, x: u64) -> [u8; 8]
    requires { (tag ≤ 3) × (x < 64 * 256 ^ (2 ^ tag - 1)) }
    ensures { result ≡ form tag x ++ replicate (8 - 2 ^ tag) 0 }
{
    let bits: u32 = 8 << tag;
    let high = ((u64::from(tag) << (bits - 2)) | x) << (64 - bits);
    high.to_be_bytes()
}

// Stores a number's shortest form, and zeros behind it, up to eight bytes; gives the form's length.
// That x is below 2^62 is asked: a `VarInt` holds any number, and a type of three functions would
// be longer than their clauses.
#[tactic(auto, using(varint::proofs::Bytes::tag_le, varint::proofs::Bytes::tag_room))]
fn put_wide(x: u64, out: &mut [u8]) -> usize
    requires { (x < 2 ^ 62) × (8 ≤ length out.old) }
    ensures count { result ≡ length (number_bytes x) }
    ensures stored { out.new ≡ front (number_bytes x ++ replicate (8 - result) 0) out.old }
    ensures room { (result ≤ 8) × (length out.new ≡ length out.old) }
{
    let tag = tag_of(x);
    out[..8].copy_from_slice(&wide_form(tag, x));
    1 << tag
}

/// A parameter that holds a number.
#[tactic(auto, using(crate::proofs::Wide::number_off, crate::proofs::Wide::number_short, crate::proofs::Wide::id_beyond, crate::proofs::Wide::number_beyond))]
pub fn lay_number(due: bool, id: u64, x: u64, out: &mut [u8]) -> usize
    ensures { (result, out.new) ≡ laid_number due id x out.old }
{
    if !due {
        return 0;
    }
    if out.len() < WIDEST {
        return 0;
    }
    if VarInt::MAX.0 < x {
        return 0;
    }
    if id < 64 {
        return lay_short(id, x, out);
    }
    if VarInt::MAX.0 < id {
        return 0;
    }
    lay_long(id, x, out)
}

// Behind an identifier of one byte; most are.
#[tactic(auto, using(crate::proofs::Wide::number_shortly))]
fn lay_short(id: u64, x: u64, out: &mut [u8]) -> usize
    requires { (id < 64) × (x < 2 ^ 62) × (17 ≤ length out.old) }
    ensures { (result, out.new) ≡ laid_number true id x out.old }
{
    let n = put_wide(x, &mut out[2..]);
    out[0] = id as u8;
    out[1] = n as u8;
    n + 2
}

// Behind any other: the zeros behind it are written over.
#[tactic(auto, using(wire::proofs::Stored::behind, crate::proofs::Wide::number_widely))]
fn lay_long(id: u64, x: u64, out: &mut [u8]) -> usize
    requires { (id < 2 ^ 62) × (x < 2 ^ 62) × (17 ≤ length out.old) }
    ensures { (result, out.new) ≡ laid_number true id x out.old }
{
    let a = put_wide(id, out);
    let b = a + 1;
    let n = put_wide(x, &mut out[b..]);
    out[a] = n as u8;
    b + n
}

/// The first `n` bytes of a field as a value; all of the field is stored.
#[tactic(auto, using(crate::proofs::Wide::field, crate::proofs::Wide::field_off, crate::proofs::Wide::no_field, crate::proofs::Wide::field_beyond, crate::proofs::Wide::field_short))]
pub fn lay_field(due: bool, id: u64, n: usize, v: &[u8], out: &mut [u8]) -> usize
    ensures { (result, out.new) ≡ laid_field due id n v.now out.old }
{
    if !due {
        return 0;
    }
    if !is_field(n, v) {
        return 0;
    }
    if VarInt::MAX.0 < id {
        return 0;
    }
    if out.len() < v.len() + 9 {
        return 0;
    }
    let a = put_wide(id, out);
    let b = a + 1;
    put_bytes(v, &mut out[b..]);
    out[a] = n as u8;
    b + n
}

fn is_field(n: usize, v: &[u8]) -> bool
    ensures { result ≡ (leb 8 (length v.now) && (ltb (length v.now) 64 && leb n (length v.now))) }
{
    (8 <= v.len()) & (v.len() < 64) & (n <= v.len())
}
