// Parameters on the wire: one writer for each kind of value, for writing and for tidying. Each
// stores all of its parameter at the front of `out` and gives its byte count, or stores nothing and
// gives 0: if it is not due, if there is no room, or if the wire form has no such number. It is no
// `Option`: 0 is how many bytes were stored, and callers add the counts up, due or not, without a
// branch. `due` stands beside the value: an `Option` of the value would be made by a caller that
// tests a default, only to be taken apart here; and a struct of identifier and value would be one
// for each call.
#![tactic(auto)]

ghost use Rattle.std.specs.Prelude.{◌≡◌, [], true, ◌<◌, ◌≤◌, length};
ghost use Rattle.std.specs.Result.{IfOk, OnErr};
ghost use Rattle.catalogue.specs.Catalogue.{parameter};
ghost use Rattle.wire.specs.Wire.{put, head_of, Headed, due_value, due_number};

use refusal::Refusal;
use varint::VarInt;

/// Copies the bytes, by a loop: `copy_from_slice` tests each time that the two are apart, and asks
/// for `memmove` from outside.
#[tactic(auto, using(crate::proofs::Put::put_none, crate::proofs::Stored::copied))]
pub fn put_bytes(bytes: &[u8], out: &mut [u8]) -> usize
    ensures { (result, out.new) ≡ put bytes.now out.old }
{
    if out.len() < bytes.len() {
        return 0;
    }
    for i in 0..bytes.len() {
        out[i] = bytes[i];
    }
    bytes.len()
}

/// A parameter whose value is copied.
#[tactic(auto, using(crate::proofs::Put::value_off))]
pub fn put_value(due: bool, id: u64, v: &[u8], out: &mut [u8]) -> usize
    ensures { (result, out.new) ≡ put (due_value due id v.now) out.old }
{
    if !due {
        return 0;
    }
    put_due(id, v, out)
}

// One that is due; a function of its own, so that callers only test whether it is. Most identifiers
// and lengths are one byte.
#[tactic(auto, using(crate::proofs::Put::due_short))]
fn put_due(id: u64, v: &[u8], out: &mut [u8]) -> usize
    ensures { (result, out.new) ≡ put (due_value true id v.now) out.old }
{
    if id < 64 && v.len() < 64 {
        return put_short(id, v, out);
    }
    put_long(id, v, out)
}

#[tactic(auto, using(crate::proofs::Put::short_none))]
fn put_short(id: u64, v: &[u8], out: &mut [u8]) -> usize
    requires { (id < 64) × (length v.now < 64) }
    ensures { (result, out.new) ≡ put (parameter id v.now) out.old }
{
    let n = v.len();
    if out.len() < n + 2 {
        return 0;
    }
    put_bytes(v, &mut out[2..]);
    out[0] = id as u8;
    out[1] = n as u8;
    n + 2
}

// Identifier and length, for which there is room.
fn put_head(id: u64, len: u64, out: &mut [u8]) -> Result<usize, Refusal>
    requires { 16 ≤ length out.old }
    ensures stored { IfOk result (λ n. Headed id len n out.new) }
    ensures refused { OnErr result (head_of id len ≡ []) }
{
    let a = VarInt(id).encode(out)?;
    let b = VarInt(len).encode(&mut out[a..])?;
    Ok(a + b)
}

#[tactic(auto, using(crate::proofs::Put::long_nothing, crate::proofs::Put::long_none))]
fn put_long(id: u64, v: &[u8], out: &mut [u8]) -> usize
    ensures { (result, out.new) ≡ put (due_value true id v.now) out.old }
{
    let mut head = [0u8; 16];
    let Ok(n) = put_head(id, v.len() as u64, &mut head) else {
        return 0;
    };
    if out.len() < n || out.len() - n < v.len() {
        return 0;
    }
    put_bytes(&head[..n], out);
    put_bytes(v, &mut out[n..]);
    n + v.len()
}

/// A parameter that holds a number.
#[tactic(auto, using(crate::proofs::Put::number_off, crate::proofs::Put::kept_within))]
pub fn put_number(due: bool, id: u64, x: u64, out: &mut [u8]) -> usize
    ensures { (result, out.new) ≡ put (due_number due id x) out.old }
{
    if !due {
        return 0;
    }
    if id < 64 {
        return put_short_number(id, x, out);
    }
    let mut value = [0u8; 8];
    let Ok(n) = VarInt(x).encode(&mut value) else {
        return 0;
    };
    put_due(id, &value[..n], out)
}

#[tactic(auto, using(crate::proofs::Put::number_few, crate::proofs::Put::number_whole))]
fn put_short_number(id: u64, x: u64, out: &mut [u8]) -> usize
    requires { id < 64 }
    ensures { (result, out.new) ≡ put (due_number true id x) out.old }
{
    if out.len() < 2 {
        return 0;
    }
    let Ok(n) = VarInt(x).encode(&mut out[2..]) else {
        return 0;
    };
    out[0] = id as u8;
    out[1] = n as u8;
    n + 2
}
