// Runs the sample numbers of RFC 9000 appendix A.1, the boundaries of the number forms, and
// connection IDs, and says what came out.
#![tactic(auto)]

use connection_id::ConnectionId;
use refusal::Refusal;
use std::io;
use varint::{Decoded, VarInt};

fn show(rt: &HostRuntime, name: &str, ok: bool) -> io::Result<()> {
    let verdict = if ok { "ok" } else { "FAILED" };
    println!(rt; "{name}: {verdict}")
}

// A number that reads as `value` and takes `count` bytes, `saved` of which its shortest form would
// have saved.
fn reads(src: &[u8], value: u64, count: usize, saved: usize) -> bool {
    VarInt::decode(src)
        == Ok(Decoded {
            value,
            count,
            saved,
        })
}

fn is_cut(src: &[u8]) -> bool {
    VarInt::decode(src) == Err(Refusal::UnexpectedEnd)
}

// A number that is written into exactly `size` bytes and read back; a buffer one byte short is
// refused and left alone.
fn round_trip(value: u64, size: usize) -> bool {
    let Some(short) = size.checked_sub(1) else {
        return false;
    };
    is_too_short(value, short) && fills(value, size)
}

fn is_too_short(value: u64, short: usize) -> bool {
    let mut out = [0xeeu8; 8];
    let Some(part) = out.get_mut(..short) else {
        return false;
    };
    VarInt(value).encode(part) == Err(Refusal::BufferTooShort) && out == [0xee; 8]
}

fn fills(value: u64, size: usize) -> bool {
    let mut out = [0xeeu8; 9];
    let Some(part) = out.get_mut(..size) else {
        return false;
    };
    VarInt(value).encode(part) == Ok(size)
        && out.get(size) == Some(&0xee)
        && reads(&out, value, size, 0)
}

fn numbers(rt: &HostRuntime) -> io::Result<()> {
    show(
        rt,
        "A.1 eight bytes",
        reads(
            b"\xc2\x19\x7c\x5e\xff\x14\xe8\x8c",
            151288809941952652,
            8,
            0,
        ),
    )?;
    show(
        rt,
        "A.1 four bytes",
        reads(b"\x9d\x7f\x3e\x7d", 494878333, 4, 0),
    )?;
    show(rt, "A.1 two bytes", reads(b"\x7b\xbd", 15293, 2, 0))?;
    show(rt, "A.1 one byte", reads(b"\x25", 37, 1, 0))?;
    show(rt, "A.1 longer than needed", reads(b"\x40\x25", 37, 2, 1))
}

fn boundaries(rt: &HostRuntime) -> io::Result<()> {
    let samples: [(&str, u64, usize); 8] = [
        ("0", 0, 1),
        ("63", 63, 1),
        ("64", 64, 2),
        ("16383", 16383, 2),
        ("16384", 16384, 4),
        ("2^30 - 1", 1073741823, 4),
        ("2^30", 1073741824, 8),
        ("2^62 - 1", 4611686018427387903, 8),
    ];
    for (name, value, size) in samples {
        show(rt, name, round_trip(value, size))?;
    }
    Ok(())
}

fn cuts(rt: &HostRuntime) -> io::Result<()> {
    show(rt, "no byte", is_cut(b""))?;
    show(rt, "tag 1 cut", is_cut(b"\x40"))?;
    show(rt, "tag 2 cut", is_cut(b"\x80\x00\x00"))?;
    show(rt, "tag 3 cut", is_cut(b"\xc0\x00\x00\x00\x00\x00\x00"))?;
    let mut none = [0xeeu8; 1];
    show(
        rt,
        "2^62 is refused with 4 before 5",
        VarInt(4611686018427387904).encode(&mut none) == Err(Refusal::VarIntBoundsExceeded)
            && none == [0xee],
    )
}

// An ID that is refused as malformed.
fn is_malformed(src: &[u8]) -> bool {
    ConnectionId::decode_long(src) == Err(Refusal::Malformed)
}

fn cids(rt: &HostRuntime) -> io::Result<()> {
    show(rt, "ID without a length byte", is_malformed(b""))?;
    show(rt, "ID cut", is_malformed(b"\x02\xaa"))?;
    show(
        rt,
        "ID of 21 bytes",
        is_malformed(b"\x15aaaaaaaaaaaaaaaaaaaaa"),
    )?;
    show(
        rt,
        "empty ID",
        ConnectionId::decode_long(b"\x00") == Ok((ConnectionId::empty(), 1)),
    )?;
    show(
        rt,
        "ID of 2 bytes",
        match ConnectionId::decode_long(b"\x02\xaa\xbb\xcc") {
            Ok((c, 3)) => Ok(c) == ConnectionId::new(b"\xaa\xbb"),
            _ => false,
        },
    )
}

fn main(rt: HostRuntime) -> io::Result<()> {
    numbers(&rt)?;
    boundaries(&rt)?;
    cuts(&rt)?;
    cids(&rt)
}
