// The C interface, exported: each function of bindings/c/yuthpram.h is that of crate yuthpram, with
// its contract. They stand in two crates because one is a library or a static library, and replay
// calls them as a library's.
#![tactic(auto)]

ghost use Rattle.std.specs.Prelude.{◌≡◌};
ghost use Rattle.yuthpram.specs.Interface.{number_size, number_read, number_write, cid_read, cid_write, record_default, record_check, record_read, order_check, order_position, record_write, record_length, tidied, reported, record_new, resume_check, limit_read, ids_check};

use tally::Counts;

/// How many bytes the shortest form of a number has. Refuses 4.
#[unsafe(no_mangle)]
pub extern "C" fn yuthpram_number_size(value: u64, count: &mut usize) -> u8
    ensures { (result, count.new) ≡ number_size value count.old }
{
    yuthpram::yuthpram_number_size(value, count)
}

/// The number at the front of `src`, its byte count, and how many of these bytes its shortest form
/// would have saved: three values, each behind its own pointer. Refuses 3.
#[unsafe(no_mangle)]
pub extern "C" fn yuthpram_number_read(
    src: &[u8],
    value: &mut u64,
    count: &mut usize,
    saved: &mut usize,
) -> u8
    ensures { (result, value.new, count.new, saved.new)
        ≡ number_read src.now value.old count.old saved.old }
{
    yuthpram::yuthpram_number_read(src, value, count, saved)
}

/// Writes a number in its shortest form. Refuses 4, then 5.
#[unsafe(no_mangle)]
pub extern "C" fn yuthpram_number_write(value: u64, out: &mut [u8], count: &mut usize) -> u8
    ensures { (result, out.new, count.new) ≡ number_write value out.old count.old }
{
    yuthpram::yuthpram_number_write(value, out, count)
}

/// The connection ID behind the length byte at the front of `src`, as an image of 21 bytes, and the
/// byte count of both. Refuses 1, then 5.
#[unsafe(no_mangle)]
pub extern "C" fn yuthpram_cid_read(src: &[u8], cid: &mut [u8], count: &mut usize) -> u8
    ensures { (result, cid.new, count.new) ≡ cid_read src.now cid.old count.old }
{
    yuthpram::yuthpram_cid_read(src, cid, count)
}

/// Writes the connection ID of an image behind a length byte. Refuses 7, then 5.
#[unsafe(no_mangle)]
pub extern "C" fn yuthpram_cid_write(cid: &[u8], out: &mut [u8], count: &mut usize) -> u8
    ensures { (result, out.new, count.new) ≡ cid_write cid.now out.old count.old }
{
    yuthpram::yuthpram_cid_write(cid, out, count)
}

/// The image of the default record, in 374 bytes. Refuses 5.
#[unsafe(no_mangle)]
pub extern "C" fn yuthpram_default(record: &mut [u8]) -> u8
    ensures { (result, «record».new) ≡ record_default «record».old }
{
    yuthpram::yuthpram_default(record)
}

/// Checks a record for the side that is to read it, 0 for a client. Refuses 7, then 2.
#[unsafe(no_mangle)]
pub extern "C" fn yuthpram_check(record: &[u8], side: u8) -> u8
    ensures { result ≡ record_check «record».now side }
{
    yuthpram::yuthpram_check(record, side)
}

/// Reads an extension for the side that reads it, 0 for a client, and stores the record's image.
/// Refuses 10, 12, 2 or 11, the first that is found, then 5.
#[unsafe(no_mangle)]
pub extern "C" fn yuthpram_read(side: u8, src: &[u8], record: &mut [u8]) -> u8
    ensures { (result, «record».new) ≡ record_read side src.now «record».old }
{
    yuthpram::yuthpram_read(side, src, record)
}

/// Whether an order is a permutation of the places. Refuses 6.
#[unsafe(no_mangle)]
pub extern "C" fn yuthpram_check_order(order: &[u8]) -> u8
    ensures { result ≡ order_check order.now }
{
    yuthpram::yuthpram_check_order(order)
}

/// The position of the first entry of an order that is at fault. Its answer is a position or none:
/// 6 comes with the position, and is no refusal of the call.
#[unsafe(no_mangle)]
pub extern "C" fn yuthpram_order_fault(order: &[u8], position: &mut usize) -> u8
    ensures { (result, position.new) ≡ order_position order.now position.old }
{
    yuthpram::yuthpram_order_fault(order, position)
}

/// Writes the extension of a record, and counts its bytes. Refuses 7, 6, then 5.
#[unsafe(no_mangle)]
pub extern "C" fn yuthpram_write(record: &[u8], out: &mut [u8], count: &mut usize) -> u8
    ensures { (result, out.new, count.new) ≡ record_write «record».now out.old count.old }
{
    yuthpram::yuthpram_write(record, out, count)
}

/// How many bytes `yuthpram_write` stores of a record, in whatever order. Refuses 7.
#[unsafe(no_mangle)]
pub extern "C" fn yuthpram_length(record: &[u8], count: &mut usize) -> u8
    ensures { (result, count.new) ≡ record_length «record».now count.old }
{
    yuthpram::yuthpram_length(record, count)
}

/// Reads an extension for a side, and writes it in its one shortest form. Refuses as
/// `yuthpram_read`, then 5.
#[unsafe(no_mangle)]
pub extern "C" fn yuthpram_tidy(side: u8, src: &[u8], out: &mut [u8], count: &mut usize) -> u8
    ensures { (result, out.new, count.new) ≡ tidied side src.now out.old count.old }
{
    yuthpram::yuthpram_tidy(side, src, out, count)
}

/// Where the bytes of an extension go: five counts, in one struct, whose fields stand in the C
/// header's order: no contract sees the layout. Refuses as `yuthpram_read`, but never 5.
#[unsafe(no_mangle)]
pub extern "C" fn yuthpram_report(side: u8, src: &[u8], counts: &mut Counts) -> u8
    ensures { (result, counts.new) ≡ reported side src.now counts.old }
{
    yuthpram::yuthpram_report(side, src, counts)
}

/// Builds a record to send, of twelve settings in the header's order, the image of an ID, a draw, a
/// payload of 15 bytes at most and an order. Refuses 7 for the count of settings, 4, 7 for the ID,
/// 9, 6, then 5.
#[unsafe(no_mangle)]
pub extern "C" fn yuthpram_new(
    settings: &[u64],
    cid: &[u8],
    draw: u64,
    payload: &[u8],
    order: &[u8],
    record: &mut [u8],
) -> u8
    ensures { (result, «record».new)
        ≡ record_new settings.now cid.now draw payload.now order.now «record».old }
{
    yuthpram::yuthpram_new(settings, cid, draw, payload, order, record)
}

/// Whether 0-RTT may go on with a record, given the one remembered. Refuses 7, then 8.
#[unsafe(no_mangle)]
pub extern "C" fn yuthpram_validate_resumption_from(record: &[u8], cached: &[u8]) -> u8
    ensures { result ≡ resume_check «record».now cached.now }
{
    yuthpram::yuthpram_validate_resumption_from(record, cached)
}

/// How many connection IDs to issue to the peer of a record, well formed or not. Refuses 7 for what
/// is no image.
#[unsafe(no_mangle)]
pub extern "C" fn yuthpram_issue_cids_limit(record: &[u8], limit: &mut u64) -> u8
    ensures { (result, limit.new) ≡ limit_read «record».now limit.old }
{
    yuthpram::yuthpram_issue_cids_limit(record, limit)
}

/// Whether the peer whose record this is, is the one that packets came from. The side is ours, 0
/// for a client; without a Retry its ID is the image of 21 zeros. Refuses 7, then 13, then 14.
#[unsafe(no_mangle)]
pub extern "C" fn yuthpram_authenticate_cids(
    side: u8,
    record: &[u8],
    initial_src_cid: &[u8],
    original_dst_cid: &[u8],
    retry_seen: u8,
    retry_src_cid: &[u8],
) -> u8
    ensures { result
        ≡ ids_check side «record».now
        initial_src_cid.now original_dst_cid.now retry_seen retry_src_cid.now }
{
    yuthpram::yuthpram_authenticate_cids(
        side,
        record,
        initial_src_cid,
        original_dst_cid,
        retry_seen,
        retry_src_cid,
    )
}
