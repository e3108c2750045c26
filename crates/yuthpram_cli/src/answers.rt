// What the commands answer: each is a call of the library, and its result in words.
ghost use Rattle.std.specs.Prelude.{◌≡◌, replicate};
ghost use Rattle.varint.specs.Number.{read_number, write_number};
ghost use Rattle.order.specs.Order.{order_fault};
ghost use Rattle.reader.specs.Reading.{read};
ghost use Rattle.tidy.specs.Tidying.{tidy};
ghost use Rattle.report.specs.Report.{report};
ghost use Rattle.by_image.specs.ByImage.{image_length, image_write, image_resume, image_check, image_authenticate};
ghost use Rattle.yuthpram_cli.specs.Statuses.{status_of, fault_status, seen_of};

use crate::Status;
use catalogue::{MAX_EXTENSION, PLACES};
use differing::{SeenImages, note_differing, note_too_long};
use explain::{note_culprit, note_order_fault, note_reading, note_refusal};
use image::{CID_SIZE, RECORD_SIZE};
use reduced::note_reduced;
use refusal::Refusal;
use rules::Side;
use show::rows::ORDER_AT;
use std::alloc::Global;
use text::out::Out;
use text::shown::{Count, HexBytes};
use varint::{Decoded, VarInt};

fn refused(out: &mut Out, r: Refusal) -> Status
    ensures { result ≡ Status.Refused }
{
    note_refusal(out, r);
    Status::Refused
}

// A refusal of reading, and what is at fault.
fn unread(out: &mut Out, side: Side, r: Refusal, src: &[u8]) -> Status
    ensures { result ≡ Status.Refused }
{
    note_reading(out, side, r, src);
    Status::Refused
}

// Tells the length of a record, by its image; nothing if it has none.
fn note_length(out: &mut Out, record: &[u8]) {
    if let Ok(n) = by_image::length(record) {
        let count = Count(n);
        out.note(format_args!("length {count}\n"));
    }
}

// The first `n` of some bytes, all if there are fewer: what the library stored into a buffer.
fn first(n: usize, bytes: &[u8]) -> &[u8] {
    bytes.get(..n).unwrap_or(bytes)
}

fn say_hex(out: &mut Out, bytes: &[u8]) {
    let digits = HexBytes(bytes);
    out.say(format_args!("{digits}\n"));
}

/// Reads an extension, and shows its record: before it stands its length, on standard error.
pub fn read(out: &mut Out, side: Side, src: &[u8]) -> Status
    ensures { result ≡ status_of (read side src.now) }
{
    let parameters = match reader::read(side, src) {
        Ok(parameters) => parameters,
        Err(r) => return unread(out, side, r, src),
    };
    let mut record = [0u8; RECORD_SIZE];
    let _ = image::image_to(&parameters, &mut record);
    note_length(out, &record);
    show::show(out, &record);
    Status::Answered
}

/// Tells whether an extension is accepted.
pub fn check(out: &mut Out, side: Side, src: &[u8]) -> Status
    ensures { result ≡ status_of (read side src.now) }
{
    match reader::read(side, src) {
        Ok(_) => {
            out.say("accepted\n");
            Status::Answered
        }
        Err(r) => unread(out, side, r, src),
    }
}

// The order that the image of a record holds.
fn order_in(record: &[u8; RECORD_SIZE]) -> &[u8] {
    &record[ORDER_AT..ORDER_AT + PLACES]
}

/// Tells what is wrong with an order.
pub fn order_fault(out: &mut Out, order: &[u8]) -> Status
    ensures { result ≡ fault_status (order_fault order.now) }
{
    match order::order_fault(order) {
        None => {
            out.say("a permutation of 0 to 21\n");
            Status::Answered
        }
        Some(_) => {
            note_refusal(out, Refusal::InvalidOrder);
            note_order_fault(out, order);
            Status::Refused
        }
    }
}

/// Writes a record, by its image.
pub fn write(out: &mut Out, record: &[u8; RECORD_SIZE]) -> Status
    ensures { result
        ≡ status_of (image_write «record».now (replicate MAX_EXTENSION 0)).0 }
{
    let mut bytes = [0u8; MAX_EXTENSION];
    match by_image::write(record, &mut bytes) {
        Ok(n) => {
            note_length(out, record);
            say_hex(out, first(n, &bytes));
            Status::Answered
        }
        Err(r) => {
            note_refusal(out, r);
            if let Refusal::InvalidOrder = r {
                note_order_fault(out, order_in(record));
            }
            Status::Refused
        }
    }
}

/// Tells the length of a record, by its image.
pub fn length(out: &mut Out, record: &[u8]) -> Status
    ensures { result ≡ status_of (image_length «record».now) }
{
    match by_image::length(record) {
        Ok(n) => {
            let count = Count(n);
            out.say(format_args!("{count}\n"));
            Status::Answered
        }
        Err(r) => refused(out, r),
    }
}

/// Tells whether a record may be resumed to from a remembered one, by the images of both, and if
/// not, which limits it reduces.
pub fn validate_resumption_from(out: &mut Out, record: &[u8], cached: &[u8]) -> Status
    ensures { result ≡ status_of (image_resume «record».now cached.now) }
{
    let Err(r) = by_image::validate_resumption_from(record, cached) else {
        out.say("accepted\n");
        return Status::Answered;
    };
    note_refusal(out, r);
    if let Refusal::LimitReduced = r {
        note_reduced(out, record, cached);
    } else if by_image::length(cached).is_err() {
        out.note("it is the remembered one\n");
    }
    Status::Refused
}

/// Tells whether the peer with this record, by its image, is the one that packets came from, and if
/// not, which IDs differ.
pub fn authenticate_cids(out: &mut Out, side: Side, record: &[u8], seen: &SeenImages) -> Status
    ensures { result ≡ status_of (image_authenticate side «record».now (seen_of seen.now)) }
{
    let answer = by_image::authenticate_cids(
        side,
        record,
        &seen.initial_src_cid,
        &seen.original_dst_cid,
        seen.retry_src_cid.is_some(),
        &seen.retry_src_cid.unwrap_or([0; CID_SIZE]),
    );
    let Err(r) = answer else {
        out.say("accepted\n");
        return Status::Answered;
    };
    note_refusal(out, r);
    if let Refusal::IllFormed = r {
        note_too_long(out, seen);
    } else {
        note_differing(out, side, record, seen);
    }
    Status::Refused
}

// Which rule a record breaks: that which its extension breaks, or that no family that is given is
// all zero.
fn note_rule(out: &mut Out, side: Side, record: &[u8]) {
    let mut bytes = [0u8; MAX_EXTENSION];
    if let Ok(n) = by_image::write(record, &mut bytes) {
        note_culprit(out, side, first(n, &bytes));
    }
}

/// Checks a record, by its image.
pub fn check_record(out: &mut Out, side: Side, record: &[u8]) -> Status
    ensures { result ≡ status_of (image_check «record».now side) }
{
    let Err(r) = by_image::check(record, side) else {
        out.say("legal\n");
        return Status::Answered;
    };
    note_refusal(out, r);
    if let Refusal::IllegalValue = r {
        note_rule(out, side, record);
    }
    Status::Refused
}

/// Tidies an extension, and tells how many bytes that saves and leaves.
pub fn tidy(out: &mut Out, side: Side, src: &[u8]) -> Status
    ensures { result ≡ status_of (tidy side src.now (replicate MAX_EXTENSION 0)).0 }
{
    let mut bytes = [0u8; MAX_EXTENSION];
    match tidy::tidy(side, src, &mut bytes) {
        Ok(n) => {
            say_hex(out, first(n, &bytes));
            if let Some(saved) = src.len().checked_sub(n) {
                let saved = Count(saved);
                out.note(format_args!("{saved} saved, "));
            }
            let left = Count(n);
            out.note(format_args!("{left} left\n"));
            Status::Answered
        }
        Err(r) => unread(out, side, r, src),
    }
}

/// Shows where the bytes of an extension go.
pub fn report(out: &mut Out, alloc: Global, side: Side, src: &[u8]) -> Status
    ensures { result ≡ status_of (report side src.now) }
{
    match report::report(side, src) {
        Ok(counts) => {
            picture::show(out, alloc, src, counts);
            Status::Answered
        }
        Err(r) => unread(out, side, r, src),
    }
}

// A number that was read: its bytes, and how many of them its shortest form saves.
fn say_number(out: &mut Out, read: Decoded) {
    let x = read.value;
    let count = Count(read.count);
    let saved = read.saved;
    if saved == 0 {
        out.say(format_args!("{x} ({count}, the shortest form)\n"));
    } else {
        out.say(format_args!("{x} ({count}, {saved} saved by the shortest form)\n"));
    }
}

/// Decodes the number that some bytes begin with: its value, how many bytes it takes, and how many
/// its shortest form saves.
pub fn decode(out: &mut Out, src: &[u8]) -> Status
    ensures { result ≡ status_of (read_number src.now) }
{
    match VarInt::decode(src) {
        Ok(read) => {
            say_number(out, read);
            Status::Answered
        }
        Err(r) => refused(out, r),
    }
}

/// Encodes a number in its shortest form.
pub fn encode(out: &mut Out, x: u64) -> Status
    ensures { result ≡ status_of (write_number x (replicate 8 0)).0 }
{
    let mut bytes = [0u8; 8];
    match VarInt(x).encode(&mut bytes) {
        Ok(n) => {
            say_hex(out, first(n, &bytes));
            Status::Answered
        }
        Err(r) => refused(out, r),
    }
}
