// The operations on a record by its image: what the C interface and the command-line tool call.
// Bytes that are no image are `IllFormed`, before anything else is looked at. An image is asked for
// first, and its record made where it is used: out of a `Result`, by `?` too, it is copied.
#![tactic(auto)]

ghost use Rattle.std.specs.Prelude.{◌≡◌};
ghost use Rattle.refusal.specs.Answer.{outcome_of};
ghost use Rattle.by_image.specs.ByImage.{image_read, image_check, image_write, image_length, image_resume, seen_from, image_authenticate};

use authentication::SeenConnectionIds;
use record::Optional;
use refusal::Refusal;
use rules::Side;

/// Reads an extension, and stores the record's image; `BufferTooShort` if there is no room for it.
/// A match: by `?` the record is copied more often.
#[tactic(auto, unfolding(crate::specs::ByImage::image_read, crate::specs::ByImage::record_store))]
pub fn read(side: Side, src: &[u8], record: &mut [u8]) -> Result<usize, Refusal>
    ensures { (outcome_of result, «record».new) ≡ image_read side src.now «record».old }
{
    match reader::read(side, src) {
        Ok(r) => image::image_to(&r, record),
        Err(refusal) => Err(refusal),
    }
}

/// Checks a record for the side that is to read it, as `rules::check`.
#[tactic(auto, using(refusal::proofs::Laws::raised), unfolding(crate::specs::ByImage::image_check))]
pub fn check(record: &[u8], side: Side) -> Result<(), Refusal>
    ensures { outcome_of result ≡ image_check «record».now side }
{
    let image = imaged::image_in(record)?;
    let r = imaged::record_at(image);
    rules::check(side, &r)
}

/// Writes a record to the front of `out`, as `writer::write`.
#[tactic(auto, using(refusal::proofs::Laws::raised), unfolding(crate::specs::ByImage::image_write))]
pub fn write(record: &[u8], out: &mut [u8]) -> Result<usize, Refusal>
    ensures { (outcome_of result, out.new) ≡ image_write «record».now out.old }
{
    let image = imaged::image_in(record)?;
    let r = imaged::record_at(image);
    writer::write(&r, out)
}

/// How many bytes writing a record stores, as `length::length`.
#[tactic(auto, using(refusal::proofs::Laws::raised), unfolding(crate::specs::ByImage::image_length))]
pub fn length(record: &[u8]) -> Result<usize, Refusal>
    ensures { outcome_of result ≡ image_length «record».now }
{
    let image = imaged::image_in(record)?;
    let r = imaged::record_at(image);
    length::length(&r)
}

/// Whether 0-RTT may go on with a record, given the one remembered, as
/// `resumption::validate_resumption_from`.
#[tactic(auto, using(refusal::proofs::Laws::raised), unfolding(crate::specs::ByImage::image_resume, crate::specs::ByImage::resume_from))]
pub fn validate_resumption_from(record: &[u8], cached: &[u8]) -> Result<(), Refusal>
    ensures { outcome_of result ≡ image_resume «record».now cached.now }
{
    let record = imaged::image_in(record)?;
    let cached = imaged::image_in(cached)?;
    let new = imaged::record_at(record);
    let old = imaged::record_at(cached);
    resumption::validate_resumption_from(&new, &old)
}

// The IDs that packets carried, by their images; a flag says whether there was a Retry.
#[tactic(auto, unfolding(crate::specs::ByImage::seen_from))]
fn seen_from(
    initial_src_cid: &[u8],
    original_dst_cid: &[u8],
    retry_seen: bool,
    retry_src_cid: &[u8],
) -> Result<SeenConnectionIds, Refusal>
    ensures { outcome_of result
        ≡ seen_from initial_src_cid.now original_dst_cid.now retry_seen retry_src_cid.now }
{
    let initial_src_cid = imaged::cid_from(initial_src_cid)?;
    let original_dst_cid = imaged::cid_from(original_dst_cid)?;
    let value = imaged::cid_from(retry_src_cid)?;
    Ok(SeenConnectionIds {
        initial_src_cid,
        original_dst_cid,
        retry_src_cid: Optional {
            present: retry_seen,
            value,
        },
    })
}

/// Whether the peer whose record this is, is the one that packets came from, as
/// `authentication::authenticate_cids`.
#[tactic(auto, using(refusal::proofs::Laws::raised), unfolding(crate::specs::ByImage::image_authenticate))]
pub fn authenticate_cids(
    side: Side,
    record: &[u8],
    initial_src_cid: &[u8],
    original_dst_cid: &[u8],
    retry_seen: bool,
    retry_src_cid: &[u8],
) -> Result<(), Refusal>
    ensures { outcome_of result
        ≡ image_authenticate side «record».now
        (seen_from initial_src_cid.now original_dst_cid.now retry_seen retry_src_cid.now) }
{
    let image = imaged::image_in(record)?;
    let seen = seen_from(initial_src_cid, original_dst_cid, retry_seen, retry_src_cid)?;
    let r = imaged::record_at(image);
    authentication::authenticate_cids(side, &r, &seen)
}
