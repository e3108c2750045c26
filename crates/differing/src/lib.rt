// Says which connection IDs of a peer's record are not those that packets carried, by their images.
#![tactic(auto)]

ghost use Rattle.text.specs.declared.out.Stream.{Stream};
ghost use Rattle.text.specs.Printing.{Becomes};

use catalogue::{INITIAL_SRC_CID, ORIGINAL_DST_CID, RETRY_SRC_CID};
use connection_id::ConnectionId;
use image::CID_SIZE;
use rules::Side;
use show::rows::{ROWS, name_of};
use text::byte;
use text::out::Out;
use words::bytes_at;

type CidImage = [u8; CID_SIZE];

/// The images of the IDs that packets carried, under the names of the parameters that are held to
/// them; none without a Retry.
#[derive(Clone, Copy)]
pub struct SeenImages {
    /// the Source Connection ID of the peer's first Initial
    pub initial_src_cid: CidImage,
    /// the Destination Connection ID of the client's first Initial
    pub original_dst_cid: CidImage,
    /// the Source Connection ID of the Retry, if there was one
    pub retry_src_cid: Option<CidImage>,
}

impl SeenImages {
    // The ID seen for each place that a client looks at; a server looks at the first alone.
    fn by_place(&self) -> [(usize, Option<CidImage>); 3] {
        [
            (INITIAL_SRC_CID, Some(self.initial_src_cid)),
            (ORIGINAL_DST_CID, Some(self.original_dst_cid)),
            (RETRY_SRC_CID, self.retry_src_cid),
        ]
    }
}

// The ID that the image of a record has at a place.
fn id_in(record: &[u8], place: usize) -> Option<CidImage> {
    let row = ROWS.get(place)?;
    let flag = row.flag_at()?;
    (byte(record, flag, 0) == 1).then_some(bytes_at(record, row.value_at()))
}

// What a record has at a place and what was seen for it, unless they are the same.
#[tactic(auto, using(text::proofs::Printing::unchanged, text::proofs::Printing::becomes_then))]
fn note_id(out: &mut Out, place: usize, has: Option<CidImage>, seen: Option<CidImage>)
    ensures { Becomes Stream.Error out.old.fate out.new.fate }
{
    if has == seen {
        return;
    }
    let name = name_of(place);
    out.note(format_args!("{name}: "));
    match has {
        Some(id) => out.note(show::ConnectionId(&id)),
        None => out.note("absent"),
    }
    match seen {
        Some(id) => {
            let id = show::ConnectionId(&id);
            out.note(format_args!(", seen {id}\n"));
        }
        None => out.note(", and no Retry was seen\n"),
    }
}

/// Says which IDs of a record, by its image, are not the ones seen, of those that a side looks at:
/// a line for each, with both.
#[tactic(auto, using(text::proofs::Printing::unchanged, text::proofs::Printing::becomes_then))]
pub fn note_differing(out: &mut Out, side: Side, record: &[u8], seen: &SeenImages)
    ensures { Becomes Stream.Error out.old.fate out.new.fate }
{
    for (place, id) in seen.by_place() {
        if side == Side::Client || place == INITIAL_SRC_CID {
            note_id(out, place, id_in(record, place), id);
        }
    }
}

/// Says which of the IDs seen are too long: over 20 bytes by their length.
#[tactic(auto, using(text::proofs::Printing::unchanged, text::proofs::Printing::becomes_then))]
pub fn note_too_long(out: &mut Out, seen: &SeenImages)
    ensures { Becomes Stream.Error out.old.fate out.new.fate }
{
    for (place, id) in seen.by_place() {
        if id.is_some_and(|id| ConnectionId::MAX_SIZE < usize::from(id[0])) {
            let name = name_of(place);
            out.note(format_args!("{name}: the one seen has over 20 bytes\n"));
        }
    }
}
