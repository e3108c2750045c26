// Says which limits a record reduces that is resumed to from a remembered one, by their images.
#![tactic(auto)]

ghost use Rattle.std.specs.Prelude.{◌≡◌};
ghost use Rattle.text.specs.declared.out.Stream.{Stream};
ghost use Rattle.text.specs.Printing.{Becomes};
ghost use Rattle.reduced.specs.Limits.{size_of};

use catalogue::{
    ACTIVE_CONNECTION_ID_LIMIT, GREASE_QUIC_BIT, INITIAL_MAX_DATA,
    INITIAL_MAX_STREAM_DATA_BIDI_LOCAL, INITIAL_MAX_STREAM_DATA_BIDI_REMOTE,
    INITIAL_MAX_STREAM_DATA_UNI, INITIAL_MAX_STREAMS_BIDI, INITIAL_MAX_STREAMS_UNI,
    MAX_DATAGRAM_FRAME_SIZE,
};
use show::rows::{Kind, ROWS, Row, name_of};
use std::fmt;
use std::fmt::Display;
use text::byte;
use text::out::Out;
use words::bytes_at;

// What is remembered for 0-RTT, by place: what the definition of resumption looks at (`remembered`,
// `nothing_reduced`). Resumption's own list is of the plain numbers alone.
const REMEMBERED: [usize; 9] = [
    INITIAL_MAX_DATA,
    INITIAL_MAX_STREAM_DATA_BIDI_LOCAL,
    INITIAL_MAX_STREAM_DATA_BIDI_REMOTE,
    INITIAL_MAX_STREAM_DATA_UNI,
    INITIAL_MAX_STREAMS_BIDI,
    INITIAL_MAX_STREAMS_UNI,
    ACTIVE_CONNECTION_ID_LIMIT,
    MAX_DATAGRAM_FRAME_SIZE,
    GREASE_QUIC_BIT,
];

// What the image of a record says of one of these.
#[derive(Clone, Copy)]
enum Limit {
    Absent,
    Number(u64),
    Flag(bool),
}

// What an image says of a row: of a flag whether it is set, of another value the number there.
fn limit_in(row: Row, image: &[u8]) -> Limit {
    let flag = row.flag_at().map(|at| byte(image, at, 0) == 1);
    match (row.0, flag) {
        (Kind::Flag, _) => Limit::Flag(flag == Some(true)),
        (_, Some(false)) => Limit::Absent,
        _ => Limit::Number(u64::from_be_bytes(bytes_at(image, row.value_at()))),
    }
}

impl Limit {
    // Less is reduced: what is absent is as little as 0, and a flag that is set is more than one
    // that is not.
    fn size(self) -> u64
        ensures { result ≡ size_of self }
    {
        match self {
            Limit::Absent => 0,
            Limit::Number(n) => n,
            Limit::Flag(is_set) => u64::from(is_set),
        }
    }
}

impl Display for Limit {
    ghost use Rattle.std.specs.Prelude.{Some};
    ghost use Rattle.reduced.specs.Limits.{limit_text};

    ghost output = { λ limit. Some (limit_text limit) };

    fn fmt<W: fmt::Write>(&self, f: &mut fmt::Formatter<W>) -> fmt::Result {
        match *self {
            Limit::Absent => write!(f, "absent"),
            Limit::Number(n) => write!(f, "{n}"),
            Limit::Flag(true) => write!(f, "set"),
            Limit::Flag(false) => write!(f, "not set"),
        }
    }
}

/// Says which limits a record reduces, by its image and that of the remembered one: a line for
/// each, with what it was and what it is.
#[tactic(auto, using(text::proofs::Printing::unchanged, text::proofs::Printing::becomes_then))]
pub fn note_reduced(out: &mut Out, new: &[u8], cached: &[u8])
    ensures { Becomes Stream.Error out.old.fate out.new.fate }
{
    for (place, row) in ROWS.iter().enumerate() {
        let now = limit_in(*row, new);
        let was = limit_in(*row, cached);
        if REMEMBERED.contains(&place) && now.size() < was.size() {
            let name = name_of(place);
            out.note(format_args!("{name}: was {was}, now {now}\n"));
        }
    }
}
