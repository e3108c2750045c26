// Says what a refusal means and what is at fault: of an extension which parameter, at which byte it
// starts, and why; of an order which entry.
#![tactic(auto)]

ghost use Rattle.text.specs.declared.out.Stream.{Stream};
ghost use Rattle.text.specs.Printing.{Becomes};

use catalogue::{
    ACK_DELAY_EXPONENT, ACTIVE_CONNECTION_ID_LIMIT, DISABLE_ACTIVE_MIGRATION, GREASE_QUIC_BIT,
    INITIAL_MAX_STREAMS_BIDI, INITIAL_MAX_STREAMS_UNI, INITIAL_SRC_CID, MAX_ACK_DELAY,
    MAX_UDP_PAYLOAD_SIZE, MIN_ACK_DELAY, NAMES, ORIGINAL_DST_CID, PLACES, PREFERRED_ADDRESS,
    RETRY_SRC_CID, STATELESS_RESET_TOKEN, VERSION_INFORMATION,
};
use front::{Fault, Parameter, Parameters};
use marks::{is_marked, with_mark};
use refusal::Refusal;
use rules::Side;
use text::out::Out;
use text::shown::Count;
use value::Received;
use varint::VarInt;
use version_information::VersionInformation;

// The parameter at fault: where it starts, its identifier and its value if it can be read, and what
// is wrong.
#[derive(Clone, Copy)]
struct Culprit<'a> {
    at: usize,
    id: Option<u64>,
    value: &'a [u8],
    fault: Fault,
}

/// Says a refusal: its number and its words.
pub fn note_refusal(out: &mut Out, r: Refusal)
    ensures { Becomes Stream.Error out.old.fate out.new.fate }
{
    let number = r.number();
    out.note(format_args!("refused {number}: {r}\n"));
}

// Whether an extension is refused.
fn is_broken(side: Side, src: &[u8]) -> bool {
    index::index(side, src).is_err()
}

// Whether a value fits its place, which may be met already; where it starts is not asked for.
fn receive(met: u32, place: usize, value: &[u8]) -> Result<(), Fault> {
    let received = Received {
        place,
        start: 0,
        len: value.len(),
        rest: value,
    };
    received.receive::<false>(is_marked(met, place))?;
    Ok(())
}

// The culprit of an extension that is refused: the first fault from the front, as reading finds it.
// If there is none, a value rule is broken: by the first parameter that breaks one by itself, or
// else by min_ack_delay, which is held to max_ack_delay.
fn locate(side: Side, src: &[u8]) -> Option<Culprit<'_>> {
    let mut met: u32 = 0;
    let mut breaker: Option<Culprit<'_>> = None;
    let mut delay: Option<Culprit<'_>> = None;
    for (at, read) in (Parameters::<false> { src, at: 0 }) {
        let Parameter { id, start, end, .. } = match read {
            Ok(parameter) => parameter,
            Err(fault) => return Some(Culprit {
                at,
                id: None,
                value: &[],
                fault,
            }),
        };
        let place = catalogue::place_of(id);
        if place < PLACES {
            let culprit = Culprit {
                at,
                id: Some(id),
                value: &src[start..end],
                fault: Fault::Illegal,
            };
            if let Err(fault) = receive(met, place, culprit.value) {
                return Some(Culprit { fault, ..culprit });
            }
            met = with_mark(met, place);
            if place == MIN_ACK_DELAY {
                delay = Some(culprit);
            } else if breaker.is_none() && is_broken(side, &src[at..end]) {
                breaker = Some(culprit);
            }
        }
    }
    breaker.or(delay)
}

// The rule that version information breaks.
fn version_rule(value: &[u8]) -> &'static str {
    match VersionInformation::decode(value) {
        Ok(versions) if versions.chosen == 0 || versions.lists(0) => "a version is 0",
        _ => "the chosen version is not among the available ones",
    }
}

// The rule that the value of a parameter breaks.
fn rule(side: Side, place: usize, value: &[u8]) -> &'static str {
    match place {
        MAX_UDP_PAYLOAD_SIZE => "under 1200",
        INITIAL_MAX_STREAMS_BIDI | INITIAL_MAX_STREAMS_UNI => "over 2^60",
        ACK_DELAY_EXPONENT => "over 20",
        MAX_ACK_DELAY => "16384 or more",
        ACTIVE_CONNECTION_ID_LIMIT => "under 2",
        MIN_ACK_DELAY => "longer than max_ack_delay",
        VERSION_INFORMATION => version_rule(value),
        _ => match side {
            Side::Client => "no address, or an empty connection ID",
            Side::Server => "a client may not send it",
        },
    }
}

// How a value does not fit its length.
fn misfit(place: usize) -> &'static str {
    match place {
        STATELESS_RESET_TOKEN => "not 16 bytes",
        DISABLE_ACTIVE_MIGRATION | GREASE_QUIC_BIT => "not empty",
        PREFERRED_ADDRESS => "not as long as it says, or an ID of over 20 bytes",
        ORIGINAL_DST_CID | INITIAL_SRC_CID | RETRY_SRC_CID => "over 20 bytes",
        VERSION_INFORMATION =>
            "not a chosen version and at most 16 available ones, four bytes each",
        _ => "not one number that fills its length",
    }
}

// Which parameter it is.
fn note_name(out: &mut Out, id: u64)
    ensures { Becomes Stream.Error out.old.fate out.new.fate }
{
    let name = NAMES
        .get(catalogue::place_of(id))
        .copied()
        .unwrap_or("unknown");
    out.note(format_args!("{name} (0x{id:02x}): "));
}

// Which parameter it is, and what is wrong with it; nothing of one that cannot be read.
#[tactic(auto, using(text::proofs::Printing::unchanged, text::proofs::Printing::becomes_then))]
fn note_cause(out: &mut Out, side: Side, c: Culprit<'_>)
    ensures { Becomes Stream.Error out.old.fate out.new.fate }
{
    let Some(id) = c.id else {
        return;
    };
    let place = catalogue::place_of(id);
    let cause = match c.fault {
        Fault::SecondCopy => "a second copy",
        Fault::Illegal => rule(side, place, c.value),
        Fault::Cut | Fault::Misfit => misfit(place),
    };
    note_name(out, id);
    out.note(format_args!("{cause}\n"));
}

// In which of its parts a parameter is cut off, and which one it is if its identifier is there.
#[tactic(auto, using(text::proofs::Printing::becomes_then, varint::proofs::Laws::read_within))]
fn note_cut(out: &mut Out, rest: &[u8])
    ensures { Becomes Stream.Error out.old.fate out.new.fate }
{
    let Ok(id) = VarInt::decode(rest) else {
        out.note(": cut off within its identifier\n");
        return;
    };
    out.note(", ");
    note_name(out, id.value);
    let behind = &rest[id.count..];
    let Ok(len) = VarInt::decode(behind) else {
        let there = if behind.is_empty() {
            "before"
        } else {
            "within"
        };
        out.note(format_args!("cut off {there} its length\n"));
        return;
    };
    let left = behind.len() - len.count;
    let len = Count(len.value as usize);
    out.note(format_args!("cut off within its value, {left} of {len}\n"));
}

/// Says a refusal of reading an extension for a side, and its cause: at which byte the parameter at
/// fault starts, which one it is, and what is wrong with it.
#[tactic(auto, using(text::proofs::Printing::unchanged, text::proofs::Printing::becomes_then))]
pub fn note_reading(out: &mut Out, side: Side, r: Refusal, src: &[u8])
    ensures { Becomes Stream.Error out.old.fate out.new.fate }
{
    note_refusal(out, r);
    let Some(c) = locate(side, src) else {
        return;
    };
    let at = c.at;
    out.note(format_args!("at byte {at}"));
    if let Fault::Cut = c.fault {
        note_cut(out, src.get(at..).unwrap_or(&[]));
        return;
    }
    out.note(", ");
    note_cause(out, side, c);
}

/// Says the cause alone, of the extension of a record that is not legal for a side. If the
/// extension is accepted, no value rule is broken: then a family that is given is all zero.
#[tactic(auto, using(text::proofs::Printing::unchanged, text::proofs::Printing::becomes_then))]
pub fn note_culprit(out: &mut Out, side: Side, src: &[u8])
    ensures { Becomes Stream.Error out.old.fate out.new.fate }
{
    if !is_broken(side, src) {
        out.note("preferred_address: a family of zeros and port 0\n");
    } else if let Some(c) = locate(side, src) {
        note_cause(out, side, c);
    }
}

/// Says the first fault of an order: its position and, unless entries are only missing, the entry
/// there; nothing of an order without fault.
#[tactic(auto, using(text::proofs::Printing::unchanged, text::proofs::Printing::becomes_then))]
pub fn note_order_fault(out: &mut Out, order: &[u8])
    ensures { Becomes Stream.Error out.old.fate out.new.fate }
{
    let Some(i) = order::order_fault(order) else {
        return;
    };
    let Some(entry) = order.get(i).copied() else {
        out.note(format_args!("at position {i}: entries are missing\n"));
        return;
    };
    let fault = if usize::from(entry) < PLACES {
        "it repeats an earlier one"
    } else {
        "out of range"
    };
    out.note(format_args!("at position {i}, entry {entry}: {fault}\n"));
}
