// Shows a record by its image, a line for each parameter: its name, its value and its unit. The
// text form of a record has the same lines.
#![tactic(auto)]

pub mod rows;
pub mod versions;

ghost use Rattle.std.specs.Prelude.{◌≡◌, take, drop};
ghost use Rattle.text.specs.declared.out.Stream.{Stream};
ghost use Rattle.text.specs.Printing.{Becomes};

use catalogue::{DEFAULTS, PLACES};
use rows::{ADDRESS_FLAG, Kind, ROWS, Row, Unit, name_of};
use std::fmt;
use std::fmt::Display;
use text::byte;
use text::out::Out;
use text::shown::HexBytes;
use versions::Versions;
use words::bytes_at;

fn is_set(image: &[u8], at: usize) -> bool {
    byte(image, at, 0) == 1
}

// The `n` bytes at a place, as far as they are there.
fn part<'a>(image: &'a [u8], at: usize, n: usize) -> &'a [u8]
    ensures { result.now ≡ take n (drop at image.now) }
{
    let rest = image.get(at..).unwrap_or(&[]);
    rest.get(..n).unwrap_or(rest)
}

/// An ID behind its length, as the image of a record has it.
#[derive(Clone, Copy)]
pub struct ConnectionId<'a>(pub &'a [u8]);

impl<'a> Display for ConnectionId<'a> {
    ghost use Rattle.std.specs.Prelude.{Some};
    ghost use Rattle.show.specs.Ids.{cid_text};

    ghost output = { λ id. Some (cid_text id.0.now) };

    fn fmt<W: fmt::Write>(&self, f: &mut fmt::Formatter<W>) -> fmt::Result {
        match self.0.split_first() {
            None | Some((0, _)) => write!(f, "(empty)"),
            Some((n, rest)) => {
                let digits = HexBytes(part(rest, 0, usize::from(*n)));
                write!(f, "{digits}")
            }
        }
    }
}

// An IPv4 address.
#[derive(Clone, Copy)]
struct V4<'a>(&'a [u8]);

impl<'a> Display for V4<'a> {
    fn fmt<W: fmt::Write>(&self, f: &mut fmt::Formatter<W>) -> fmt::Result {
        for (i, b) in self.0.iter().enumerate() {
            let dot = if i == 0 { "" } else { "." };
            write!(f, "{dot}{b}")?;
        }
        Ok(())
    }
}

// An IPv6 address. Two types and no generic one: the parts, what stands between them and their
// digits differ.
#[derive(Clone, Copy)]
struct V6<'a>(&'a [u8]);

impl<'a> Display for V6<'a> {
    fn fmt<W: fmt::Write>(&self, f: &mut fmt::Formatter<W>) -> fmt::Result {
        for (i, pair) in self.0.chunks(2).enumerate() {
            let colon = if i == 0 { "" } else { ":" };
            let digits = HexBytes(pair);
            write!(f, "{colon}{digits}")?;
        }
        Ok(())
    }
}

fn port_at(image: &[u8], at: usize) -> u16 {
    u16::from_be_bytes(bytes_at(image, at))
}

// A number and its unit, and whether it is the default of its place.
fn say_number(out: &mut Out, i: usize, unit: Unit, value: u64)
    ensures { Becomes Stream.Output out.old.fate out.new.fate }
{
    let is_default = DEFAULTS.get(i) == Some(&value);
    let note = if is_default { " (default)" } else { "" };
    out.say(format_args!("{value}{unit}{note}"));
}

#[tactic(auto, using(text::proofs::Printing::unchanged, text::proofs::Printing::becomes_then))]
fn say_present(out: &mut Out, i: usize, row: Row, image: &[u8])
    ensures { Becomes Stream.Output out.old.fate out.new.fate }
{
    let at = row.value_at();
    match row.0 {
        Kind::Number(unit) | Kind::OptionalNumber(unit) => {
            say_number(out, i, unit, u64::from_be_bytes(bytes_at(image, at)));
        }
        Kind::Flag => out.say("set"),
        Kind::Address => out.say("present"),
        Kind::Token | Kind::AddressToken => out.say(HexBytes(part(image, at, 16))),
        Kind::ConnectionId | Kind::AddressId => out.say(ConnectionId(part(image, at, 21))),
        Kind::V4 => {
            let ip = V4(part(image, at, 4));
            let port = port_at(image, at + 4);
            out.say(format_args!("{ip} port {port}"));
        }
        Kind::V6 => {
            let ip = V6(part(image, at, 16));
            let port = port_at(image, at + 16);
            out.say(format_args!("{ip} port {port}"));
        }
        Kind::Versions => out.say(Versions(part(image, at, 69))),
        Kind::Reserved | Kind::Order => {}
    }
}

#[tactic(auto, using(text::proofs::Printing::unchanged, text::proofs::Printing::becomes_then))]
fn show_row(out: &mut Out, i: usize, row: Row, image: &[u8])
    ensures { Becomes Stream.Output out.old.fate out.new.fate }
{
    let name = name_of(i);
    out.say(format_args!("{name:<36}"));
    if row.flag_at().is_none_or(|at| is_set(image, at)) {
        say_present(out, i, row, image);
    } else if let Kind::Flag = row.0 {
        out.say("not set");
    } else {
        out.say("absent");
    }
    out.say("\n");
}

// The rows of an address.
#[tactic(auto, using(text::proofs::Printing::unchanged, text::proofs::Printing::becomes_then))]
fn show_parts(out: &mut Out, image: &[u8])
    ensures { Becomes Stream.Output out.old.fate out.new.fate }
{
    for (i, row) in ROWS.iter().enumerate() {
        if let Kind::V4 | Kind::V6 | Kind::AddressId | Kind::AddressToken = row.0 {
            show_row(out, i, *row, image);
        }
    }
}

/// Shows the record of an image: the places of the catalogue, without the reserved parameter's; the
/// parts of an address behind it, if it is there. What a stream is given has no definition here:
/// the clause says what becomes of the answer.
#[tactic(auto, using(text::proofs::Printing::unchanged, text::proofs::Printing::becomes_then))]
pub fn show(out: &mut Out, image: &[u8])
    ensures { Becomes Stream.Output out.old.fate out.new.fate }
{
    for (i, row) in ROWS.iter().enumerate().take(PLACES) {
        match row.0 {
            Kind::Reserved => {}
            Kind::Address => {
                show_row(out, i, *row, image);
                if is_set(image, ADDRESS_FLAG) {
                    show_parts(out, image);
                }
            }
            _ => show_row(out, i, *row, image),
        }
    }
}
