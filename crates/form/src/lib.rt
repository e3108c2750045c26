// The text form of a record: lines of a name and a value. It becomes the image of the record, line
// by line, or a line is found that is amiss.
#![tactic(auto)]

ghost use Rattle.std.specs.Prelude.{◌≡◌, ◌<◌, IfErr};
ghost use Rattle.form.specs.Ids.{count_of, cid_said};

use catalogue::PLACES;
use connection_id::ConnectionId;
use image::{CID_SIZE, RECORD_SIZE};
use marks::{is_marked, with_mark};
use record::TransportParameters;
use show::rows::{ADDRESS_FLAG, Kind, Row, row_named};
use std::error::Error;
use std::fmt;
use std::fmt::Display;
use text::{
    HexError, parse_hex, put_16, put_hex_number, put_list, put_number, set, word, words_of,
};
use version_information::VersionInformation;

/// What may be amiss in a line.
#[derive(Clone, Copy, Debug, PartialEq, Eq)]
pub enum Complaint {
    /// no row has its name
    Name,
    /// its row was met before
    Again,
    /// no decimal number below 2^64, or an identifier that is none
    Number,
    /// no hexadecimal text of whole bytes
    Digits,
    /// no token: 16 bytes in hexadecimal
    Token,
    /// a flag with another value than none, set or present
    Flag,
    /// no address of its family, or no port
    Address,
    /// no order: 22 decimal numbers below 256
    Order,
    /// a version that is none, or none where one is needed
    Version,
    /// more than 16 available versions
    ManyVersions,
    /// words behind the value
    More,
}

impl Display for Complaint {
    ghost use Rattle.std.specs.Prelude.{Some};
    ghost use Rattle.form.specs.Complaints.{complaint_text};

    ghost output = { λ complaint. Some (complaint_text complaint) };

    fn fmt<W: fmt::Write>(&self, f: &mut fmt::Formatter<W>) -> fmt::Result {
        match self {
            Complaint::Name => write!(f, "no such name"),
            Complaint::Again => write!(f, "a second line of this name"),
            Complaint::Number => write!(f, "not a decimal number"),
            Complaint::Digits => write!(f, "not hexadecimal"),
            Complaint::Token => write!(f, "not 16 bytes in hexadecimal"),
            Complaint::Flag => write!(f, "a flag has no value, or set"),
            Complaint::Address => write!(f, "not an address and a port"),
            Complaint::Order => write!(f, "not 22 places"),
            Complaint::Version => write!(f, "not a version of 1 to 8 hexadecimal digits"),
            Complaint::ManyVersions => write!(f, "more than 16 available versions"),
            Complaint::More => write!(f, "more than a value"),
        }
    }
}

/// What is amiss, and in which line; the lines count from 1.
#[derive(Clone, Copy, Debug, PartialEq, Eq)]
pub struct Slip {
    pub line: usize,
    pub what: Complaint,
}

impl Display for Slip {
    ghost use Rattle.std.specs.Prelude.{Some};
    ghost use Rattle.form.specs.Complaints.{slip_text};

    ghost output = { λ slip. Some (slip_text slip) };

    fn fmt<W: fmt::Write>(&self, f: &mut fmt::Formatter<W>) -> fmt::Result {
        let line = self.line;
        let what = self.what;
        write!(f, "line {line}: {what}")
    }
}

impl Error for Slip {}

fn unless(fine: bool, what: Complaint) -> Result<(), Complaint> {
    if fine { Ok(()) } else { Err(what) }
}

// How many bytes a word has. Of too many the count is one that is refused later.
fn count_of(read: Result<usize, HexError>) -> Result<u8, Complaint>
    ensures { result ≡ count_of read }
{
    match read {
        Ok(n) => Ok(u8::try_from(n).unwrap_or(255)),
        Err(HexError::Long) => Ok(255),
        Err(HexError::Odd) | Err(HexError::Strange(_)) => Err(Complaint::Digits),
    }
}

// Bytes behind their count.
fn put_counted(digits: &[u8], out: &mut [u8], at: usize, room: usize) -> Result<(), Complaint>
    requires { at < 70000 }
{
    if let b"(empty)" = digits {
        return Ok(());
    }
    let len = count_of(parse_hex(digits, out, at + 1, room))?;
    set(out, at, 0, len);
    Ok(())
}

/// The image of the connection ID that a word says: its length, and 20 bytes of which so many are
/// used. A length of 255 stands for too many bytes, which every operation refuses.
#[tactic(auto, using(crate::proofs::Words::said, crate::proofs::Words::not_said), unfolding(crate::specs::Ids::cid_said))]
pub fn cid_image_of(digits: &[u8]) -> Result<[u8; CID_SIZE], Complaint>
    ensures { result ≡ cid_said digits.now }
{
    let mut image = [0u8; CID_SIZE];
    if digits == b"(empty)".as_slice() {
        return Ok(image);
    }
    match count_of(parse_hex(digits, &mut image, 1, ConnectionId::MAX_SIZE)) {
        Ok(n) => {
            image[0] = n;
            Ok(image)
        }
        Err(complaint) => Err(complaint),
    }
}

// An identifier, and a payload behind its length.
fn put_reserved(line: &[u8], out: &mut [u8], at: usize) -> Result<(), Complaint>
    requires { at < 65536 }
{
    put_number(word(line, 1, b' '), u64::MAX, out, at, 8).ok_or(Complaint::Number)?;
    put_counted(word(line, 2, b' '), out, at + 8, 16)
}

// A version, with or without 0x before its digits.
fn put_version(word: &[u8], out: &mut [u8], at: usize) -> Result<(), Complaint> {
    let digits = word.strip_prefix(b"0x").unwrap_or(word);
    put_hex_number(digits, out, at).ok_or(Complaint::Version)
}

// What read shows beside the versions and is ignored: their names; behind the chosen one what
// stands before the available ones, or in their place.
fn is_remark(word: &[u8], count: usize) -> bool {
    match word {
        [b'(', ..] => 0 < count,
        b"available:" | b"none" => count == 1,
        _ => false,
    }
}

// The chosen version and the available ones, behind how many of these there are.
fn put_versions(line: &[u8], out: &mut [u8], at: usize) -> Result<(), Complaint>
    requires { at < 65536 }
{
    let mut count: usize = 0;
    let mut ended = false;
    for word in words_of(line, b',').skip(1) {
        if is_remark(word, count) {
            ended |= matches!(word, b"none");
            continue;
        }
        unless(!ended, Complaint::Version)?;
        if VersionInformation::MAX_AVAILABLE < count {
            return Err(Complaint::ManyVersions);
        }
        put_version(word, out, at + 1 + 4 * count)?;
        count += 1;
    }
    let available = count.checked_sub(1).ok_or(Complaint::Version)?;
    set(out, at, 0, available as u8);
    Ok(())
}

// A port, with or without the word before it.
fn put_port(line: &[u8], out: &mut [u8], at: usize) -> Result<(), Complaint> {
    let port = match word(line, 2, b' ') {
        b"port" => word(line, 3, b' '),
        port => port,
    };
    put_number(port, 65535, out, at, 2).ok_or(Complaint::Address)
}

fn is_flag(value: &[u8]) -> bool {
    matches!(value, b"" | b"set" | b"present")
}

// How many words a line may have: what stands behind a number is ignored, and versions are counted
// as they are stored.
fn most_words(row: Row) -> usize {
    match row.0 {
        Kind::Token | Kind::AddressToken | Kind::ConnectionId | Kind::AddressId => 2,
        Kind::Reserved => 3,
        Kind::Order => PLACES + 1,
        Kind::Versions => usize::MAX,
        _ => 4,
    }
}

// Stores the value of a line that gives one.
fn put_value(row: Row, line: &[u8], out: &mut [u8]) -> Result<(), Complaint> {
    let at = row.value_at();
    let value = word(line, 1, b' ');
    match row.0 {
        Kind::Number(_) | Kind::OptionalNumber(_) => {
            put_number(value, u64::MAX, out, at, 8).ok_or(Complaint::Number)
        }
        Kind::Flag | Kind::Address => unless(is_flag(value), Complaint::Flag),
        Kind::Token | Kind::AddressToken => put_16(value, out, at).ok_or(Complaint::Token),
        Kind::ConnectionId | Kind::AddressId => {
            put_counted(value, out, at, ConnectionId::MAX_SIZE)
        }
        Kind::Reserved => put_reserved(line, out, at),
        Kind::V4 => {
            put_list(value, 0, 4, b'.', out, at).ok_or(Complaint::Address)?;
            put_port(line, out, at + 4)
        }
        Kind::V6 => {
            put_16(value, out, at).ok_or(Complaint::Address)?;
            put_port(line, out, at + 16)
        }
        Kind::Versions => put_versions(line, out, at),
        Kind::Order => put_list(line, 1, PLACES + 1, b' ', out, at).ok_or(Complaint::Order),
    }
}

// Stores that a row is given; with a part of an address, the address is.
fn put_flag(row: Row, out: &mut [u8]) {
    if let Some(at) = row.flag_at() {
        set(out, at, 0, 1);
    }
    if let Kind::V4 | Kind::V6 = row.0 {
        set(out, ADDRESS_FLAG, 0, 1);
    }
}

// Stores what a row's line says. Only what can be absent is let off its value.
fn put_row(row: Row, line: &[u8], out: &mut [u8]) -> Result<(), Complaint> {
    if row.flag_at().is_some() {
        if matches!(word(line, 1, b' '), b"absent" | b"not") {
            return Ok(());
        }
        let more = word(line, most_words(row), b' ');
        unless(more.is_empty(), Complaint::More)?;
        put_flag(row, out);
    }
    put_value(row, line, out)
}

// Stores what a line says, if its row was not met before; gives the rows met so far.
fn put_line(met: u32, line: &[u8], out: &mut [u8]) -> Result<u32, Complaint> {
    let name = word(line, 0, b' ');
    if let [] | [b'#', ..] = name {
        return Ok(met);
    }
    let (i, row) = row_named(name).ok_or(Complaint::Name)?;
    unless(!is_marked(met, i), Complaint::Again)?;
    put_row(row, line, out)?;
    Ok(with_mark(met, i))
}

// Stores what the lines say into an image, up to the first slip.
fn put_lines(text: &[u8], out: &mut [u8]) -> Result<(), Slip>
    ensures { IfErr result (λ slip. 0 < slip.line) }
{
    let mut met: u32 = 0;
    for (i, line) in text.split(|b| *b == b'\n').enumerate() {
        let line_number = i.saturating_add(1);
        met = put_line(met, line, out).map_err(|what| Slip {
            line: line_number,
            what,
        })?;
    }
    Ok(())
}

/// The image of the record that a text says, if each line is understood; otherwise the first line
/// that is not. What no line says is as in the default record. The record need not be well formed.
pub fn image_of(text: &[u8]) -> Result<[u8; RECORD_SIZE], Slip>
    ensures { IfErr result (λ slip. 0 < slip.line) }
{
    let mut out = [0u8; RECORD_SIZE];
    let _ = image::image_to(&TransportParameters::default(), &mut out);
    put_lines(text, &mut out)?;
    Ok(out)
}
