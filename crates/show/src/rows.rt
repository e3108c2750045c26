// The rows of a record's text form: the places of the catalogue, the parts of a preferred address,
// and the order; their names, what each holds, and where it stands in the image of a record.
ghost use Rattle.std.specs.Prelude.{◌≡◌, ◌<◌, ◌++◌, [], map, IfSome};
ghost use Rattle.std.specs.List.{slice_index_or};
ghost use Rattle.show.specs.Rows.{flag_of};

use catalogue::{NAMES, PLACES};
use std::fmt;
use std::fmt::Display;

/// The unit of a number, which is printed behind it.
#[derive(Clone, Copy)]
pub enum Unit {
    /// none, of which nothing is printed
    Plain,
    Milliseconds,
    Microseconds,
    Bytes,
    Streams,
    ConnectionIds,
}

impl Display for Unit {
    ghost use Rattle.std.specs.Prelude.{Some};
    ghost use Rattle.show.specs.Rows.{unit_text};

    ghost output = { λ unit. Some (unit_text unit) };

    fn fmt<W: fmt::Write>(&self, f: &mut fmt::Formatter<W>) -> fmt::Result {
        match self {
            Unit::Plain => Ok(()),
            Unit::Milliseconds => write!(f, " milliseconds"),
            Unit::Microseconds => write!(f, " microseconds"),
            Unit::Bytes => write!(f, " bytes"),
            Unit::Streams => write!(f, " streams"),
            Unit::ConnectionIds => write!(f, " connection IDs"),
        }
    }
}

/// What a row holds.
#[derive(Clone, Copy)]
pub enum Kind {
    /// a number that is always there, by its unit
    Number(Unit),
    /// one that may be absent
    OptionalNumber(Unit),
    /// set or not, without a value
    Flag,
    /// whether there is a preferred address; its parts have rows of their own
    Address,
    /// 16 bytes
    Token,
    /// its length, and 20 bytes of which so many are used
    ConnectionId,
    /// an identifier, and a payload behind its length
    Reserved,
    /// the chosen version and sixteen places of available ones, behind how many of these there are
    Versions,
    /// a part of an address: 4 bytes, and a port of 2
    V4,
    /// 16 bytes, and a port of 2
    V6,
    /// as of a connection ID
    AddressId,
    /// as of a token
    AddressToken,
    /// the places, a byte each, in the order of writing
    Order,
}

/// Where the image of a record says that there is a preferred address.
pub const ADDRESS_FLAG: usize = 191;

/// Where the order stands in it.
pub const ORDER_AT: usize = 282;

/// A row: what it holds, and where its value starts in the image of a record.
#[derive(Clone, Copy)]
pub struct Row(pub Kind, u16);

impl Row {
    /// Where its value starts in the image.
    pub fn value_at(self) -> usize
        ensures { (result ≡ self.1) × (result < 65536) }
    {
        usize::from(self.1)
    }

    /// Where its flag stands, if it may be absent: before its value, but the ID and the token of an
    /// address have the address's.
    pub fn flag_at(self) -> Option<usize>
        ensures flag { result ≡ flag_of self.0 self.1 }
        ensures within { IfSome result (λ at. at < 65536) }
    {
        match self.0 {
            Kind::Number(_) => None,
            Kind::AddressId | Kind::AddressToken => Some(ADDRESS_FLAG),
            _ => Some(self.value_at().saturating_sub(1)),
        }
    }
}

/// The rows. The places of the catalogue come first, each at its place.
pub const ROWS: [Row; 27] = [
    Row(Kind::Number(Unit::Milliseconds), 0),
    Row(Kind::Number(Unit::Bytes), 8),
    Row(Kind::Number(Unit::Bytes), 16),
    Row(Kind::Number(Unit::Bytes), 24),
    Row(Kind::Number(Unit::Bytes), 32),
    Row(Kind::Number(Unit::Bytes), 40),
    Row(Kind::Number(Unit::Streams), 48),
    Row(Kind::Number(Unit::Streams), 56),
    Row(Kind::Number(Unit::Plain), 64),
    Row(Kind::Number(Unit::Milliseconds), 72),
    Row(Kind::Number(Unit::ConnectionIds), 80),
    Row(Kind::Reserved, 256),
    Row(Kind::Token, 175),
    Row(Kind::Flag, 89),
    Row(Kind::OptionalNumber(Unit::Bytes), 91),
    Row(Kind::Address, 192),
    Row(Kind::ConnectionId, 109),
    Row(Kind::ConnectionId, 131),
    Row(Kind::ConnectionId, 153),
    Row(Kind::Flag, 90),
    Row(Kind::OptionalNumber(Unit::Microseconds), 100),
    Row(Kind::Versions, 305),
    Row(Kind::V4, 193),
    Row(Kind::V6, 200),
    Row(Kind::AddressId, 218),
    Row(Kind::AddressToken, 239),
    Row(Kind::Order, ORDER_AT as u16),
];

// The names of those behind the places. A row holds no name of its own: the catalogue's names would
// stand here again.
const PART_NAMES: [&str; 5] = [
    "preferred_address_v4",
    "preferred_address_v6",
    "preferred_address_cid",
    "preferred_address_token",
    "order",
];

/// The name of row `i`; empty if there is none.
pub fn name_of(i: usize) -> &'static str
    ensures { result.now ≡ slice_index_or (map (λ name. name.now) (NAMES ++ PART_NAMES)) i [] }
{
    if i < PLACES {
        NAMES[i]
    } else if i < ROWS.len() {
        PART_NAMES[i - PLACES]
    } else {
        ""
    }
}

/// The row of this name, and its number; none if no row has the name.
pub fn row_named(name: &[u8]) -> Option<(usize, Row)>
    ensures row { IfSome result
        (λ found. (found.0 < 27) × (found.1 ≡ slice_index_or ROWS found.0 found.1)) }
    ensures named { IfSome result
        (λ found. name.now
        ≡ slice_index_or (map (λ name. name.now) (NAMES ++ PART_NAMES)) found.0 []) }
{
    let i = (0..ROWS.len()).find(|i| name_of(*i).as_bytes() == name)?;
    let row = ROWS.get(i)?;
    Some((i, *row))
}
