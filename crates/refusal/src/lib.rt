// The refusals of every operation, under quinn's names where it has one, and their numbers. What an
// operation gives is a `Result` with one of them for its error.
#![tactic(auto)]

ghost use Rattle.std.specs.Prelude.{◌≡◌};
ghost use Rattle.refusal.specs.Number.{number_of};

use std::error::Error;
use std::fmt;

/// Why an operation declined.
#[derive(Clone, Copy, Debug, PartialEq, Eq)]
pub enum Refusal {
    /// 1: a connection ID behind a length byte that cannot be read.
    Malformed,
    /// 2: a parameter whose value is not allowed (RFC 9000 section 18.2).
    IllegalValue,
    /// 3: the input ends within a number (RFC 9000 section 16).
    UnexpectedEnd,
    /// 4: a number of 2^62 or more (RFC 9000 section 16).
    VarIntBoundsExceeded,
    /// 5: the output is shorter than the bytes due.
    BufferTooShort,
    /// 6: an order that is not a permutation of the places.
    InvalidOrder,
    /// 7: a record, connection ID or count of settings handed in that is not well formed.
    IllFormed,
    /// 8: a remembered limit was reduced (RFC 9000 section 7.4.1).
    LimitReduced,
    /// 9: a drawn value out of range.
    InvalidDraw,
    /// 10: an identifier, or a parameter's length or a setting's value, that cannot be read, or a
    /// length beyond what is left.
    Cut,
    /// 11: a value that does not fit or fill its length, or a connection ID of over 20 bytes.
    Misfit,
    /// 12: a second copy of a known parameter (RFC 9000 section 7.4).
    SecondCopy,
    /// 13: a connection ID that is needed and that the record does not have (RFC 9000 section 7.3).
    CidAbsent,
    /// 14: a connection ID other than the one seen, or one of a Retry and none was seen (RFC 9000
    /// section 7.3).
    CidMismatch,
    /// 15: a setting of HTTP/3 that is 0x00, one left from HTTP/2 (0x02 to 0x05), or one sent twice
    /// (RFC 9114 section 7.2.4).
    InvalidSetting,
    /// 16: a list of streams that cannot be started with, or a stream that is not listed.
    InvalidStream,
    /// 17: the stream's limit is passed (RFC 9000 section 4.1).
    StreamLimitExceeded,
    /// 18: the connection's limit is passed (RFC 9000 section 4.1).
    ConnectionLimitExceeded,
    /// 19: a file that is none of remembered parameters, or another version asked for.
    InvalidFile,
    /// 20: no such role.
    InvalidRole,
    /// 21: a lowest value above the highest.
    InvalidRange,
}

impl Refusal {
    /// The number that the refusal carries. A method and no `From`, so that the caller's line says
    /// which of a byte's meanings this is.
    pub fn number(self) -> u8
        ensures { result ≡ number_of self }
    {
        match self {
            Refusal::Malformed => 1,
            Refusal::IllegalValue => 2,
            Refusal::UnexpectedEnd => 3,
            Refusal::VarIntBoundsExceeded => 4,
            Refusal::BufferTooShort => 5,
            Refusal::InvalidOrder => 6,
            Refusal::IllFormed => 7,
            Refusal::LimitReduced => 8,
            Refusal::InvalidDraw => 9,
            Refusal::Cut => 10,
            Refusal::Misfit => 11,
            Refusal::SecondCopy => 12,
            Refusal::CidAbsent => 13,
            Refusal::CidMismatch => 14,
            Refusal::InvalidSetting => 15,
            Refusal::InvalidStream => 16,
            Refusal::StreamLimitExceeded => 17,
            Refusal::ConnectionLimitExceeded => 18,
            Refusal::InvalidFile => 19,
            Refusal::InvalidRole => 20,
            Refusal::InvalidRange => 21,
        }
    }
}

impl fmt::Display for Refusal {
    ghost use Rattle.std.specs.Prelude.{Some};
    ghost use Rattle.refusal.specs.Number.{text_of};

    ghost output = { λ refusal. Some (text_of refusal) };

    fn fmt<W: fmt::Write>(&self, f: &mut fmt::Formatter<W>) -> fmt::Result {
        f.write_str(match self {
            Refusal::Malformed => "a connection ID that cannot be read",
            Refusal::IllegalValue => "a value that is not allowed",
            Refusal::UnexpectedEnd => "the input ends within the number",
            Refusal::VarIntBoundsExceeded => "the number is 2^62 or more",
            Refusal::BufferTooShort => "the output is too short",
            Refusal::InvalidOrder => "the order is not a permutation of 0 to 21",
            Refusal::IllFormed => "what was handed in is not well formed",
            Refusal::LimitReduced => "a remembered limit is reduced",
            Refusal::InvalidDraw => "a drawn value is out of range",
            Refusal::Cut => "a parameter or setting is cut off",
            Refusal::Misfit => "a value does not fit",
            Refusal::SecondCopy => "a parameter is sent twice",
            Refusal::CidAbsent => "a connection ID that is needed is absent",
            Refusal::CidMismatch => "a connection ID is not the one seen",
            Refusal::InvalidSetting => "a setting is not allowed or is sent twice",
            Refusal::InvalidStream => "a stream is not listed or cannot be started with",
            Refusal::StreamLimitExceeded => "the limit of the stream is passed",
            Refusal::ConnectionLimitExceeded => "the limit of the connection is passed",
            Refusal::InvalidFile => "no file of remembered parameters or no such version",
            Refusal::InvalidRole => "no such role",
            Refusal::InvalidRange => "the lowest value is above the highest",
        })
    }
}

impl Error for Refusal {}
