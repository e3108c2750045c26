// Why a command has no answer: how it is not called as it should be, or why there is no input.
ghost use Rattle.std.specs.Prelude.{◌≡◌};
ghost use Rattle.yuthpram_cli.specs.Complaints.{is_of_usage};

use form::Slip;
use std::fmt;
use std::fmt::Display;
use std::io::Error;
use text::HexError;

/// What is amiss: up to `NoIds` with the words of the command line, of which no command has so many
/// or such.
#[derive(Drop)]
pub enum Complaint<'a> {
    NoCommand,
    /// a word too many
    Surplus,
    /// a number to encode that is no decimal number
    NotDecimal,
    /// no file of the remembered record
    NoRemembered,
    /// fewer than the three connection IDs seen
    NoIds,
    /// neither client nor server
    NoSide,
    /// a connection ID that is none
    NoId,
    /// an input, or a word, over its limit
    TooLong,
    /// no hexadecimal digit, at a character counted from 0
    NoDigit(usize),
    /// an odd number of hexadecimal digits
    OddDigits,
    /// no number of 0 to 255, at a position counted from 0
    NoEntry(usize),
    /// more than 255 entries of an order
    ManyEntries,
    /// a path that is not UTF-8
    NotUtf8(&'a [u8]),
    /// what could not be read, and why
    Unread(&'a str, Error),
    /// a line of a record's text form that is amiss
    Slip(Slip),
}

impl<'a> Complaint<'a> {
    /// Whether it is about words that no command takes, so that the usage is shown.
    pub fn is_of_usage(&self) -> bool
        ensures { result ≡ is_of_usage self.now }
    {
        matches!(
            self,
            Complaint::NoCommand
                | Complaint::Surplus
                | Complaint::NotDecimal
                | Complaint::NoRemembered
                | Complaint::NoIds
        )
    }
}

// What is wrong; of which file, `help::complain` says before it.
impl<'a> Display for Complaint<'a> {
    ghost use Rattle.yuthpram_cli.specs.Complaints.{complaint_text};

    ghost output = { λ complaint. complaint_text complaint };

    fn fmt<W: fmt::Write>(&self, f: &mut fmt::Formatter<W>) -> fmt::Result {
        match self {
            Complaint::NoCommand => write!(f, "no such command"),
            Complaint::Surplus => write!(f, "a word too many"),
            Complaint::NotDecimal => write!(f, "not a decimal number"),
            Complaint::NoRemembered => write!(f, "no file of the remembered record"),
            Complaint::NoIds => write!(f, "the connection IDs seen are three words"),
            Complaint::NoSide => write!(f, "the side that reads is client or server (try --help)"),
            Complaint::NoId => write!(
                f,
                "a connection ID is hexadecimal or (empty), and that of no Retry is none"
            ),
            Complaint::TooLong => write!(
                f,
                "the input is over the limit of 65536 bytes, or of 262144 characters of hexadecimal"
            ),
            Complaint::NoDigit(at) => write!(
                f,
                "no hexadecimal digit at character {at} (counted from 0)"
            ),
            Complaint::OddDigits => write!(f, "an odd number of hexadecimal digits"),
            Complaint::NoEntry(k) => write!(
                f,
                "no number of 0 to 255 at position {k} (counted from 0)"
            ),
            Complaint::ManyEntries => write!(f, "the order is over the limit of 255 entries"),
            Complaint::NotUtf8(_) => write!(f, "the name is not UTF-8"),
            Complaint::Unread(_, e) => write!(f, "{e}"),
            Complaint::Slip(slip) => write!(f, "{slip}"),
        }
    }
}

impl<'a> From<HexError> for Complaint<'a> {
    ghost use Rattle.std.specs.Prelude.{◌≡◌};
    ghost use Rattle.yuthpram_cli.specs.Complaints.{of_hex};

    ghost from_gives = { λ e complaint. complaint ≡ of_hex e };

    fn from(e: HexError) -> Complaint<'a> {
        match e {
            HexError::Strange(at) => Complaint::NoDigit(at),
            HexError::Odd => Complaint::OddDigits,
            HexError::Long => Complaint::TooLong,
        }
    }
}

impl<'a> From<Slip> for Complaint<'a> {
    ghost use Rattle.std.specs.Prelude.{◌≡◌};
    ghost use Rattle.yuthpram_cli.specs.declared.complaint.Complaint.TheVariants.{Slip};

    ghost from_gives = { λ slip complaint. complaint ≡ Slip slip };

    fn from(slip: Slip) -> Complaint<'a> {
        Complaint::Slip(slip)
    }
}
