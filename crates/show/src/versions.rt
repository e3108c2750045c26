// Versions of QUIC, in hexadecimal and by name.
ghost use Rattle.std.specs.Prelude.{◌≡◌};
ghost use Rattle.show.specs.Versions.{is_reserved, version_name};

use std::fmt;
use std::fmt::Display;
use words::bytes_at;

/// What a version is called.
#[derive(Clone, Copy, Debug, PartialEq, Eq)]
pub enum VersionName {
    /// RFC 9000
    V1,
    /// RFC 9369
    V2,
    /// one that exercises the negotiation of versions (RFC 9000 section 15)
    Reserved,
}

impl Display for VersionName {
    ghost use Rattle.std.specs.Prelude.{Some};
    ghost use Rattle.show.specs.Versions.{name_text};

    ghost output = { λ name. Some (name_text name) };

    fn fmt<W: fmt::Write>(&self, f: &mut fmt::Formatter<W>) -> fmt::Result {
        match self {
            VersionName::V1 => write!(f, "v1"),
            VersionName::V2 => write!(f, "v2"),
            VersionName::Reserved => write!(f, "reserved"),
        }
    }
}

// Whether the last digit of each byte is a.
fn is_reserved(version: u32) -> bool
    ensures { result ≡ is_reserved version }
{
    version.to_be_bytes().iter().all(|b| b % 16 == 10)
}

/// The name of a version, if it has one.
#[tactic(auto, unfolding(crate::specs::Versions::version_name))]
pub fn version_name(version: u32) -> Option<VersionName>
    ensures { result ≡ version_name version }
{
    match version {
        0x00000001 => Some(VersionName::V1),
        0x6b3343cf => Some(VersionName::V2),
        _ if is_reserved(version) => Some(VersionName::Reserved),
        _ => None,
    }
}

// A version, and its name.
#[derive(Clone, Copy)]
struct Version(u32);

impl Display for Version {
    fn fmt<W: fmt::Write>(&self, f: &mut fmt::Formatter<W>) -> fmt::Result {
        let version = self.0;
        match version_name(version) {
            Some(name) => write!(f, "0x{version:08x} ({name})"),
            None => write!(f, "0x{version:08x}"),
        }
    }
}

/// The chosen version and those that are available, behind how many of these there are, as the
/// image of a record has them: each in four bytes, high byte first.
#[derive(Clone, Copy)]
pub struct Versions<'a>(pub &'a [u8]);

impl<'a> Display for Versions<'a> {
    fn fmt<W: fmt::Write>(&self, f: &mut fmt::Formatter<W>) -> fmt::Result {
        let Some((n, versions)) = self.0.split_first() else {
            return Ok(());
        };
        let all = usize::from(*n) + 1;
        for (i, bytes) in versions.chunks(4).take(all).enumerate() {
            let before = match i {
                0 => "",
                1 => ", available: ",
                _ => " ",
            };
            let version = Version(u32::from_be_bytes(bytes_at(bytes, 0)));
            write!(f, "{before}{version}")?;
        }
        if all == 1 {
            write!(f, ", available: none")?;
        }
        Ok(())
    }
}
