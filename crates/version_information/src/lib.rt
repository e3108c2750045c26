// Version information (RFC 9368 section 3): the version chosen for a connection, and those that its
// sender has available.
#![tactic(auto)]

ghost use Rattle.std.specs.Prelude.{◌≡◌, ◌++◌, ◌+◌, ◌-◌, ◌*◌, ◌≤◌, length, drop, replicate};
ghost use Rattle.std.proofs.lemmas.List.Edits.{sets};
ghost use Rattle.refusal.specs.Answer.{outcome_of};
ghost use Rattle.words.specs.Words.{zeros, member, bytes_of, numbers_of};
ghost use Rattle.catalogue.specs.Catalogue.{versions, fits};
ghost use Rattle.version_information.specs.VersionInformation.{formed_versions, available_in, all_bytes, versions_with, make_versions, read_versions};
ghost use Rattle.version_information.specs.VersionLaws.{VersionLaws};

use refusal::Refusal;
use words::bytes_at;

/// Fixed memory: an array with a length, as in a connection ID. What is absent is all zero. The two
/// bytes stand together: apart, each would have three bytes of padding, which the compiler copies
/// too.
#[derive(Clone, Copy, Debug, Default, PartialEq, Eq)]
pub struct VersionInformation {
    /// whether there is any
    pub present: bool,
    /// how many versions are available
    pub available_len: u8,
    /// the version that the sender uses
    pub chosen: u32,
    /// the available versions, then zeros
    pub available: [u32; 16],
}

impl VersionInformation {
    /// The most versions that can be available.
    pub const MAX_AVAILABLE: usize = 16;

    /// The longest value, in bytes.
    pub const MAX_SIZE: usize = 68;

    /// A chosen version, and available ones; `IllFormed` if these are more than 16.
    #[tactic(auto, using(std::proofs::lemmas::Bool::Decides::nat_tests), unfolding(crate::specs::VersionInformation::make_versions))]
    pub fn new(chosen: u32, available: &[u32]) -> Result<VersionInformation, Refusal>
        ensures { outcome_of result ≡ make_versions chosen available.now }
    {
        if VersionInformation::MAX_AVAILABLE < available.len() {
            return Err(Refusal::IllFormed);
        }
        let mut versions = [0u32; 16];
        versions[..available.len()].copy_from_slice(available);
        Ok(VersionInformation {
            present: true,
            available_len: available.len() as u8,
            chosen,
            available: versions,
        })
    }

    /// At most 16 versions are available, zeros stand behind them, and what is absent is all zero.
    #[tactic(auto, using(std::proofs::lemmas::Bool::Decides::nat_tests), unfolding(refusal::specs::Outcome::all, crate::specs::VersionInformation::formed_versions))]
    pub fn is_well_formed(&self) -> bool
        ensures { result ≡ formed_versions self.now }
    {
        let n = usize::from(self.available_len);
        if VersionInformation::MAX_AVAILABLE < n {
            return false;
        }
        all_zero(&self.available[n..]) & (self.present | ((self.chosen == 0) & (n == 0)))
    }

    /// Whether a version is available.
    pub fn lists(&self, version: u32) -> bool
        ensures { result ≡ member version (available_in self.now) }
    {
        let n = usize::from(self.available_len).min(VersionInformation::MAX_AVAILABLE);
        is_among(version, &self.available[..n])
    }

    /// How many bytes its value has.
    pub fn size(&self) -> usize
        ensures { result ≡ 4 + 4 * self.now.available_len }
    {
        4 + 4 * usize::from(self.available_len)
    }

    /// The chosen version and all sixteen places of available ones, four bytes each.
    pub fn to_bytes(&self) -> [u8; 68]
        ensures { result ≡ all_bytes self.now }
    {
        let mut out = [0u8; 68];
        put_version(self.chosen, 0, &mut out);
        for (i, version) in self.available.iter().enumerate() {
            put_version(*version, 4 + 4 * i, &mut out);
        }
        out
    }

    /// The same back, with what does not stand in these bytes.
    pub fn from_bytes(present: bool, available_len: u8, bytes: &[u8; 68]) -> VersionInformation
        ensures { result ≡ versions_with present available_len bytes.now }
    {
        VersionInformation {
            present,
            available_len,
            chosen: u32::from_be_bytes(bytes_at(bytes, 0)),
            available: available_of(bytes),
        }
    }

    /// The version information of a value: the chosen version, then the available ones, four bytes
    /// each. `Misfit` for bytes that are no value.
    #[tactic(auto, using(crate::proofs::Laws::value_within, crate::proofs::Laws::read_padded), unfolding(crate::specs::VersionInformation::read_versions))]
    pub fn decode(v: &[u8]) -> Result<VersionInformation, Refusal>
        ensures { outcome_of result ≡ read_versions v.now }
    {
        if !is_value(v) {
            return Err(Refusal::Misfit);
        }
        let n = v.len() / 4 - 1;
        Ok(VersionInformation::from_bytes(true, n as u8, &padded(v)))
    }
}

/// Whether these are the bytes of a chosen version and at most 16 available ones.
#[tactic(auto, using(std::proofs::lemmas::Bool::Decides::nat_tests), unfolding(refusal::specs::Outcome::all, catalogue::specs::Catalogue::fits))]
pub fn is_value(v: &[u8]) -> bool
    ensures { result ≡ fits versions v.now }
{
    let n = v.len();
    (4 <= n) & (n <= VersionInformation::MAX_SIZE) & (n % 4 == 0)
}

// Whether all are zero.
#[tactic(auto, using(words::proofs::Laws::zeros_drop, words::proofs::Laws::zeros_end))]
fn all_zero(versions: &[u32]) -> bool
    ensures { result ≡ zeros versions.now }
{
    let mut met: u32 = 0;
    for &version in versions {
        met |= version;
    }
    met == 0
}

#[tactic(auto, using(words::proofs::Laws::member_drop, words::proofs::Laws::member_end))]
fn is_among(version: u32, versions: &[u32]) -> bool
    ensures { result ≡ member version versions.now }
{
    let mut met = false;
    for &other in versions {
        met |= version == other;
    }
    met
}

fn put_version(version: u32, at: usize, out: &mut [u8; 68])
    requires { at + 4 ≤ 68 }
    ensures { out.new ≡ sets out.old at (bytes_of 4 version) }
{
    out[at..at + 4].copy_from_slice(&version.to_be_bytes());
}

// The bytes, and zeros behind them.
fn padded(v: &[u8]) -> [u8; 68]
    requires { length v.now ≤ 68 }
    ensures { result ≡ v.now ++ replicate (68 - length v.now) 0 }
{
    let mut bytes = [0u8; 68];
    bytes[..v.len()].copy_from_slice(v);
    bytes
}

fn available_of(bytes: &[u8; 68]) -> [u32; 16]
    ensures { result ≡ numbers_of 4 16 (drop 4 bytes.now) }
{
    let mut available = [0; 16];
    for (i, x) in available.iter_mut().enumerate() {
        *x = u32::from_be_bytes(bytes_at(bytes, 4 + 4 * i));
    }
    available
}

/// What is well formed and present is read back from its bytes, 4 and 4 for each available version;
/// what is read has the bytes of the value, and is well formed.
#[tactic(auto, using(crate::proofs::VersionLaws::version_laws))]
pub fn version_laws()
    ensures { VersionLaws }
{}
