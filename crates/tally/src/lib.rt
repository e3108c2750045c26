// Where the bytes of an extension go: what each of its parameters adds to the counts that a report
// gives.
#![tactic(auto)]

ghost use Rattle.std.specs.Prelude.{◌≡◌};
ghost use Rattle.tally.specs.Tally.{restates};

use catalogue::DEFAULTS;

/// Where the bytes of an accepted extension go, and how many known parameters it names. It crosses
/// the C interface: the order of the fields is that of `yuthpram_counts` in the header.
#[repr(C)]
#[derive(Clone, Copy, Debug, PartialEq, Eq)]
pub struct Counts {
    /// its tidied length, in bytes
    pub tidied: usize,
    /// the bytes of parameters that are skipped
    pub skipped: usize,
    /// the bytes of those that restate a default
    pub restated: usize,
    /// the bytes that shortest forms would have saved in the others
    pub saved: usize,
    /// how many known parameters it names
    pub named: usize,
}

/// What a scan adds up: the three of them that tidying drops.
#[derive(Clone, Copy, Debug, PartialEq, Eq)]
pub struct Sums {
    /// skipped, in bytes
    pub skipped: usize,
    /// restating a default, in bytes
    pub restated: usize,
    /// saved by shorter forms, in bytes
    pub saved: usize,
}

/// Whether a number is the default of its place, so that it need not be sent. Only places 0 to 10
/// have one.
#[tactic(auto, using(std::proofs::lemmas::Bool::Decides::nat_tests), unfolding(crate::specs::Tally::restates, catalogue::specs::Catalogue::defaults))]
pub fn restates(place: usize, number: u64) -> bool
    ensures { result ≡ restates place number }
{
    if DEFAULTS.len() <= place {
        return false;
    }
    number == DEFAULTS[place]
}
