// Where the bytes of an extension go: how long it is tidied, and what the rest is taken by. One
// pass, the one that reading makes.
#![tactic(auto)]

ghost use Rattle.std.specs.Prelude.{◌≡◌};
ghost use Rattle.refusal.specs.Answer.{outcome_of};
ghost use Rattle.report.specs.Accounts.{Accounts};
ghost use Rattle.report.specs.Report.{report};

use refusal::Refusal;
use rules::Side;
use tally::Counts;

/// Reports on an extension for a side. What the three sums leave is the tidied length; each known
/// parameter has marked its place.
pub fn report(side: Side, src: &[u8]) -> Result<Counts, Refusal>
    ensures { outcome_of result ≡ report side src.now }
{
    let (marks, sums) = index::counted(side, src)?;
    Ok(Counts {
        tidied: src.len() - sums.skipped - sums.restated - sums.saved,
        skipped: sums.skipped,
        restated: sums.restated,
        saved: sums.saved,
        named: marks.count_ones() as usize,
    })
}

/// The four counts make the length of the extension exactly, and the first is what tidying stores;
/// the fifth is how many places have a value; they depend neither on the side nor on the order.
#[tactic(auto, using(crate::proofs::Theorem::accounts))]
pub fn accounts()
    ensures { Accounts }
{}
