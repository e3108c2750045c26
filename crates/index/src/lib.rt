// Going through an extension for a side: which places it names, the numbers that it holds, and
// where its other values stand. Reading makes the record of this, and tidying the shortest form.
#![tactic(auto)]

ghost use Rattle.std.specs.Prelude.{◌≡◌, option_copied, IfOk};
ghost use Rattle.words.specs.Words.{elements};
ghost use Rattle.marks.specs.Mark.{marked};
ghost use Rattle.front.specs.Whole.{parameters};
ghost use Rattle.front.specs.Answer.{fault_outcome};
ghost use Rattle.tally.specs.Tally.{counts, dropped};
ghost use Rattle.record.specs.Values.{versions_in};
ghost use Rattle.rules.specs.Rules.{is_server, version_rules};
ghost use Rattle.index.specs.Index.{nothing, index_from, id_len, kept_rules, indexed, counted, value_at, value_of, number_received, Sound};
ghost use Rattle.index.specs.Answer.{found_of, scan_outcome, index_outcome, option_of};

use catalogue::{
    DEFAULTS, MIN_ACK_DELAY, NUMBER_PLACES, NUMBERS, ORIGINAL_DST_CID, PLACES, PREFERRED_ADDRESS,
    RETRY_SRC_CID, STATELESS_RESET_TOKEN, VERSION_INFORMATION,
};
use front::{Fault, Parameter, Parameters};
use marks::{is_marked, with_mark};
use rules::{Microseconds, Presence, Side};
use tally::{Sums, restates};
use value::Received;
use version_information::VersionInformation;

/// What is found in an extension. Without a value a number is the default, and everything else 0.
/// Two arrays and no array of structs, which would be nearly twice as long.
#[derive(Clone, Copy)]
pub struct Entries {
    /// the marks of the places met
    pub marks: u32,
    /// by place, the number or where the value starts
    pub kept: [u64; PLACES],
    /// by place, the value's length in bytes
    pub lens: [u8; PLACES],
}

// Before anything is received. Written out: the defaults are not copied at each reading.
const INITIAL: [u64; PLACES] = [
    DEFAULTS[0],
    DEFAULTS[1],
    DEFAULTS[2],
    DEFAULTS[3],
    DEFAULTS[4],
    DEFAULTS[5],
    DEFAULTS[6],
    DEFAULTS[7],
    DEFAULTS[8],
    DEFAULTS[9],
    DEFAULTS[10],
    0,
    0,
    0,
    0,
    0,
    0,
    0,
    0,
    0,
    0,
    0,
];

impl Entries {
    fn empty() -> Entries
        ensures { found_of result ≡ nothing }
    {
        Entries {
            marks: 0,
            kept: INITIAL,
            lens: [0; PLACES],
        }
    }

    /// Whether a place was met.
    pub fn is_met(&self, place: usize) -> bool
        ensures { result ≡ marked self.now.marks place }
    {
        is_marked(self.marks, place)
    }

    /// The numbers of places 0 to 10. Not by `copy_from_slice`, which keeps the arrays in memory.
    pub fn numbers(&self) -> [u64; NUMBERS]
        ensures { result ≡ elements 11 0 self.now.kept }
    {
        let kept = &self.kept;
        [
            kept[0], kept[1], kept[2], kept[3], kept[4], kept[5], kept[6], kept[7], kept[8],
            kept[9], kept[10],
        ]
    }

    /// The number received at a place.
    pub fn number(&self, place: usize) -> Option<u64>
        ensures { result ≡ number_received (found_of self.now) place }
    {
        let x = self.kept.get(place).copied().unwrap_or(0);
        self.is_met(place).then_some(x)
    }

    // Goes through the parameters, and adds up what tidying drops of them. A mark is looked up and
    // set before it is asked whether the place is one of the catalogue: asked first, the compiler
    // takes the arrays apart. Where the sums are left out, as `COUNTED` says, they cost nothing.
    #[tactic(auto, using(crate::proofs::Turn::known))]
    fn scan<const COUNTED: bool>(&mut self, src: &[u8]) -> Result<Sums, Fault>
        ensures found { scan_outcome result self.new ≡ index_from src.now 0 (found_of self.old) }
        ensures sums { IfOk result (λ sums. sums ≡ dropped (counts (parameters src.now))) }
    {
        let mut sums = Sums {
            skipped: 0,
            restated: 0,
            saved: 0,
        };
        for (at, read) in (Parameters::<COUNTED> { src, at: 0 }) {
            let Parameter {
                id,
                start,
                end,
                saved,
            } = read?;
            let place = catalogue::place_of(id);
            let met = self.is_met(place);
            let marks = with_mark(self.marks, place);
            if place != PLACES {
                let received = Received {
                    place,
                    start,
                    len: end - start,
                    rest: &src[start..],
                };
                let x = received.receive::<COUNTED>(met)?;
                self.kept[place] = x.kept;
                self.lens[place] = ((end - start) % 256) as u8;
                self.marks = marks;
                if restates(place, x.kept) {
                    sums.restated += end - at;
                } else {
                    sums.saved += saved + x.saved;
                }
            } else {
                sums.skipped += end - at;
            }
        }
        Ok(sums)
    }
}

/// What is kept of an extension in which no parameter is at fault, and the extension: the values
/// lie within it, and fit. Only `index` makes one.
#[derive(Clone, Copy)]
pub struct Kept<'a> {
    entries: Entries,
    src: &'a [u8],
    ghost sound: { Sound src.now (found_of entries) },
}

impl<'a> Kept<'a> {
    /// What was found: the marks, and by place what is kept.
    pub fn entries(&self) -> &Entries
        ensures { result.now ≡ self.now.entries }
    {
        &self.entries
    }

    /// The value received at a place; none at one that holds a number.
    #[tactic(auto, using(crate::proofs::Parts::none_unmet, crate::proofs::Parts::there_at))]
    pub fn value(&self, place: usize) -> Option<&'a [u8]>
        ensures { option_of (option_copied result)
            ≡ value_of self.now.src.now (found_of self.now.entries) place }
    {
        if PLACES <= place {
            return None;
        }
        if is_marked(NUMBER_PLACES, place) {
            return None;
        }
        let entries = &self.entries;
        if !entries.is_met(place) {
            return None;
        }
        let start = entries.kept[place] as usize;
        let end = start + usize::from(entries.lens[place]);
        Some(&self.src[start..end])
    }

    // The length of the preferred address's connection ID; 0 if there is no address.
    fn id_length(&self) -> u8
        ensures { result ≡ id_len self.now.src.now (found_of self.now.entries) }
    {
        match self.value(PREFERRED_ADDRESS) {
            Some(v) => v[24],
            None => 0,
        }
    }

    /// The version information received; absent if there was none.
    #[inline(always)]
    pub fn versions(&self) -> VersionInformation
        ensures { result ≡ versions_in (value_at self.now.src.now (found_of self.now.entries) 21) }
    {
        match self.value(VERSION_INFORMATION) {
            Some(v) => VersionInformation::decode(v).unwrap(),
            None => VersionInformation::default(),
        }
    }

    // Whether those of version information do: they do without any, and then none is made.
    fn are_versions_allowed(&self, side: Side) -> bool
        ensures { result
            ≡ version_rules (is_server side)
            (versions_in (value_at self.now.src.now (found_of self.now.entries) 21)) }
    {
        if !self.entries.is_met(VERSION_INFORMATION) {
            return true;
        }
        rules::versions_allowed(side, &self.versions())
    }

    // Whether the value rules hold of what was kept.
    fn is_allowed(&self, side: Side) -> bool
        ensures { result ≡ kept_rules side self.now.src.now (found_of self.now.entries) }
    {
        let entries = &self.entries;
        let min_delay = Microseconds(entries.kept[MIN_ACK_DELAY]);
        if !rules::numbers_allowed(&entries.numbers(), min_delay) {
            return false;
        }
        let original = entries.is_met(ORIGINAL_DST_CID);
        let address = entries.is_met(PREFERRED_ADDRESS);
        let retry = entries.is_met(RETRY_SRC_CID);
        let token = entries.is_met(STATELESS_RESET_TOKEN);
        let id_len = self.id_length();
        let presence = Presence {
            original,
            address,
            retry,
            token,
            id_len,
        };
        if !rules::presence_allowed(side, presence) {
            return false;
        }
        self.are_versions_allowed(side)
    }
}

/// Goes through an extension for a side: the first fault from the front, then the value rules.
#[tactic(auto, using(crate::proofs::Settled::illegal, crate::proofs::Settled::allowed))]
pub fn index<'a>(side: Side, src: &'a [u8]) -> Result<Kept<'a>, Fault>
    ensures found { index_outcome (λ kept. found_of kept.entries) result ≡ indexed side src.now }
    ensures lent { IfOk result (λ kept. kept.src.now ≡ src.now) }
{
    // Made before the scan: made behind it, the compiler takes the arrays apart.
    let mut kept = Kept {
        entries: Entries::empty(),
        src,
    };
    kept.entries.scan::<false>(src)?;
    if !kept.is_allowed(side) {
        return Err(Fault::Illegal);
    }
    Ok(kept)
}

/// The same for a report: the marks of the places met, and what tidying drops. The sums are no part
/// of what is kept, so that reading does not pay for them.
#[tactic(auto, using(crate::proofs::Settled::not_counted, crate::proofs::Settled::counted_lem, crate::proofs::Settled::illegal))]
pub fn counted(side: Side, src: &[u8]) -> Result<(u32, Sums), Fault>
    ensures { fault_outcome result ≡ counted side src.now }
{
    let mut found = Kept {
        entries: Entries::empty(),
        src,
    };
    let sums = found.entries.scan::<true>(src)?;
    if found.is_allowed(side) {
        return Ok((found.entries.marks, sums));
    }
    Err(Fault::Illegal)
}
