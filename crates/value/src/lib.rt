// A value received for a place of the catalogue: whether it is a second copy, whether it fits its
// kind, and what is kept of it: the number that it holds or, for another kind, where it starts.
#![tactic(auto)]

ghost use Rattle.std.specs.Prelude.{◌≡◌, true, ◌≤◌, ◌<◌, length, take};
ghost use Rattle.catalogue.specs.Catalogue.{number, address, versions, kind_at};
ghost use Rattle.value.specs.Value.{is_simple, stands, check_kind, check_value, receive_value};
ghost use Rattle.front.specs.Answer.{fault_outcome};
ghost use Rattle.value.specs.Answer.{judged};

use catalogue::{
    CID_PLACES, FLAG_PLACES, NUMBER_PLACES, PREFERRED_ADDRESS, SIMPLE_PLACES,
    STATELESS_RESET_TOKEN, VERSION_INFORMATION,
};
use connection_id::ConnectionId;
use front::Fault;
use marks::is_marked;
use record::ResetToken;
use varint::VarInt;
use words::all_zero;

/// What is kept of a value.
#[derive(Clone, Copy, Debug, PartialEq, Eq)]
pub struct Held {
    /// the number that it holds or, of another kind, where it starts
    pub kept: u64,
    /// how many bytes the shortest form of the number would have saved
    pub saved: usize,
}

// Of a value that holds no number.
fn stands(start: usize) -> Held
    ensures { result ≡ stands start }
{
    Held {
        kept: start as u64,
        saved: 0,
    }
}

// A number that uses exactly its bytes.
#[tactic(auto, using(crate::proofs::Checks::number_unread, crate::proofs::Checks::number_read_lem))]
fn check_number(start: usize, v: &[u8]) -> Result<Held, Fault>
    ensures { fault_outcome result ≡ check_kind number start v.now }
{
    let Ok(x) = VarInt::decode(v) else {
        return Err(Fault::Misfit);
    };
    let held = Held {
        kept: x.value,
        saved: x.saved,
    };
    fits_if(x.count == v.len(), held)
}

// A preferred address: both families absent is found before leftover bytes.
#[tactic(auto, using(crate::proofs::Checks::address_none, crate::proofs::Checks::address_id, crate::proofs::Checks::address_short))]
fn check_address(start: usize, v: &[u8]) -> Result<Held, Fault>
    ensures { fault_outcome result ≡ check_kind address start v.now }
{
    if v.len() < 25 {
        return Err(Fault::Misfit);
    }
    let n = usize::from(v[24]);
    if ConnectionId::MAX_SIZE < n {
        return Err(Fault::Misfit);
    }
    let end = 41 + n;
    if v.len() < end {
        return Err(Fault::Misfit);
    }
    if all_zero(&v[..24]) {
        return Err(Fault::Illegal);
    }
    fits_if(v.len() == end, stands(start))
}

// Version information: that a version is zero is no fault of its parameter.
#[tactic(auto, using(crate::proofs::Checks::by_length, crate::proofs::Checks::versions_fit), unfolding(catalogue::specs::Catalogue::illegal, crate::specs::Value::held_of))]
fn check_versions(start: usize, v: &[u8]) -> Result<Held, Fault>
    ensures { fault_outcome result ≡ check_kind versions start v.now }
{
    fits_if(version_information::is_value(v), stands(start))
}

fn fits_if(test: bool, held: Held) -> Result<Held, Fault>
    ensures { fault_outcome result ≡ judged test held }
{
    test.then_some(held).ok_or(Fault::Misfit)
}

// A value for a place: there is none for the reserved parameter's place, nor beyond the last. The
// kinds are told by masks, as in `check_wide`: an enum of kinds would be a second table of the
// same.
#[inline(always)]
fn check_narrow(place: usize, start: usize, v: &[u8]) -> Result<Held, Fault>
    ensures { fault_outcome result ≡ check_value place start v.now }
{
    if is_marked(NUMBER_PLACES, place) {
        return check_number(start, v);
    }
    if is_marked(CID_PLACES, place) {
        return fits_if(v.len() <= ConnectionId::MAX_SIZE, stands(start));
    }
    if is_marked(FLAG_PLACES, place) {
        return fits_if(v.is_empty(), stands(start));
    }
    if place == STATELESS_RESET_TOKEN {
        return fits_if(v.len() == ResetToken::SIZE, stands(start));
    }
    if place == PREFERRED_ADDRESS {
        return check_address(start, v);
    }
    if place == VERSION_INFORMATION {
        return check_versions(start, v);
    }
    Err(Fault::Misfit)
}

/// A value received for a place.
#[derive(Clone, Copy)]
pub struct Received<'a> {
    /// the place
    pub place: usize,
    /// where it starts in the extension
    pub start: usize,
    /// how many bytes of `rest` it has: all, if there are fewer
    pub len: usize,
    /// the bytes from its start on
    pub rest: &'a [u8],
}

impl<'a> Received<'a> {
    // For a simple place: a number is as long as it says, a token 16, a connection ID up to 20, a
    // flag none. Parameters come in any order, so there is no branch on the kind: what depends on
    // it is taken from arrays of two, by a test as 0 or 1.
    fn check_wide(self) -> Result<Held, Fault>
        requires { (8 ≤ length self.rest.now) × (self.len ≤ length self.rest.now)
            × (is_simple (kind_at self.place) ≡ true) }
        ensures { fault_outcome result
            ≡ check_value self.entry.place self.entry.start
            (take self.entry.len self.entry.rest.now) }
    {
        let Received {
            place,
            start,
            len,
            rest,
        } = self;
        let x = VarInt::decode_wide(rest);
        let is_number = usize::from(is_marked(NUMBER_PLACES, place));
        let is_cid = usize::from(is_marked(CID_PLACES, place));
        let is_token = usize::from(place == STATELESS_RESET_TOKEN);
        let least = [ResetToken::SIZE * is_token, x.count];
        let kept = [start as u64, x.value];
        let saved = [0, x.saved];
        let held = Held {
            kept: kept[is_number],
            saved: saved[is_number],
        };
        let shortest = least[is_number];
        let longest = shortest + ConnectionId::MAX_SIZE * is_cid;
        fits_if((shortest <= len) & (len <= longest), held)
    }

    #[tactic(auto, using(crate::proofs::Checks::simple_told, crate::proofs::Checks::all_there))]
    fn check<const COUNTED: bool>(self) -> Result<Held, Fault>
        ensures { fault_outcome result
            ≡ check_value self.entry.place self.entry.start
            (take self.entry.len self.entry.rest.now) }
    {
        let Received {
            place,
            start,
            len,
            rest,
        } = self;
        if rest.len() < len {
            return check_narrow(place, start, rest);
        }
        if VarInt::MAX_SIZE <= rest.len() && is_marked(SIMPLE_PLACES, place) {
            return self.check_wide();
        }
        check_narrow(place, start, &rest[..len])
    }

    /// What is kept of it; the place was met before or not. `COUNTED` changes nothing that is
    /// given: reading and the report have a copy each.
    #[tactic(auto, unfolding(crate::specs::Value::receive_value))]
    pub fn receive<const COUNTED: bool>(self, met: bool) -> Result<Held, Fault>
        ensures { fault_outcome result
            ≡ receive_value met self.entry.place self.entry.start
            (take self.entry.len self.entry.rest.now) }
    {
        if met {
            return Err(Fault::SecondCopy);
        }
        self.check::<COUNTED>()
    }
}
