// The parameter at the front of some bytes: identifier, length and value (RFC 9000 section 18); and
// what can be wrong with a parameter.
#![tactic(auto)]

ghost use Rattle.std.specs.Prelude.{◌≡◌, ◌≤◌, ◌-◌, length};
ghost use Rattle.std.specs.Iterator.{at_most};
ghost use Rattle.front.specs.Parameter.{located};
ghost use Rattle.front.specs.Answer.{refused_with, fault_outcome};
ghost use Rattle.front.specs.Walk.{Steps};
ghost use Rattle.front.specs.ParameterLaws.{ParameterLaws};

use refusal::Refusal;
use varint::VarInt;

/// What can be wrong with a parameter.
#[derive(Clone, Copy, Debug, PartialEq, Eq)]
pub enum Fault {
    /// an identifier or length that cannot be read, or a length beyond what is left
    Cut,
    /// a second copy of a known parameter
    SecondCopy,
    /// a value that does not fit or fill its length, or a connection ID of over 20 bytes
    Misfit,
    /// a value that is not allowed
    Illegal,
}

// The refusal that a fault travels as.
impl From<Fault> for Refusal {
    ghost from_gives = { λ f r. r ≡ refused_with f };

    fn from(fault: Fault) -> Refusal {
        match fault {
            Fault::Cut => Refusal::Cut,
            Fault::SecondCopy => Refusal::SecondCopy,
            Fault::Misfit => Refusal::Misfit,
            Fault::Illegal => Refusal::IllegalValue,
        }
    }
}

/// A parameter of an extension, by where it stands there.
#[derive(Clone, Copy, Debug, PartialEq, Eq)]
pub struct Parameter {
    /// the identifier
    pub id: u64,
    /// where the value starts, in bytes
    pub start: usize,
    /// where it ends
    pub end: usize,
    /// what the shortest forms would have saved, in bytes
    pub saved: usize,
}

/// The parameter at a position. An identifier and a length of one byte each stand apart: most are.
/// `COUNTED` changes nothing that is given: whoever leaves out what shorter forms would have saved
/// has a copy of its own, in which it costs nothing, and whoever counts it has another.
#[tactic(auto, using(crate::proofs::Position::none_there, crate::proofs::Position::short_whole, crate::proofs::Position::short_beyond))]
pub fn parameter_at<const COUNTED: bool>(src: &[u8], at: usize) -> Result<Parameter, Fault>
    ensures { fault_outcome result ≡ located src.now at }
{
    if src.len() < at {
        return Err(Fault::Cut);
    }
    let left = src.len() - at;
    if 2 <= left {
        let id = src[at];
        let len = src[at + 1];
        if (id | len) < 64 {
            let start = at + 2;
            let end = start + usize::from(len);
            if src.len() < end {
                return Err(Fault::Cut);
            }
            return Ok(Parameter {
                id: u64::from(id),
                start,
                end,
                saved: 0,
            });
        }
    }
    any_parameter_at::<COUNTED>(src, at)
}

#[tactic(auto, using(crate::proofs::Position::first_within, crate::proofs::Position::second_within, crate::proofs::Position::first_cut, crate::proofs::Position::second_cut, crate::proofs::Position::whole, crate::proofs::Position::beyond))]
fn any_parameter_at<const COUNTED: bool>(src: &[u8], at: usize) -> Result<Parameter, Fault>
    requires { at ≤ length src.now }
    ensures { fault_outcome result ≡ located src.now at }
{
    let Ok(id) = VarInt::decode(&src[at..]) else {
        return Err(Fault::Cut);
    };
    let b = at + id.count;
    let Ok(len) = VarInt::decode(&src[b..]) else {
        return Err(Fault::Cut);
    };
    let start = b + len.count;
    let left = src.len() - start;
    if len.value > left as u64 {
        return Err(Fault::Cut);
    }
    Ok(Parameter {
        id: id.value,
        start,
        end: start + (len.value as usize),
        saved: id.saved + len.saved,
    })
}

/// The parameters of the bytes from a position on, each with where it starts; the last is the first
/// that cannot be read. `COUNTED` as above.
#[derive(Drop)]
pub struct Parameters<'a, const COUNTED: bool> {
    /// the bytes
    pub src: &'a [u8],
    /// where the next parameter starts
    pub at: usize,
}

impl<'a, const COUNTED: bool> Iterator for Parameters<'a, COUNTED> {
    type Item = (usize, Result<Parameter, Fault>);

    ghost next_gives = { λ s r t. Steps s r t };

    ghost remaining = { λ s. at_most (length s.src.now - s.at) };

    #[tactic(auto, using(crate::proofs::Position::within))]
    fn next(&mut self) -> Option<(usize, Result<Parameter, Fault>)> {
        let at = self.at;
        if self.src.len() <= at {
            return None;
        }
        let read = parameter_at::<COUNTED>(self.src, at);
        self.at = match read {
            Ok(p) => p.end,
            Err(_) => self.src.len(),
        };
        Some((at, read))
    }
}

/// A written parameter is read back, whatever follows; what is read is whole by itself; the one at
/// a position is that at the front of the bytes from there on; the parameters of whole ones, one
/// after another, are these.
#[tactic(auto, using(crate::proofs::ParameterLaws::parameter_laws))]
pub fn parameter_laws()
    ensures { ParameterLaws }
{}
