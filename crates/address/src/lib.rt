// The preferred address as a parameter on the wire (RFC 9000 section 18.2).
#![tactic(auto)]

ghost use Rattle.std.specs.Prelude.{◌≡◌, ◌∷◌, ◌++◌, true, ◌&&◌, ◌+◌, ◌≤◌, length};
ghost use Rattle.connection_id.specs.ConnectionId.{cid_bytes, formed_cid};
ghost use Rattle.catalogue.specs.Catalogue.{id_at};
ghost use Rattle.record.specs.Values.{of_address, family_out};
ghost use Rattle.wire.specs.Wire.{put, due_value};
ghost use Rattle.wire.specs.Stored.{Wrote};
ghost use Rattle.address.specs.Address.{address_bytes};

use catalogue::PREFERRED_ADDRESS_ID;
use record::{PreferredAddress, SocketAddr};
use wire::put_bytes;

/// Stores the parameter, if it is present and its ID is well formed, or nothing where there is no
/// room. Gives its byte count, 0 for nothing, as the writers of crate wire do.
#[tactic(auto, using(connection_id::proofs::Laws::cid_facts, crate::proofs::Address::address_off, crate::proofs::Address::address_none, crate::proofs::Address::address_whole), unfolding(catalogue::specs::Catalogue::id_at, catalogue::specs::Catalogue::ids))]
pub fn put_address(a: PreferredAddress, out: &mut [u8]) -> usize
    ensures { (result, out.new)
        ≡ put (due_value (a.present && formed_cid a.connection_id) (id_at 15)
        (address_bytes a)) out.old }
{
    if !a.present {
        return 0;
    }
    if !a.connection_id.is_well_formed() {
        return 0;
    }
    if out.len() < 43 + usize::from(a.connection_id.len) {
        return 0;
    }
    let n = put_address_value(&a, &mut out[2..]);
    out[0] = PREFERRED_ADDRESS_ID as u8;
    out[1] = n as u8;
    n + 2
}

// Its value, for which there is room: an address and its port, of each family, the ID behind its
// length, and the token.
fn put_address_value(a: &PreferredAddress, out: &mut [u8]) -> usize
    requires { (formed_cid a.now.connection_id ≡ true)
        × (41 + a.now.connection_id.len ≤ length out.old) }
    ensures { Wrote (41 + a.now.connection_id.len) (address_bytes a.now) out.old result out.new }
{
    put_family(&a.address_v4, out);
    put_family(&a.address_v6, &mut out[6..]);
    24 + put_cid_and_token(a, &mut out[24..])
}

fn put_family<const N: usize>(a: &SocketAddr<N>, out: &mut [u8])
    requires { N + 2 ≤ length out.old }
    ensures { Wrote (N + 2) (family_out (of_address a.now)) out.old (N + 2) out.new }
{
    out[..N].copy_from_slice(&a.ip);
    out[N..N + 2].copy_from_slice(&a.port.to_be_bytes());
}

fn put_cid_and_token(a: &PreferredAddress, out: &mut [u8]) -> usize
    requires { (formed_cid a.now.connection_id ≡ true)
        × (17 + a.now.connection_id.len ≤ length out.old) }
    ensures { Wrote (17 + a.now.connection_id.len)
        (a.now.connection_id.len ∷
        (cid_bytes a.now.connection_id ++ a.now.stateless_reset_token.bytes))
        out.old result out.new }
{
    let at = a.connection_id.encode_long(out).unwrap();
    at + put_bytes(&a.stateless_reset_token.bytes, &mut out[at..])
}
