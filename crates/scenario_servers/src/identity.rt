//! Who a server is.

ghost use Rattle.std.specs.Prelude.{◌≡◌, ◌+◌, ◌<◌, codes};
ghost use Rattle.scenario_servers.specs.Prelude.{Gives, fault_of, needed, number_in, optional, view};
ghost use Rattle.scenario_servers.specs.Names.{own_name};
ghost use Rattle.scenario_servers.specs.Servers.{plain_identity, identity_in};

use crate::given::Identity;
use crate::names::{Names, own_name};
use crate::orch_base::{Name, Version};
use crate::uuids::{Uuids, own_uuid};
use scenario_values::{FaultCode, ReadFault, fails, maybe_label, number_in, under, version_at};
use serde_json::Value;
use std::alloc::Global;

/// The version of a server that gives none.
const DEFAULT_VERSION: Version = Version {
    major: 8,
    minor: 0,
    patch: 36,
};

#[tactic(auto, using(scenario_values::proofs::Unders::gives_under))]
fn name_at(alloc: Global, names: &Names, number: u32, object: &Value) -> Result<Name, ReadFault>
    ensures { Gives (λ n. n) fault_of result
        (needed (codes "name") (own_name names.now number) (view object.now)) }
{
    match object.get("name") {
        Some(value) => under(alloc, b"name", own_name(alloc, names, number, value)),
        None => Err(fails(alloc, FaultCode::Missing)),
    }
}

fn server_id_in(alloc: Global, value: &Value) -> Result<u32, ReadFault>
    ensures { Gives (λ n. n) fault_of result (number_in 1 4294967295 (view value.now)) }
{
    let id = number_in(alloc, 1, 4_294_967_295, value)?;
    Ok(id as u32)
}

#[tactic(auto, using(scenario_values::proofs::Unders::gives_under))]
fn server_id_at(alloc: Global, number: u32, object: &Value) -> Result<u32, ReadFault>
    requires { number < 1000 }
    ensures { Gives (λ n. n) fault_of result
        (optional (codes "server_id") (number_in 1 4294967295) (number + 1) (view object.now)) }
{
    match object.get("server_id") {
        Some(value) => under(alloc, b"server_id", server_id_in(alloc, value)),
        None => Ok(number + 1),
    }
}

/// Who the server of this number is, if the text has nothing about it but its name and UUID.
#[tactic(auto, unfolding(crate::specs::Servers::plain_identity))]
pub(crate) fn plain_identity(
    alloc: Global,
    names: &Names,
    uuids: &Uuids,
    number: u32,
    object: &Value,
) -> Result<Identity, ReadFault>
    requires { number < 1000 }
    ensures { Gives (λ i. i) fault_of result
        (plain_identity names.now uuids.now number (view object.now)) }
{
    let name = name_at(alloc, names, number, object)?;
    let uuid = own_uuid(alloc, uuids, number, object)?;
    Ok(Identity {
        name,
        uuid,
        server_id: number + 1,
        version: DEFAULT_VERSION,
        cluster: None,
    })
}

/// Who the server of this number is.
#[tactic(auto, unfolding(crate::specs::Servers::identity_in))]
pub(crate) fn identity_in(
    alloc: Global,
    names: &Names,
    uuids: &Uuids,
    number: u32,
    object: &Value,
) -> Result<Identity, ReadFault>
    requires { number < 1000 }
    ensures { Gives (λ i. i) fault_of result
        (identity_in names.now uuids.now number (view object.now)) }
{
    let name = name_at(alloc, names, number, object)?;
    let uuid = own_uuid(alloc, uuids, number, object)?;
    let server_id = server_id_at(alloc, number, object)?;
    let version = version_at(alloc, object, "version", DEFAULT_VERSION)?;
    let cluster = maybe_label(alloc, object, "cluster")?;
    Ok(Identity {
        name,
        uuid,
        server_id,
        version,
        cluster,
    })
}
