//! The id that a job takes from its client's own id, the `sid`.
//! It is the version 5 UUID (RFC 9562, section 5.5) of the sid under a namespace, which is that of the VO's name under a constant.
//! So one VO's sid is one job, whoever asks, and another VO's is another. `specs/Ids.antt` is the definition.
ghost use Rattle.std.specs.Prelude.{◌≡◌};
ghost use Rattle.fts_jobdoc.specs.Ids.{sid_id};

use uuid::Uuid;

/// The namespace of the VOs' names: 01874efb-4735-4595-bc9c-591aef8240c9, a constant of this project.
pub const BASE_NAMESPACE: u128 = 0x0187_4efb_4735_4595_bc9c_591a_ef82_40c9;

/// The id of a job that a client of a VO calls `sid`. Any two texts have one; it takes no memory and can't fail.
#[tactic(auto, unfolding(crate::specs::Ids::sid_id))]
pub fn sid_id(vo: &str, sid: &str) -> u128
    ensures { result ≡ sid_id vo.now sid.now }
{
    let base = Uuid::from_u128(BASE_NAMESPACE);
    let namespace = Uuid::new_v5(&base, vo.as_bytes());
    Uuid::new_v5(&namespace, sid.as_bytes()).as_u128()
}
