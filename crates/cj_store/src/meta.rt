ghost use Rattle.std.specs.Prelude.{◌≡◌, ◌≢◌, ◌+◌, ◌≤◌, IfOk, IfErr};
ghost use Rattle.cj_base.specs.declared.refusal.Refusal.TheVariants.{OutOfMemory};
ghost use Rattle.cj_store.specs.Content.{HasRoom};
ghost use Rattle.cj_store.specs.Metadata.{new_meta, touched, updated, version_not_allowed};

use crate::Store;
use cj_base::both;
use cj_types::{
    Cause, DraftMeta, Field, FieldFault, FieldFaults, Meta, Refusal, Seconds, TryCopy, Uid, Version,
};
use std::alloc::Global;

// The refusal of a create whose draft gives a version.
pub(crate) fn version_not_allowed(alloc: Global) -> Refusal
    ensures { result ≢ OutOfMemory → result ≡ version_not_allowed }
{
    let fault = FieldFault {
        field: Field::ResourceVersion,
        cause: Cause::NotAllowed,
    };
    match FieldFaults::one(alloc, fault) {
        Ok(faults) => Refusal::Invalid(faults),
        Err(_) => Refusal::OutOfMemory,
    }
}

impl Store {
    // The uid of the next object that is created.
    pub(crate) fn next_uid(&self) -> Uid
        requires { HasRoom self.now }
        ensures { result ≡ self.now.uids + 1 }
    {
        Uid::new(self.creations + 1).unwrap()
    }

    // The version of the next write.
    pub(crate) fn next_version(&self) -> Version
        requires { HasRoom self.now }
        ensures { result ≡ self.now.version + 1 }
    {
        Version::new(self.writes + 1)
    }

    // The metadata of an object that is created now.
    pub(crate) fn new_meta(&self, draft: DraftMeta, now: Seconds) -> Meta
        requires { HasRoom self.now }
        ensures { result ≡ new_meta self.now draft now }
    {
        let uid = self.next_uid();
        let version = self.next_version();
        let DraftMeta {
            uid: _,
            version: _,
            labels,
            annotations,
        } = draft;
        Meta {
            uid,
            version,
            generation: 1,
            created: now,
            labels,
            annotations,
        }
    }

    // The metadata after a write that leaves labels, annotations and spec alone.
    pub(crate) fn touched(&self, alloc: Global, meta: &Meta) -> Result<Meta, Refusal>
        requires { HasRoom self.now }
        ensures ok { IfOk result (λ m. m ≡ touched self.now meta.now) }
        ensures err { IfErr result (λ e. e ≡ OutOfMemory) }
    {
        let (labels, annotations) = both(
            meta.labels.try_copy(alloc),
            meta.annotations.try_copy(alloc),
        )?;
        Ok(Meta {
            uid: meta.uid,
            version: self.next_version(),
            generation: meta.generation,
            created: meta.created,
            labels,
            annotations,
        })
    }

    // The metadata after an update by the draft.
    pub(crate) fn updated(&self, draft: DraftMeta, is_same: bool, meta: &Meta) -> Meta
        requires room { HasRoom self.now }
        requires dated { meta.now.generation ≤ self.now.version }
        ensures { result ≡ updated self.now draft is_same meta.now }
    {
        let version = self.next_version();
        let generation = if is_same {
            meta.generation
        } else {
            meta.generation + 1
        };
        let DraftMeta {
            uid: _,
            version: _,
            labels,
            annotations,
        } = draft;
        Meta {
            uid: meta.uid,
            version,
            generation,
            created: meta.created,
            labels,
            annotations,
        }
    }
}
