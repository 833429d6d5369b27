ghost use Rattle.std.specs.Prelude.{◌≡◌, [], ◌∷◌, ◌++◌, find, option_copied, IfErr, OnOk, OnErr};
ghost use Rattle.cj_types.specs.Owners.{controller_of, is_cron_reference};
ghost use Rattle.cj_base.specs.declared.refusal.Refusal.TheVariants.{OutOfMemory};

use cj_base::{Refusal, Same, Text, TryCopy, all_four, copy_all, same_all};
use std::alloc::Global;
use std::marker::Model;

/// An object to which another belongs (Kubernetes' `metadata.ownerReferences`).
#[derive(Debug)]
pub struct OwnerRef {
    pub api_version: Text,
    pub kind: Text,
    pub name: Text,
    /// The owner's uid as a text, as a manifest gives it.
    pub uid: Text,
    /// Whether the owner is the one that manages the object.
    pub controller: bool,
    pub block_owner_deletion: bool,
}

impl Drop for OwnerRef {
    fn drop(self) {
        let OwnerRef {
            api_version: _,
            kind: _,
            name: _,
            uid: _,
            controller: _,
            block_owner_deletion: _,
        } = self;
    }
}

impl OwnerRef {
    /// Whether the reference is to a CronJob of `batch/v1`.
    #[tactic(auto, unfolding(crate::specs::Owners::is_cron_reference))]
    pub fn is_to_cron_job(&self) -> bool
        ensures { result ≡ is_cron_reference self.now }
    {
        self.api_version.as_str() == "batch/v1" && self.kind.as_str() == "CronJob"
    }
}

impl TryCopy for OwnerRef {
    fn try_copy(&self, alloc: Global) -> Result<OwnerRef, Refusal> {
        let (api_version, kind, name, uid) = all_four(
            self.api_version.try_copy(alloc),
            self.kind.try_copy(alloc),
            self.name.try_copy(alloc),
            self.uid.try_copy(alloc),
        )?;
        Ok(OwnerRef {
            api_version,
            kind,
            name,
            uid,
            controller: self.controller,
            block_owner_deletion: self.block_owner_deletion,
        })
    }
}

impl Same for OwnerRef {
    fn same(&self, other: &OwnerRef) -> bool {
        let api_version = self.api_version.same(&other.api_version);
        let kind = self.kind.same(&other.kind);
        let name = self.name.same(&other.name);
        let uid = self.uid.same(&other.uid);
        let controller = self.controller == other.controller;
        let blocks = self.block_owner_deletion == other.block_owner_deletion;
        api_version && kind && name && uid && controller && blocks
    }
}

/// The owner references of an object, which contracts see as a list.
#[derive(Debug)]
pub struct OwnerRefs {
    items: Vec<OwnerRef>,
}

impl Drop for OwnerRefs {
    fn drop(self) {
        let OwnerRefs { items: _ } = self;
    }
}

impl Model for OwnerRefs {
    ghost use Rattle.std.specs.Prelude.{List};
    ghost use Rattle.cj_types.specs.declared.owners.OwnerRef.{OwnerRef};

    ghost Value = { List OwnerRef };

    ghost view = { λ t. t.items.items };
}

impl OwnerRefs {
    /// An empty list.
    pub fn new(alloc: Global) -> OwnerRefs
        ensures { result ≡ [] }
    {
        OwnerRefs {
            items: Vec::new(alloc),
        }
    }

    /// The references in their order.
    pub fn as_slice(&self) -> &[OwnerRef]
        ensures { result.now ≡ self.now }
    {
        self.items.as_slice()
    }

    /// Appends a reference; unchanged where there is no memory.
    pub fn push(&mut self, owner: OwnerRef) -> Result<(), Refusal>
        ensures ok { OnOk result (self.new ≡ self.old ++ owner ∷ []) }
        ensures err { OnErr result (self.new ≡ self.old) }
        ensures memory { IfErr result (λ e. e ≡ OutOfMemory) }
    {
        // Most objects have one owner, and a history keeps many of them.
        if self.items.is_empty() {
            self.items.reserve_exact(1)?;
        }
        self.items.push(owner).map_err(|_| Refusal::OutOfMemory)
    }

    /// The controller reference: the first that has `controller` set.
    pub fn controller(&self) -> Option<&OwnerRef>
        ensures { option_copied result ≡ controller_of self.now }
    {
        self.items.as_slice().iter().find(|owner| owner.controller)
    }
}

impl TryCopy for OwnerRefs {
    fn try_copy(&self, alloc: Global) -> Result<OwnerRefs, Refusal> {
        Ok(OwnerRefs {
            items: copy_all(alloc, self.items.as_slice())?,
        })
    }
}

impl Same for OwnerRefs {
    fn same(&self, other: &OwnerRefs) -> bool {
        same_all(self.as_slice(), other.as_slice())
    }
}
