ghost use Rattle.std.specs.Prelude.{◌≡◌, [], ◌∷◌, ◌++◌, IfOk, IfErr, OnOk, OnErr, MatchOption};
ghost use Rattle.cj_base.specs.declared.refusal.Refusal.TheVariants.{OutOfMemory};

use cj_base::{Refusal, Same, Text, TryCopy, copy_all, same_all};
use std::alloc::Global;
use std::marker::Model;

/// A Job as `status.active` names it: by its name, with the namespace, and by its uid.

pub struct Ref {
    pub name: Text,
    pub uid: Text,
}

// A function of its own, so that whoever gives one up makes one call and not one for each part.
impl Drop for Ref {
    fn drop(self) {
        let Ref { name, uid } = self;
        drop(name);
        drop(uid);
    }
}

impl TryCopy for Ref {
    fn try_copy(&self, alloc: Global) -> Result<Ref, Refusal> {
        Ok(Ref {
            name: self.name.try_copy(alloc)?,
            uid: self.uid.try_copy(alloc)?,
        })
    }
}

impl Same for Ref {
    fn same(&self, other: &Ref) -> bool {
        let name = self.name.same(&other.name);
        let uid = self.uid.same(&other.uid);
        name && uid
    }
}

/// References to Jobs, which contracts see as a list.

pub struct Refs {
    items: Vec<Ref>,
}

// A function of its own, so that whoever gives one up makes one call and not one for each part.
impl Drop for Refs {
    fn drop(self) {
        let Refs { items: _ } = self;
    }
}

impl Model for Refs {
    ghost use Rattle.std.specs.Prelude.{List};
    ghost use Rattle.cj_fence.specs.declared.refs.Ref.{Ref};

    ghost Value = { List Ref };

    ghost view = { λ r. r.items.items };
}

impl Refs {
    /// No reference.
    pub fn new(alloc: Global) -> Refs
        ensures { result ≡ [] }
    {
        Refs {
            items: Vec::new(alloc),
        }
    }

    /// The references of a list, which it takes over.
    pub fn from_vec(items: Vec<Ref>) -> Refs
        ensures { result ≡ items.items }
    {
        Refs { items }
    }

    /// The references in their order.
    pub fn as_slice(&self) -> &[Ref]
        ensures { result.now ≡ self.now }
    {
        self.items.as_slice()
    }

    /// Takes the first reference out, if there is one.
    pub(crate) fn take_first(&mut self) -> Option<Ref>
        ensures { MatchOption result ((self.old ≡ []) × (self.new ≡ [])) (λ r.
            self.old ≡ r ∷ self.new) }
    {
        if self.items.is_empty() {
            return None;
        }
        Some(self.items.remove(0))
    }

    /// One reference more, behind the others. Where memory is wanting, all stays as it was.
    pub fn push(&mut self, job: Ref) -> Result<(), Refusal>
        ensures ok { OnOk result (self.new ≡ self.old ++ job ∷ []) }
        ensures err { OnErr result (self.new ≡ self.old) }
        ensures memory { IfErr result (λ e. e ≡ OutOfMemory) }
    {
        self.items.push(job).map_err(|_| Refusal::OutOfMemory)
    }
}

impl TryCopy for Refs {
    fn try_copy(&self, alloc: Global) -> Result<Refs, Refusal> {
        Ok(Refs {
            items: copy_all(alloc, self.items.as_slice())?,
        })
    }
}

impl Same for Refs {
    fn same(&self, other: &Refs) -> bool {
        same_all(self.as_slice(), other.as_slice())
    }
}
