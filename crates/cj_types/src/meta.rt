ghost use Rattle.std.specs.Prelude.{◌≡◌, IfOk, IfErr};
ghost use Rattle.cj_types.specs.Current.{says, is_current};
ghost use Rattle.cj_base.specs.declared.refusal.Refusal.TheVariants.{OutOfMemory};

use crate::{Labels, Uid, version_text};
use cj_base::{Refusal, Same, Seconds, Text, TryCopy, Version, all_four, both};
use std::alloc::Global;

/// The metadata that the store keeps of every object, except its key.
#[derive(Debug)]
pub struct Meta {
    pub uid: Uid,
    /// The version of the object's latest write.
    pub version: Version,
    /// 1 at creation; each change of the spec adds 1.
    pub generation: u64,
    /// When the object was created.
    pub created: Seconds,
    pub labels: Labels,
    pub annotations: Labels,
}

impl Drop for Meta {
    fn drop(self) {
        let Meta {
            uid: _,
            version: _,
            generation: _,
            created: _,
            labels: _,
            annotations: _,
        } = self;
    }
}

impl TryCopy for Meta {
    fn try_copy(&self, alloc: Global) -> Result<Meta, Refusal> {
        let (labels, annotations) = both(
            self.labels.try_copy(alloc),
            self.annotations.try_copy(alloc),
        )?;
        Ok(Meta {
            uid: self.uid,
            version: self.version,
            generation: self.generation,
            created: self.created,
            labels,
            annotations,
        })
    }
}

impl Same for Meta {
    fn same(&self, other: &Meta) -> bool {
        let uid = self.uid == other.uid;
        let version = self.version == other.version;
        let generation = self.generation == other.generation;
        let created = self.created == other.created;
        let labels = self.labels.same(&other.labels);
        let annotations = self.annotations.same(&other.annotations);
        uid && version && generation && created && labels && annotations
    }
}

/// The metadata in a manifest, except the key; uid and version are the texts that it gives, if any.
#[derive(Debug, Drop)]
pub struct DraftMeta {
    pub uid: Option<Text>,
    pub version: Option<Text>,
    pub labels: Labels,
    pub annotations: Labels,
}

// Whether the text, where one was given, is the current one.
fn says(given: &Option<Text>, current: &Text) -> bool
    ensures { result ≡ says given.now current.now }
{
    match given {
        Some(text) => text.as_str() == current.as_str(),
        None => true,
    }
}

impl DraftMeta {
    /// Whether the uid and the version, where they were given, are those of the stored object.
    pub fn is_current(&self, alloc: Global, meta: &Meta) -> Result<bool, Refusal>
        ensures ok { IfOk result (λ b. b ≡ is_current self.now meta.now) }
        ensures err { IfErr result (λ e. e ≡ OutOfMemory) }
    {
        let (uid, version) = both(meta.uid.text(alloc), version_text(alloc, meta.version))?;
        let same_uid = says(&self.uid, &uid);
        let same_version = says(&self.version, &version);
        Ok(same_uid && same_version)
    }
}

impl TryCopy for DraftMeta {
    fn try_copy(&self, alloc: Global) -> Result<DraftMeta, Refusal> {
        let (uid, version, labels, annotations) = all_four(
            self.uid.try_copy(alloc),
            self.version.try_copy(alloc),
            self.labels.try_copy(alloc),
            self.annotations.try_copy(alloc),
        )?;
        Ok(DraftMeta {
            uid,
            version,
            labels,
            annotations,
        })
    }
}

impl Same for DraftMeta {
    fn same(&self, other: &DraftMeta) -> bool {
        let uid = self.uid.same(&other.uid);
        let version = self.version.same(&other.version);
        let labels = self.labels.same(&other.labels);
        let annotations = self.annotations.same(&other.annotations);
        uid && version && labels && annotations
    }
}
