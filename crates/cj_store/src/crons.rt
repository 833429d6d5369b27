ghost use Rattle.std.specs.Prelude.{◌≡◌, ◌≢◌, IfOk, IfErr, OnOk, OnErr, Ok, Err};
ghost use Rattle.cj_base.specs.declared.refusal.Refusal.TheVariants.{OutOfMemory};
ghost use Rattle.cj_store.specs.Content.{HasRoom};
ghost use Rattle.cj_store.specs.Crons.{cron_created, cron_updated, status_set, cron_deleted};
ghost use Rattle.cj_store.specs.Change.{after, map_ok, cron_added, cron_modified, cron_gone};

use crate::Store;
use crate::placed::placed;
use cj_types::{
    CronJob, CronJobDraft, CronStatus, Event, Key, Object, Refusal, Seconds, Shared, Uid, Version,
};
use std::alloc::Global;

fn version_of(cron: &Shared<CronJob>) -> Version
    ensures { result ≡ cron.now.meta.version }
{
    cron.meta.version
}

impl Store {
    /// Creates a CronJob, and answers it. Refused: `Invalid` with a version in the draft,
    /// `AlreadyExists`.
    pub fn create_cron(
        &mut self,
        alloc: Global,
        draft: CronJobDraft,
        now: Seconds,
    ) -> Result<Shared<CronJob>, Refusal>
        requires { HasRoom self.old }
        ensures ok { IfOk result (λ c. cron_created self.old draft now ≡ Ok c) }
        ensures err { IfErr result (λ e. e ≢ OutOfMemory →
            cron_created self.old draft now ≡ Err e) }
        ensures after { IfOk result (λ c. self.new ≡ after self.old (cron_added c)) }
        ensures unchanged { OnErr result (self.new ≡ self.old) }
    {
        let (cron, answer) = placed(alloc, self.cron_created(alloc, draft, now))?;
        self.apply(alloc, Event::Added(Object::Cron(cron)))?;
        Ok(answer)
    }

    /// Replaces labels, annotations and spec of a CronJob, and answers it. Refused: `NotFound`,
    /// `Conflict` where the draft gives a version or uid that isn't the current one.
    pub fn update_cron(
        &mut self,
        alloc: Global,
        draft: CronJobDraft,
    ) -> Result<Shared<CronJob>, Refusal>
        requires { HasRoom self.old }
        ensures ok { IfOk result (λ c. cron_updated self.old draft ≡ Ok c) }
        ensures err { IfErr result (λ e. e ≢ OutOfMemory → cron_updated self.old draft ≡ Err e) }
        ensures after { IfOk result (λ c. self.new ≡ after self.old (cron_modified c)) }
        ensures unchanged { OnErr result (self.new ≡ self.old) }
    {
        let (cron, answer) = placed(alloc, self.cron_updated(alloc, draft))?;
        self.apply(alloc, Event::Modified(Object::Cron(cron)))?;
        Ok(answer)
    }

    /// Replaces the status of a CronJob, and answers it. Refused: `NotFound`, also where the
    /// CronJob at the key has another uid, and `Conflict` where the version isn't the current one.
    pub fn set_status(
        &mut self,
        alloc: Global,
        key: &Key,
        uid: Uid,
        version: Version,
        status: CronStatus,
    ) -> Result<Shared<CronJob>, Refusal>
        requires { HasRoom self.old }
        ensures ok { IfOk result (λ c. status_set self.old key.now uid version status ≡ Ok c) }
        ensures err { IfErr result (λ e. e ≢ OutOfMemory →
            status_set self.old key.now uid version status ≡ Err e) }
        ensures after { IfOk result (λ c. self.new ≡ after self.old (cron_modified c)) }
        ensures unchanged { OnErr result (self.new ≡ self.old) }
    {
        let (cron, answer) = placed(alloc, self.status_set(alloc, key, uid, version, status))?;
        self.apply(alloc, Event::Modified(Object::Cron(cron)))?;
        Ok(answer)
    }

    /// Deletes a CronJob, and answers the version of the deletion. Refused: `NotFound`.
    pub fn delete_cron(&mut self, alloc: Global, key: &Key) -> Result<Version, Refusal>
        requires { HasRoom self.old }
        ensures ok { IfOk result (λ v. map_ok (λ c. c.meta.version) (cron_deleted self.old key.now)
            ≡ Ok v) }
        ensures err { IfErr result (λ e. e ≢ OutOfMemory → cron_deleted self.old key.now ≡ Err e) }
        ensures after { OnOk result (map_ok (λ c. after self.old (cron_gone c))
            (cron_deleted self.old key.now) ≡ Ok self.new) }
        ensures unchanged { OnErr result (self.new ≡ self.old) }
    {
        let cron = Shared::new(alloc, self.cron_deleted(alloc, key)?)?;
        let version = version_of(&cron);
        self.apply(alloc, Event::Deleted(Object::Cron(cron)))?;
        Ok(version)
    }
}
