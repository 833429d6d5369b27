ghost use Rattle.std.specs.Prelude.{◌≡◌, ◌<◌, ◌/◌, ◌^◌, [], ◌∷◌, IfOk, IfErr, OnOk};
ghost use Rattle.cj_types.specs.LabelMap.{put_label};
ghost use Rattle.cj_types.specs.Made.{scheduled_annotation, made_name, made_place, owner_of, made_meta, made_job};
ghost use Rattle.cj_base.specs.declared.refusal.Refusal.TheVariants.{OutOfMemory};

use crate::{CronJob, CronKey, DraftMeta, JobDraft, Key, Labels, OwnerRef, OwnerRefs};
use cj_base::{Refusal, Seconds, Text, TryCopy, all_four, all_three, both};
use std::alloc::Global;

// The name of the CronJob's Job for a scheduled time; the minutes have at most ten digits.
fn job_name(alloc: Global, cron: &str, time: Seconds) -> Result<Text, Refusal>
    ensures ok { IfOk result (λ t. t ≡ made_name cron.now time) }
    ensures minutes { OnOk result (time / 60 < 10 ^ 10) }
    ensures err { IfErr result (λ e. e ≡ OutOfMemory) }
{
    let minute = time.get() / 60;
    Ok(Text::from_string(format!(in alloc; "{cron}-{minute}")?))
}

impl CronKey {
    /// The key of the CronJob's Job for a scheduled time: in its namespace, with its name, `-`, and
    /// the time in whole minutes since 1970. This adds at most 11 characters.
    pub fn job_key(&self, alloc: Global, time: Seconds) -> Result<Key, Refusal>
        ensures ok { IfOk result (λ k. k ≡ made_place self.now time) }
        ensures err { IfErr result (λ e. e ≡ OutOfMemory) }
    {
        let name = job_name(alloc, self.key().name(), time)?;
        Key::well_formed(alloc, self.key().namespace(), name.as_str())
    }
}

// The annotations with the scheduled time.
fn annotations_with(alloc: Global, annotations: &Labels, time_text: &str) -> Result<Labels, Refusal>
    ensures ok { IfOk result (λ l. l ≡ put_label scheduled_annotation time_text.now
        annotations.now) }
    ensures err { IfErr result (λ e. e ≡ OutOfMemory) }
{
    let (mut labels, name, value) = all_three(
        annotations.try_copy(alloc),
        Text::new(alloc, "batch.kubernetes.io/cronjob-scheduled-timestamp"),
        Text::new(alloc, time_text),
    )?;
    labels.put(name, value)?;
    Ok(labels)
}

// The reference to the CronJob as a Job's controller.
fn owner(alloc: Global, cron: &CronJob) -> Result<OwnerRef, Refusal>
    ensures ok { IfOk result (λ o. o ≡ owner_of cron.now) }
    ensures err { IfErr result (λ e. e ≡ OutOfMemory) }
{
    let (api_version, kind, name, uid) = all_four(
        Text::new(alloc, "batch/v1"),
        Text::new(alloc, "CronJob"),
        Text::new(alloc, cron.key.key().name()),
        cron.meta.uid.text(alloc),
    )?;
    Ok(OwnerRef {
        api_version,
        kind,
        name,
        uid,
        controller: true,
        block_owner_deletion: true,
    })
}

fn owners(alloc: Global, cron: &CronJob) -> Result<OwnerRefs, Refusal>
    ensures ok { IfOk result (λ o. o ≡ owner_of cron.now ∷ []) }
    ensures err { IfErr result (λ e. e ≡ OutOfMemory) }
{
    let mut owners = OwnerRefs::new(alloc);
    owners.push(owner(alloc, cron)?)?;
    Ok(owners)
}

fn meta(alloc: Global, cron: &CronJob, time_text: &str) -> Result<DraftMeta, Refusal>
    ensures ok { IfOk result (λ m. m ≡ made_meta cron.now time_text.now) }
    ensures err { IfErr result (λ e. e ≡ OutOfMemory) }
{
    let (labels, annotations) = both(
        cron.spec.template.labels.try_copy(alloc),
        annotations_with(alloc, &cron.spec.template.annotations, time_text),
    )?;
    Ok(DraftMeta {
        uid: None,
        version: None,
        labels,
        annotations,
    })
}

impl CronJob {
    /// The Job that the controller makes for a scheduled time, which is also given as it is
    /// printed: of the name that `job_key` gives, with the template's labels and spec, its
    /// annotations and `batch.kubernetes.io/cronjob-scheduled-timestamp`, and the CronJob as its
    /// controller.
    pub fn job_for(
        &self,
        alloc: Global,
        time: Seconds,
        time_text: &str,
    ) -> Result<JobDraft, Refusal>
        ensures ok { IfOk result (λ d. d ≡ made_job self.now time time_text.now) }
        ensures err { IfErr result (λ e. e ≡ OutOfMemory) }
    {
        let (key, meta, owners, spec) = all_four(
            self.key.job_key(alloc, time),
            meta(alloc, self, time_text),
            owners(alloc, self),
            self.spec.template.spec.try_copy(alloc),
        )?;
        Ok(JobDraft {
            key,
            meta,
            owners,
            spec,
        })
    }
}
