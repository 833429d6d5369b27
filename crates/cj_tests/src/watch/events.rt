ghost use Rattle.std.specs.Prelude.{◌≡◌, IfOk};
ghost use Rattle.cj_types.specs.Events.{version_of};

use cj_types::{
    Event, Heap, Job, Key, Labels, Meta, Object, OwnerRef, OwnerRefs, Refusal, Seconds, Shared,
    SpecText, Text, Uid, Version,
};
use std::alloc::Global;

fn meta(alloc: Global, version: u64) -> Result<Meta, Refusal>
    ensures { IfOk result (λ m. m.version ≡ version) }
{
    let uid = Uid::new(1).ok_or(Refusal::NotFound)?;
    let created = Seconds::new(0).ok_or(Refusal::NotFound)?;
    Ok(Meta {
        uid,
        version: Version::new(version),
        generation: 1,
        created,
        labels: Labels::new(alloc),
        annotations: Labels::new(alloc),
    })
}

type Pair = Heap<(Text, Text)>;

fn texts(alloc: Global, one: &str, other: &str) -> Result<Pair, Refusal> {
    let one = Text::new(alloc, one)?;
    Heap::new(alloc, (one, Text::new(alloc, other)?))
}

fn owner_of(group: Pair, name: Pair) -> OwnerRef {
    let (api_version, kind) = group.into_inner();
    let (name, uid) = name.into_inner();
    OwnerRef {
        api_version,
        kind,
        name,
        uid,
        controller: true,
        block_owner_deletion: false,
    }
}

// The CronJob `hello`, as the controller.
fn owner(alloc: Global) -> Result<OwnerRef, Refusal> {
    let group = texts(alloc, "batch/v1", "CronJob")?;
    Ok(owner_of(group, texts(alloc, "hello", "u")?))
}

fn owners(alloc: Global) -> Result<OwnerRefs, Refusal> {
    let mut owners = OwnerRefs::new(alloc);
    owners.push(owner(alloc)?)?;
    Ok(owners)
}

type Head = Heap<(Key, SpecText)>;

fn head(alloc: Global) -> Result<Head, Refusal> {
    let key = Key::new(alloc, "default", "a")?;
    let text = Text::new(alloc, "{}")?;
    Heap::new(alloc, (key, SpecText::new(alloc, text)?))
}

fn job_of(head: Head, meta: Meta, owners: OwnerRefs) -> Job
    ensures { result.meta ≡ meta }
{
    let (key, spec) = head.into_inner();
    Job {
        key,
        meta,
        owners,
        spec,
        outcome: None,
    }
}

fn job(alloc: Global, version: u64) -> Result<Shared<Job>, Refusal>
    ensures { IfOk result (λ j. j.meta.version ≡ version) }
{
    let head = head(alloc)?;
    let owners = owners(alloc)?;
    Shared::new(alloc, job_of(head, meta(alloc, version)?, owners))
}

// The making of the Job.
pub fn added(alloc: Global, version: u64) -> Result<Event, Refusal>
    ensures { IfOk result (λ e. version_of e ≡ version) }
{
    let job = job(alloc, version)?;
    Ok(Event::Added(Object::Job(job)))
}
