// The server's part and one sync of the fenced start as code: that calls succeed where there is
// memory.
use cj_base::Text;
use cj_fence::{Call, Claim, Cluster, Cron, Job, Policy, Ref, Refs, Served, Stamp, Sync, Write};
use std::alloc::Global;
use std::mem;
use std::process::Abort;

// What the server keeps, and how far a sync is.
#[derive(Drop)]
struct Trial {
    cluster: Cluster,
    sync: Sync,
}

fn text(rt: &impl Abort, alloc: Global, words: &str) -> Text {
    Text::new(alloc, words).expect(rt, "memory")
}

fn stamp(rt: &impl Abort, alloc: Global, words: &str) -> Stamp {
    Stamp {
        uid: text(rt, alloc, words),
        version: text(rt, alloc, words),
    }
}

// The sync may make the call, the server answers it, and the sync hears the answer.
fn call(rt: &impl Abort, alloc: Global, trial: Trial, call: Call, words: &str) -> Trial {
    let Trial { cluster, sync } = trial;
    assert!(rt; sync.may(&call));
    let given = stamp(rt, alloc, words);
    let served = cluster.serve(alloc, &given, &call).expect(rt, "memory");
    let Served { answer, cluster } = served;
    let sync = sync.advance(alloc, &call, &answer).expect(rt, "memory");
    Trial { cluster, sync }
}

fn cron(rt: &impl Abort, alloc: Global) -> Cron {
    Cron {
        uid: text(rt, alloc, ""),
        version: text(rt, alloc, ""),
        last: 0,
        success: 0,
        active: Refs::new(alloc),
        policy: Policy::Forbid,
        deadline: None,
    }
}

fn job(rt: &impl Abort, alloc: Global) -> Job {
    Job {
        uid: text(rt, alloc, ""),
        version: text(rt, alloc, ""),
        owner: text(rt, alloc, "1"),
        time: 5,
        policy: Policy::Forbid,
        held: true,
        finished: false,
        deleting: false,
        pinned: false,
    }
}

fn made(rt: &impl Abort, alloc: Global) -> Ref {
    Ref {
        name: text(rt, alloc, "job"),
        uid: text(rt, alloc, "3"),
    }
}

fn claim(rt: &impl Abort, alloc: Global) -> Call {
    let mut active = Refs::new(alloc);
    active.push(made(rt, alloc)).expect(rt, "memory");
    Call::Claim(Claim {
        name: text(rt, alloc, "cron"),
        uid: text(rt, alloc, "1"),
        version: text(rt, alloc, "1"),
        time: 5,
        job: made(rt, alloc),
        active,
        success: None,
    })
}

// A CronJob that somebody created, and a sync that has called nothing.
fn begun(rt: &impl Abort, alloc: Global) -> Trial {
    let put = Write::PutCron(text(rt, alloc, "cron"), cron(rt, alloc));
    let given = stamp(rt, alloc, "1");
    let empty = Cluster::new(alloc);
    let cluster = empty.write(alloc, &given, &put).expect(rt, "memory");
    Trial {
        cluster,
        sync: Sync::Fresh,
    }
}

// A Job is held, claimed and started, each call one that the sync may make.
// rules: fence-follows, fence-server
#[test]
fn starts_what_it_claims(rt: HostRuntime) {
    let alloc = rt.alloc();
    let trial = begun(&rt, alloc);
    let get = Call::GetCron(text(&rt, alloc, "cron"));
    let trial = call(&rt, alloc, trial, get, "2");
    let create = Call::Create(text(&rt, alloc, "job"), job(&rt, alloc));
    let trial = call(&rt, alloc, trial, create, "3");
    let trial = call(&rt, alloc, trial, claim(&rt, alloc), "4");
    let trial = call(&rt, alloc, trial, Call::Start(made(&rt, alloc)), "5");
    let trial = call(&rt, alloc, trial, Call::ListJobs, "6");
    assert!(rt; matches!(trial.sync, Sync::Tidying(_, _, _)));
    mem::forget(trial);
}
