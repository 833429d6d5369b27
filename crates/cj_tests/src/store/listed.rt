use crate::store::boxed::boxed;
use crate::store::drafts::{owned_draft, seconds};
use cj_base::both;
use cj_store::Store;
use cj_types::{Job, JobDraft, Key, Refusal, Shared};
use std::alloc::Global;

fn numbered(alloc: Global, prefix: &str, number: u64) -> Result<String, Refusal> {
    Ok(format!(in alloc; "{prefix}-{number:04}")?)
}

fn key(alloc: Global, prefix: &str, number: u64) -> Result<Key, Refusal> {
    let name = numbered(alloc, prefix, number)?;
    Key::new(alloc, "default", name.as_str())
}

// The Job of this number, of the CronJob of the number modulo 40, under one of two uids.
fn draft(alloc: Global, number: u64) -> Result<JobDraft, Refusal> {
    let (name, cron) = both(
        numbered(alloc, "job", number),
        numbered(alloc, "cron", number % 40),
    )?;
    let uid = if number < 1_000 { "old" } else { "new" };
    owned_draft(alloc, name.as_str(), cron.as_str(), uid)
}

// Makes the Job of this number, or deletes it.
fn change(store: &mut Store, alloc: Global, number: u64, is_made: bool) -> Result<(), Refusal> {
    if !store.has_room() {
        return Err(Refusal::HistoryFull);
    }
    if is_made {
        let now = seconds(1_704_067_200)?;
        let _ = store.make_job(alloc, draft(alloc, number)?, now)?;
    } else {
        let _ = store.delete_job(alloc, &key(alloc, "job", number)?, None)?;
    }
    Ok(())
}

// Whether each name is above the one before.
fn rise(jobs: &[Shared<Job>]) -> bool {
    let mut last = "";
    for job in jobs {
        if job.key.name().cmp(last).is_le() {
            return false;
        }
        last = job.key.name();
    }
    true
}

// Whether so many Jobs of the CronJob at the key are listed, by name.
fn lists_at(store: &Store, alloc: Global, key: &Key, count: usize) -> bool {
    match store.jobs_of(alloc, key) {
        Ok(jobs) => jobs.as_slice().len() == count && rise(jobs.as_slice()),
        Err(_) => false,
    }
}

fn lists(store: &Store, alloc: Global, number: u64, count: usize) -> bool {
    match key(alloc, "cron", number) {
        Ok(key) => lists_at(store, alloc, &key, count),
        Err(_) => false,
    }
}

// Whether so many Jobs of the first CronJob are listed, and 50 of each other.
fn lists_all(store: &Store, alloc: Global, count: usize) -> bool {
    for number in 1..40 {
        if !lists(store, alloc, number, 50) {
            return false;
        }
    }
    lists(store, alloc, 0, count)
}

// Makes two thousand Jobs in falling order of name.
fn make_all(store: &mut Store, alloc: Global) -> Result<(), Refusal> {
    for number in (0..2_000).rev() {
        change(store, alloc, number, true)?;
    }
    Ok(())
}

// Deletes every second Job of the first CronJob.
fn delete_half(store: &mut Store, alloc: Global) -> Result<(), Refusal> {
    for turn in 0..25 {
        change(store, alloc, turn * 80, false)?;
    }
    Ok(())
}

fn are_listed(alloc: Global) -> Result<bool, Refusal> {
    let mut store = boxed(alloc, Store::new(alloc))?;
    make_all(&mut store, alloc)?;
    let made = lists_all(&store, alloc, 50);
    delete_half(&mut store, alloc)?;
    Ok(made && lists_all(&store, alloc, 25))
}

// rule: jobs-of
#[test]
fn lists_the_jobs_of_each(rt: HostRuntime) {
    let listed = are_listed(rt.alloc()).unwrap_or(false);
    assert!(rt; listed);
}
