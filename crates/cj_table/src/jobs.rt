// The Jobs by key, with an index of each CronJob's Jobs, so that listing them walks these alone and
// looks none up. Each Job has one place, its slot. Table and index both refer to the slot's number,
// so that replacing a Job writes that slot alone.
mod by_owner;
mod jobs;
mod own_jobs;
mod owner;
mod slot;
mod slots;

pub use jobs::Jobs;
