ghost use Rattle.cj_store.specs.Content.{HasRoom};

use crate::store::drafts::{CRON, cron_draft, seconds};
use crate::store::told::{Answer, done, gone};
use cj_store::Store;
use cj_types::{Key, Refusal};
use std::alloc::Global;

/// The moment of each call.
pub const NOW: u64 = 1_704_067_200;

/// A call to the one CronJob; a draft has this schedule and carries this version.
#[derive(Clone, Copy)]
pub enum Ask {
    Create(&'static str, Option<u64>),
    Update(&'static str, Option<u64>),
    Delete,
}

fn call_with_room(store: &mut Store, alloc: Global, ask: Ask) -> Result<Answer, Refusal>
    requires { HasRoom store.old }
{
    let now = seconds(NOW)?;
    Ok(match ask {
        Ask::Create(schedule, version) => {
            let draft = cron_draft(alloc, schedule, version)?;
            done(store.create_cron(alloc, draft, now))
        }
        Ask::Update(schedule, version) => {
            let draft = cron_draft(alloc, schedule, version)?;
            done(store.update_cron(alloc, draft))
        }
        Ask::Delete => gone(store.delete_cron(alloc, &Key::new(alloc, "default", CRON)?)),
    })
}

fn call(store: &mut Store, alloc: Global, ask: Ask) -> Result<Answer, Refusal> {
    if !store.has_room() {
        return Err(Refusal::HistoryFull);
    }
    call_with_room(store, alloc, ask)
}

/// Whether the call is answered so.
pub fn is_answered(store: &mut Store, alloc: Global, ask: Ask, wanted: Answer) -> bool {
    match call(store, alloc, ask) {
        Ok(answer) => answer == wanted,
        Err(_) => false,
    }
}
