ghost use Rattle.std.specs.Prelude.{◌≡◌, ◌<◌, is_some, IfSome, true, false, Some, None};
ghost use Rattle.std.specs.Bool.{OnTrue, OnFalse};
ghost use Rattle.indexmap.specs.IndexMap.{spare};
ghost use Rattle.cj_queue.specs.declared.stage.Stage.TheVariants.{Held, Again};
ghost use Rattle.cj_queue.specs.Parts.{stage_of, is_again, HasStage};

use crate::secret::Secret;
use cj_types::Key;
use indexmap::IndexMap;

/// How a key that is being worked on stands.
#[derive(Clone, Copy)]
pub enum Stage {
    /// Nobody added it since it was taken.
    Held,
    /// It was added again meanwhile.
    Again,
}

/// Notes an add of the key where it is being worked on. Answers whether it is.
pub fn note_add(busy: &mut IndexMap<Key, Stage, Secret>, key: &Key) -> bool
    ensures held { result ≡ is_some (stage_of busy.old.entries key.now) }
    ensures again { OnTrue result
        (HasStage busy.old.entries busy.new.entries key.now (Some Again)) }
    ensures stays { OnFalse result (busy.new.entries ≡ busy.old.entries) }
{
    if busy.is_empty() {
        return false;
    }
    let Some(stage) = busy.get_mut(key) else {
        return false;
    };
    *stage = Stage::Again;
    true
}

/// Notes that the key is being worked on.
pub fn hold(busy: &mut IndexMap<Key, Stage, Secret>, key: Key)
    requires room { 0 < spare busy.old }
    ensures { HasStage busy.old.entries busy.new.entries key (Some Held) }
{
    busy.insert(key, Stage::Held).unwrap();
}

/// Notes the end of the work on the key. Answers the key where it was added again meanwhile.
pub fn release(busy: &mut IndexMap<Key, Stage, Secret>, key: &Key) -> Option<Key>
    ensures again { is_some result ≡ is_again (stage_of busy.old.entries key.now) }
    ensures key { IfSome result (λ k. k ≡ key.now) }
    ensures ended { HasStage busy.old.entries busy.new.entries key.now None }
{
    match busy.swap_remove_entry(key) {
        Some((kept, Stage::Again)) => Some(kept),
        _ => None,
    }
}
