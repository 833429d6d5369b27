ghost use Rattle.std.specs.Prelude.{◌≡◌};
ghost use Rattle.cj_fence.specs.Texts.{is_same};
ghost use Rattle.cj_fence.specs.Objects.{ref, is_ref, has_name, has_ref};

use crate::Ref;
use cj_base::Text;

/// Whether two texts are one, byte by byte.
#[tactic(auto, unfolding(crate::specs::Texts::is_same))]
pub(crate) fn is_same(a: &Text, b: &Text) -> bool
    ensures { result ≡ is_same a.now b.now }
{
    a == b
}

/// Whether a name is one: it isn't empty.
pub(crate) fn has_name(name: &Text) -> bool
    ensures { result ≡ has_name name.now }
{
    match name.as_str().as_bytes() {
        [] => false,
        [_, ..] => true,
    }
}

/// Whether a reference is of this name and this uid.
pub(crate) fn is_ref(a: &Ref, name: &Text, uid: &Text) -> bool
    ensures { result ≡ is_ref a.now (ref name.now uid.now) }
{
    let same_name = is_same(&a.name, name);
    let same_uid = is_same(&a.uid, uid);
    same_name && same_uid
}

/// Whether a list of references has the one of this name and this uid.
pub(crate) fn has_ref(list: &[Ref], name: &Text, uid: &Text) -> bool
    ensures { result ≡ has_ref list.now (ref name.now uid.now) }
{
    for one in list {
        if is_ref(one, name, uid) {
            return true;
        }
    }
    false
}
