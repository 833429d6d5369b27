ghost use Rattle.std.specs.Prelude.{◌≡◌, ◌≢◌, ◌++◌, IfOk, IfErr, ◌==◌, IsTrue, Ok, Err};
ghost use Rattle.std.proofs.Common.{rules};
ghost use Rattle.std.specs.Cmp.{partial_order_from_own_ties};
ghost use Rattle.std.specs.Cmp.Rules.{comparing, hashing};
ghost use Rattle.std.specs.Hash as fed;
ghost use Rattle.std.specs.Cmp.Lexicographic.{pointwise};
ghost use Rattle.std.specs.Ordering.{on, as_partial_cmp, eq_of_both};
ghost use Rattle.cj_types.specs.Names.{longest};
ghost use Rattle.cj_types.specs.Keys.{place, is_place, place_cmp, new_key, key_faults};
ghost use Rattle.cj_base.specs.declared.refusal.Refusal.TheVariants.{OutOfMemory};

use crate::text_pair::TextPair;
use crate::{ObjectName, name_cause, namespace_cause};
use cj_base::{Field, FieldFault, FieldFaults, Refusal, Same, Shared, TryCopy};
use std::alloc::Global;
use std::cmp::Ordering;
use std::hash::{Hash, Hasher};
use std::marker::Model;

/// Namespace and name of an object, both well formed: a DNS label, and a DNS subdomain of at most
/// 63 characters.
///
/// Keys are ordered by the bytes of the namespace, then of the name. Copies share the texts, which
/// contracts see.
#[derive(Debug)]
pub struct Key {
    // The namespace, then the name.
    texts: Shared<TextPair>,
}

impl Drop for Key {
    fn drop(self) {
        let Key { texts } = self;
        drop(texts);
    }
}

impl Model for Key {
    ghost use Rattle.std.specs.Prelude.{IsTrue};
    ghost use Rattle.cj_types.specs.Names.{longest};
    ghost use Rattle.cj_types.specs.Keys.{Place, coded_place, place, is_place};

    ghost Value = { Place };

    ghost coded = { coded_place };

    ghost view = { λ k. place k.texts.0 k.texts.1 };

    ghost invariant = { λ k. IsTrue (is_place longest (place k.texts.0 k.texts.1)) };
}

// The faults of a namespace and of a name of at most `limit` characters.
pub(crate) fn key_faults(
    alloc: Global,
    limit: usize,
    namespace: &str,
    name: &str,
) -> Result<FieldFaults, Refusal>
    ensures ok { IfOk result (λ f. f ≡ key_faults limit namespace.now name.now) }
    ensures err { IfErr result (λ e. e ≡ OutOfMemory) }
{
    let mut faults = FieldFaults::new(alloc);
    if let Some(cause) = name_cause(limit, name) {
        let field = Field::Name;
        faults.push(FieldFault { field, cause })?;
    }
    if let Some(cause) = namespace_cause(namespace) {
        let field = Field::Namespace;
        faults.push(FieldFault { field, cause })?;
    }
    Ok(faults)
}

impl Key {
    /// The key of these texts, or `Invalid` with the faults of `metadata.name` and
    /// `metadata.namespace`, in this order: `TooLong` for more than 63 characters, else `Format`.
    pub fn new(alloc: Global, namespace: &str, name: &str) -> Result<Key, Refusal>
        ensures ok { IfOk result (λ k. new_key longest namespace.now name.now ≡ Ok k) }
        ensures err { IfErr result (λ e. e ≢ OutOfMemory →
            new_key longest namespace.now name.now ≡ Err e) }
    {
        let faults = key_faults(alloc, 63, namespace, name)?;
        if !faults.as_slice().is_empty() {
            return Err(Refusal::Invalid(faults));
        }
        Key::well_formed(alloc, namespace, name)
    }

    // The key of two texts that are known to be well formed.
    pub(crate) fn well_formed(alloc: Global, namespace: &str, name: &str) -> Result<Key, Refusal>
        requires { IsTrue (is_place longest (place namespace.now name.now)) }
        ensures ok { IfOk result (λ k. k ≡ place namespace.now name.now) }
        ensures err { IfErr result (λ e. e ≡ OutOfMemory) }
    {
        let texts = Shared::new(alloc, TextPair::new(alloc, namespace, name)?)?;
        Ok(Key { texts })
    }

    /// The key of the name in this key's namespace.
    pub fn beside(&self, alloc: Global, name: &ObjectName) -> Result<Key, Refusal>
        ensures ok { IfOk result (λ k. k ≡ place self.now.namespace name.now) }
        ensures err { IfErr result (λ e. e ≡ OutOfMemory) }
    {
        let (namespace, _) = self.texts.parts();
        Key::well_formed(alloc, namespace, name.as_str())
    }

    /// The namespace.
    pub fn namespace(&self) -> &str
        ensures { result.now ≡ self.now.namespace }
    {
        self.texts.parts().0
    }

    /// The name.
    pub fn name(&self) -> &str
        ensures value { result.now ≡ self.now.name }
        ensures well_formed { IsTrue (is_place longest self.now) }
    {
        self.texts.parts().1
    }
}

impl TryCopy for Key {
    fn try_copy(&self, _alloc: Global) -> Result<Key, Refusal> {
        let texts = self.texts.share()?;
        Ok(Key { texts })
    }
}

impl Same for Key {
    fn same(&self, other: &Key) -> bool {
        let (namespace, name) = self.texts.parts();
        let (other_namespace, other_name) = other.texts.parts();
        namespace == other_namespace && name == other_name
    }
}

impl PartialEq for Key {
    ghost eq = { eq_of_both (on (λ k. k.namespace) (pointwise ◌==◌)) (on (λ k. k.name) (pointwise ◌==◌)) };

    ghost laws = { Prim.search (comparing, rules) };

    fn eq(&self, other: &Key) -> bool {
        self.same(other)
    }
}

impl Eq for Key {
    ghost laws = { Prim.search (comparing, rules) };
}

impl Ord for Key {
    ghost cmp = { place_cmp };

    ghost total = { Prim.search (comparing, rules) };

    ghost matches_partial_cmp = { Prim.search (comparing, rules) };

    ghost matches_eq = { Prim.search (comparing, rules) };

    fn cmp(&self, other: &Key) -> Ordering {
        let (namespace, name) = self.texts.parts();
        let (other_namespace, other_name) = other.texts.parts();
        namespace.cmp(other_namespace).then(name.cmp(other_name))
    }
}

impl PartialOrd for Key {
    ghost partial_cmp = { as_partial_cmp place_cmp };

    ghost laws = { partial_order_from_own_ties (Prim.search (comparing, rules)) (Prim.search (comparing, rules)) };

    fn partial_cmp(&self, other: &Key) -> Option<Ordering> {
        Some(self.cmp(other))
    }
}

impl Hash for Key {
    ghost hash_input = { λ k. fed.str k.namespace ++ fed.str k.name };

    ghost respects_eq = { Prim.search (hashing, rules) };

    fn hash<H: Hasher>(&self, state: &mut H) {
        let (namespace, name) = self.texts.parts();
        namespace.hash(state);
        name.hash(state);
    }
}
