ghost use Rattle.std.specs.Prelude.{◌≡◌, ◌↔◌, ℕ, List, IsTrue};
ghost use Rattle.cj_types.specs.declared.cron.CronSpec.{CronSpec};
ghost use Rattle.cj_types.specs.declared.owners.OwnerRef.{OwnerRef};
ghost use Rattle.cj_store.specs.Equal.{same_cron_spec, same_job_spec, same_owners};

/// An update's tests, whether the spec changes and whether the owner references differ, are tests
/// of equality.
pub fn equality_laws()
    ensures cron_specs { (a b : CronSpec) → IsTrue (same_cron_spec a b) ↔ (a ≡ b) }
    ensures job_specs { (a b : List ℕ) → IsTrue (same_job_spec a b) ↔ (a ≡ b) }
    ensures owners { (a b : List OwnerRef) → IsTrue (same_owners a b) ↔ (a ≡ b) }
{}
