ghost use Rattle.std.specs.Prelude.{◌≡◌};
ghost use Rattle.cj_store.specs.Equal.{same_cron_spec, same_job_spec, same_owners};

use cj_types::{CronSpec, OwnerRefs, Same, SpecText};

#[tactic(auto, using(crate::proofs::Codes::told))]
pub(crate) fn is_same_cron_spec(a: &CronSpec, b: &CronSpec) -> bool
    ensures { result ≡ same_cron_spec a.now b.now }
{
    a.same(b)
}

#[tactic(auto, using(crate::proofs::Codes::told))]
pub(crate) fn is_same_job_spec(a: &SpecText, b: &SpecText) -> bool
    ensures { result ≡ same_job_spec a.now b.now }
{
    a.same(b)
}

#[tactic(auto, using(crate::proofs::Codes::told))]
pub(crate) fn are_same_owners(a: &OwnerRefs, b: &OwnerRefs) -> bool
    ensures { result ≡ same_owners a.now b.now }
{
    a.same(b)
}
