ghost use Rattle.std.specs.Prelude.{◌≡◌, ◌≢◌, Option, Some, None, option_map, string_bytes, IfOk, IfErr};
ghost use Rattle.cj_base.specs.declared.refusal.Refusal.TheVariants.{OutOfMemory, Syntax};
ghost use Rattle.serde_json.specs.Data.{Data};
ghost use Rattle.serde_json.specs.View.{view};
ghost use Rattle.serde_json.specs.Written.{compact_text};
ghost use Rattle.cj_json.specs.Objects.{cron_written, job_written};

use crate::cron::cron_value;
use crate::job::job_value;
use crate::object::kept_value;
use cj_types::{CronJob, Job, Refusal};
use serde_json::Value;
use std::alloc::Global;

/// An object that is written as JSON, its members in the order of their names.
pub trait Written {
    ghost written: { Self → Option Data };

    /// The JSON value. `Syntax` exactly where the object's kept spec isn't JSON, or has a number
    /// that is neither an i64 nor a u64; no manifest that is read leaves such a spec.
    fn to_value(&self, alloc: Global) -> Result<Value, Refusal>
        ensures ok { IfOk result (λ v. written self.now ≡ Some (view v)) }
        ensures err { IfErr result (λ e. e ≢ OutOfMemory →
            (e ≡ Syntax) × (written self.now ≡ None)) };

    /// The compact JSON text, refused just where `to_value` is.
    fn write(&self, alloc: Global) -> Result<String, Refusal>
        ensures ok { IfOk result (λ s. option_map compact_text (written self.now)
            ≡ Some (string_bytes s)) }
        ensures err { IfErr result (λ e. e ≢ OutOfMemory →
            (e ≡ Syntax) × (written self.now ≡ None)) };
}

impl Written for CronJob {
    ghost written = { cron_written };

    fn to_value(&self, alloc: Global) -> Result<Value, Refusal> {
        let job = kept_value(alloc, self.spec.template.spec.as_str())?;
        cron_value(alloc, self, job)
    }

    fn write(&self, alloc: Global) -> Result<String, Refusal> {
        let value = self.to_value(alloc)?;
        Ok(value.to_string(alloc)?)
    }
}

impl Written for Job {
    ghost written = { job_written };

    fn to_value(&self, alloc: Global) -> Result<Value, Refusal> {
        let spec = kept_value(alloc, self.spec.as_str())?;
        job_value(alloc, self, spec)
    }

    fn write(&self, alloc: Global) -> Result<String, Refusal> {
        let value = self.to_value(alloc)?;
        Ok(value.to_string(alloc)?)
    }
}
