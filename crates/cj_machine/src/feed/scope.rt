// Which objects are asked for, and by which paths.
ghost use Rattle.std.specs.Prelude.{◌≡◌, IfErr, IfOk, option_map, string_bytes};
ghost use Rattle.cj_base.specs.declared.refusal.Refusal.TheVariants.{OutOfMemory};
ghost use Rattle.cj_machine.specs.Feeds as spec;

use crate::source::Source;
use cj_base::{Refusal, Text};
use cj_control::ApiVersion;
use percent_encoding::{NON_ALPHANUMERIC, utf8_percent_encode};
use std::alloc::{AllocError, Global};

/// Which objects are asked for.
pub(crate) struct Scope {
    pub api: ApiVersion,
    /// The one namespace; all where none is given.
    pub namespace: Option<Text>,
    /// The label selector of CronJobs.
    pub selector: Option<Text>,
}

impl Drop for Scope {
    fn drop(self) {
        let Scope {
            api: _,
            namespace,
            selector,
        } = self;
        drop(namespace);
        drop(selector);
    }
}

// A parameter of a query, of this name with the sign before it, where there is a value.
fn parameter(alloc: Global, name: &str, value: Option<&str>) -> Result<String, AllocError>
    ensures { IfOk result (λ s. string_bytes s
        ≡ spec.parameter name.now (option_map (λ v. v.now) value.entry)) }
{
    let mut text = String::new(alloc);
    if let Some(value) = value {
        text.push_str(name)?;
        utf8_percent_encode(value, NON_ALPHANUMERIC).append_to(&mut text)?;
    }
    Ok(text)
}

fn text_in(text: &Option<Text>) -> Option<&str>
    ensures { option_map (λ s. s.now) result ≡ text.now }
{
    match text {
        Some(text) => Some(text.as_str()),
        None => None,
    }
}

impl Scope {
    // The path of the objects.
    fn path(&self, alloc: Global, source: Source) -> Result<String, AllocError>
        ensures { IfOk result (λ s. string_bytes s
            ≡ spec.objects_path self.now.api self.now.namespace source) }
    {
        let version = source.version(self.api);
        let resource = source.resource();
        match text_in(&self.namespace) {
            Some(namespace) => {
                format!(in alloc; "/apis/{version}/namespaces/{namespace}/{resource}")
            }
            None => format!(in alloc; "/apis/{version}/{resource}"),
        }
    }

    // The selector, as a parameter; it is of CronJobs alone.
    fn selects(&self, alloc: Global, source: Source) -> Result<String, AllocError>
        ensures { IfOk result (λ s. string_bytes s ≡ spec.selects self.now.selector source) }
    {
        match source {
            Source::Crons => parameter(alloc, "&labelSelector=", text_in(&self.selector)),
            Source::Jobs => Ok(String::new(alloc)),
        }
    }

    /// The path of a page of the list, of at most so many objects: the first, or the one of this
    /// token.
    pub(crate) fn list_path(
        &self,
        alloc: Global,
        source: Source,
        token: &Option<Text>,
        limit: u64,
    ) -> Result<Text, Refusal>
        ensures err { IfErr result (λ e. e ≡ OutOfMemory) }
    {
        let path = self.path(alloc, source)?;
        let selects = self.selects(alloc, source)?;
        let goes_on = parameter(alloc, "&continue=", text_in(token))?;
        let text = format!(in alloc; "{path}?limit={limit}{selects}{goes_on}")?;
        Ok(Text::from_string(text))
    }

    /// The path of the watch of what comes after this version.
    pub(crate) fn watch_path(
        &self,
        alloc: Global,
        source: Source,
        version: &Text,
    ) -> Result<Text, Refusal>
        ensures err { IfErr result (λ e. e ≡ OutOfMemory) }
    {
        let path = self.path(alloc, source)?;
        let selects = self.selects(alloc, source)?;
        let from = parameter(alloc, "&resourceVersion=", Some(version.as_str()))?;
        let ends = "&allowWatchBookmarks=true&timeoutSeconds=300";
        let text = format!(in alloc; "{path}?watch=1{from}{ends}{selects}")?;
        Ok(Text::from_string(text))
    }
}
