// The CronJobs that need attention, a line each.
use crate::html::seen::{SeenCron, look_count};
use crate::html::text::{push_between, push_text};
use cj_due::Missed;
use std::alloc::{AllocError, Global};

const HEAD: &str = "<section id=\"look\">
<h2>CronJobs that need attention</h2>
";

const NONE: &str = "<p>Nothing needs attention.</p>\n";

const OPEN: &str =
    "<p class=\"advice\"><strong>What to do:</strong> The table of the CronJobs has the reasons of each. Of a Job that failed and is still there, kubectl describe job NAME -n NAMESPACE says why, and kubectl logs job/NAME -n NAMESPACE has what it printed.</p>
<div class=\"tall\" tabindex=\"0\" role=\"region\" aria-label=\"CronJobs that need attention\">
<ul>
";

// How many times were missed, before the verdict.
fn missed_text(alloc: Global, missed: Missed) -> Result<String, AllocError> {
    match missed {
        Missed::None => Ok(String::new(alloc)),
        Missed::Some { count, .. } => format!(in alloc; "missed {count}, "),
        Missed::Many { .. } => String::from_str(alloc, "missed more than 100, "),
    }
}

fn push_failed(text: &mut String, failed: &str) -> Result<(), AllocError> {
    if failed.is_empty() {
        return Ok(());
    }
    push_between(text, "; ", failed, "")
}

fn push_look(alloc: Global, text: &mut String, seen: &SeenCron) -> Result<(), AllocError> {
    let cron = seen.row.cron.get().cron.get();
    let key = cron.key.key();
    let missed = missed_text(alloc, seen.row.missed)?;
    push_between(text, "<li><b>", key.namespace(), "/")?;
    push_between(text, "", key.name(), "</b>: ")?;
    push_text(text, missed.as_str())?;
    push_text(text, seen.row.verdict.text())?;
    push_failed(text, seen.failed.as_str())?;
    text.push_str("</li>\n")
}

fn push_lines(alloc: Global, text: &mut String, seen: &[SeenCron]) -> Result<(), AllocError> {
    for cron in seen {
        if cron.wants_look {
            push_look(alloc, text, cron)?;
        }
    }
    Ok(())
}

/// The section of the CronJobs that need attention.
pub(crate) fn push_looks(
    alloc: Global,
    text: &mut String,
    seen: &[SeenCron],
) -> Result<(), AllocError> {
    text.push_str(HEAD)?;
    if look_count(seen) == 0 {
        text.push_str(NONE)?;
    } else {
        text.push_str(OPEN)?;
        push_lines(alloc, text, seen)?;
        text.push_str("</ul>\n</div>\n")?;
    }
    text.push_str("</section>\n")
}
