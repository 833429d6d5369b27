// Which days a command is started on, by cron and by Kubernetes.
//
// In both, either day field allows a day where neither is open, and both have to where one is. But
// cron takes a field for open that begins with a star (Vixie's cron), Kubernetes one of whose
// elements one is a star (robfig/cron).
use crate::crontab::when::Fields;

// Whether an element is a star with no step, or with step 1.
fn is_star(element: &str) -> bool {
    match element.strip_prefix('*') {
        Some("") => true,
        Some(step) => step.starts_with('/')
            && step.trim_start_matches('/').trim_start_matches('0') == "1",
        None => false,
    }
}

fn is_open_in_kubernetes(field: &str) -> bool {
    let mut rest = field;
    while let Some((element, more)) = rest.split_once(',') {
        if is_star(element) {
            return true;
        }
        rest = more;
    }
    is_star(rest)
}

fn is_open_in_cron(field: &str) -> bool {
    field.starts_with('*')
}

/// What is said where the two differ.
pub(crate) fn day_words(fields: &Fields<'_>) -> Option<&'static str> {
    let both_in_cron = is_open_in_cron(fields.day) || is_open_in_cron(fields.weekday);
    let both_in_kubernetes = is_open_in_kubernetes(fields.day)
        || is_open_in_kubernetes(fields.weekday);
    match (both_in_cron, both_in_kubernetes) {
        (true, false) => Some(
            "cron takes a day field that begins with * for open, and starts this on days that both day fields allow; a CronJob starts it on days that either allows. Test the day in the command",
        ),
        (false, true) => Some(
            "cron takes a day field for open only if it begins with *, and starts this on days that either day field allows; a CronJob starts it on days that both allow. Write * alone for every day",
        ),
        _ => None,
    }
}

// Whether an element is a number or a name with a step.
fn is_stepped(element: &str) -> bool {
    match element.split_once('/') {
        Some((base, _)) => !base.starts_with('*') && !base.contains('-'),
        None => false,
    }
}

fn has_stepped(field: &str) -> bool {
    let mut rest = field;
    while let Some((element, more)) = rest.split_once(',') {
        if is_stepped(element) {
            return true;
        }
        rest = more;
    }
    is_stepped(rest)
}

/// Whether a field has a number with a step, as `5/10`.
pub(crate) fn has_steps(fields: &Fields<'_>) -> bool {
    let in_time = has_stepped(fields.minute) || has_stepped(fields.hour);
    let in_date = has_stepped(fields.day) || has_stepped(fields.month);
    in_time || in_date || has_stepped(fields.weekday)
}
