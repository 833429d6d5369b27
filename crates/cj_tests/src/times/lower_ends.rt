use cj_due::lower_end;
use cj_types::Deadline;
use cj_zone::read_time;

fn are_right() -> Option<bool> {
    let created = read_time("2024-01-01T08:00:00Z")?;
    let now = read_time("2024-01-01T10:03:00Z")?;
    let later = read_time("2024-01-01T10:05:00Z")?;
    let longest = Deadline::new(9_223_372_036_854_775_807)?;
    let none = lower_end(Some(later), created, None, now).is_none()
        && lower_end(None, later, None, now).is_none()
        && lower_end(None, created, Some(Deadline::from(0)), now).is_none();
    let some = lower_end(None, created, None, now) == Some(created)
        && lower_end(None, created, Some(longest), now) == Some(created);
    Some(none && some)
}

// rules: window, deadline-zero
#[test]
fn lower_end_is_below_now_or_none(rt: HostRuntime) {
    assert!(rt; are_right() == Some(true));
}
