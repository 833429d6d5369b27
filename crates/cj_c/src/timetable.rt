use cj_schedule::Schedule;
use cj_zone::Zone;

/// A schedule in its zone.
#[derive(Drop)]
pub struct Timetable {
    pub schedule: Schedule,
    pub zone: Zone,
}
