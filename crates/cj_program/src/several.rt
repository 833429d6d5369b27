// The commands that take several files, where they are given several.
ghost use Rattle.std.specs.Prelude.{◌≡◌, ◌≢◌};
ghost use Rattle.std.specs.List.{count_by};
ghost use Rattle.cj_io.specs.declared.exit_status.ExitStatus.TheVariants as Status;
ghost use Rattle.cj_check.specs.declared.several.FileState.TheVariants.{Unread};
ghost use Rattle.cj_answers.specs.Outcome.{Outcome};
ghost use Rattle.cj_check.specs.Several.{has_state, several};
ghost use Rattle.cj_inspect.specs.Report.{IsReportOutcome};
ghost use Rattle.cj_inspect.specs.Upcoming.{IsUpcomingFiles};
ghost use Rattle.cj_program.specs.Forms.{InForm, InFormBy};
ghost use Rattle.cj_program.specs.Writing.{IsGiven};

use crate::forms::{formed, formed_by};
use crate::serving::give_answer;
use cj_args::{CheckRequest, ReportRequest, UpcomingRequest};
use cj_check::{FileAnswer, FileState, count_of, several_answer};
use cj_inspect::{CronFile, report_files_answer, upcoming_files_answer};
use cj_io::{ExitStatus, ZoneFile};
use std::alloc::Global;
use std::io::Write;

/// Gives what `check` answers of several files, and answers the exit status: `Success` where each
/// is fine, `Refused` where one is refused, and `Failed` where one couldn't be read, as its place
/// in the answer says, or after another failure.
pub fn serve_several<W: Write, E: Write>(
    alloc: Global,
    check: &CheckRequest<'_>,
    files: &[FileAnswer<'_>],
    out: &mut W,
    err: &mut E,
) -> ExitStatus
    ensures given { result ≢ Status.Failed → (o : Outcome)
        × InForm check.now.output.now (λ m. m ≡ several check.now files.now) o
        × IsGiven result o (W.contents out.old) (W.contents out.new) (E.contents err.old)
        (E.contents err.new) }
    ensures read { result ≢ Status.Failed → count_by (has_state Unread) files.now ≡ 0 }
{
    let answer = several_answer(alloc, check, files);
    let status = give_answer(formed(alloc, check.output, answer), out, err);
    if count_of(FileState::Unread, files) > 0 {
        return ExitStatus::Failed;
    }
    status
}

/// Gives what `upcoming` answers of several files that were read, for which these zone files were,
/// and answers the status, as `serve` does.
pub fn serve_upcoming<W: Write, E: Write>(
    alloc: Global,
    upcoming: &UpcomingRequest<'_>,
    files: &[ZoneFile],
    sources: &[CronFile<'_>],
    out: &mut W,
    err: &mut E,
) -> ExitStatus
    ensures given { result ≢ Status.Failed → (o : Outcome)
        × InFormBy upcoming.now.output.now upcoming.now.explain upcoming.now.clock.zone files.now
        (IsUpcomingFiles upcoming.now files.now sources.now) o
        × IsGiven result o (W.contents out.old) (W.contents out.new) (E.contents err.old)
        (E.contents err.new) }
{
    let answer = upcoming_files_answer(alloc, upcoming, files, sources);
    give_answer(
        formed_by(
            alloc,
            upcoming.output,
            upcoming.explain,
            &upcoming.clock,
            files,
            answer,
        ),
        out,
        err,
    )
}

/// Gives what `report` answers of several files that were read, for which these zone files were,
/// and answers the status, as `serve` does.
pub fn serve_report<W: Write, E: Write>(
    alloc: Global,
    report: &ReportRequest<'_>,
    files: &[ZoneFile],
    sources: &[CronFile<'_>],
    out: &mut W,
    err: &mut E,
) -> ExitStatus
    ensures given { result ≢ Status.Failed → (o : Outcome)
        × IsReportOutcome report.now files.now o
        × IsGiven result o (W.contents out.old) (W.contents out.new) (E.contents err.old)
        (E.contents err.new) }
{
    give_answer(report_files_answer(alloc, report, files, sources), out, err)
}
