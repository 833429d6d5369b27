use crate::folder::file_of;
use crate::secret::new_secret;
use crate::source::Input;
use cj_dialogue::{ZoneSource, check_transcript, run_session};
use cj_program::{ControlRequest, ExitStatus, Failure, FileBytes, is_file_name, tell_failure};
use std::fs::File;
use std::io::{IsTerminal, Write};

/// A folder with compiled zone files; the empty name is that of no folder.
#[derive(Drop)]
struct Folder<'a> {
    rt: &'a HostRuntime,
    name: &'a str,
}

impl<'a> ZoneSource for Folder<'a> {
    fn find(&mut self, name: &str) -> Result<Option<FileBytes>, Failure> {
        if self.name.is_empty() || !is_file_name(name) {
            return Ok(None);
        }
        Ok(file_of(self.rt, self.name, name)?.map(|file| file.bytes))
    }
}

// Runs a controller on the lines of the input, with this transcript, if any.
fn run_on(
    rt: &HostRuntime,
    control: &ControlRequest<'_>,
    folder: &str,
    transcript: Option<File>,
    input: &mut Input,
) -> Result<ExitStatus, Failure> {
    let mut source = Folder { rt, name: folder };
    run_session(
        rt.alloc(),
        control,
        new_secret(rt),
        &mut source,
        transcript,
        input,
        &mut rt.stdout(),
        &mut rt.stderr(),
    )
}

// Says to whoever runs the command by hand that it waits for lines.
fn tell_terminal(rt: &HostRuntime) {
    if rt.stdin().is_terminal() {
        let _ = writeln!(
            &mut rt.stderr(),
            "cronsim: control reads lines of JSON; cronsim-control starts it and carries them"
        );
    }
}

// Runs a controller, or checks a transcript.
fn run_control(
    rt: &HostRuntime,
    control: &ControlRequest<'_>,
    folder: &str,
    input: &mut Input,
) -> Result<ExitStatus, Failure> {
    if control.check.is_some() {
        let (out, err) = (&mut rt.stdout(), &mut rt.stderr());
        return check_transcript(rt.alloc(), control, new_secret(rt), input, out, err);
    }
    tell_terminal(rt);
    let Some(name) = control.transcript else {
        return run_on(rt, control, folder, None, input);
    };
    match File::create(rt, name) {
        Ok(file) => run_on(rt, control, folder, Some(file), input),
        Err(error) => {
            let failure = Failure::from(error);
            if failure == Failure::Device {
                let _ = writeln!(&mut rt.stderr(), "{name}: it can't be written");
            }
            Err(failure)
        }
    }
}

/// Serves a request for a controller: the transcript's file is made anew first, if one is wanted.
pub fn serve_control(
    rt: &HostRuntime,
    control: &ControlRequest<'_>,
    folder: &str,
    input: &mut Input,
) -> ExitStatus {
    match run_control(rt, control, folder, input) {
        Ok(status) => status,
        Err(failure) => tell_failure(failure, &mut rt.stderr()),
    }
}
