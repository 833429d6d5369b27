ghost use Rattle.std.specs.Prelude.{◌≡◌};
ghost use Rattle.cj_io.specs.Statuses.{code_of};

/// How the program ends, as its exit status tells whoever started it.
#[derive(Clone, Copy, Debug, PartialEq, Eq)]
pub enum ExitStatus {
    /// 0: what was asked for was printed, and `audit` found nothing wrong.
    Success,
    /// 1: what was given was refused, or `audit` found something wrong.
    Refused,
    /// 2: the words of the command line are no request.
    Usage,
    /// 3: a failure, which one line on standard error names.
    Failed,
}

impl ExitStatus {
    /// The number that the process ends with.
    pub fn code(self) -> u8
        ensures { result ≡ code_of self }
    {
        match self {
            ExitStatus::Success => 0,
            ExitStatus::Refused => 1,
            ExitStatus::Usage => 2,
            ExitStatus::Failed => 3,
        }
    }
}
