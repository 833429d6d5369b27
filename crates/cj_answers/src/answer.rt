ghost use Rattle.std.specs.Prelude.{◌≡◌, IfOk};
ghost use Rattle.cj_answers.specs.Outcome.{explained, outcome_of, refusal};

use std::alloc::{AllocError, Global};

/// How a request ends: it is done, or what it asks about is refused.
#[derive(Clone, Copy, Debug, PartialEq, Eq)]
pub enum Ending {
    Done,
    Refused,
}

/// What a request is answered: the ending, and the texts for standard output and standard error.
#[derive(Debug, Drop)]
pub struct Answer {
    pub ending: Ending,
    pub printed: String,
    pub said: String,
}

impl Answer {
    /// What a request is answered where its input is refused with this line on standard error.
    pub fn refused(alloc: Global, line: &str) -> Result<Answer, AllocError>
        ensures { IfOk result (λ a. outcome_of a ≡ refusal line.now) }
    {
        Ok(Answer {
            ending: Ending::Refused,
            printed: String::new(alloc),
            said: String::from_str(alloc, line)?,
        })
    }

    /// The answer with these words behind it on standard error, where `--explain` asks for them.
    pub fn explained(self, explain: bool, words: &str) -> Result<Answer, AllocError>
        ensures { IfOk result (λ a. outcome_of a ≡ explained explain words.now (outcome_of self)) }
    {
        let mut answer = self;
        if explain {
            answer.said.push_str(words)?;
        }
        Ok(answer)
    }
}
