ghost use Rattle.std.specs.Prelude.{◌≡◌, ◌≢◌, ◌++◌, IfOk, OnOk, string_bytes};
ghost use Rattle.cj_explain.specs.declared.members.wrong.Wrong.TheVariants.{Member, Memory};
ghost use Rattle.cj_explain.specs.members.Members.{line, member_at};

use cj_types::{Refusal, Text};
use std::alloc::{AllocError, Global};

/// Why a text hasn't the form that is wanted.
#[derive(Debug, Drop)]
pub(crate) enum Wrong {
    /// The line on the member that is missing or wrong.
    Member(Text),
    /// Memory was asked for and refused.
    Memory,
}

// The calls that convert by this are refused for want of memory alone, as their clauses say.
impl From<Refusal> for Wrong {
    ghost from_gives = { λ _ e. e ≡ Memory };

    fn from(_refusal: Refusal) -> Wrong {
        Wrong::Memory
    }
}

// The path of a member of the object at a path, which is empty for the whole.
fn push_path(text: &mut String, path: &str, name: &str) -> Result<(), AllocError>
    ensures { OnOk result (string_bytes text.new
        ≡ string_bytes text.old ++ member_at path.now name.now) }
{
    if !path.is_empty() {
        text.push_str(path)?;
        text.push_str(".")?;
    }
    text.push_str(name)
}

fn line(
    alloc: Global,
    path: &str,
    name: &str,
    said: &str,
    wanted: &str,
) -> Result<String, AllocError>
    ensures { IfOk result (λ s. string_bytes s ≡ line path.now name.now said.now wanted.now) }
{
    let mut text = String::new(alloc);
    push_path(&mut text, path, name)?;
    text.push_str(said)?;
    text.push_str(wanted)?;
    text.push_str("\n")?;
    Ok(text)
}

/// What is wrong with a member: what is said of it, and what it has to be.
pub(crate) fn told(alloc: Global, path: &str, name: &str, said: &str, wanted: &str) -> Wrong
    ensures { result ≢ Memory → result ≡ Member (line path.now name.now said.now wanted.now) }
{
    match line(alloc, path, name, said, wanted) {
        Ok(text) => Wrong::Member(Text::from_string(text)),
        Err(_) => Wrong::Memory,
    }
}
