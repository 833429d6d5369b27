// A text in its caller's buffer.
ghost use Rattle.std.specs.Prelude.{◌≡◌, ◌≤◌, ◌++◌, drop, length, IfErr};
ghost use Rattle.cj_base.specs.declared.refusal.Refusal.TheVariants.{OutOfMemory};
ghost use Rattle.cj_c.specs.answers.Buffers.{IsGiven, IsLeft};

use crate::answers::told::Told;
use crate::status::{DONE, MEMORY, REFUSED, ROOM};
use cj_base::Refusal;

// Puts the text at the beginning.
fn fill(buffer: &mut [u8], text: &[u8])
    requires { length text.now ≤ length buffer.old }
    ensures { buffer.new ≡ text.now ++ drop (length text.now) buffer.old }
{
    let (front, _) = buffer.split_at_mut(text.len());
    front.copy_from_slice(text);
}

/// Gives the text where it has room, with the status; its length anyway.
pub(crate) fn give(text: &[u8], done: u32, buffer: &mut [u8], size: &mut usize) -> u32
    ensures { IsGiven text.now done buffer.old buffer.new size.new result }
{
    *size = text.len();
    if buffer.len() < text.len() {
        return ROOM;
    }
    fill(buffer, text);
    done
}

/// Writes the text into the buffer, with the status; its length alone where the buffer is too
/// small. Nothing changes where there was no memory.
pub(crate) fn leave(told: Result<Told, Refusal>, buffer: &mut [u8], size: &mut usize) -> u32
    requires { IfErr told (λ e. e ≡ OutOfMemory) }
    ensures { IsLeft told buffer.old buffer.new size.old size.new result }
{
    match told {
        Ok(Told::Done(text)) => give(text.as_bytes(), DONE, buffer, size),
        Ok(Told::Refused(text)) => give(text.as_bytes(), REFUSED, buffer, size),
        Err(_) => MEMORY,
    }
}
