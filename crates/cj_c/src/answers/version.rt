// The version of the library.
ghost use Rattle.cj_c.specs.Status.{done};
ghost use Rattle.cj_c.specs.answers.Buffers.{IsGiven};
ghost use Rattle.cj_c.specs.answers.Version.{version};

use crate::answers::buffer::give;
use crate::status::DONE;

const VERSION: &str = "0.2.0";

/// The version of the library, as `cronsim --version` has it.
#[unsafe(no_mangle)]
pub extern "C" fn cronsim_version(answer: &mut [u8], length: &mut usize) -> u32
    ensures { IsGiven version done answer.old answer.new length.new result }
{
    give(VERSION.as_bytes(), DONE, answer, length)
}
