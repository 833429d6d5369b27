ghost use Rattle.std.specs.Prelude.{◌≡◌};
ghost use Rattle.cj_base.specs.ScheduleCause.{cause_name};

use std::fmt;
use thiserror::Error;

/// Why a schedule's text is refused.
#[derive(Clone, Copy, Debug, PartialEq, Eq)]
pub enum ScheduleCause {
    /// The text has more than 1,024 bytes.
    Length,
    /// The text is nothing but blanks.
    Empty,
    /// The text begins with `TZ=` or `CRON_TZ=`.
    Zone,
    /// The text begins with `@` and is no macro.
    Macro,
    /// There aren't five fields.
    Fields,
    /// An element has none of the forms that the grammar allows.
    Syntax,
    /// A number is out of its field's range.
    Range,
    /// A range ends before it begins.
    Order,
    /// A step is zero, or has more than nine digits.
    Step,
}

impl ScheduleCause {
    /// The cause's name, as it is printed.
    pub fn name(self) -> &'static str
        ensures { result.now ≡ cause_name self }
    {
        match self {
            ScheduleCause::Length => "Length",
            ScheduleCause::Empty => "Empty",
            ScheduleCause::Zone => "Zone",
            ScheduleCause::Macro => "Macro",
            ScheduleCause::Fields => "Fields",
            ScheduleCause::Syntax => "Syntax",
            ScheduleCause::Range => "Range",
            ScheduleCause::Order => "Order",
            ScheduleCause::Step => "Step",
        }
    }
}

impl fmt::Display for ScheduleCause {
    ghost use Rattle.std.specs.Prelude.{Some};

    ghost output = { λ x. Some (cause_name x) };

    fn fmt<W: fmt::Write>(&self, f: &mut fmt::Formatter<W>) -> fmt::Result {
        write!(f, "{}", self.name())
    }
}

/// Where and why a schedule's text is refused.
#[derive(Clone, Copy, Debug, PartialEq, Eq, Error)]
#[error("{field} {byte} {cause}")]
pub struct ScheduleFault {
    /// 1 for the minute to 5 for the day of the week, or 0 for the whole text.
    pub field: u8,
    /// The place in the text, in bytes from 0, at which the faulty element begins; 0 for the whole
    /// text.
    pub byte: usize,
    pub cause: ScheduleCause,
}
