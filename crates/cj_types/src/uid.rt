ghost use Rattle.std.specs.Prelude.{◌≡◌, ℕ, ◌≤◌, ◌<◌, IfSome, IsSome, ◌↔◌, IfOk, IfErr};
ghost use Rattle.std.specs.Str.{bytes_eq};
ghost use Rattle.cj_types.specs.Uids.{last_uid, uid_text, hex_digit, hex_digits};
ghost use Rattle.cj_base.specs.declared.refusal.Refusal.TheVariants.{OutOfMemory};

use cj_base::{Refusal, Text};
use std::alloc::Global;
use std::marker::Model;

/// Identifies an object among all that were ever created: the count of creations up to its own,
/// from 1 to 2^40.
///
/// Contracts see the count.
#[derive(Clone, Copy, Debug, PartialEq, Eq, PartialOrd, Ord, Hash)]
pub struct Uid {
    count: u64,
}

impl Model for Uid {
    ghost Value = { ℕ };

    ghost view = { λ u. u.count };

    ghost invariant = { λ u. (1 ≤ u.count) × (u.count ≤ last_uid) };

    ghost inverse = { λ n. record { count = n } };
}

impl Uid {
    /// The greatest count.
    pub const LAST: u64 = 1_099_511_627_776;

    /// The uid of the object that was created as the `count`-th.
    pub fn new(count: u64) -> Option<Uid>
        ensures in_range { IsSome result ↔ ((1 ≤ count) × (count ≤ last_uid)) }
        ensures value { IfSome result (λ u. u ≡ count) }
    {
        if count >= 1 && count <= Self::LAST {
            Some(Uid { count })
        } else {
            None
        }
    }

    /// The count of creations.
    pub fn get(self) -> u64
        ensures value { result ≡ self }
        ensures in_range { (1 ≤ result) × (result ≤ last_uid) }
    {
        self.count
    }

    /// The text of a UUID that ends in the count: `00000000-0000-0000-0000-` and twelve lower-case
    /// hexadecimal digits.
    pub fn text(self, alloc: Global) -> Result<Text, Refusal>
        ensures ok { IfOk result (λ t. t ≡ uid_text self) }
        ensures err { IfErr result (λ e. e ≡ OutOfMemory) }
    {
        let count = self.get();
        let text = format!(in alloc; "00000000-0000-0000-0000-{count:012x}")?;
        Ok(Text::from_string(text))
    }

    /// Whether this is the uid's text. The test takes no memory.
    pub fn has_text(self, text: &str) -> bool
        ensures { result ≡ bytes_eq text.now (uid_text self) }
    {
        let front = "00000000-0000-0000-0000-";
        match text.as_bytes().strip_prefix(front.as_bytes()) {
            Some(digits) => are_digits(digits, 12, self.get()),
            None => false,
        }
    }
}

fn hex_digit(digit: u64) -> u8
    requires { digit < 16 }
    ensures { result ≡ hex_digit digit }
{
    if digit < 10 {
        b'0' + digit as u8
    } else {
        b'a' + (digit - 10) as u8
    }
}

// Whether the bytes are the last `count` hexadecimal digits of the number.
fn are_digits(bytes: &[u8], count: u8, number: u64) -> bool
    ensures { result ≡ bytes_eq bytes.now (hex_digits count number) }
{
    if count == 0 {
        return bytes.is_empty();
    }
    match bytes.split_last() {
        Some((last, rest)) => {
            let ends = *last == hex_digit(number % 16);
            ends && are_digits(rest, count - 1, number / 16)
        }
        None => false,
    }
}
