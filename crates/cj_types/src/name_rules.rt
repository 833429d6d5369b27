ghost use Rattle.std.specs.Prelude.{◌≡◌, ◌==◌, position};
ghost use Rattle.std.specs.List.{list_all};
ghost use Rattle.cj_types.specs.Names.{is_letter_or_digit, is_label_byte, is_label, is_subdomain, char_len};
ghost use Rattle.cj_types.specs.Names.{name_cause as name_cause_of, namespace_cause as namespace_cause_of};

use cj_base::Cause;

fn is_letter_or_digit(b: u8) -> bool
    ensures { result ≡ is_letter_or_digit b }
{
    (b >= b'a' && b <= b'z') || (b >= b'0' && b <= b'9')
}

fn is_label_byte(b: u8) -> bool
    ensures { result ≡ is_label_byte b }
{
    is_letter_or_digit(b) || b == b'-'
}

fn has_label_bytes_alone(bytes: &[u8]) -> bool
    ensures { result ≡ list_all is_label_byte bytes.now }
{
    bytes.iter().all(|b| is_label_byte(*b))
}

// Whether the bytes are a DNS label.
#[tactic(auto, unfolding(crate::specs::Names::is_label))]
fn is_label(bytes: &[u8]) -> bool
    ensures { result ≡ is_label bytes.now }
{
    if bytes.is_empty() {
        return false;
    }
    is_letter_or_digit(bytes[0])
        && is_letter_or_digit(bytes[bytes.len() - 1])
        && has_label_bytes_alone(bytes)
}

fn first_dot(bytes: &[u8]) -> Option<usize>
    ensures { result ≡ position (λ b. b == 46) bytes.now }
{
    bytes.iter().position(|b| *b == b'.')
}

// Whether the bytes are a DNS subdomain.
fn is_subdomain(bytes: &[u8]) -> bool
    ensures { result ≡ is_subdomain bytes.now }
{
    match first_dot(bytes) {
        None => is_label(bytes),
        Some(dot) => {
            let starts_well = is_label(&bytes[..dot]);
            starts_well && is_subdomain(&bytes[dot + 1..])
        }
    }
}

fn char_len(text: &str) -> usize
    ensures { result ≡ char_len text.now }
{
    text.chars().count()
}

/// Why the text is no name of an object: more than `limit` characters, or no DNS subdomain.
///
/// Kubernetes, "Object Names and IDs".
pub fn name_cause(limit: usize, text: &str) -> Option<Cause>
    ensures { result ≡ name_cause_of limit text.now }
{
    if char_len(text) > limit {
        return Some(Cause::TooLong);
    }
    if is_subdomain(text.as_bytes()) {
        None
    } else {
        Some(Cause::Format)
    }
}

/// Why the text is no namespace: more than 63 characters, or no DNS label.
pub fn namespace_cause(text: &str) -> Option<Cause>
    ensures { result ≡ namespace_cause_of text.now }
{
    if char_len(text) > 63 {
        return Some(Cause::TooLong);
    }
    if is_label(text.as_bytes()) {
        None
    } else {
        Some(Cause::Format)
    }
}
