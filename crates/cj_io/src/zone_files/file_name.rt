// The names of zones that may be looked up in a folder.
ghost use Rattle.std.specs.Prelude.{◌≡◌, ◌==◌};
ghost use Rattle.std.specs.List.{list_all};
ghost use Rattle.cj_io.specs.zone_files.FileName.{StayBelow, has_parts_alone, is_file_name, is_name_byte, is_part};

fn is_name_byte(b: u8) -> bool
    ensures { result ≡ is_name_byte b }
{
    let is_letter = (b >= b'A' && b <= b'Z') || (b >= b'a' && b <= b'z');
    let is_digit = b >= b'0' && b <= b'9';
    is_letter || is_digit || b == b'_' || b == b'+' || b == b'-'
}

fn has_name_bytes_alone(bytes: &[u8]) -> bool
    ensures { result ≡ list_all is_name_byte bytes.now }
{
    bytes.iter().all(|b| is_name_byte(*b))
}

fn is_part(part: &str) -> bool
    ensures { result ≡ is_part part.now }
{
    !part.is_empty() && has_name_bytes_alone(part.as_bytes())
}

fn has_parts_alone(name: &str) -> bool
    ensures { result ≡ has_parts_alone name.now }
{
    name.split('/').all(|part| is_part(part))
}

/// Whether a zone's name may be looked up in a folder: it has 1 to 255 bytes, and its parts between
/// slashes are each one or more letters, digits, `_`, `+` or `-`. So no name leads out of the
/// folder.
///
/// The tz database, "Theory and pragmatics of the tz code and data", "Names of timezones".
pub fn is_file_name(name: &str) -> bool
    ensures { result ≡ is_file_name name.now }
{
    !name.is_empty() && name.len() <= 255 && has_parts_alone(name)
}

/// No name that may be looked up leads out of the folder.
pub fn file_names_law()
    ensures { StayBelow }
{}
