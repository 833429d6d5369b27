// The lines that set a variable: `NAME = value` (crontab(5)).
ghost use Rattle.std.specs.Str.{IsTrimAsciiStart};

/// A variable and its value, for the lines below.
#[derive(Clone, Copy, Debug)]
pub(crate) struct Setting<'a> {
    pub name: &'a str,
    pub value: &'a str,
}

/// The text without the blanks in front.
pub(crate) fn without_blanks(text: &str) -> &str
    ensures { IsTrimAsciiStart text.now result.now }
{
    text.trim_ascii_start()
}

// What is between quotes of that kind, behind the first of them, and what follows the second.
fn unquoted<'a>(text: &'a str, quote: char) -> Option<(&'a str, &'a str)> {
    text.strip_prefix(quote)?.split_once(quote)
}

// What a quoted text at the front says, and what follows it.
fn quoted(text: &str) -> Option<(&str, &str)> {
    if text.starts_with('"') {
        unquoted(text, '"')
    } else {
        unquoted(text, '\'')
    }
}

fn is_quoted(text: &str) -> bool {
    text.starts_with('"') || text.starts_with('\'')
}

// The name without quotes, and what follows the equals sign.
fn plain_name(text: &str) -> Option<(&str, &str)> {
    let (name, rest) = text.split_once('=')?;
    let name = name.trim_ascii_end();
    let has_blank = name
        .as_bytes()
        .iter()
        .any(|byte| *byte == b' ' || *byte == b'\t');
    if has_blank {
        return None;
    }
    Some((name, rest))
}

// The quoted name, and what follows the equals sign.
fn quoted_name(text: &str) -> Option<(&str, &str)> {
    let (name, rest) = quoted(text)?;
    if name.contains('=') {
        return None;
    }
    Some((name, without_blanks(rest).strip_prefix('=')?))
}

fn name_of(text: &str) -> Option<(&str, &str)> {
    if is_quoted(text) {
        quoted_name(text)
    } else {
        plain_name(text)
    }
}

// The value without its quotes; none where nothing is there, or something follows the quotes.
fn value_of(text: &str) -> Option<&str> {
    if !is_quoted(text) {
        return if text.is_empty() { None } else { Some(text) };
    }
    let (value, rest) = quoted(text)?;
    if rest.trim_ascii_end().is_empty() {
        Some(value)
    } else {
        None
    }
}

/// The variable that a line sets, if it sets one. Single or double quotes may stand around the name
/// and around the value, and keep their blanks. An empty value needs quotes.
pub(crate) fn setting_of(text: &str) -> Option<Setting<'_>> {
    let (name, rest) = name_of(text)?;
    if name.is_empty() {
        return None;
    }
    let value = value_of(without_blanks(rest).trim_ascii_end())?;
    Some(Setting { name, value })
}

/// Whether a line sets a variable to nothing, without the quotes that cron wants.
pub(crate) fn lacks_value(text: &str) -> bool {
    match name_of(text) {
        Some((name, rest)) => !name.is_empty() && without_blanks(rest).is_empty(),
        None => false,
    }
}
