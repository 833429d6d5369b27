// Parts of an HTML text.
use std::alloc::AllocError;

// What a character of a text or an attribute is written as, where it can't be written itself. Those
// that no HTML text may have, and those that turn the direction of a text, become one that says
// that it isn't known.
fn entity(c: char) -> Option<&'static str> {
    match c {
        '&' => Some("&amp;"),
        '<' => Some("&lt;"),
        '>' => Some("&gt;"),
        '"' => Some("&quot;"),
        '\'' => Some("&#39;"),
        '\u{0}'..='\u{8}' | '\u{b}'..='\u{1f}' | '\u{7f}'..='\u{9f}' => Some("&#xfffd;"),
        '\u{202a}'..='\u{202e}' | '\u{2066}'..='\u{2069}' => Some("&#xfffd;"),
        _ => None,
    }
}

fn push_char(text: &mut String, c: char) -> Result<(), AllocError> {
    match entity(c) {
        Some(entity) => text.push_str(entity),
        None => text.push(c),
    }
}

/// A text as its reader sees it again, whatever it has.
pub(crate) fn push_text(text: &mut String, part: &str) -> Result<(), AllocError> {
    for c in part.chars() {
        push_char(text, c)?;
    }
    Ok(())
}

/// A text between what opens and what closes it.
pub(crate) fn push_between(
    text: &mut String,
    open: &str,
    part: &str,
    close: &str,
) -> Result<(), AllocError> {
    text.push_str(open)?;
    push_text(text, part)?;
    text.push_str(close)
}

/// Each line of a text between what opens and what closes it.
pub(crate) fn push_lines(
    text: &mut String,
    open: &str,
    lines: &str,
    close: &str,
) -> Result<(), AllocError> {
    for line in lines.lines() {
        push_between(text, open, line, close)?;
    }
    Ok(())
}

/// The lines of a text as a list, where it has some.
pub(crate) fn push_list(text: &mut String, lines: &str) -> Result<(), AllocError> {
    if lines.is_empty() {
        return Ok(());
    }
    text.push_str("<div class=\"tall\">\n<ul>\n")?;
    push_lines(text, "<li>", lines, "</li>\n")?;
    text.push_str("</ul>\n</div>\n")
}

/// A cell of a table, with the name of its column for a narrow screen.
pub(crate) fn push_cell(text: &mut String, column: &str, part: &str) -> Result<(), AllocError> {
    push_between(text, "<td data-column=\"", column, "\">")?;
    push_between(text, "", part, "</td>\n")
}

/// How many lines a text has.
pub(crate) fn line_count(lines: &str) -> u64 {
    let mut count: u64 = 0;
    for _ in lines.lines() {
        count = count.saturating_add(1);
    }
    count
}

/// The first line of a text, without its end.
pub(crate) fn first_line(lines: &str) -> &str {
    lines.split_once('\n').unwrap_or((lines, "")).0
}
