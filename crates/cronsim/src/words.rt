use cj_program::Failure;
use std::alloc::Global;

/// The words; `help help` asks for what `help` does.
pub fn asked<'w, 'a>(words: &'w [&'a str]) -> &'w [&'a str] {
    if words.len() == 3 && words[1] == "help" && words[2] == "help" {
        &words[..2]
    } else {
        words
    }
}

// Whether an option is among the words.
fn is_given(words: &[&str], option: &str) -> bool {
    words.iter().any(|word| match word.strip_prefix(option) {
        Some(rest) => rest.is_empty() || rest.starts_with('='),
        None => false,
    })
}

/// Two options that are given, as the help has them, of which one says what the other would.
pub fn clash(words: &[&str]) -> Option<(&'static str, &'static str)> {
    let command = words.get(1).copied().unwrap_or("");
    let in_file = is_given(words, "-f") || is_given(words, "--file");
    match command {
        "upcoming" | "scenario" if is_given(words, "--for") && is_given(words, "--until") => {
            Some(("--for <LENGTH>", "--until <TIME>"))
        }
        "describe" if in_file && is_given(words, "--after") => Some(("--file", "--after <TIME>")),
        "describe" if in_file && is_given(words, "--count") => Some(("--file", "--count <N>")),
        _ => None,
    }
}

// Whether a word is a moment before now, as `-1h`.
fn is_before(word: &str) -> bool {
    let bytes = word.as_bytes();
    bytes.len() > 1 && bytes[0] == b'-' && bytes[1].is_ascii_digit()
}

// Whether the value of the command's option may be a moment by the clock.
fn takes_moment(command: &str, option: &str) -> bool {
    match command {
        "check" | "why" | "crontab" | "plan" => option == "--now",
        "upcoming" | "scenario" => option == "--from" || option == "--until",
        "describe" | "next" => option == "--after",
        "previous" => option == "--before",
        "report" | "audit" => option == "--now" || option == "--since",
        _ => false,
    }
}

/// The words, with `--now -1h` of `why` as `--now=-1h`, and likewise for the other commands that
/// take a moment by the clock, since clap takes a word that begins with `-` for an option.
pub fn joined(alloc: Global, words: &[String]) -> Result<Vec<String>, Failure> {
    let command = match words {
        [_, command, ..] => command.as_str(),
        _ => "",
    };
    let mut joined = Vec::new(alloc);
    let mut option = "";
    for word in words {
        let word = word.as_str();
        let mut text = String::new(alloc);
        if !option.is_empty() && is_before(word) {
            let _ = joined.pop();
            text.push_str(option)?;
            text.push_str("=")?;
        }
        text.push_str(word)?;
        joined.push(text).map_err(|_| Failure::Memory)?;
        option = if takes_moment(command, word) {
            word
        } else {
            ""
        };
    }
    Ok(joined)
}
