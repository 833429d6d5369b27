// A line's command, and what cron gives it to read (crontab(5), percent signs).
use std::alloc::{AllocError, Global};

/// A command, and the lines that cron gives it on standard input.
#[derive(Debug, Drop)]
pub(crate) struct Command {
    pub text: String,
    pub input: Option<String>,
}

/// A command that is being read.
#[derive(Drop)]
struct Reading {
    text: String,
    input: String,
    has_input: bool,
    is_escaped: bool,
}

impl Reading {
    fn put(&mut self, character: char) -> Result<(), AllocError> {
        if self.has_input {
            self.input.push(character)
        } else {
            self.text.push(character)
        }
    }

    // The first percent sign ends the command, each other one a line of its input.
    fn put_percent(&mut self) -> Result<(), AllocError> {
        if self.has_input {
            return self.input.push('\n');
        }
        self.has_input = true;
        Ok(())
    }

    // A percent sign behind a backslash is one, and the backslash is none.
    fn put_escaped(&mut self, character: char) -> Result<(), AllocError> {
        self.is_escaped = false;
        if character != '%' {
            self.put('\\')?;
        }
        self.put(character)
    }

    fn read(&mut self, character: char) -> Result<(), AllocError> {
        if self.is_escaped {
            return self.put_escaped(character);
        }
        match character {
            '\\' => {
                self.is_escaped = true;
                Ok(())
            }
            '%' => self.put_percent(),
            _ => self.put(character),
        }
    }

    fn end(&mut self) -> Result<(), AllocError> {
        if self.is_escaped {
            self.put('\\')?;
        }
        Ok(())
    }
}

/// The command of a line, from its first word on.
pub(crate) fn command_of(alloc: Global, text: &str) -> Result<Command, AllocError> {
    let mut reading = Reading {
        text: String::new(alloc),
        input: String::new(alloc),
        has_input: false,
        is_escaped: false,
    };
    for character in text.chars() {
        reading.read(character)?;
    }
    reading.end()?;
    let Reading {
        text,
        input,
        has_input,
        ..
    } = reading;
    let input = if has_input { Some(input) } else { None };
    Ok(Command { text, input })
}
