// The lines of a script, and how far it is played.
use std::alloc::{AllocError, Global};

/// A script.
#[derive(Drop)]
pub struct Script {
    lines: Vec<String>,
    /// The number of the line that is played next.
    pub at: usize,
    /// How many examples have begun.
    pub examples: u32,
    /// How many steps came out otherwise than the script says.
    pub wrong: u32,
}

impl Script {
    /// A script without lines.
    pub fn new(alloc: Global) -> Self {
        Script {
            lines: Vec::new(alloc),
            at: 0,
            examples: 0,
            wrong: 0,
        }
    }

    /// Adds a line.
    pub fn add(&mut self, line: String) -> Result<(), AllocError> {
        self.lines.push(line)?;
        Ok(())
    }

    /// Whether no line is left.
    pub fn is_at_end(&self) -> bool {
        self.at >= self.lines.len()
    }

    /// The line that is played next, or an empty one.
    pub fn line(&self) -> &str {
        match self.lines.get(self.at) {
            Some(line) => line.as_str(),
            None => "",
        }
    }

    /// A copy of the line that is played next, which is left behind.
    pub fn next(&mut self, alloc: Global) -> Result<String, AllocError> {
        let line = String::from_str(alloc, self.line())?;
        self.at = self.at.wrapping_add(1);
        Ok(line)
    }

    /// The lines that say what a step answers, each behind `=` and a space.
    pub fn answer(&mut self, alloc: Global) -> Result<String, AllocError> {
        let mut text = String::new(alloc);
        for _ in 0..self.lines.len() {
            let Some(line) = self.line().trim_start().strip_prefix("= ") else {
                break;
            };
            text.push_str(line)?;
            text.push_str("\n")?;
            self.at = self.at.wrapping_add(1);
        }
        Ok(text)
    }
}
