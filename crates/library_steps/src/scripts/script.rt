//! A script as blocks of steps. A block ends at an empty line.

/// A script's text, from the line that comes next.
#[derive(Clone, Copy)]
pub struct Script<'a> {
    file: &'a str,
    rest: &'a str,
    line: usize,
}

/// A command, and the lines that belong to it.
#[derive(Clone, Copy)]
pub struct Step<'a> {
    /// The name of the script.
    pub file: &'a str,
    /// The number of the command's line. The first line of a script is 1.
    pub line: usize,
    /// The command.
    pub words: Words<'a>,
    /// The lines after it that begin with `>`, `=`, `!` or `~`.
    pub lines: &'a str,
}

impl<'a> Script<'a> {
    /// The script of a file, from its first line.
    pub fn new(file: &'a str, text: &'a str) -> Script<'a> {
        Script {
            file,
            rest: text,
            line: 1,
        }
    }

    /// How many steps there are at most from here on.
    pub fn most_steps(&self) -> usize {
        self.rest.len()
    }

    /// Goes to the next block. It gives false where there is none.
    pub fn find_block(&mut self) -> bool {
        for _ in 0..self.rest.len() {
            let (line, _) = first_line(self.rest);
            if !is_blank(line) && !line.starts_with('#') {
                return true;
            }
            self.skip_line();
        }
        false
    }

    /// The next step of the block that was found.
    pub fn next_step(&mut self) -> Option<Step<'a>> {
        self.skip_comments();
        let (words, _) = first_line(self.rest);
        if is_blank(words) {
            return None;
        }
        let line = self.line;
        self.skip_line();
        Some(Step {
            file: self.file,
            line,
            words: Words { text: words },
            lines: self.take_marked(),
        })
    }

    fn skip_line(&mut self) {
        let (_, rest) = first_line(self.rest);
        self.rest = rest;
        self.line = self.line.saturating_add(1);
    }

    fn skip_comments(&mut self) {
        for _ in 0..self.rest.len() {
            if !self.rest.starts_with('#') {
                return;
            }
            self.skip_line();
        }
    }

    /// The lines from here on that begin with a mark.
    fn take_marked(&mut self) -> &'a str {
        let all = self.rest;
        for _ in 0..all.len() {
            if !self.rest.starts_with(is_mark) {
                break;
            }
            self.skip_line();
        }
        let len = all.len().saturating_sub(self.rest.len());
        all.get(..len).unwrap_or("")
    }
}

fn is_mark(ch: char) -> bool {
    ch == '>' || ch == '=' || ch == '!' || ch == '~'
}

fn is_blank(line: &str) -> bool {
    line.trim().is_empty()
}

/// A text's first line, and what comes after it.
pub fn first_line(text: &str) -> (&str, &str) {
    text.split_once('\n').unwrap_or((text, ""))
}

/// The words of a command.
#[derive(Clone, Copy)]
pub struct Words<'a> {
    /// The line that they stand in.
    pub text: &'a str,
}

impl<'a> Words<'a> {
    /// A word by its index, or no text. The command's name has index 0.
    pub fn word(self, index: usize) -> &'a str {
        self.text.split_whitespace().nth(index).unwrap_or("")
    }

    /// The words from this index on.
    pub fn rest(self, index: usize) -> Words<'a> {
        let mut text = self.text;
        for _ in 0..index {
            text = text.split_once(' ').unwrap_or(("", "")).1;
        }
        Words { text }
    }

    /// The word after this one.
    pub fn after(self, key: &str) -> Option<&'a str> {
        let mut words = self.text.split_whitespace();
        let _key = words.find(|word| *word == key)?;
        words.next()
    }

    /// Whether there is such a word.
    pub fn has(self, key: &str) -> bool {
        let mut has_key = false;
        for word in self.text.split_whitespace() {
            has_key = has_key || word == key;
        }
        has_key
    }
}
