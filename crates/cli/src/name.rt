use std::fmt;

/// The name of what is read: of a file, or of standard input where none is named. It stays on one line: what would
/// break it, or steer a terminal, is escaped.
#[derive(Clone, Copy)]
pub struct Name<'a>(pub Option<&'a str>);

impl fmt::Display for Name<'_> {
    fn fmt<W: fmt::Write>(&self, f: &mut fmt::Formatter<W>) -> fmt::Result {
        match self.0 {
            Some("") => f.write_str("''"),
            Some(file) => write!(f, "{}", OneLine(file)),
            None => f.write_str("standard input"),
        }
    }
}

/// A text on one line.
#[derive(Clone, Copy)]
pub struct OneLine<'a>(pub &'a str);

impl fmt::Display for OneLine<'_> {
    fn fmt<W: fmt::Write>(&self, f: &mut fmt::Formatter<W>) -> fmt::Result {
        for c in self.0.chars() {
            if c.is_control() || matches!(c, '\u{2028}' | '\u{2029}') {
                write!(f, "{}", c.escape_debug())?;
            } else {
                f.write_char(c)?;
            }
        }
        Ok(())
    }
}
