//! The texts of a case: names for them, and how they are written.
//!
//! In a text `$NAME` or `${NAME}` is the text of that name (capitals and digits), and `\n`, `\t`, `\r`, `\s`, `\0`, `\\` and `\xHH` are LF, a tab,
//! CR, a space, NUL, a backslash, and the byte of two hex digits.
use anyhow::{Context, Result, bail};
use std::alloc::Global;

/// Texts by their names.
#[derive(Drop)]
pub struct Texts {
    alloc: Global,
    rows: Vec<(String, Vec<u8>)>,
}

/// A line up to its first space, and after it.
pub fn split(line: &str) -> (&str, &str) {
    match line.split_once(' ') {
        Some(parts) => parts,
        None => (line, ""),
    }
}

/// A number in decimal digits.
pub fn number(word: &str) -> Result<u64> {
    Ok(word.parse::<u64>().context("a number")?)
}

/// The length of the name at the beginning of a text.
fn name_len(text: &str) -> usize {
    let mut length = 0usize;
    for byte in text.as_bytes() {
        if !byte.is_ascii_uppercase() && !byte.is_ascii_digit() {
            return length;
        }
        length = length.saturating_add(1);
    }
    length
}

/// The name at the beginning of a text, perhaps in braces, and what is after it.
fn name_and_rest(part: &str) -> Result<(&str, &str)> {
    if let Some(inner) = part.strip_prefix('{') {
        return inner.split_once('}').context("a closing brace");
    }
    let length = name_len(part);
    let name = part.get(..length).context("a name")?;
    Ok((name, part.get(length..).context("a text")?))
}

/// The byte that an escape of one letter means.
fn escaped_byte(letter: u8) -> Result<u8> {
    Ok(match letter {
        b'n' => b'\n',
        b't' => b'\t',
        b'r' => b'\r',
        b's' => b' ',
        b'0' => 0,
        b'\\' => b'\\',
        _ => bail!("no such escape"),
    })
}

/// The bytes of two hex digits, and then the rest as it is.
fn push_hex(text: &mut Vec<u8>, part: &str) -> Result<()> {
    let digits = part.get(..2).context("two hex digits")?;
    text.push(u8::from_str_radix(digits, 16).context("two hex digits")?)?;
    let rest = part.get(2..).context("two hex digits")?;
    text.extend_from_slice(rest.as_bytes())?;
    Ok(())
}

/// Adds what a text with escapes means.
fn push_unescaped(text: &mut Vec<u8>, written: &str) -> Result<()> {
    let mut parts = written.split('\\');
    text.extend_from_slice(parts.next().unwrap_or("").as_bytes())?;
    let mut after_backslash = false;
    for part in parts {
        if after_backslash {
            // The part before was empty: two backslashes in a row.
            text.extend_from_slice(part.as_bytes())?;
            after_backslash = false;
        } else if let Some(rest) = part.strip_prefix('x') {
            push_hex(text, rest)?;
        } else if let Some(letter) = part.as_bytes().first() {
            text.push(escaped_byte(*letter)?)?;
            text.extend_from_slice(part.get(1..).context("an escape")?.as_bytes())?;
        } else {
            text.push(b'\\')?;
            after_backslash = true;
        }
    }
    Ok(())
}

impl Texts {
    /// None.
    pub fn new(alloc: Global) -> Texts {
        Texts {
            alloc,
            rows: Vec::new(alloc),
        }
    }

    /// Gives a text a name: `NAME TEXT`.
    pub fn name(&mut self, line: &str) -> Result<()> {
        let (name, written) = split(line);
        let text = self.text(written)?;
        self.rows.push((name.to_string(self.alloc)?, text))?;
        Ok(())
    }

    /// Gives a text that is repeated a name: `NAME TIMES TEXT`.
    pub fn repeat(&mut self, line: &str) -> Result<()> {
        let (name, rest) = split(line);
        let (times, written) = split(rest);
        let once = self.text(written)?;
        let mut text = Vec::new(self.alloc);
        for _ in 0..number(times)? {
            text.extend_from_slice(once.as_slice())?;
        }
        self.rows.push((name.to_string(self.alloc)?, text))?;
        Ok(())
    }

    /// Adds the text of a name, the last one that was given.
    fn push_named(&self, text: &mut Vec<u8>, name: &str) -> Result<()> {
        for row in self.rows.as_slice().iter().rev() {
            if row.0.as_str() == name {
                text.extend_from_slice(row.1.as_slice())?;
                return Ok(());
            }
        }
        bail!("no text has the name {name}")
    }

    /// What a text means.
    pub fn text(&self, written: &str) -> Result<Vec<u8>> {
        let mut text = Vec::new(self.alloc);
        let mut parts = written.split('$');
        push_unescaped(&mut text, parts.next().unwrap_or(""))?;
        for part in parts {
            let (name, rest) = name_and_rest(part)?;
            self.push_named(&mut text, name)?;
            push_unescaped(&mut text, rest)?;
        }
        Ok(text)
    }

    /// The words of a line, parted by spaces; what is in single quotes is one word.
    pub fn words(&self, line: &str) -> Result<Vec<String>> {
        let mut words = Vec::new(self.alloc);
        for (at, part) in line.split('\'').enumerate() {
            if at % 2 == 1 {
                words.push(self.string(part)?)?;
                continue;
            }
            for word in part.split(' ') {
                if !word.is_empty() {
                    words.push(self.string(word)?)?;
                }
            }
        }
        Ok(words)
    }

    /// A text that is UTF-8.
    pub fn string(&self, written: &str) -> Result<String> {
        let text = self.text(written)?;
        let text = std::str::from_utf8(text.as_slice()).context("UTF-8")?;
        Ok(text.to_string(self.alloc)?)
    }
}

/// A text in one line, for messages: as a case would have it, without names.
pub fn shown(alloc: Global, text: &[u8]) -> Result<String> {
    let mut line = String::new(alloc);
    for byte in text {
        match *byte {
            b'\n' => line.push_str("\\n")?,
            b'\t' => line.push_str("\\t")?,
            b'\r' => line.push_str("\\r")?,
            b'\\' => line.push_str("\\\\")?,
            0x20..=0x7E => line.push(char::from(*byte))?,
            other => line.push_str(format!(in alloc; "\\x{other:02X}")?.as_str())?,
        }
    }
    Ok(line)
}
