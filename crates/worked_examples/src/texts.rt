// Words of lines, and texts that are shown.
use std::alloc::{AllocError, Global};

/// The words of a line.
pub fn words(alloc: Global, line: &str) -> Result<Vec<String>, AllocError> {
    let mut words = Vec::new(alloc);
    for word in line.split_whitespace() {
        words.push(String::from_str(alloc, word)?)?;
    }
    Ok(words)
}

/// A number, or 0 where the word is none.
pub fn number(word: &str) -> u32 {
    word.parse::<u32>().unwrap_or(0)
}

/// A great number, or 0 where the word is none.
pub fn number64(word: &str) -> u64 {
    word.parse::<u64>().unwrap_or(0)
}

/// What stands behind this key and `=` in one of the words.
pub fn option<'a>(line: &'a str, key: &str) -> Option<&'a str> {
    for word in line.split_whitespace() {
        if let Some((name, value)) = word.split_once('=') {
            if name == key {
                return Some(value);
            }
        }
    }
    None
}

/// Nothing is shown.
pub fn quiet(alloc: Global) -> Result<String, AllocError> {
    Ok(String::new(alloc))
}

/// A line is shown.
pub fn said(alloc: Global, line: &str) -> Result<String, AllocError> {
    let mut text = String::from_str(alloc, line)?;
    text.push_str("\n")?;
    Ok(text)
}

/// Yes or no is shown.
pub fn verdict(alloc: Global, holds: bool) -> Result<String, AllocError> {
    said(alloc, if holds { "yes" } else { "no" })
}

/// Adds bytes to a text, which are shown as characters up to 127, and else as a question mark.
pub fn push_bytes(text: &mut String, bytes: &[u8]) -> Result<(), AllocError> {
    for byte in bytes {
        if *byte < 128 {
            text.push(char::from(*byte))?;
        } else {
            text.push('?')?;
        }
    }
    Ok(())
}

// A half of a byte as a hexadecimal digit.
fn digit(half: u8) -> char {
    if half < 10 {
        char::from(b'0'.wrapping_add(half))
    } else {
        char::from(b'a'.wrapping_add(half.wrapping_sub(10)))
    }
}

/// Adds bytes to a text as hexadecimal digits.
pub fn push_hex(text: &mut String, bytes: &[u8]) -> Result<(), AllocError> {
    for byte in bytes {
        text.push(digit(*byte / 16))?;
        text.push(digit(*byte % 16))?;
    }
    Ok(())
}

// The value of a hexadecimal digit, if it is one.
fn value(digit: u8) -> Option<u8> {
    match digit {
        b'0'..=b'9' => Some(digit.wrapping_sub(b'0')),
        b'a'..=b'f' => Some(digit.wrapping_sub(b'a').wrapping_add(10)),
        _ => None,
    }
}

/// The bytes that hexadecimal digits spell, whatever else stands between them.
pub fn hex_bytes(alloc: Global, line: &str) -> Result<Vec<u8>, AllocError> {
    let mut bytes = Vec::new(alloc);
    let mut first: Option<u8> = None;
    for digit in line.as_bytes() {
        if let Some(low) = value(*digit) {
            match first {
                Some(high) => {
                    bytes.push(high.wrapping_mul(16).wrapping_add(low))?;
                    first = None;
                }
                None => first = Some(low),
            }
        }
    }
    Ok(bytes)
}

/// The lines of a text as one, with strokes between them.
pub fn one_line(alloc: Global, text: &str) -> Result<String, AllocError> {
    let mut line = String::new(alloc);
    for part in text.lines() {
        if !line.is_empty() {
            line.push_str(" / ")?;
        }
        line.push_str(part)?;
    }
    Ok(line)
}

/// Texts with this between them.
pub fn joined(alloc: Global, texts: &[String], between: &str) -> Result<String, AllocError> {
    let mut line = String::new(alloc);
    let mut first = true;
    for text in texts {
        if !first {
            line.push_str(between)?;
        }
        first = false;
        line.push_str(text.as_str())?;
    }
    Ok(line)
}

/// Texts as lines.
pub fn lines(alloc: Global, texts: &[String]) -> Result<String, AllocError> {
    let mut all = String::new(alloc);
    for text in texts {
        all.push_str(text.as_str())?;
        all.push_str("\n")?;
    }
    Ok(all)
}

/// Adds a text to others, unless it is among them.
pub fn push_new(texts: &mut Vec<String>, text: String) -> Result<(), AllocError> {
    if texts.iter().any(|known| known.as_str() == text.as_str()) {
        return Ok(());
    }
    texts.push(text)?;
    Ok(())
}

// Adds a text so often.
fn push_times(line: &mut String, text: &str, times: u32) -> Result<(), AllocError> {
    for _ in 0..times {
        line.push_str(text)?;
    }
    Ok(())
}

// Adds a text in braces.
fn push_braced(line: &mut String, text: &str) -> Result<(), AllocError> {
    line.push_str("{")?;
    line.push_str(text)?;
    line.push_str("}")?;
    Ok(())
}

/// A line in which each `{TEXT*TIMES}`, four at most, stands written out. Other braces stand for themselves.
pub fn written_out(alloc: Global, line: &str) -> Result<String, AllocError> {
    let mut text = String::new(alloc);
    let mut rest = line;
    for _ in 0..4 {
        let Some((front, behind)) = rest.split_once('{') else {
            break;
        };
        let Some((inside, back)) = behind.split_once('}') else {
            break;
        };
        text.push_str(front)?;
        match inside.split_once('*') {
            Some((part, times)) => push_times(&mut text, part, number(times))?,
            None => push_braced(&mut text, inside)?,
        }
        rest = back;
    }
    text.push_str(rest)?;
    Ok(text)
}
