// Words of lines, and texts that are shown.
use std::alloc::{AllocError, Global};

/// A number, or 0 where the word is none.
pub fn number(word: &str) -> u32 {
    word.parse::<u32>().unwrap_or(0)
}

/// A great number, or 0 where the word is none.
pub fn number64(word: &str) -> u64 {
    word.parse::<u64>().unwrap_or(0)
}

/// A byte, or 0 where the word is none.
pub fn byte(word: &str) -> u8 {
    word.parse::<u8>().unwrap_or(0)
}

/// Nothing is shown.
pub fn quiet(alloc: Global) -> Result<String, AllocError> {
    Ok(String::new(alloc))
}

/// A line is shown.
pub fn said(alloc: Global, line: &str) -> Result<String, AllocError> {
    let mut text = String::from_str(alloc, line)?;
    text.push_str("\n")?;
    Ok(text)
}

/// A block of 512 bytes for each word, filled with the number that the word is.
pub fn blocks_of(alloc: Global, line: &str) -> Result<Vec<u8>, AllocError> {
    let mut blocks = Vec::new(alloc);
    for word in line.split_whitespace() {
        push_block(&mut blocks, byte(word))?;
    }
    Ok(blocks)
}

// Adds a block that is filled with a byte.
fn push_block(blocks: &mut Vec<u8>, byte: u8) -> Result<(), AllocError> {
    for _ in 0..512 {
        blocks.push(byte)?;
    }
    Ok(())
}

/// The bytes that are listed.
pub fn bytes_of(alloc: Global, line: &str) -> Result<Vec<u8>, AllocError> {
    let mut bytes = Vec::new(alloc);
    for word in line.split_whitespace() {
        bytes.push(byte(word))?;
    }
    Ok(bytes)
}

/// The numbers that are listed.
pub fn numbers(alloc: Global, line: &str) -> Result<Vec<u64>, AllocError> {
    let mut list = Vec::new(alloc);
    for word in line.split_whitespace() {
        list.push(number64(word))?;
    }
    Ok(list)
}
