use disk_model::DiskFault;
use std::alloc::{AllocError, Global};

/// Bytes as text: `.` for 0, `!` for 255, and `-` where there are none.
pub fn bytes_text(alloc: Global, bytes: &[u8]) -> Result<String, AllocError> {
    if bytes.is_empty() {
        return String::from_str(alloc, "-");
    }
    let mut text = String::new(alloc);
    for byte in bytes {
        text.push(match *byte {
            0 => '.',
            255 => '!',
            other => char::from(other),
        })?;
    }
    Ok(text)
}

/// Numbers as text, with a space between them, and `-` where there are none.
pub fn numbers_text(alloc: Global, numbers: &[u64]) -> Result<String, AllocError> {
    if numbers.is_empty() {
        return String::from_str(alloc, "-");
    }
    let mut text = String::new(alloc);
    for number in numbers {
        if !text.is_empty() {
            text.push(' ')?;
        }
        text.push_str(&format!(in alloc; "{number}")?)?;
    }
    Ok(text)
}

/// What a call answered that tells nothing else.
pub fn done_text(alloc: Global, answer: Result<(), DiskFault>) -> Result<String, AllocError> {
    String::from_str(
        alloc,
        match answer {
            Ok(()) => "ok",
            Err(DiskFault::Failed) => "failed",
            Err(DiskFault::NoMemory) => "out of memory",
        },
    )
}
