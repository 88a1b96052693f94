//! Texts with what a line can't hold: `¶` is a line's end, `⟦01 ff⟧` are two bytes, `⟦3*ab⟧` is `ababab`, and `⟦3#a#b⟧` is `a1b,a2b,a3b`.

use nm_base::{NoMemory, write_decimal};

/// Appends the bytes that a text stands for.
pub fn put(text: &str, out: &mut Vec<u8>) -> Result<(), NoMemory> {
    for piece in text.split('⟦') {
        put_piece(piece, out)?;
    }
    Ok(())
}

/// Appends the items that are parted by ` ; `, each between two texts, and a comma between any two.
pub fn put_items(text: &str, each: &str, end: &str, out: &mut Vec<u8>) -> Result<(), NoMemory> {
    for (number, item) in text.split(" ; ").enumerate() {
        put_item(number, each, item, end, out)?;
    }
    Ok(())
}

fn put_item(
    number: usize,
    each: &str,
    item: &str,
    end: &str,
    out: &mut Vec<u8>,
) -> Result<(), NoMemory> {
    if number > 0 {
        out.push(b',')?;
    }
    put(each, out)?;
    put(item, out)?;
    put(end, out)
}

/// Appends the items that are parted by ` ; `, each as a line that begins with its number.
pub fn put_lines_of(text: &str, out: &mut Vec<u8>) -> Result<(), NoMemory> {
    for (number, item) in text.split(" ; ").enumerate() {
        put_line_of(number, item, out)?;
    }
    Ok(())
}

fn put_line_of(number: usize, item: &str, out: &mut Vec<u8>) -> Result<(), NoMemory> {
    write_decimal((number as u64).saturating_add(1), out)?;
    out.push(b' ')?;
    put(item, out)?;
    out.push(b'\n')?;
    Ok(())
}

// What stands in the brackets, and what stands behind them.
fn put_piece(piece: &str, out: &mut Vec<u8>) -> Result<(), NoMemory> {
    match piece.split_once('⟧') {
        Some((within, rest)) => {
            put_within(within, out)?;
            put_lines(rest, out)
        }
        None => put_lines(piece, out),
    }
}

fn put_lines(text: &str, out: &mut Vec<u8>) -> Result<(), NoMemory> {
    for line in text.split('¶') {
        out.extend_from_slice(line.as_bytes())?;
        out.push(b'\n')?;
    }
    out.pop();
    Ok(())
}

fn put_within(text: &str, out: &mut Vec<u8>) -> Result<(), NoMemory> {
    if let Some((times, text)) = text.split_once('*') {
        return put_times(number_of(times), text, out);
    }
    match text.split_once('#') {
        Some((last, text)) => put_numbers(number_of(last), text, out),
        None => put_bytes(text, out),
    }
}

fn put_bytes(text: &str, out: &mut Vec<u8>) -> Result<(), NoMemory> {
    for byte in text.split(' ') {
        put_byte(byte, out)?;
    }
    Ok(())
}

fn number_of(text: &str) -> u32 {
    text.parse::<u32>().unwrap_or(0)
}

fn put_byte(text: &str, out: &mut Vec<u8>) -> Result<(), NoMemory> {
    out.push(u8::from_str_radix(text, 16).unwrap_or(0))?;
    Ok(())
}

fn put_times(times: u32, text: &str, out: &mut Vec<u8>) -> Result<(), NoMemory> {
    for _ in 0..times {
        out.extend_from_slice(text.as_bytes())?;
    }
    Ok(())
}

fn put_numbers(last: u32, text: &str, out: &mut Vec<u8>) -> Result<(), NoMemory> {
    let (before, after) = text.split_once('#').unwrap_or((text, ""));
    for number in 0..last {
        put_number(number, before, after, out)?;
    }
    Ok(())
}

// The number after this one, with a comma before it but for the first.
fn put_number(number: u32, before: &str, after: &str, out: &mut Vec<u8>) -> Result<(), NoMemory> {
    if number > 0 {
        out.push(b',')?;
    }
    out.extend_from_slice(before.as_bytes())?;
    write_decimal(u64::from(number) + 1, out)?;
    out.extend_from_slice(after.as_bytes())?;
    Ok(())
}
