//! The parts of XML that a drawing's text is made of (W3C, Extensible Markup Language 1.0, fifth edition).

ghost use Rattle.std.specs.Prelude.{◌≡◌, ◌++◌, OnOk, decimal};
ghost use Rattle.nm_picture_svg.specs.Xml as spec;

use nm_base::{NoMemory, write_decimal};

/// Appends a text as it is.
pub fn put(out: &mut Vec<u8>, text: &str) -> Result<(), NoMemory>
    ensures { OnOk result (out.new.items ≡ out.old.items ++ text.now) }
{
    out.extend_from_slice(text.as_bytes())?;
    Ok(())
}

/// Appends a number.
pub fn put_number(out: &mut Vec<u8>, number: u32) -> Result<(), NoMemory>
    ensures { OnOk result (out.new.items ≡ out.old.items ++ decimal number) }
{
    write_decimal(u64::from(number), out)?;
    Ok(())
}

// What a byte is written as, where not as itself: the five characters that have a meaning in XML as the entities of section 4.6, and those
// that may not stand in it (section 2.2) as a question mark.
fn entity_of(byte: u8) -> &'static str
    ensures { result.now ≡ spec.entity_of byte }
{
    match byte {
        b'<' => "&lt;",
        b'>' => "&gt;",
        b'&' => "&amp;",
        b'"' => "&quot;",
        b'\'' => "&apos;",
        _ => "?",
    }
}

fn is_markup(byte: u8) -> bool
    ensures { result ≡ spec.is_markup byte }
{
    byte == b'<' || byte == b'>' || byte == b'&' || byte == b'"' || byte == b'\''
}

fn is_forbidden(byte: u8) -> bool
    ensures { result ≡ spec.is_forbidden byte }
{
    byte < 32 && byte != 9 && byte != 10 && byte != 13
}

fn put_byte(out: &mut Vec<u8>, byte: u8) -> Result<(), NoMemory>
    ensures { OnOk result (out.new.items ≡ out.old.items ++ spec.escaped_byte byte) }
{
    if is_markup(byte) || is_forbidden(byte) {
        return put(out, entity_of(byte));
    }
    out.push(byte)?;
    Ok(())
}

/// Appends a text that is to be nothing but text, within an element or a value.
pub fn put_escaped(out: &mut Vec<u8>, text: &[u8]) -> Result<(), NoMemory>
    ensures { OnOk result (out.new.items ≡ out.old.items ++ spec.escaped text.now) }
{
    for byte in text {
        put_byte(out, *byte)?;
    }
    Ok(())
}

/// Begins the tag of an element.
pub fn open(out: &mut Vec<u8>, name: &str) -> Result<(), NoMemory>
    ensures { OnOk result (out.new.items ≡ out.old.items ++ spec.opened name.now) }
{
    put(out, "<")?;
    put(out, name)
}

/// Ends an element that holds something.
pub fn close(out: &mut Vec<u8>, name: &str) -> Result<(), NoMemory>
    ensures { OnOk result (out.new.items ≡ out.old.items ++ spec.closed name.now) }
{
    put(out, "</")?;
    put(out, name)?;
    put(out, ">\n")
}

/// Begins an attribute.
pub fn put_name(out: &mut Vec<u8>, name: &str) -> Result<(), NoMemory>
    ensures { OnOk result (out.new.items ≡ out.old.items ++ spec.named name.now) }
{
    put(out, " ")?;
    put(out, name)?;
    put(out, "=\"")
}

/// Appends an attribute whose value is a word.
pub fn put_word(out: &mut Vec<u8>, name: &str, value: &str) -> Result<(), NoMemory>
    ensures { OnOk result (out.new.items ≡ out.old.items ++ spec.attribute name.now value.now) }
{
    put_name(out, name)?;
    put(out, value)?;
    put(out, "\"")
}

/// Appends an attribute whose value is a number.
pub fn put_count(out: &mut Vec<u8>, name: &str, value: u32) -> Result<(), NoMemory>
    ensures { OnOk result (out.new.items ≡ out.old.items ++ spec.attribute name.now (decimal value)) }
{
    put_name(out, name)?;
    put_number(out, value)?;
    put(out, "\"")
}

/// Appends an attribute whose value is any text.
pub fn put_label(out: &mut Vec<u8>, name: &str, value: &[u8]) -> Result<(), NoMemory>
    ensures { OnOk result (out.new.items ≡ out.old.items ++ spec.attribute name.now (spec.escaped value.now)) }
{
    put_name(out, name)?;
    put_escaped(out, value)?;
    put(out, "\"")
}
