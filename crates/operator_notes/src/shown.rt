//! Texts that notes name, as paths and keys, of which a file may say what it likes.

ghost use Rattle.std.specs.Prelude.{◌≡◌, ◌++◌, OnOk};
ghost use Rattle.operator_notes.specs.Shown.{shown_char, shown};

use std::alloc::AllocError;

/// Appends a text as notes show it: `?` in place of each control character.
pub fn put_shown(out: &mut Vec<u8>, text: &str) -> Result<(), AllocError>
    ensures { OnOk result (out.new.items ≡ out.old.items ++ shown text.now) }
{
    for c in text.chars() {
        put_char(out, c)?;
    }
    Ok(())
}

/// Appends a character, or `?` for a control character.
fn put_char(out: &mut Vec<u8>, c: char) -> Result<(), AllocError>
    ensures { OnOk result (out.new.items ≡ out.old.items ++ shown_char c) }
{
    if c.is_control() {
        return out.extend_from_slice(b"?");
    }
    let mut bytes = [0; 4];
    out.extend_from_slice(c.encode_utf8(&mut bytes).as_bytes())
}

/// Appends a path as notes show it, and what is said of it.
pub fn put_path(out: &mut Vec<u8>, path: &str, behind: &str) -> Result<(), AllocError>
    ensures { OnOk result (out.new.items ≡ out.old.items ++ (shown path.now ++ behind.now)) }
{
    put_shown(out, path)?;
    out.extend_from_slice(behind.as_bytes())
}

/// Appends a text, and behind it a path or a key as notes show it.
pub fn put_named(out: &mut Vec<u8>, front: &str, name: &str) -> Result<(), AllocError>
    ensures { OnOk result (out.new.items ≡ out.old.items ++ (front.now ++ shown name.now)) }
{
    out.extend_from_slice(front.as_bytes())?;
    put_shown(out, name)
}
