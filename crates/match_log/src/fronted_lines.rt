ghost use Rattle.std.specs.Prelude.{◌≡◌, ◌++◌, true, OnOk};
ghost use Rattle.match_log.specs.Fronted.{fronted};

use std::alloc::AllocError;

/// Appends a text with these bytes in front of each of its lines, as a program prints a log among other lines.
///
/// An `Err` comes only where memory was refused; then a beginning of it may stand in `out`.
pub fn put_fronted(out: &mut Vec<u8>, front: &[u8], text: &[u8]) -> Result<(), AllocError>
    ensures { OnOk result (out.new.items ≡ out.old.items ++ fronted front.now true text.now) }
{
    let mut begins = true;
    for byte in text {
        if begins {
            out.extend_from_slice(front)?;
        }
        out.push(*byte)?;
        begins = *byte == b'\n';
    }
    Ok(())
}
