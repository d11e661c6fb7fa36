ghost use Rattle.std.specs.Prelude.{◌≡◌, ℕ, ◌++◌, List, OnOk, OnErr, Some, codes};
ghost use Rattle.play_script.specs.Shown.{whole_line, frame_text, seat_text, node_text};

use std::alloc::AllocError;
use std::fmt::Display;

/// Appends a frame, `frame K I>J HEX`: its number, from which node it is to which, and its bytes.
///
/// An `Err` comes only where memory was refused; then the text is as before.
pub fn put_frame(
    out: &mut Vec<u8>,
    number: u64,
    from: usize,
    to: usize,
    bytes: &[u8],
) -> Result<(), AllocError>
    ensures ok { OnOk result (out.new.items ≡ out.old.items ++ whole_line (frame_text number from to bytes.now)) }
    ensures err { OnErr result (out.new.items ≡ out.old.items) }
{
    let alloc = *out.allocator();
    let digits = hex::encode(alloc, bytes)?;
    let line = format!(in alloc; "frame {number} {from}>{to} {digits}\n")?;
    out.extend_from_slice(line.as_bytes())
}

/// Appends a line that a seat gets, `I S LINE`.
///
/// An `Err` comes only where memory was refused; then the text is as before.
pub fn put_seat_line(
    out: &mut Vec<u8>,
    node: usize,
    seat: usize,
    line: &[u8],
) -> Result<(), AllocError>
    ensures ok { OnOk result (out.new.items ≡ out.old.items ++ whole_line (seat_text node seat line.now)) }
    ensures err { OnErr result (out.new.items ≡ out.old.items) }
{
    let front = format!(in *out.allocator(); "{node} {seat} ")?;
    put_line(out, front.as_bytes(), line)
}

/// Appends a line of a node's log, `I L LINE`.
///
/// An `Err` comes only where memory was refused; then the text is as before.
pub fn put_log_line(out: &mut Vec<u8>, node: usize, line: &[u8]) -> Result<(), AllocError>
    ensures ok { OnOk result (out.new.items ≡ out.old.items ++ whole_line (node_text node (codes "L") line.now)) }
    ensures err { OnErr result (out.new.items ≡ out.old.items) }
{
    let front = format!(in *out.allocator(); "{node} L ")?;
    put_line(out, front.as_bytes(), line)
}

/// Appends a fault of a seat's session, `I S E CODE Name` and what belongs to it.
///
/// An `Err` comes only where memory was refused; then the text is as before.
pub fn put_seat_fault<F: Display>(
    out: &mut Vec<u8>,
    node: usize,
    seat: usize,
    fault: &F,
) -> Result<(), AllocError>
    ensures ok { (text : List ℕ) → F.output fault.now ≡ Some text → OnOk result (out.new.items ≡ out.old.items ++ whole_line (seat_text node seat (codes "E " ++ text))) }
    ensures err { OnErr result (out.new.items ≡ out.old.items) }
{
    let line = format!(in *out.allocator(); "{node} {seat} E {fault}\n")?;
    out.extend_from_slice(line.as_bytes())
}

/// Appends a node's fault, `I E CODE Name` and what belongs to it.
///
/// An `Err` comes only where memory was refused; then the text is as before.
pub fn put_fault<F: Display>(out: &mut Vec<u8>, node: usize, fault: &F) -> Result<(), AllocError>
    ensures ok { (text : List ℕ) → F.output fault.now ≡ Some text → OnOk result (out.new.items ≡ out.old.items ++ whole_line (node_text node (codes "E") text)) }
    ensures err { OnErr result (out.new.items ≡ out.old.items) }
{
    let line = format!(in *out.allocator(); "{node} E {fault}\n")?;
    out.extend_from_slice(line.as_bytes())
}

/// Appends a line that is made of two texts.
fn put_line(out: &mut Vec<u8>, front: &[u8], behind: &[u8]) -> Result<(), AllocError>
    ensures ok { OnOk result (out.new.items ≡ out.old.items ++ whole_line (front.now ++ behind.now)) }
    ensures err { OnErr result (out.new.items ≡ out.old.items) }
{
    let mut line = front.to_vec(*out.allocator())?;
    line.extend_from_slice(behind)?;
    line.push(b'\n')?;
    out.extend_from_slice(&line)
}
