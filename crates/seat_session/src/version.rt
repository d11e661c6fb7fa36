ghost use Rattle.std.specs.Prelude.{◌↔◌, IsTrue};
ghost use Rattle.seat_session.specs.Version.{IsRevision, IsVersion};

/// Whether the line names version 2.0 of the protocol: `VERSION:2.0.` and a revision of 1 to 9 digits
/// (ACPC protocol 2.0.0). Leading zeros of the revision are allowed.
pub(crate) fn is_version(line: &[u8]) -> bool
    ensures { IsTrue result ↔ IsVersion line.now }
{
    match line.strip_prefix(b"VERSION:2.0.") {
        Some(revision) => is_revision(revision),
        None => false,
    }
}

/// Whether these are one to nine digits.
fn is_revision(bytes: &[u8]) -> bool
    ensures { IsTrue result ↔ IsRevision bytes.now }
{
    !bytes.is_empty() && bytes.len() <= 9 && bytes.iter().all(|byte| byte.is_ascii_digit())
}
