//! The tokens of seats as `init` makes them: what the file of one has, and what the match file has of all.

ghost use Rattle.std.specs.Prelude.{◌≡◌, ◌++◌, codes, IfOk, OnOk};
ghost use Rattle.std.specs.List.{flat_map, join_by};
ghost use Rattle.node_runs.specs.Tokens.{quoted, tokens_line};

use std::alloc::{AllocError, Global};

/// The line of a match file that says by which digests the tokens of seats are known, one for each seat:
/// `tokens = ["3138..", "4f2e.."]`.
pub fn tokens_line(alloc: Global, digests: &[[u8; 32]]) -> Result<Vec<u8>, AllocError>
    ensures { IfOk result (λ line. line.items ≡ tokens_line digests.now) }
{
    let mut line = Vec::new(alloc);
    line.extend_from_slice(b"tokens = [")?;
    put_digests(&mut line, digests)?;
    line.extend_from_slice(b"]\n")?;
    Ok(line)
}

/// Appends digests, each in quotes, with a comma between two.
fn put_digests(line: &mut Vec<u8>, digests: &[[u8; 32]]) -> Result<(), AllocError>
    ensures { OnOk result (line.new.items ≡ line.old.items ++ join_by quoted (codes ", ") digests.now) }
{
    match digests.split_first() {
        Some((first, others)) => {
            put_quoted(line, first)?;
            put_others(line, others)
        }
        None => Ok(()),
    }
}

/// Appends digests, each in quotes behind a comma.
fn put_others(line: &mut Vec<u8>, digests: &[[u8; 32]]) -> Result<(), AllocError>
    ensures { OnOk result (line.new.items ≡ line.old.items ++ flat_map (λ digest. codes ", " ++ quoted digest) digests.now) }
{
    for digest in digests {
        put_next(line, digest)?;
    }
    Ok(())
}

/// Appends a digest in quotes behind a comma.
fn put_next(line: &mut Vec<u8>, digest: &[u8; 32]) -> Result<(), AllocError>
    ensures { OnOk result (line.new.items ≡ line.old.items ++ (codes ", " ++ quoted digest.now)) }
{
    line.extend_from_slice(b", ")?;
    put_quoted(line, digest)
}

/// Appends a digest in quotes.
fn put_quoted(line: &mut Vec<u8>, digest: &[u8; 32]) -> Result<(), AllocError>
    ensures { OnOk result (line.new.items ≡ line.old.items ++ quoted digest.now) }
{
    let digits = hex::encode(*line.allocator(), *digest)?;
    line.extend_from_slice(b"\"")?;
    line.extend_from_slice(digits.as_bytes())?;
    line.extend_from_slice(b"\"")
}
