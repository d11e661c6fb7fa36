ghost use Rattle.std.specs.Prelude.{◌≡◌, ◌∷◌, ◌++◌, [], take};

use arrayvec::ArrayVec;

/// The most bytes that a right script line has before its LF: ten names of 32 letters each.
pub(crate) const LONGEST_LINE: usize = 335;

/// The front of a script line: all of it, or one byte more than the longest right line has.
pub(crate) type LineFront = ArrayVec<u8, 336>;

/// Keeps a further byte of a line, unless the line is already longer than any right one.
pub(crate) fn keep(line: &mut LineFront, byte: u8)
    ensures { line.new.items ≡ take 336 (line.old.items ++ byte ∷ []) }
{
    if line.len() <= LONGEST_LINE {
        line.push(byte);
    }
}
