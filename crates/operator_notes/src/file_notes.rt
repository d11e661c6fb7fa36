//! The notes of files, ports and the match file. A program tells them that makes a match's stores, or serves it.

ghost use Rattle.std.specs.Prelude.{◌++◌, ◌∷◌, [], codes, decimal};
ghost use Rattle.std.specs.List.{flat_map};
ghost use Rattle.operator_notes.specs.Causes.{cause_text};
ghost use Rattle.operator_notes.specs.Shown.{shown};
ghost use Rattle.operator_notes.specs.Notes.{IsNoted, note_line, port_text};
ghost use Rattle.operator_notes.specs.declared.note.Note.TheVariants.{NotKept};

use crate::cause::Cause;
use crate::note::{Note, tell_note};
use std::alloc::Global;
use std::io::Write;

/// Tells the file or folder where the fault of the next line was found, and why.
pub fn tell_file<W: Write>(alloc: Global, path: &str, cause: Cause, notes: &mut W)
    ensures { IsNoted ((shown path.now ++ cause_text cause) ++ 10 ∷ []) (W.contents notes.old) (W.contents notes.new) }
{
    tell_note(alloc, notes, &Note::File(path, cause));
}

/// Tells the port where the fault of the next line was found, and why.
pub fn tell_port<W: Write>(alloc: Global, port: u16, cause: Cause, notes: &mut W)
    ensures { IsNoted ((codes "port " ++ decimal port ++ cause_text cause) ++ 10 ∷ []) (W.contents notes.old) (W.contents notes.new) }
{
    tell_note(alloc, notes, &Note::Port(port, cause));
}

/// Tells that the system gives no lock of a file.
pub fn tell_unlocked<W: Write>(alloc: Global, path: &str, notes: &mut W)
    ensures { IsNoted ((shown path.now ++ codes ": no file locks here, make sure that only one process uses it") ++ 10 ∷ []) (W.contents notes.old) (W.contents notes.new) }
{
    tell_note(alloc, notes, &Note::Unlocked(path));
}

/// Tells a key of the match file that no command reads.
pub fn tell_unused<W: Write>(alloc: Global, key: &str, notes: &mut W)
    ensures { IsNoted ((codes "unknown key " ++ shown key.now ++ codes " in the match file, ignored") ++ 10 ∷ []) (W.contents notes.old) (W.contents notes.new) }
{
    tell_note(alloc, notes, &Note::Unused(key));
}

/// Tells a key in the table of a node that no command reads.
pub fn tell_unused_in_node<W: Write>(alloc: Global, node: u8, key: &str, notes: &mut W)
    ensures { IsNoted ((codes "unknown key " ++ shown key.now ++ codes " of node " ++ decimal node ++ codes " in the match file, ignored") ++ 10 ∷ []) (W.contents notes.old) (W.contents notes.new) }
{
    tell_note(alloc, notes, &Note::UnusedInNode(node, key));
}

/// Tells a file that others than its owner may use, though it has what they may not see.
pub fn tell_open<W: Write>(alloc: Global, path: &str, notes: &mut W)
    ensures { IsNoted ((shown path.now ++ codes ": open to others than its owner") ++ 10 ∷ []) (W.contents notes.old) (W.contents notes.new) }
{
    tell_note(alloc, notes, &Note::Open(path));
}

/// Tells that the seeds of these nodes are so small that each can be tried.
pub fn tell_short_seeds<W: Write>(alloc: Global, nodes: &[u8], notes: &mut W)
    ensures { IsNoted ((codes "seeds below 2^55 can be guessed from one hand: of node" ++ flat_map port_text nodes.now) ++ 10 ∷ []) (W.contents notes.old) (W.contents notes.new) }
{
    tell_note(alloc, notes, &Note::ShortSeeds(nodes));
}

/// Tells that the match has no node of this number, but so many.
pub fn tell_no_such_node<W: Write>(alloc: Global, node: u8, nodes: u8, notes: &mut W)
    ensures { IsNoted ((codes "node " ++ decimal node ++ codes ": the match has " ++ decimal nodes ++ codes " nodes, counted from 0") ++ 10 ∷ []) (W.contents notes.old) (W.contents notes.new) }
{
    tell_note(alloc, notes, &Note::NoSuchNode { node, nodes });
}

/// Tells a file that was made.
pub fn tell_made<W: Write>(alloc: Global, path: &str, notes: &mut W)
    ensures { IsNoted ((codes "created " ++ shown path.now) ++ 10 ∷ []) (W.contents notes.old) (W.contents notes.new) }
{
    tell_note(alloc, notes, &Note::Made(path));
}

/// Tells that nothing beside the stores says of which match they are. As each of these it is the public form of one
/// note, since `Note` is this crate's own.
pub fn tell_not_kept<W: Write>(alloc: Global, notes: &mut W)
    ensures { IsNoted (note_line NotKept) (W.contents notes.old) (W.contents notes.new) }
{
    tell_note(alloc, notes, &Note::NotKept);
}
