//! Paths by their steps.
ghost use Rattle.std.specs.Prelude.{◌≡◌, ◌≢◌, ◌⊎◌, [], true, false, codes, IfOk, OnOk};
ghost use Rattle.meaning_texts.specs.Lists.{HasNo};
ghost use Rattle.build_files.specs.Paths.{IsTidy, leads, begins_at_root, tidied, AddsStep, AddsPiece};

use object_values::{Bytes, Memory};
use odin_bytes::cut_at;
use std::alloc::Global;

/// Whether a path has no step yet: it is the current folder or the root.
fn is_stepless(path: &[u8]) -> bool
    ensures yes { result ≡ true → (path.now ≡ []) ⊎ (path.now ≡ codes "/") }
    ensures no { result ≡ false → (path.now ≢ []) × (path.now ≢ codes "/") }
{
    path.is_empty() || path == b"/".as_slice()
}

/// Adds one more step to a path. Where memory is wanted, it leaves what it began.
pub fn add_step(path: &mut Bytes, step: &[u8]) -> Result<(), Memory>
    ensures { OnOk result (AddsStep path.old path.new step.now) }
{
    if is_stepless(path.as_slice()) {
        return path.extend_from_slice(step);
    }
    path.push(b'/')?;
    path.extend_from_slice(step)
}

/// Whether a piece of a path leads on: to another folder or file than the one where it stands.
pub fn leads(piece: &[u8]) -> bool
    ensures { result ≡ leads piece.now }
{
    !piece.is_empty() && piece != b".".as_slice()
}

fn add_piece(path: &mut Bytes, piece: &[u8]) -> Result<(), Memory>
    requires { HasNo 47 piece.now }
    ensures { OnOk result (AddsPiece path.old path.new piece.now) }
{
    if leads(piece) {
        add_step(path, piece)
    } else {
        Ok(())
    }
}

fn is_at_root(text: &[u8]) -> bool
    ensures { result ≡ begins_at_root text.now }
{
    text.first() == Some(&b'/')
}

/// The path of a folder by its name, without what leads nowhere: empty pieces, and those that are `.`.
pub fn tidy(alloc: Global, folder: &[u8]) -> Result<Bytes, Memory>
    ensures is { IfOk result (λ path. path ≡ tidied folder.now) }
    ensures tidy { IfOk result IsTidy }
{
    let mut path = Bytes::new(alloc);
    if is_at_root(folder) {
        path.push(b'/')?;
    }
    let mut rest = folder;
    'pieces: while let Some((piece, behind)) = cut_at(b'/', rest) {
        add_piece(&mut path, piece)?;
        rest = behind;
    }
    add_piece(&mut path, rest)?;
    Ok(path)
}
