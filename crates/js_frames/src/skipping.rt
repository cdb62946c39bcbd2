//! Statements that count no node.

ghost use Rattle.std.specs.Prelude.{◌≡◌, true};
ghost use Rattle.js_meaning.specs.Meaning.{stmt};
ghost use Rattle.js_meaning.specs.Running.{done, normal};
ghost use Rattle.js_frames.specs.Idle.{is_idle as idle};

use js_ast::Stmt;

/// Whether a statement counts no node, and so does nothing: an `if` with no arms, and with no alternative or with such a
/// one. No script spells one.
pub fn is_idle(tree: &Stmt) -> bool
    ensures idle { result ≡ idle tree.now }
    ensures does { result ≡ true → stmt tree.now ≡ (λ calls k scope st. done st normal) }
{
    let mut part = tree;
    'down: loop {
        match part {
            Stmt::If { arms, alternate } => {
                if arms.len() > 0 {
                    return false;
                }
                match alternate {
                    None => return true,
                    Some(other) => part = other.get(),
                }
            }
            _ => return false,
        }
    }
}
