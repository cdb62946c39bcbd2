//! The names of one scope.

ghost use Rattle.std.specs.Prelude.{◌≡◌, [], ◌∷◌, ◌++◌, OnOk};
ghost use Rattle.js_early.specs.Early.{scope, names_of, is_global, global_place, stmt_found};
ghost use Rattle.js_early.specs.Parts.{least_with, globals_in, declared_in};
ghost use Rattle.js_early.specs.Scopes.{Declares};

use js_ast::{Declarator, Expr, Identifier, Stmt};
use js_units::NoMemory;
use sqlite_items::Boxed;
use std::alloc::Global;
use std::collections::BTreeSet;
use std::marker::Model;

/// Names in the order in which they are declared. Contracts see them as a list.
#[derive(Drop)]
pub struct Names<'a> {
    items: Vec<&'a Identifier>,
}

impl<'a> Model for Names<'a> {
    ghost use Rattle.std.specs.Prelude.{List, map};
    ghost use Rattle.js_ast.specs.declared.parts.Identifier.{Identifier};

    ghost Value = { List Identifier };

    ghost view = { λ n. map (λ r. r.now) n.items.items };
}

impl<'a> Names<'a> {
    pub fn new(alloc: Global) -> Names<'a>
        ensures { result ≡ [] }
    {
        Names {
            items: Vec::new(alloc),
        }
    }

    pub fn push(&mut self, name: &'a Identifier) -> Result<(), NoMemory>
        ensures { OnOk result (self.new ≡ self.old ++ name.now ∷ []) }
    {
        self.items.push(name)?;
        Ok(())
    }

    pub fn push_all(&mut self, names: &'a [Identifier]) -> Result<(), NoMemory>
        ensures { OnOk result (self.new ≡ self.old ++ names.now) }
    {
        for name in names {
            self.push(name)?;
        }
        Ok(())
    }

    pub fn push_declared(
        &mut self,
        declarators: &'a [Declarator<Boxed<Expr>>],
    ) -> Result<(), NoMemory>
        ensures { OnOk result (self.new ≡ self.old ++ names_of declarators.now) }
    {
        for declarator in declarators {
            self.push(&declarator.name)?;
        }
        Ok(())
    }

    #[tactic(auto, using(crate::proofs::Opens::name_opens))]
    fn push_of(&mut self, stmt: &'a Stmt) -> Result<(), NoMemory>
        ensures { OnOk result (self.new ≡ self.old ++ (stmt_found stmt.now).declared) }
    {
        match stmt {
            Stmt::Declare { declarators, .. } => {
                self.push_declared(declarators.as_slice())?;
                Ok(())
            }
            Stmt::Function { name, .. } => {
                self.push(name)?;
                Ok(())
            }
            Stmt::Block { .. }
            | Stmt::Nothing { .. }
            | Stmt::Express { .. }
            | Stmt::If { .. }
            | Stmt::While { .. }
            | Stmt::Do { .. }
            | Stmt::For { .. }
            | Stmt::ForOf { .. }
            | Stmt::Break { .. }
            | Stmt::Continue { .. }
            | Stmt::Return { .. }
            | Stmt::Throw { .. }
            | Stmt::Try { .. } => Ok(()),
        }
    }

    /// The names that statements declare in the scope around them.
    pub fn push_body(&mut self, body: &'a [Stmt]) -> Result<(), NoMemory>
        ensures { OnOk result (self.new ≡ self.old ++ declared_in body.now) }
    {
        for stmt in body {
            self.push_of(stmt)?;
        }
        Ok(())
    }
}

/// Keeps the lesser of two places.
#[tactic(auto, unfolding(crate::specs::Parts::least_with))]
pub fn note(found: &mut Option<u32>, place: u32)
    ensures { found.new ≡ least_with found.old (place ∷ []) }
{
    *found = match *found {
        Some(least) => Some(least.min(place)),
        None => Some(place),
    };
}

fn is_global(name: &Identifier) -> bool
    ensures { result ≡ is_global name.now }
{
    name.name.equals_bytes(b"undefined")
        || name.name.equals_bytes(b"NaN")
        || name.name.equals_bytes(b"Infinity")
}

/// Declares a name in a scope. The set has the names before it, so that a scope of many names stays near linear.
fn declare<'a>(
    seen: &mut BTreeSet<&'a [u16]>,
    name: &'a Identifier,
    found: &mut Option<u32>,
) -> Result<(), NoMemory>
    ensures { OnOk result (Declares seen.old seen.new found.old found.new name.now) }
{
    if !seen.insert(name.name.as_slice())? {
        note(found, name.site);
    }
    Ok(())
}

/// The names that stand behind an equal one.
pub fn in_scope(alloc: Global, names: &Names, found: &mut Option<u32>) -> Result<(), NoMemory>
    ensures { OnOk result (found.new ≡ least_with found.old (scope names.now)) }
{
    let mut seen = BTreeSet::new(alloc);
    for name in names.items.as_slice() {
        declare(&mut seen, name, found)?;
    }
    Ok(())
}

#[tactic(auto, unfolding(crate::specs::Early::global_place, crate::specs::Parts::least_with))]
fn in_global(name: &Identifier, found: &mut Option<u32>)
    ensures { found.new ≡ least_with found.old (global_place name.now) }
{
    if is_global(name) {
        note(found, name.site);
    }
}

/// The names that hide what the whole script can read.
#[tactic(auto, using(crate::proofs::Least::parts))]
pub fn in_globals(names: &Names, found: &mut Option<u32>)
    ensures { found.new ≡ least_with found.old (globals_in names.now) }
{
    for name in names.items.as_slice() {
        in_global(name, found);
    }
}
