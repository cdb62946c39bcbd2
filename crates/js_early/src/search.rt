//! The search of a script's trees, one by one.

ghost use Rattle.std.specs.Prelude.{◌≡◌, ◌+◌, [], IfOk, IfErr, OnOk};
ghost use Rattle.js_early.specs.Early.{scope, stmt_found};
ghost use Rattle.js_early.specs.Parts.{least_with, expr_places};
ghost use Rattle.js_early.specs.Weight.{expr_weight, stmt_weight};
ghost use Rattle.js_early.specs.Search.{known, tree_places, tree_weight};

use crate::scopes::{Names, in_scope};
use crate::tree::Tree;
use js_ast::{Expr, Stmt};
use js_units::NoMemory;
use std::alloc::Global;
use std::marker::Model;

/// The least place that is known, and the trees that are still to be searched. Contracts see the least place that all of
/// them will have given, and the weight of what is left.
#[derive(Drop)]
pub struct Search<'a> {
    found: Option<u32>,
    left: Vec<Tree<'a>>,
}

impl<'a> Model for Search<'a> {
    ghost use Rattle.js_early.specs.Search.{Known, known};

    ghost Value = { Known };

    ghost view = { λ s. known s.found s.left.items };
}

impl<'a> Search<'a> {
    pub fn new(alloc: Global, found: Option<u32>) -> Search<'a>
        ensures { result ≡ known found [] }
    {
        Search {
            found,
            left: Vec::new(alloc),
        }
    }

    #[tactic(auto, using(crate::proofs::Turns::pushed))]
    pub fn expression(&mut self, expr: &'a Expr) -> Result<(), NoMemory>
        ensures least { OnOk result (self.new.least ≡ least_with self.old.least (expr_places expr.now)) }
        ensures weight { OnOk result (self.new.weight ≡ self.old.weight + expr_weight expr.now) }
    {
        self.left.push(Tree::Expression(expr))?;
        Ok(())
    }

    #[tactic(auto, using(crate::proofs::Turns::pushed))]
    pub fn statement(&mut self, stmt: &'a Stmt) -> Result<(), NoMemory>
        ensures least { OnOk result (self.new.least ≡ least_with self.old.least (stmt_found stmt.now).places) }
        ensures weight { OnOk result (self.new.weight ≡ self.old.weight + stmt_weight stmt.now) }
    {
        self.left.push(Tree::Statement(stmt))?;
        Ok(())
    }

    /// The names of one scope.
    pub fn names(&mut self, alloc: Global, names: &Names) -> Result<(), NoMemory>
        ensures least { OnOk result (self.new.least ≡ least_with self.old.least (scope names.now)) }
        ensures weight { OnOk result (self.new.weight ≡ self.old.weight) }
    {
        in_scope(alloc, names, &mut self.found)?;
        Ok(())
    }

    /// The next tree, or the least place where none is left.
    #[tactic(auto, using(crate::proofs::Turns::pushed))]
    pub fn next(&mut self) -> Result<Tree<'a>, Option<u32>>
        ensures least { IfOk result (λ tree. self.old.least ≡ least_with self.new.least (tree_places tree)) }
        ensures weight { IfOk result (λ tree. self.old.weight ≡ self.new.weight + tree_weight tree) }
        ensures found { IfErr result (λ found. found ≡ self.old.least) }
    {
        match self.left.pop() {
            Some(tree) => Ok(tree),
            None => Err(self.found),
        }
    }
}
