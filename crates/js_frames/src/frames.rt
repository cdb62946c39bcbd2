//! The control stack, and what the machine does next.

ghost use Rattle.std.specs.Prelude.{◌≡◌, ◌∷◌, [], OnOk, OnErr, MatchOption, length};

use crate::loops::{DoLoop, ForLoop, OfLoop, WhileLoop};
use crate::parts::{Gathered, Goal, Part};
use js_ast::{Access, Catch, Declarator, Expr, Stmt, Suffix};
use js_state::{Completion, Scope};
use js_units::NoMemory;
use sqlite_items::{Boxed, Items};
use std::alloc::Global;
use std::marker::Model;

/// What waits for a part of the script.
#[derive(Drop)]
pub enum Frame<'a> {
    Awaits(Part<'a>),
    /// Suffixes behind what a chain has come to.
    Chain {
        suffixes: &'a [Suffix<Boxed<Expr>>],
        scope: Scope,
    },
    /// The base of a target.
    TargetBase {
        access: &'a Access<Boxed<Expr>>,
        goal: Goal<'a>,
        scope: Scope,
    },
    /// The body of a function.
    Called,
    WhileBody(WhileLoop<'a>),
    DoBody(DoLoop<'a>),
    ForBody(ForLoop<'a>, Scope),
    /// The body of a for-of, and the place of its next item.
    OfBody(OfLoop<'a>, usize),
    /// A statement before others.
    Rest {
        body: &'a [Stmt],
        scope: Scope,
    },
    /// What the head of a `for` declares.
    ForDeclared(ForLoop<'a>, Scope),
    /// The block of a `try`.
    Catching {
        catch: &'a Option<Catch<Items<Stmt>>>,
        scope: Scope,
    },
    /// The `try` and its `catch`.
    Finishing {
        finally: &'a Option<Items<Stmt>>,
        scope: Scope,
    },
    /// A `finally`, and how the `try` and its `catch` ended.
    Kept(Completion),
}

/// The frames, which contracts see as a list, the top first.
#[derive(Drop)]
pub struct Frames<'a> {
    list: Vec<Frame<'a>>,
}

impl<'a> Model for Frames<'a> {
    ghost use Rattle.std.specs.Prelude.{List, reverse};
    ghost use Rattle.js_frames.specs.declared.frames.Frame.{Frame};
    ghost use Rattle.js_ast.specs.contracts.expression.Expr as e;
    ghost use Rattle.js_ast.specs.contracts.statement.Stmt as s;
    ghost use Rattle.js_ast.specs.contracts.statement.Arm as a;
    ghost use Rattle.std.specs.Coded.{codes};

    ghost Value = { List Frame };

    ghost coded = { Prim.hlevel (codes, e.the_row.coded, s.the_row.coded, a.the_row.coded) };

    ghost view = { λ s. reverse s.list.items };
}

impl<'a> Frames<'a> {
    /// No frames. Takes no memory.
    pub fn new(alloc: Global) -> Frames<'a>
        ensures { result ≡ [] }
    {
        Frames {
            list: Vec::new(alloc),
        }
    }

    /// Puts a frame on top. A refused call changes nothing.
    #[inline(always)]
    pub fn push(&mut self, frame: Frame<'a>) -> Result<(), NoMemory>
        ensures ok { OnOk result (self.new ≡ frame.entry ∷ self.old) }
        ensures err { OnErr result (self.new ≡ self.old) }
    {
        self.list.push(frame)?;
        Ok(())
    }

    /// Takes the top frame, None exactly where there is none. Takes no memory.
    #[inline(always)]
    pub fn pop(&mut self) -> Option<Frame<'a>>
        ensures { MatchOption result ((self.old ≡ []) × (self.new ≡ [])) (λ frame. self.old ≡ frame ∷ self.new) }
    {
        self.list.pop()
    }

    /// How many frames there are.
    pub fn depth(&self) -> usize
        ensures { result ≡ length self.now }
    {
        self.list.len()
    }
}

/// What the machine does next.
#[derive(Drop)]
pub enum Work<'a> {
    /// An expression is begun.
    Eval(&'a Boxed<Expr>, Scope),
    /// A statement is begun.
    Exec(&'a Stmt, Scope),
    /// A block is entered.
    Enter(&'a [Stmt], Scope),
    /// Names are declared.
    Declare(&'a [Declarator<Boxed<Expr>>], Scope),
    /// Arguments are there.
    Invoke(Boxed<Gathered<'a>>),
    /// A part has ended.
    Give(Completion),
}
