//! Early names in statements.

ghost use Rattle.std.specs.Prelude.{◌≡◌, [], ◌++◌, ◌+◌, OnOk};
ghost use Rattle.js_early.specs.Early.{stmt_found, scope, names_of};
ghost use Rattle.js_early.specs.Parts.{least_with, arms_places, alternate_places, head_places, catch_places, last_places, stmts_places, body_places, declared_in};
ghost use Rattle.js_early.specs.Weight.{stmt_below, stmts_weight, arms_weight, alternate_weight, head_weight, catch_weight, last_weight};

use crate::parts::{in_declarators, in_optional};
use crate::scopes::Names;
use crate::search::Search;
use js_ast::{Arm, Catch, Declarator, Expr, Identifier, LoopHead, Stmt};
use js_units::NoMemory;
use sqlite_items::{Boxed, Items};
use std::alloc::Global;

/// The names that a body declares, behind those that its scope has already.
fn in_names(
    alloc: Global,
    outer: &[Identifier],
    body: &[Stmt],
    search: &mut Search<'_>,
) -> Result<(), NoMemory>
    ensures least { OnOk result (search.new.least ≡ least_with search.old.least (scope (outer.now ++ declared_in body.now))) }
    ensures weight { OnOk result (search.new.weight ≡ search.old.weight) }
{
    let mut names = Names::new(alloc);
    names.push_all(outer)?;
    names.push_body(body)?;
    search.names(alloc, &names)
}

/// The names that the head of a loop declares.
fn in_declared(
    alloc: Global,
    declarators: &[Declarator<Boxed<Expr>>],
    search: &mut Search<'_>,
) -> Result<(), NoMemory>
    ensures least { OnOk result (search.new.least ≡ least_with search.old.least (scope (names_of declarators.now))) }
    ensures weight { OnOk result (search.new.weight ≡ search.old.weight) }
{
    let mut names = Names::new(alloc);
    names.push_declared(declarators)?;
    search.names(alloc, &names)
}

/// The statements of a scope.
#[tactic(auto, using(crate::proofs::Turns::turns))]
pub fn in_stmts<'a>(body: &'a [Stmt], search: &mut Search<'a>) -> Result<(), NoMemory>
    ensures least { OnOk result (search.new.least ≡ least_with search.old.least (stmts_places body.now)) }
    ensures weight { OnOk result (search.new.weight ≡ search.old.weight + stmts_weight body.now) }
{
    for stmt in body {
        search.statement(stmt)?;
    }
    Ok(())
}

/// Statements with a scope of their own, in which the outer names are declared already.
#[tactic(auto, using(crate::proofs::Least::parts))]
pub fn in_body<'a>(
    alloc: Global,
    outer: &[Identifier],
    body: &'a [Stmt],
    search: &mut Search<'a>,
) -> Result<(), NoMemory>
    ensures least { OnOk result (search.new.least ≡ least_with search.old.least (body_places outer.now body.now)) }
    ensures weight { OnOk result (search.new.weight ≡ search.old.weight + stmts_weight body.now) }
{
    in_names(alloc, outer, body, search)?;
    in_stmts(body, search)
}

#[tactic(auto, using(crate::proofs::Least::parts))]
fn in_head<'a>(
    alloc: Global,
    head: &'a LoopHead<Boxed<Expr>>,
    search: &mut Search<'a>,
) -> Result<(), NoMemory>
    ensures least { OnOk result (search.new.least ≡ least_with search.old.least (head_places head.now)) }
    ensures weight { OnOk result (search.new.weight ≡ search.old.weight + head_weight head.now) }
{
    match head {
        LoopHead::Nothing => Ok(()),
        LoopHead::Value(value) => search.expression(value.get()),
        LoopHead::Declare { declarators, .. } => {
            in_declared(alloc, declarators.as_slice(), search)?;
            in_declarators(declarators.as_slice(), search)
        }
    }
}

#[tactic(auto, using(crate::proofs::Turns::turns))]
fn in_arms<'a>(arms: &'a [Arm], search: &mut Search<'a>) -> Result<(), NoMemory>
    ensures least { OnOk result (search.new.least ≡ least_with search.old.least (arms_places arms.now)) }
    ensures weight { OnOk result (search.new.weight ≡ search.old.weight + arms_weight arms.now) }
{
    for arm in arms {
        search.expression(arm.test.get())?;
        search.statement(arm.consequent.get())?;
    }
    Ok(())
}

#[tactic(auto, using(crate::proofs::Least::parts))]
fn in_alternate<'a>(
    alternate: &'a Option<Boxed<Stmt>>,
    search: &mut Search<'a>,
) -> Result<(), NoMemory>
    ensures least { OnOk result (search.new.least ≡ least_with search.old.least (alternate_places alternate.now)) }
    ensures weight { OnOk result (search.new.weight ≡ search.old.weight + alternate_weight alternate.now) }
{
    match alternate {
        None => Ok(()),
        Some(stmt) => search.statement(stmt.get()),
    }
}

#[tactic(auto, using(crate::proofs::Least::parts))]
fn in_catch<'a>(
    alloc: Global,
    catch: &'a Option<Catch<Items<Stmt>>>,
    search: &mut Search<'a>,
) -> Result<(), NoMemory>
    ensures least { OnOk result (search.new.least ≡ least_with search.old.least (catch_places catch.now)) }
    ensures weight { OnOk result (search.new.weight ≡ search.old.weight + catch_weight catch.now) }
{
    match catch {
        None => Ok(()),
        Some(handler) => in_body(
            alloc,
            handler.name.as_slice(),
            handler.body.as_slice(),
            search,
        ),
    }
}

#[tactic(auto, using(crate::proofs::Least::parts))]
fn in_last<'a>(
    alloc: Global,
    last: &'a Option<Items<Stmt>>,
    search: &mut Search<'a>,
) -> Result<(), NoMemory>
    ensures least { OnOk result (search.new.least ≡ least_with search.old.least (last_places last.now)) }
    ensures weight { OnOk result (search.new.weight ≡ search.old.weight + last_weight last.now) }
{
    match last {
        None => Ok(()),
        Some(body) => in_body(alloc, &[], body.as_slice(), search),
    }
}

/// The early names of a statement's own scopes, and the trees directly below it.
#[tactic(auto, using(crate::proofs::Opens::stmt_steps, crate::proofs::Weighs::stmt_belows))]
pub fn in_stmt<'a>(alloc: Global, stmt: &'a Stmt, search: &mut Search<'a>) -> Result<(), NoMemory>
    ensures least { OnOk result (search.new.least ≡ least_with search.old.least ((stmt_found stmt.now).places)) }
    ensures weight { OnOk result (search.new.weight ≡ search.old.weight + stmt_below stmt.now) }
{
    match stmt {
        Stmt::Nothing { .. } | Stmt::Break { .. } | Stmt::Continue { .. } => Ok(()),
        Stmt::Block { body, .. } => in_body(alloc, &[], body.as_slice(), search),
        Stmt::Declare { declarators, .. } => in_declarators(declarators.as_slice(), search),
        Stmt::Function {
            parameters,
            body,
            ..
        } => in_body(alloc, parameters.as_slice(), body.as_slice(), search),
        Stmt::Express { value, .. } => search.expression(value.get()),
        Stmt::If { arms, alternate } => {
            in_arms(arms.as_slice(), search)?;
            in_alternate(alternate, search)
        }
        Stmt::While { test, body, .. } => {
            search.expression(test.get())?;
            search.statement(body.get())
        }
        Stmt::Do { body, test, .. } => {
            search.statement(body.get())?;
            search.expression(test.get())
        }
        Stmt::For {
            head,
            test,
            update,
            body,
            ..
        } => {
            in_head(alloc, head, search)?;
            in_optional(test, search)?;
            in_optional(update, search)?;
            search.statement(body.get())
        }
        Stmt::ForOf { items, body, .. } => {
            search.expression(items.get())?;
            search.statement(body.get())
        }
        Stmt::Return { value, .. } => in_optional(value, search),
        Stmt::Throw { value, .. } => search.expression(value.get()),
        Stmt::Try {
            body,
            catch,
            finally,
            ..
        } => {
            in_body(alloc, &[], body.as_slice(), search)?;
            in_catch(alloc, catch, search)?;
            in_last(alloc, finally, search)
        }
    }
}
