//! Statements in few characters.

use super::printing::Printer;
use js_ast::{Arm, Catch, DeclarationKind, Declarator, Expr, Identifier, LoopHead, Stmt};
use sqlite_items::{Boxed, Items};

fn kind(kind: DeclarationKind) -> &'static str {
    match kind {
        DeclarationKind::Let => "let",
        DeclarationKind::Const => "const",
    }
}

fn declarators<'a>(
    out: &mut Printer<'a>,
    of: DeclarationKind,
    items: &'a Items<Declarator<Boxed<Expr>>>,
) {
    out.text(kind(of));
    for item in items.as_slice() {
        out.text(" ");
        out.units(&item.name.name);
        match &item.value {
            Some(value) => {
                out.text("=");
                out.expression(value);
            }
            None => {}
        }
    }
}

fn arms<'a>(out: &mut Printer<'a>, items: &'a Items<Arm>) {
    let mut before = "if(";
    for arm in items.as_slice() {
        out.text(before);
        tested(out, &arm.test, &arm.consequent);
        before = " elif(";
    }
}

fn optional<'a>(out: &mut Printer<'a>, value: &'a Option<Boxed<Expr>>) {
    match value {
        Some(value) => out.expression(value),
        None => {}
    }
}

/// Behind `(`.
fn tested<'a>(out: &mut Printer<'a>, test: &'a Boxed<Expr>, body: &'a Boxed<Stmt>) {
    out.expression(test);
    out.text(")");
    out.statement(body.get());
}

fn head<'a>(out: &mut Printer<'a>, head: &'a LoopHead<Boxed<Expr>>) {
    match head {
        LoopHead::Nothing => {}
        LoopHead::Value(value) => out.expression(value),
        LoopHead::Declare {
            kind,
            declarators: items,
        } => declarators(out, *kind, items),
    }
}

fn items_of<'a>(
    out: &mut Printer<'a>,
    of: DeclarationKind,
    name: &'a Identifier,
    items: &'a Boxed<Expr>,
    body: &'a Boxed<Stmt>,
) {
    out.text(kind(of));
    out.text(" ");
    out.units(&name.name);
    out.text(" of ");
    tested(out, items, body);
}

fn loops<'a>(out: &mut Printer<'a>, value: &'a Stmt) {
    match value {
        Stmt::While { test, body, .. } => {
            out.text("while(");
            tested(out, test, body);
        }
        Stmt::Do { body, test, .. } => {
            out.text("do ");
            out.statement(body.get());
            out.text(" while(");
            out.expression(test);
            out.text(")");
        }
        Stmt::For {
            head: first,
            test,
            update,
            body,
            ..
        } => {
            out.text("for(");
            head(out, first);
            out.text(";");
            optional(out, test);
            out.text(";");
            optional(out, update);
            out.text(")");
            out.statement(body.get());
        }
        Stmt::ForOf {
            kind: of,
            name,
            items,
            body,
            ..
        } => {
            out.text("for(");
            items_of(out, *of, name, items, body);
        }
        _ => out.text("unknown"),
    }
}

fn caught<'a>(out: &mut Printer<'a>, catch: &'a Catch<Items<Stmt>>) {
    out.text("catch");
    match &catch.name {
        Some(name) => {
            out.text("(");
            out.units(&name.name);
            out.text(")");
        }
        None => {}
    }
    out.block(&catch.body);
}

fn tried<'a>(
    out: &mut Printer<'a>,
    body: &'a Items<Stmt>,
    catch: &'a Option<Catch<Items<Stmt>>>,
    finally: &'a Option<Items<Stmt>>,
) {
    out.text("try");
    out.block(body);
    match catch {
        Some(catch) => caught(out, catch),
        None => {}
    }
    match finally {
        Some(finally) => {
            out.text("finally");
            out.block(finally);
        }
        None => {}
    }
}

fn others<'a>(out: &mut Printer<'a>, value: &'a Stmt) {
    match value {
        Stmt::If {
            arms: items,
            alternate,
        } => {
            arms(out, items);
            match alternate {
                Some(other) => {
                    out.text(" else ");
                    out.statement(other.get());
                }
                None => {}
            }
        }
        Stmt::Try {
            body,
            catch,
            finally,
            ..
        } => tried(out, body, catch, finally),
        value => loops(out, value),
    }
}

pub fn statement<'a>(out: &mut Printer<'a>, value: &'a Stmt) {
    match value {
        Stmt::Block { body, .. } => out.block(body),
        Stmt::Nothing { .. } => out.text(";"),
        Stmt::Declare {
            kind,
            declarators: items,
            ..
        } => declarators(out, *kind, items),
        Stmt::Function {
            name,
            parameters,
            body,
            ..
        } => {
            out.text("function ");
            out.units(&name.name);
            out.names(parameters);
            out.block(body);
        }
        Stmt::Express { value, .. } => out.expression(value),
        Stmt::Break { .. } => out.text("break"),
        Stmt::Continue { .. } => out.text("continue"),
        Stmt::Return { value, .. } => {
            out.text("return ");
            optional(out, value);
        }
        Stmt::Throw { value, .. } => {
            out.text("throw ");
            out.expression(value);
        }
        value => others(out, value),
    }
}
