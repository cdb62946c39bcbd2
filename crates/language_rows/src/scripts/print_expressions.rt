//! Expressions in few characters.

use super::printing::Printer;
use js_ast::{
    Access, BinaryOp, Expr, Identifier, Key, LogicalOp, Member, StepOp, Suffix, Target, UnaryOp,
};
use sqlite_items::{Boxed, Items};

fn binary(op: BinaryOp) -> &'static str {
    match op {
        BinaryOp::Multiply => "*",
        BinaryOp::Divide => "/",
        BinaryOp::Remainder => "%",
        BinaryOp::Add => "+",
        BinaryOp::Subtract => "-",
        BinaryOp::ShiftLeft => "<<",
        BinaryOp::ShiftRight => ">>",
        BinaryOp::ShiftRightZero => ">>>",
        BinaryOp::Less => "<",
        BinaryOp::Greater => ">",
        BinaryOp::LessEqual => "<=",
        BinaryOp::GreaterEqual => ">=",
        BinaryOp::Equal => "===",
        BinaryOp::NotEqual => "!==",
        BinaryOp::BitAnd => "&",
        BinaryOp::BitXor => "^",
        BinaryOp::BitOr => "|",
    }
}

fn unary(op: UnaryOp) -> &'static str {
    match op {
        UnaryOp::Plus => "+",
        UnaryOp::Minus => "-",
        UnaryOp::Not => "!",
        UnaryOp::Complement => "~",
        UnaryOp::TypeOf => "typeof",
    }
}

fn step(op: StepOp) -> &'static str {
    match op {
        StepOp::Increment => "++",
        StepOp::Decrement => "--",
    }
}

fn logical(op: LogicalOp) -> &'static str {
    match op {
        LogicalOp::And => "&&",
        LogicalOp::Or => "||",
        LogicalOp::Coalesce => "??",
    }
}

fn access<'a>(out: &mut Printer<'a>, access: &'a Access<Boxed<Expr>>) {
    match access {
        Access::Property { name, .. } => {
            out.text(".");
            out.units(name);
        }
        Access::Index { is_static, key, .. } => {
            out.text(if *is_static { "[!" } else { "[" });
            out.expression(key);
            out.text("]");
        }
    }
}

fn arguments<'a>(out: &mut Printer<'a>, items: &'a Items<Boxed<Expr>>) {
    out.text("(");
    out.expressions(items);
    out.text(")");
}

fn suffixes<'a>(out: &mut Printer<'a>, suffixes: &'a Items<Suffix<Boxed<Expr>>>) {
    for suffix in suffixes.as_slice() {
        match suffix {
            Suffix::Access(last) => access(out, last),
            Suffix::Call {
                arguments: items,
                ..
            } => arguments(out, items),
        }
    }
}

fn target<'a>(out: &mut Printer<'a>, target: &'a Target<Boxed<Expr>>) {
    match target {
        Target::Name(name) => out.units(&name.name),
        Target::Access { base, access: last } => {
            out.text("<");
            out.expression(base);
            access(out, last);
            out.text(">");
        }
    }
}

fn member<'a>(out: &mut Printer<'a>, member: &'a Member<Boxed<Expr>>) {
    match member {
        Member::Value { key, value, .. } => {
            match key {
                Key::Text(text) => out.units(text),
                Key::Number(number) => {
                    out.text("#");
                    out.number(*number);
                }
            }
            out.text(":");
            out.expression(value);
        }
        Member::Shorthand(name) => out.units(&name.name),
    }
}

fn members<'a>(out: &mut Printer<'a>, members: &'a Items<Member<Boxed<Expr>>>) {
    out.text("{");
    let mut before = "";
    for one in members.as_slice() {
        out.text(before);
        member(out, one);
        before = " ";
    }
    out.text("}");
}

fn stepped<'a>(out: &mut Printer<'a>, op: StepOp, is_prefix: bool, of: &'a Target<Boxed<Expr>>) {
    if is_prefix {
        out.text(step(op));
        out.text(" ");
        target(out, of);
    } else {
        target(out, of);
        out.text(" ");
        out.text(step(op));
    }
}

fn marked<'a>(out: &mut Printer<'a>, mark: &'static str, right: &'a Boxed<Expr>) {
    out.text(" ");
    out.text(mark);
    out.text(" ");
    out.expression(right);
}

fn assigned<'a>(
    out: &mut Printer<'a>,
    op: Option<BinaryOp>,
    of: &'a Target<Boxed<Expr>>,
    value: &'a Boxed<Expr>,
) {
    target(out, of);
    out.text(" ");
    match op {
        Some(op) => out.text(binary(op)),
        None => {}
    }
    out.text("= ");
    out.expression(value);
}

fn operators<'a>(out: &mut Printer<'a>, value: &'a Expr) {
    out.text("(");
    match value {
        Expr::Unary { op, operand, .. } => {
            out.text(unary(*op));
            out.text(" ");
            out.expression(operand);
        }
        Expr::Step {
            op,
            is_prefix,
            target: of,
            ..
        } => stepped(out, *op, *is_prefix, of),
        Expr::Binary { first, links } => {
            out.expression(first);
            for link in links.as_slice() {
                marked(out, binary(link.op), &link.right);
            }
        }
        Expr::Logical { first, links } => {
            out.expression(first);
            for link in links.as_slice() {
                marked(out, logical(link.op), &link.right);
            }
        }
        Expr::Conditional {
            test,
            consequent,
            alternate,
            ..
        } => {
            out.expression(test);
            marked(out, "?", consequent);
            marked(out, ":", alternate);
        }
        Expr::Assign {
            op,
            target: of,
            value,
            ..
        } => assigned(out, *op, of, value),
        _ => out.text("unknown"),
    }
    out.text(")");
}

fn named<'a>(out: &mut Printer<'a>, name: &'a Option<Identifier>) {
    match name {
        Some(name) => {
            out.text(" ");
            out.units(&name.name);
        }
        None => {}
    }
}

fn functions<'a>(out: &mut Printer<'a>, value: &'a Expr) {
    match value {
        Expr::FunctionExpression {
            name,
            parameters,
            body,
            ..
        } => {
            out.text("fn");
            named(out, name);
            out.names(parameters);
            out.block(body);
        }
        Expr::Arrow {
            parameters,
            value,
            ..
        } => {
            out.names(parameters);
            out.text("=>");
            out.expression(value);
        }
        Expr::ArrowBlock {
            parameters,
            body,
            ..
        } => {
            out.names(parameters);
            out.text("=>");
            out.block(body);
        }
        value => operators(out, value),
    }
}

pub fn expression<'a>(out: &mut Printer<'a>, value: &'a Expr) {
    match value {
        Expr::Name(name) => out.units(&name.name),
        Expr::Number { value, .. } => out.number(*value),
        Expr::Text { value, .. } => {
            out.text("'");
            out.units(value);
            out.text("'");
        }
        Expr::Null { .. } => out.text("null"),
        Expr::True { .. } => out.text("true"),
        Expr::False { .. } => out.text("false"),
        Expr::This { .. } => out.text("this"),
        Expr::Array { items, .. } => {
            out.text("[");
            out.expressions(items);
            out.text("]");
        }
        Expr::Object { members: of, .. } => members(out, of),
        Expr::New {
            name,
            arguments: items,
            ..
        } => {
            out.text("new ");
            out.units(&name.name);
            arguments(out, items);
        }
        Expr::Call {
            first,
            suffixes: behind,
        } => {
            out.text("<");
            out.expression(first);
            suffixes(out, behind);
            out.text(">");
        }
        value => functions(out, value),
    }
}
