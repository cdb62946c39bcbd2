//! Operators (ECMA-262, sections 13.5 to 13.14).

ghost use Rattle.std.specs.Prelude.{◌≡◌, ◌≤◌, ◌<◌, ◌+◌, ◌*◌, length, IfOk, true, false};
ghost use Rattle.term_table.specs.Fitting.{Fits};
ghost use Rattle.term_table.specs.Views.{View, at as seen_at};
ghost use Rattle.js_ast.specs.declared.expression.Expr.TheVariants.{Unary, Conditional};
ghost use Rattle.js_ast.specs.declared.parts.Link.{Link as SpecLink};
ghost use Rattle.js_meaning.specs.Operators.{goes_on as going_on};
ghost use Rattle.js_frames.specs.Credit.{Earns, credits, credit_of_work};
ghost use Rattle.js_frames.specs.Fitting.{FitFrames, FitAll};
ghost use Rattle.js_frames.specs.Machine.{Evals, Continues};
ghost use Rattle.js_frames.specs.Weight.{Falls, cost_of_work};
ghost use Rattle.js_frames.specs.declared.parts.Part.TheVariants.{Operand, LinksLeft, LinkRight, LogicalLeft, ConditionalTest};

use js_ast::{BinaryOp, Expr, Link, LogicalOp, UnaryOp};
use js_frames::{Frame, Frames, Part, Work};
use js_state::{Completion, Scope, State, cut};
use js_units::NoMemory;
use path_core::Budget;
use sqlite_items::Boxed;
use term_table::Shadow;

/// An operator before an expression is begun.
pub(crate) fn unary<'a>(
    state: &mut State<'a>,
    frames: &mut Frames<'a>,
    site: u32,
    op: UnaryOp,
    operand: &'a Boxed<Expr>,
    scope: Scope,
) -> Result<Work<'a>, NoMemory>
    requires { FitFrames state.old frames.old }
    ensures leads { IfOk result (λ next. Evals state.old frames.old (Unary site op operand.entry.now) scope state.new frames.new next) }
    ensures falls { IfOk result (λ next. Falls state.old frames.old 1 state.new frames.new (cost_of_work next)) }
    ensures earns { IfOk result (λ next. Earns state.old state.new (credits frames.old) (credits frames.new + credit_of_work next)) }
    ensures fits { IfOk result (λ next. FitAll state.new frames.new next) }
{
    if !state.count() {
        return Ok(Work::Give(cut(site, Budget::Nodes)));
    }
    frames.push(Frame::Awaits(Part::Operand { site, op }))?;
    Ok(Work::Eval(operand, scope))
}

/// The operand has its value.
pub fn operand<'a>(
    state: &mut State<'a>,
    frames: &Frames<'a>,
    site: u32,
    op: UnaryOp,
    value: Shadow,
) -> Result<Work<'a>, NoMemory>
    requires frames { FitFrames state.old frames.now }
    requires value { Fits state.old.table value }
    ensures leads { IfOk result (λ next. Continues state.old frames.now (Operand site op) value state.new frames.now next) }
    ensures falls { IfOk result (λ next. Falls state.old frames.now 15 state.new frames.now (cost_of_work next)) }
    ensures earns { IfOk result (λ next. Earns state.old state.new (credits frames.now + 15) (credits frames.now + credit_of_work next)) }
    ensures fits { IfOk result (λ next. FitAll state.new frames.now next) }
{
    let completion = state.unary(site, op, &value)?;
    Ok(Work::Give(completion))
}

/// The next operator of a chain, behind the value of what stands before it.
pub fn link<'a>(
    state: &mut State<'a>,
    frames: &mut Frames<'a>,
    links: &'a [Link<BinaryOp, Boxed<Expr>>],
    scope: Scope,
    value: Shadow,
) -> Result<Work<'a>, NoMemory>
    requires frames { FitFrames state.old frames.old }
    requires value { Fits state.old.table value }
    ensures leads { IfOk result (λ next. Continues state.old frames.old (LinksLeft links.entry scope) value state.new frames.new next) }
    ensures falls { 1 ≤ length links.entry.now → IfOk result (λ next. Falls state.old frames.old 3 state.new frames.new (cost_of_work next)) }
    ensures earns { IfOk result (λ next. Earns state.old state.new (credits frames.old + 7) (credits frames.new + credit_of_work next)) }
    ensures fits { IfOk result (λ next. FitAll state.new frames.new next) }
{
    match links {
        [] => Ok(Work::Give(Completion::Value(value))),
        [first, rest @ ..] => {
            if !state.count() {
                drop(value);
                return Ok(Work::Give(cut(first.site, Budget::Nodes)));
            }
            frames.push(Frame::Awaits(Part::LinkRight {
                site: first.site,
                op: first.op,
                left: value,
                links: rest,
                scope,
            }))?;
            Ok(Work::Eval(&first.right, scope))
        }
    }
}

/// Both sides of an operator have their values.
pub fn operate<'a>(
    state: &mut State<'a>,
    frames: &mut Frames<'a>,
    site: u32,
    op: BinaryOp,
    left: Shadow,
    links: &'a [Link<BinaryOp, Boxed<Expr>>],
    scope: Scope,
    right: Shadow,
) -> Result<Work<'a>, NoMemory>
    requires frames { FitFrames state.old frames.old }
    requires left { Fits state.old.table left }
    requires right { Fits state.old.table right }
    ensures leads { IfOk result (λ next. Continues state.old frames.old (LinkRight site op left links.entry scope) right state.new frames.new next) }
    ensures falls { IfOk result (λ next. Falls state.old frames.old 17 state.new frames.new (cost_of_work next)) }
    ensures earns { IfOk result (λ next. Earns state.old state.new (credits frames.old + 22) (credits frames.new + credit_of_work next)) }
    ensures fits { IfOk result (λ next. FitAll state.new frames.new next) }
{
    let completion = state.operate(site, op, &left, &right)?;
    frames.push(Frame::Awaits(Part::LinksLeft { links, scope }))?;
    Ok(Work::Give(completion))
}

/// Whether the right side of the operator is looked at.
fn goes_on(op: LogicalOp, holds: bool) -> bool
    ensures { result ≡ going_on op holds }
{
    match op {
        LogicalOp::And => holds,
        LogicalOp::Or => !holds,
        LogicalOp::Coalesce => holds,
    }
}

/// The next `&&`, `||` or `??` of a chain, behind the value of what stands before it.
pub fn logical<'a>(
    state: &mut State<'a>,
    frames: &mut Frames<'a>,
    links: &'a [Link<LogicalOp, Boxed<Expr>>],
    scope: Scope,
    value: Shadow,
) -> Result<Work<'a>, NoMemory>
    requires frames { FitFrames state.old frames.old }
    requires value { Fits state.old.table value }
    ensures leads { IfOk result (λ next. Continues state.old frames.old (LogicalLeft links.entry scope) value state.new frames.new next) }
    ensures falls { 1 ≤ length links.entry.now → IfOk result (λ next. Falls state.old frames.old 3 state.new frames.new (cost_of_work next)) }
    ensures earns { IfOk result (λ next. Earns state.old state.new (credits frames.old + 7) (credits frames.new + credit_of_work next)) }
    ensures fits { IfOk result (λ next. FitAll state.new frames.new next) }
{
    match links {
        [] => Ok(Work::Give(Completion::Value(value))),
        [first, rest @ ..] => {
            if !state.count() {
                drop(value);
                return Ok(Work::Give(cut(first.site, Budget::Nodes)));
            }
            let told = state.decide(first.site, first.op, &value)?;
            let holds = match told {
                Ok(holds) => holds,
                Err(completion) => {
                    drop(value);
                    return Ok(Work::Give(completion));
                }
            };
            frames.push(Frame::Awaits(Part::LogicalLeft { links: rest, scope }))?;
            if !goes_on(first.op, holds) {
                return Ok(Work::Give(Completion::Value(value)));
            }
            drop(value);
            Ok(Work::Eval(&first.right, scope))
        }
    }
}

/// `?:` is begun, at the start of its test.
pub(crate) fn conditional<'a>(
    state: &mut State<'a>,
    frames: &mut Frames<'a>,
    start: u32,
    site: u32,
    test: &'a Boxed<Expr>,
    consequent: &'a Boxed<Expr>,
    alternate: &'a Boxed<Expr>,
    scope: Scope,
) -> Result<Work<'a>, NoMemory>
    requires { FitFrames state.old frames.old }
    ensures leads { IfOk result (λ next. Evals state.old frames.old (Conditional start site test.entry.now consequent.entry.now alternate.entry.now) scope state.new frames.new next) }
    ensures falls { IfOk result (λ next. Falls state.old frames.old 1 state.new frames.new (cost_of_work next)) }
    ensures earns { IfOk result (λ next. Earns state.old state.new (credits frames.old) (credits frames.new + credit_of_work next)) }
    ensures fits { IfOk result (λ next. FitAll state.new frames.new next) }
{
    if !state.count() {
        return Ok(Work::Give(cut(start, Budget::Nodes)));
    }
    frames.push(Frame::Awaits(Part::ConditionalTest {
        site,
        consequent,
        alternate,
        scope,
    }))?;
    Ok(Work::Eval(test, scope))
}

/// The test of `?:` has its value.
pub fn choose<'a>(
    state: &mut State<'a>,
    frames: &mut Frames<'a>,
    site: u32,
    consequent: &'a Boxed<Expr>,
    alternate: &'a Boxed<Expr>,
    scope: Scope,
    value: Shadow,
) -> Result<Work<'a>, NoMemory>
    requires frames { FitFrames state.old frames.old }
    requires value { Fits state.old.table value }
    ensures leads { IfOk result (λ next. Continues state.old frames.old (ConditionalTest site consequent.entry alternate.entry scope) value state.new frames.new next) }
    ensures falls { IfOk result (λ next. Falls state.old frames.old 15 state.new frames.new (cost_of_work next)) }
    ensures earns { IfOk result (λ next. Earns state.old state.new (credits frames.old + 7) (credits frames.new + credit_of_work next)) }
    ensures fits { IfOk result (λ next. FitAll state.new frames.new next) }
{
    let told = state.test(site, &value)?;
    drop(value);
    let holds = match told {
        Ok(holds) => holds,
        Err(completion) => return Ok(Work::Give(completion)),
    };
    frames.push(Frame::Awaits(Part::ItsValue))?;
    if holds {
        return Ok(Work::Eval(consequent, scope));
    }
    Ok(Work::Eval(alternate, scope))
}
