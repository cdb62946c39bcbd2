//! What may stand inside the frames, and how deep that is nested.

ghost use Rattle.std.specs.Prelude.{◌≡◌, reverse};
ghost use Rattle.js_grammar.specs.Phrases.{in_body, in_arrow};
ghost use Rattle.js_reading.specs.Frames.{context, within, within_below, within_braces, within_pending};
ghost use Rattle.js_step_operands.specs.Context.{see};

use js_reading::{Below, Braces, Frame, Pending, Pile};

/// What may stand at a place.
#[derive(Clone, Copy)]
pub struct Context {
    pub in_loop: bool,
    pub in_function: bool,
    pub has_this: bool,
}

fn in_body() -> Context
    ensures { see result ≡ in_body }
{
    Context {
        in_loop: false,
        in_function: true,
        has_this: true,
    }
}

fn in_arrow(context: Context) -> Context
    ensures { see result ≡ in_arrow (see context) }
{
    Context {
        in_loop: false,
        in_function: true,
        has_this: context.has_this,
    }
}

fn within_below(below: &Below, context: Context) -> Context
    ensures { see result ≡ within_below below.now (see context) }
{
    match below {
        Below::Then { .. } => context,
        Below::Else { .. } => context,
        _ => Context {
            in_loop: true,
            in_function: context.in_function,
            has_this: context.has_this,
        },
    }
}

fn within_braces(braces: &Braces, context: Context) -> Context
    ensures { see result ≡ within_braces braces.now (see context) }
{
    match braces {
        Braces::Function { .. } => in_body(),
        Braces::Value { .. } => in_body(),
        Braces::Arrow { .. } => in_arrow(context),
        _ => context,
    }
}

fn within_pending(pending: &Pending, context: Context) -> Context
    ensures { see result ≡ within_pending pending.now (see context) }
{
    match pending {
        Pending::Arrow { .. } => in_arrow(context),
        _ => context,
    }
}

fn within(frame: &Frame, context: Context) -> Context
    ensures { see result ≡ within frame.now (see context) }
{
    match frame {
        Frame::Pending(pending) => within_pending(pending, context),
        Frame::Below(below) => within_below(below, context),
        Frame::List { braces, .. } => within_braces(braces, context),
        _ => context,
    }
}

/// What may stand inside the frames.
#[tactic(auto, using(crate::proofs::Bottom::context_reverse))]
pub fn context_of(frames: &Pile<Frame>) -> Context
    ensures { see result ≡ context frames.now }
{
    let mut context = Context {
        in_loop: false,
        in_function: false,
        has_this: false,
    };
    let mut left = frames.as_slice();
    'each: while let [first, rest @ ..] = left {
        context = within(first, context);
        left = rest;
    }
    context
}
