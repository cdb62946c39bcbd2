//! The state of a run.

ghost use Rattle.std.specs.Prelude.{◌≡◌, ◌≤◌, ◌∷◌, IfOk, map, [], List, true, false};
ghost use Rattle.js_meaning.specs.Path.{start, inputs_of, input_value};
ghost use Rattle.term_table.specs.Views.{View, plain_value};
ghost use Rattle.term_table.specs.Fitting.{IsValue};
ghost use Rattle.term_table.specs.declared.term.Term.TheVariants.{Flag};
ghost use Rattle.js_state.specs.Fitting.{AllOf, IsInputValue, IsSupplied, AreSupplied};
ghost use Rattle.js_state.specs.Seen.{place_of, supplied_at, answers_at};

use crate::closure::Closure;
use crate::held::{Bound, RunMove, Supplied};
use js_heap::Heap;
use js_units::NoMemory;
use path_core::{Bounds, Declared, Input, InputValue};
use sqlite_items::Items;
use std::alloc::Global;
use std::marker::Model;
use term_table::{Plain, Shadow, Table, Text};

/// Where a run has come to, and what it has shown. Contracts see bindings with their names and values, objects with their
/// classes, and the rest as it is.
#[derive(Drop)]
pub struct State<'a> {
    pub(crate) inputs: Items<Supplied<'a>>,
    /// Whether guards are kept beside events.
    pub(crate) keeps: bool,
    /// The turns of the run, of which `turns` are left.
    pub(crate) allowed: u32,
    pub(crate) heap: Heap<Shadow>,
    /// The names of the heap's cells.
    pub(crate) names: Items<Bound<'a>>,
    /// What functions hold, by the numbers of their classes.
    pub(crate) closures: Items<Closure<'a>>,
    pub(crate) table: Table,
    pub(crate) moves: Items<RunMove>,
    pub(crate) events: u32,
    pub(crate) turns: u32,
    pub(crate) ended: u32,
    pub(crate) nodes: u32,
    pub(crate) joins: u32,
    pub(crate) alloc: Global,
}

impl<'a> Model for State<'a> {
    ghost use Rattle.js_state.specs.Held.{Contents};
    ghost use Rattle.js_ast.specs.contracts.expression.Expr as e;
    ghost use Rattle.js_ast.specs.contracts.statement.Stmt as s;
    ghost use Rattle.re_ast.specs.contracts.patterns.Node as n;
    ghost use Rattle.std.specs.Coded.{codes};

    ghost Value = { Contents };

    ghost coded = { Prim.hlevel (codes, e.the_row.coded, s.the_row.coded, n.the_row.coded) };

    ghost use Rattle.js_state.specs.Inside.{contents_of, IsState};

    ghost view = { contents_of };

    ghost invariant = { IsState };
}

fn plain_of(alloc: Global, value: &InputValue) -> Result<Plain, NoMemory>
    requires { IsInputValue value.now }
    ensures value { IfOk result (λ p. plain_value p ≡ input_value value.now) }
    ensures fits { IfOk result (λ p. IsValue p) }
{
    match value {
        InputValue::Int(n) => Ok(Plain::Int(*n)),
        InputValue::Text(text) => {
            let text = text.copy()?;
            let text = Text::new(alloc, text)?;
            Ok(Plain::Text(text))
        }
    }
}

/// The inputs of a run, each with its plain value. None has a number.
fn supplies<'a>(
    alloc: Global,
    declared: &'a [Declared],
    values: &[InputValue],
) -> Result<Items<Supplied<'a>>, NoMemory>
    requires { AreSupplied declared.now values.now }
    ensures seen { IfOk result (λ inputs. (view : View) → map (supplied_at view) inputs ≡ inputs_of declared.now values.now) }
    ensures supplied { IfOk result (λ inputs. AllOf IsSupplied inputs) }
{
    let mut inputs = Items::new(alloc);
    let mut left = declared;
    let mut given = values;
    while let [first, rest @ ..] = left {
        let [value, more @ ..] = given else {
            return Ok(inputs);
        };
        let value = plain_of(alloc, value)?;
        inputs.push(Supplied {
            name: &first.name,
            value,
            number: None,
        })?;
        left = rest;
        given = more;
    }
    Ok(inputs)
}

impl<'a> State<'a> {
    /// The start of a run on an input: nothing done yet. With `keeps`, guards will be kept beside events.
    pub fn new(
        alloc: Global,
        keeps: bool,
        bounds: &'a Bounds,
        input: &Input,
    ) -> Result<State<'a>, NoMemory>
        requires turns { bounds.now.turns ≤ 1000000 }
        requires values { AreSupplied bounds.now.inputs input.now.values }
        ensures place { IfOk result (λ state. (view : View) → place_of view state ≡ start bounds.now input.now.values (answers_at view)) }
        ensures moves { IfOk result (λ state. state.moves ≡ []) }
        ensures keeps { IfOk result (λ state. state.keeps ≡ keeps) }
        ensures turns { IfOk result (λ state. state.turns ≡ bounds.now.turns) }
        ensures nodes { IfOk result (λ state. state.nodes ≡ 0) }
        ensures table { IfOk result (λ state. state.table ≡ Flag false ∷ Flag true ∷ []) }
    {
        let inputs = supplies(alloc, bounds.inputs.as_slice(), input.values.as_slice())?;
        let table = Table::new(alloc, bounds)?;
        let turns = bounds.turns as u32;
        Ok(State {
            inputs,
            keeps,
            allowed: turns,
            heap: Heap::new(alloc),
            names: Items::new(alloc),
            closures: Items::new(alloc),
            table,
            moves: Items::new(alloc),
            events: 0,
            turns,
            ended: 0,
            nodes: 0,
            joins: 0,
            alloc,
        })
    }
}
