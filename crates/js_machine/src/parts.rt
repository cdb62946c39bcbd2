//! A part has the value that it waits for.

ghost use Rattle.std.specs.Prelude.{◌≡◌, ◌<◌, ◌+◌, IfOk, true};
ghost use Rattle.term_table.specs.Fitting.{Fits};
ghost use Rattle.term_table.specs.declared.shadow.Shadow.{Shadow as SpecShadow};
ghost use Rattle.js_state.specs.declared.completion.Completion.TheVariants.{Value};
ghost use Rattle.js_frames.specs.Credit.{Earns, credits, credit_of_part, credit_of_work};
ghost use Rattle.js_frames.specs.Fitting.{FitFrames, FitAll, InPart};
ghost use Rattle.js_frames.specs.Machine.{Continues};
ghost use Rattle.js_frames.specs.Weight.{Falls, cost_of_part, cost_of_work};
ghost use Rattle.js_machine.specs.Handing.{part_acts as part_acting};

use js_frames::{Frames, Part, Work};
use js_run_blocks::declared;
use js_run_expressions::{
    argument, builtin_key, choose, element, index_key, link, logical, member, operand, operate,
};
use js_run_loops::{do_test, for_test, for_update, for_value, of_items, while_test};
use js_run_statements::{arm_test, express_done, return_done, throw_done};
use js_run_targets::{
    compound_name_value, compound_property_value, name_value, property_value, target_key,
};
use js_state::{Completion, State};
use js_units::NoMemory;
use path_core::Why;
use std::alloc::Global;
use term_table::Shadow;

/// Goes on with the value of a part.
pub(crate) fn after<'a>(
    alloc: Global,
    state: &mut State<'a>,
    frames: &mut Frames<'a>,
    part: Part<'a>,
    value: Shadow,
) -> Result<Work<'a>, NoMemory>
    requires frames { FitFrames state.old frames.old }
    requires part { InPart (Fits state.old.table) part }
    requires value { Fits state.old.table value }
    ensures leads { IfOk result (λ next. Continues state.old frames.old part.entry value state.new frames.new next) }
    ensures falls { part_acting part.entry (Value value) ≡ true → IfOk result (λ next. Falls state.old frames.old (cost_of_part part.entry + 3) state.new frames.new (cost_of_work next)) }
    ensures earns { IfOk result (λ next. Earns state.old state.new (credits frames.old + (credit_of_part part.entry + 7)) (credits frames.new + credit_of_work next)) }
    ensures fits { IfOk result (λ next. FitAll state.new frames.new next) }
{
    match part {
        Part::Element {
            site,
            rest,
            scope,
            object,
        } => {
            let work = element(state, frames, site, rest, scope, object, value)?;
            Ok(work)
        }
        Part::Member {
            site,
            members,
            scope,
            object,
        } => {
            let work = member(alloc, state, frames, site, members, scope, object, value)?;
            Ok(work)
        }
        Part::Gathering { gathered, rest } => {
            let work = argument(alloc, state, frames, gathered, rest, value)?;
            Ok(work)
        }
        Part::Operand { site, op } => {
            let work = operand(state, frames, site, op, value)?;
            Ok(work)
        }
        Part::LinksLeft { links, scope } => {
            let work = link(state, frames, links, scope, value)?;
            Ok(work)
        }
        Part::LinkRight {
            site,
            op,
            left,
            links,
            scope,
        } => {
            let work = operate(state, frames, site, op, left, links, scope, value)?;
            Ok(work)
        }
        Part::LogicalLeft { links, scope } => {
            let work = logical(state, frames, links, scope, value)?;
            Ok(work)
        }
        Part::ConditionalTest {
            site,
            consequent,
            alternate,
            scope,
        } => {
            let work = choose(state, frames, site, consequent, alternate, scope, value)?;
            Ok(work)
        }
        Part::ItsValue => Ok(Work::Give(Completion::Value(value))),
        Part::IndexKey {
            site,
            is_static,
            base,
            suffixes,
            scope,
        } => {
            let work = index_key(state, frames, site, is_static, base, suffixes, scope, value)?;
            Ok(work)
        }
        Part::BuiltinKey {
            site,
            is_static,
            at,
            name,
            suffixes,
            scope,
        } => {
            let work = builtin_key(
                state, frames, site, is_static, at, name, suffixes, scope, value,
            )?;
            Ok(work)
        }
        Part::TargetKey {
            site,
            is_static,
            base,
            goal,
            scope,
        } => Ok(Work::Give(target_key(state, site, is_static, base, goal, scope, value))),
        Part::BuiltinTarget { site } => {
            drop(value);
            Ok(Work::Give(state.left(site, Why::Builtin)))
        }
        Part::NameValue { site, name, scope } => {
            let work = name_value(state, frames, site, name, scope, value)?;
            Ok(work)
        }
        Part::PropertyValue { site, base, name } => {
            let work = property_value(state, frames, site, base, name, value)?;
            Ok(work)
        }
        Part::CompoundName {
            site,
            op,
            at,
            name,
            old,
            scope,
        } => {
            let work = compound_name_value(state, frames, site, op, at, name, old, scope, value)?;
            Ok(work)
        }
        Part::CompoundProperty {
            site,
            op,
            at,
            name,
            base,
            old,
        } => {
            let work = compound_property_value(
                state, frames, site, op, at, name, base, old, value,
            )?;
            Ok(work)
        }
        Part::Declared { name, rest, scope } => {
            let work = declared(state, frames, name, rest, scope, value)?;
            Ok(work)
        }
        Part::ExpressDone => Ok(express_done(state, frames, value)),
        Part::ArmTest {
            arms,
            alternate,
            scope,
        } => {
            let work = arm_test(state, frames, arms, alternate, scope, value)?;
            Ok(work)
        }
        Part::WhileTest(l) => {
            let work = while_test(state, frames, l, value)?;
            Ok(work)
        }
        Part::DoTest(l) => {
            let work = do_test(state, frames, l, value)?;
            Ok(work)
        }
        Part::ForValue(l) => {
            let work = for_value(state, frames, l, value)?;
            Ok(work)
        }
        Part::ForTest(l, scope) => {
            let work = for_test(state, frames, l, scope, value)?;
            Ok(work)
        }
        Part::ForUpdate(l, scope) => {
            let work = for_update(state, frames, l, scope, value)?;
            Ok(work)
        }
        Part::OfItems {
            site,
            name,
            is_mutable,
            body,
            scope,
        } => {
            let work = of_items(state, frames, site, name, is_mutable, body, scope, value)?;
            Ok(work)
        }
        Part::ReturnDone => Ok(return_done(state, frames, value)),
        Part::ThrowDone { site } => Ok(throw_done(state, frames, site, value)),
    }
}
