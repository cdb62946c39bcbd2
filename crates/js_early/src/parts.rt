//! The parts of expressions and declarations, whose trees are put before a search.

ghost use Rattle.std.specs.Prelude.{◌≡◌, ◌+◌, OnOk};
ghost use Rattle.std.specs.List.{flat_map, sum_by};
ghost use Rattle.js_early.specs.Parts.{least_with, exprs_places, optional_places, access_places, suffix_places, target_places, member_places, links_places, declarators_places};
ghost use Rattle.js_early.specs.Weight.{exprs_weight, optional_weight, access_weight, suffix_weight, target_weight, member_weight, links_weight, declarators_weight};

use crate::search::Search;
use js_ast::{Access, Declarator, Expr, Link, Member, Suffix, Target};
use js_units::NoMemory;
use sqlite_items::Boxed;

#[tactic(auto, using(crate::proofs::Turns::turns))]
pub fn in_exprs<'a>(exprs: &'a [Boxed<Expr>], search: &mut Search<'a>) -> Result<(), NoMemory>
    ensures least { OnOk result (search.new.least ≡ least_with search.old.least (exprs_places exprs.now)) }
    ensures weight { OnOk result (search.new.weight ≡ search.old.weight + exprs_weight exprs.now) }
{
    for expr in exprs {
        search.expression(expr.get())?;
    }
    Ok(())
}

#[tactic(auto, using(crate::proofs::Least::parts))]
fn in_member<'a>(member: &'a Member<Boxed<Expr>>, search: &mut Search<'a>) -> Result<(), NoMemory>
    ensures least { OnOk result (search.new.least ≡ least_with search.old.least (member_places member.now)) }
    ensures weight { OnOk result (search.new.weight ≡ search.old.weight + member_weight member.now) }
{
    match member {
        Member::Shorthand(_) => Ok(()),
        Member::Value { value, .. } => search.expression(value.get()),
    }
}

#[tactic(auto, using(crate::proofs::Turns::turns))]
pub fn in_members<'a>(
    members: &'a [Member<Boxed<Expr>>],
    search: &mut Search<'a>,
) -> Result<(), NoMemory>
    ensures least { OnOk result (search.new.least ≡ least_with search.old.least (flat_map member_places members.now)) }
    ensures weight { OnOk result (search.new.weight ≡ search.old.weight + sum_by member_weight members.now) }
{
    for member in members {
        in_member(member, search)?;
    }
    Ok(())
}

#[tactic(auto, using(crate::proofs::Least::parts))]
fn in_access<'a>(access: &'a Access<Boxed<Expr>>, search: &mut Search<'a>) -> Result<(), NoMemory>
    ensures least { OnOk result (search.new.least ≡ least_with search.old.least (access_places access.now)) }
    ensures weight { OnOk result (search.new.weight ≡ search.old.weight + access_weight access.now) }
{
    match access {
        Access::Property { .. } => Ok(()),
        Access::Index { key, .. } => search.expression(key.get()),
    }
}

#[tactic(auto, using(crate::proofs::Least::parts))]
fn in_suffix<'a>(suffix: &'a Suffix<Boxed<Expr>>, search: &mut Search<'a>) -> Result<(), NoMemory>
    ensures least { OnOk result (search.new.least ≡ least_with search.old.least (suffix_places suffix.now)) }
    ensures weight { OnOk result (search.new.weight ≡ search.old.weight + suffix_weight suffix.now) }
{
    match suffix {
        Suffix::Access(access) => in_access(access, search),
        Suffix::Call { arguments, .. } => in_exprs(arguments.as_slice(), search),
    }
}

#[tactic(auto, using(crate::proofs::Turns::turns))]
pub fn in_suffixes<'a>(
    suffixes: &'a [Suffix<Boxed<Expr>>],
    search: &mut Search<'a>,
) -> Result<(), NoMemory>
    ensures least { OnOk result (search.new.least ≡ least_with search.old.least (flat_map suffix_places suffixes.now)) }
    ensures weight { OnOk result (search.new.weight ≡ search.old.weight + sum_by suffix_weight suffixes.now) }
{
    for suffix in suffixes {
        in_suffix(suffix, search)?;
    }
    Ok(())
}

#[tactic(auto, using(crate::proofs::Least::parts))]
pub fn in_target<'a>(
    target: &'a Target<Boxed<Expr>>,
    search: &mut Search<'a>,
) -> Result<(), NoMemory>
    ensures least { OnOk result (search.new.least ≡ least_with search.old.least (target_places target.now)) }
    ensures weight { OnOk result (search.new.weight ≡ search.old.weight + target_weight target.now) }
{
    match target {
        Target::Name(_) => Ok(()),
        Target::Access { base, access } => {
            search.expression(base.get())?;
            in_access(access, search)
        }
    }
}

#[tactic(auto, using(crate::proofs::Turns::turns))]
pub fn in_links<'a, O>(
    links: &'a [Link<O, Boxed<Expr>>],
    search: &mut Search<'a>,
) -> Result<(), NoMemory>
    ensures least { OnOk result (search.new.least ≡ least_with search.old.least (links_places links.now)) }
    ensures weight { OnOk result (search.new.weight ≡ search.old.weight + links_weight links.now) }
{
    for link in links {
        search.expression(link.right.get())?;
    }
    Ok(())
}

#[tactic(auto, using(crate::proofs::Least::parts))]
pub fn in_optional<'a>(
    value: &'a Option<Boxed<Expr>>,
    search: &mut Search<'a>,
) -> Result<(), NoMemory>
    ensures least { OnOk result (search.new.least ≡ least_with search.old.least (optional_places value.now)) }
    ensures weight { OnOk result (search.new.weight ≡ search.old.weight + optional_weight value.now) }
{
    match value {
        None => Ok(()),
        Some(value) => search.expression(value.get()),
    }
}

#[tactic(auto, using(crate::proofs::Turns::turns))]
pub fn in_declarators<'a>(
    declarators: &'a [Declarator<Boxed<Expr>>],
    search: &mut Search<'a>,
) -> Result<(), NoMemory>
    ensures least { OnOk result (search.new.least ≡ least_with search.old.least (declarators_places declarators.now)) }
    ensures weight { OnOk result (search.new.weight ≡ search.old.weight + declarators_weight declarators.now) }
{
    for declarator in declarators {
        in_optional(&declarator.value, search)?;
    }
    Ok(())
}
