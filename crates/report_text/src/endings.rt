//! Ends of runs read back.

ghost use Rattle.std.specs.Prelude.{◌≡◌};
ghost use Rattle.std.specs.Option.{option_map};
ghost use Rattle.report_text.specs.Parts.{one_of};
ghost use Rattle.report_text.specs.Endings.{endings_told, threw_at, cut_at, left_at, ended_at, end_at};

use crate::words::{one_of, plus, short};
use path_core::{Budget, End, ErrorName, Thrown, Why};

/// What stands before an end's site.
#[derive(Clone, Copy)]
enum Ending {
    Done,
    Threw(Thrown),
    Left(Why),
    Cut(Budget),
}

const ENDINGS: [(&str, Ending); 23] = [
    ("done", Ending::Done),
    ("threw:value@", Ending::Threw(Thrown::Value)),
    (
        "threw:Error@",
        Ending::Threw(Thrown::Named(ErrorName::Error)),
    ),
    (
        "threw:TypeError@",
        Ending::Threw(Thrown::Named(ErrorName::TypeError)),
    ),
    (
        "threw:RangeError@",
        Ending::Threw(Thrown::Named(ErrorName::RangeError)),
    ),
    (
        "threw:ReferenceError@",
        Ending::Threw(Thrown::Named(ErrorName::ReferenceError)),
    ),
    ("left:range@", Ending::Left(Why::Range)),
    ("left:divide@", Ending::Left(Why::Divide)),
    ("left:convert@", Ending::Left(Why::Convert)),
    ("left:inherited@", Ending::Left(Why::Inherited)),
    ("left:message@", Ending::Left(Why::Message)),
    ("left:unicode@", Ending::Left(Why::Unicode)),
    ("left:template@", Ending::Left(Why::Template)),
    ("left:size@", Ending::Left(Why::Size)),
    ("left:key@", Ending::Left(Why::Key)),
    ("left:set@", Ending::Left(Why::Set)),
    ("left:builtin@", Ending::Left(Why::Builtin)),
    ("left:name@", Ending::Left(Why::Name)),
    ("left:iterate@", Ending::Left(Why::Iterate)),
    ("left:new@", Ending::Left(Why::New)),
    ("cut:turns@", Ending::Cut(Budget::Turns)),
    ("cut:events@", Ending::Cut(Budget::Events)),
    ("cut:nodes@", Ending::Cut(Budget::Nodes)),
];

#[tactic(auto, unfolding(crate::specs::Endings::endings_told))]
fn start(bytes: &[u8]) -> Option<(Ending, &[u8])>
    ensures { option_map (λ x. (x.0, x.1.now)) result ≡ one_of endings_told bytes.now }
{
    one_of(&ENDINGS, bytes)
}

fn threw(what: Thrown, bytes: &[u8]) -> Option<(End, &[u8])>
    ensures { option_map (λ x. (x.0, x.1.now)) result ≡ threw_at what bytes.now }
{
    let (site, rest) = short(bytes)?;
    Some((End::Threw { site, what }, rest))
}

fn cut(what: Budget, bytes: &[u8]) -> Option<(End, &[u8])>
    ensures { option_map (λ x. (x.0, x.1.now)) result ≡ cut_at what bytes.now }
{
    let (site, rest) = short(bytes)?;
    Some((End::Cut { site, what }, rest))
}

/// A site, then the turns where they aren't 0, then the ended activations where they aren't 0.
fn left(why: Why, bytes: &[u8]) -> Option<(End, &[u8])>
    ensures { option_map (λ x. (x.0, x.1.now)) result ≡ left_at why bytes.now }
{
    let (site, first) = short(bytes)?;
    let (turns, second) = plus(first)?;
    let (ended, rest) = plus(second)?;
    Some((
        End::Left {
            site,
            why,
            turns,
            ended,
        },
        rest,
    ))
}

fn ended(ending: Ending, bytes: &[u8]) -> Option<(End, &[u8])>
    ensures { option_map (λ x. (x.0, x.1.now)) result ≡ ended_at ending bytes.now }
{
    match ending {
        Ending::Done => Some((End::Done, bytes)),
        Ending::Threw(what) => threw(what, bytes),
        Ending::Left(why) => left(why, bytes),
        Ending::Cut(what) => cut(what, bytes),
    }
}

/// An end, with its site and its counts.
#[tactic(auto, unfolding(crate::specs::Endings::end_at))]
pub(crate) fn end(bytes: &[u8]) -> Option<(End, &[u8])>
    ensures { option_map (λ x. (x.0, x.1.now)) result ≡ end_at bytes.now }
{
    let (found, rest) = start(bytes)?;
    ended(found, rest)
}
