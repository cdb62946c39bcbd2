//! The lexer's tokens as the grammar groups them, and their byte offsets.

ghost use Rattle.std.specs.Prelude.{◌≡◌, ◌≢◌, ◌≤◌, map, length, Some, IfOk};
ghost use Rattle.js_grammar.specs.declared.token.TokenKind.TheVariants as k;
ghost use Rattle.js_lexer.specs.Tokens.{IsTokenOf};
ghost use Rattle.js_lexer.specs.declared.token.TokenKind.TheVariants as lexed;
ghost use Rattle.js_parser.specs.Tokens.{entry, marks, words, word_or_other, kind_of_mark, kind_of_entry, units_of, IsKind, goal_of};

use js_ast::{BinaryOp, LogicalOp, StepOp};
use js_grammar::{TokenKind, Word};
use js_lexer::{Goal, number_of, text_of};
use js_reading::{Mode, Operand};
use js_units::{NoMemory, Units, equals_bytes};
use std::alloc::Global;

/// What a mark stands for.
#[derive(Clone, Copy)]
enum Mark {
    Binary(BinaryOp),
    Logical(LogicalOp),
    Assign(Option<BinaryOp>),
    Step(StepOp),
    Not,
    Complement,
    Arrow,
    Question,
    Colon,
    Dot,
    Comma,
    Semicolon,
    OpenRound,
    CloseRound,
    OpenSquare,
    CloseSquare,
    OpenBrace,
    CloseBrace,
}

const MARKS: [(&str, Mark); 48] = [
    ("{", Mark::OpenBrace),
    ("}", Mark::CloseBrace),
    ("(", Mark::OpenRound),
    (")", Mark::CloseRound),
    ("[", Mark::OpenSquare),
    ("]", Mark::CloseSquare),
    (".", Mark::Dot),
    (";", Mark::Semicolon),
    (",", Mark::Comma),
    ("<", Mark::Binary(BinaryOp::Less)),
    (">", Mark::Binary(BinaryOp::Greater)),
    ("<=", Mark::Binary(BinaryOp::LessEqual)),
    (">=", Mark::Binary(BinaryOp::GreaterEqual)),
    ("===", Mark::Binary(BinaryOp::Equal)),
    ("!==", Mark::Binary(BinaryOp::NotEqual)),
    ("+", Mark::Binary(BinaryOp::Add)),
    ("-", Mark::Binary(BinaryOp::Subtract)),
    ("*", Mark::Binary(BinaryOp::Multiply)),
    ("/", Mark::Binary(BinaryOp::Divide)),
    ("%", Mark::Binary(BinaryOp::Remainder)),
    ("++", Mark::Step(StepOp::Increment)),
    ("--", Mark::Step(StepOp::Decrement)),
    ("<<", Mark::Binary(BinaryOp::ShiftLeft)),
    (">>", Mark::Binary(BinaryOp::ShiftRight)),
    (">>>", Mark::Binary(BinaryOp::ShiftRightZero)),
    ("&", Mark::Binary(BinaryOp::BitAnd)),
    ("|", Mark::Binary(BinaryOp::BitOr)),
    ("^", Mark::Binary(BinaryOp::BitXor)),
    ("!", Mark::Not),
    ("~", Mark::Complement),
    ("&&", Mark::Logical(LogicalOp::And)),
    ("||", Mark::Logical(LogicalOp::Or)),
    ("??", Mark::Logical(LogicalOp::Coalesce)),
    ("?", Mark::Question),
    (":", Mark::Colon),
    ("=", Mark::Assign(None)),
    ("+=", Mark::Assign(Some(BinaryOp::Add))),
    ("-=", Mark::Assign(Some(BinaryOp::Subtract))),
    ("*=", Mark::Assign(Some(BinaryOp::Multiply))),
    ("/=", Mark::Assign(Some(BinaryOp::Divide))),
    ("%=", Mark::Assign(Some(BinaryOp::Remainder))),
    ("<<=", Mark::Assign(Some(BinaryOp::ShiftLeft))),
    (">>=", Mark::Assign(Some(BinaryOp::ShiftRight))),
    (">>>=", Mark::Assign(Some(BinaryOp::ShiftRightZero))),
    ("&=", Mark::Assign(Some(BinaryOp::BitAnd))),
    ("|=", Mark::Assign(Some(BinaryOp::BitOr))),
    ("^=", Mark::Assign(Some(BinaryOp::BitXor))),
    ("=>", Mark::Arrow),
];

const WORDS: [(&str, Word); 21] = [
    ("break", Word::Break),
    ("catch", Word::Catch),
    ("const", Word::Const),
    ("continue", Word::Continue),
    ("do", Word::Do),
    ("else", Word::Else),
    ("false", Word::False),
    ("finally", Word::Finally),
    ("for", Word::For),
    ("function", Word::Function),
    ("if", Word::If),
    ("let", Word::Let),
    ("new", Word::New),
    ("null", Word::Null),
    ("return", Word::Return),
    ("this", Word::This),
    ("throw", Word::Throw),
    ("true", Word::True),
    ("try", Word::Try),
    ("typeof", Word::TypeOf),
    ("while", Word::While),
];

/// 2^53, which stands for every number above the greatest one.
const WIDE: u64 = 9_007_199_254_740_992;

fn mark_in(table: &[(&str, Mark)], units: &[u16]) -> Option<Mark>
    ensures { result ≡ entry (map (λ e. (e.0.now, e.1)) table.now) units.now }
{
    let mut entries = table;
    while let [(entry, mark), rest @ ..] = entries {
        if equals_bytes(entry.as_bytes(), units) {
            return Some(*mark);
        }
        entries = rest;
    }
    None
}

#[tactic(auto, unfolding(crate::specs::Tokens::marks))]
fn mark_of(units: &[u16]) -> Option<Mark>
    ensures { result ≡ entry marks units.now }
{
    mark_in(&MARKS, units)
}

fn word_in(table: &[(&str, Word)], units: &[u16]) -> Option<Word>
    ensures { result ≡ entry (map (λ e. (e.0.now, e.1)) table.now) units.now }
{
    let mut entries = table;
    while let [(entry, word), rest @ ..] = entries {
        if equals_bytes(entry.as_bytes(), units) {
            return Some(*word);
        }
        entries = rest;
    }
    None
}

#[tactic(auto, unfolding(crate::specs::Tokens::words))]
fn word_of(units: &[u16]) -> Word
    ensures { result ≡ word_or_other (entry words units.now) }
{
    match word_in(&WORDS, units) {
        Some(word) => word,
        None => Word::Other,
    }
}

fn kind_of_mark(mark: Mark) -> TokenKind
    ensures { result ≡ kind_of_mark mark }
{
    match mark {
        Mark::Binary(op) => TokenKind::Binary(op),
        Mark::Logical(op) => TokenKind::Logical(op),
        Mark::Assign(op) => TokenKind::Assign(op),
        Mark::Step(op) => TokenKind::Step(op),
        Mark::Not => TokenKind::Not,
        Mark::Complement => TokenKind::Complement,
        Mark::Arrow => TokenKind::Arrow,
        Mark::Question => TokenKind::Question,
        Mark::Colon => TokenKind::Colon,
        Mark::Dot => TokenKind::Dot,
        Mark::Comma => TokenKind::Comma,
        Mark::Semicolon => TokenKind::Semicolon,
        Mark::OpenRound => TokenKind::OpenRound,
        Mark::CloseRound => TokenKind::CloseRound,
        Mark::OpenSquare => TokenKind::OpenSquare,
        Mark::CloseSquare => TokenKind::CloseSquare,
        Mark::OpenBrace => TokenKind::OpenBrace,
        Mark::CloseBrace => TokenKind::CloseBrace,
    }
}

fn reserved(units: Units) -> TokenKind
    ensures { result ≡ k.Word (word_or_other (entry words units)) units }
{
    let word = word_of(units.as_slice());
    TokenKind::Word { word, units }
}

/// The kind of a token that is a mark.
fn mark_kind(text: &Units, token: &js_lexer::Token) -> TokenKind
    requires kind { token.now.kind ≡ lexed.Mark }
    requires is_token { IsTokenOf text.now token.now }
    ensures { kind_of_entry (entry marks (units_of text.now token.now)) ≡ Some result }
{
    match mark_of(&text.as_slice()[token.start..token.end]) {
        Some(mark) => kind_of_mark(mark),
        None => unreachable!(),
    }
}

/// What the grammar sees of a token.
pub fn kind_of(alloc: Global, text: &Units, token: &js_lexer::Token) -> Result<TokenKind, NoMemory>
    requires is_token { IsTokenOf text.now token.now }
    requires kind { token.now.kind ≢ lexed.Finish }
    ensures kind { IfOk result (λ kind. IsKind text.now token.now kind) }
{
    match token.kind {
        js_lexer::TokenKind::Name => Ok(TokenKind::Name(text_of(alloc, text, token)?)),
        js_lexer::TokenKind::Word => Ok(reserved(text_of(alloc, text, token)?)),
        js_lexer::TokenKind::Number => Ok(TokenKind::Number(number_of(text, token))),
        js_lexer::TokenKind::WideNumber => Ok(TokenKind::Number(WIDE)),
        js_lexer::TokenKind::Text => Ok(TokenKind::Text(text_of(alloc, text, token)?)),
        js_lexer::TokenKind::Pattern => Ok(TokenKind::Pattern),
        js_lexer::TokenKind::Mark => Ok(mark_kind(text, token)),
        js_lexer::TokenKind::Finish => unreachable!(),
    }
}

/// What a `/` begins: division behind an operand, but for an arrow that ends in braces.
pub fn goal_of(mode: &Mode) -> Goal
    ensures { result ≡ goal_of mode.now }
{
    match mode {
        Mode::Operand {
            operand: Operand::Braced(_),
            ..
        } => Goal::Pattern,
        Mode::Operand { .. } => Goal::Division,
        _ => Goal::Pattern,
    }
}
