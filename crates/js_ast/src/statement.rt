//! Statements and scripts.

use crate::expression::Expr;
use crate::operators::DeclarationKind;
use crate::parts::{Catch, Declarator, Identifier, LoopHead};
use sqlite_items::{Boxed, Items};

/// A statement (ECMA-262, section 14), at the site of its first token.
#[cycle(trees)]
pub enum Stmt {
    /// `{` statements `}`
    Block {
        site: u32,
        body: Items<Stmt>,
    },
    /// `;`
    Nothing {
        site: u32,
    },
    Declare {
        site: u32,
        kind: DeclarationKind,
        declarators: Items<Declarator<Boxed<Expr>>>,
    },
    /// A function declaration (section 15.2)
    Function {
        site: u32,
        name: Identifier,
        parameters: Items<Identifier>,
        body: Items<Stmt>,
    },
    /// An expression; its first token is the statement's
    Express {
        site: u32,
        value: Boxed<Expr>,
    },
    /// A chain of `if`s, each but the first behind an `else`, and what stands behind a last `else`
    If {
        arms: Items<Arm>,
        alternate: Option<Boxed<Stmt>>,
    },
    While {
        site: u32,
        test: Boxed<Expr>,
        body: Boxed<Stmt>,
    },
    /// `do`; `test_site` is that of its `while`
    Do {
        site: u32,
        body: Boxed<Stmt>,
        test_site: u32,
        test: Boxed<Expr>,
    },
    For {
        site: u32,
        head: LoopHead<Boxed<Expr>>,
        test: Option<Boxed<Expr>>,
        update: Option<Boxed<Expr>>,
        body: Boxed<Stmt>,
    },
    /// `for` `(` `let` or `const`, a name `of` a value `)`
    ForOf {
        site: u32,
        kind: DeclarationKind,
        name: Identifier,
        items: Boxed<Expr>,
        body: Boxed<Stmt>,
    },
    Break {
        site: u32,
    },
    Continue {
        site: u32,
    },
    Return {
        site: u32,
        value: Option<Boxed<Expr>>,
    },
    Throw {
        site: u32,
        value: Boxed<Expr>,
    },
    /// `try`, with `catch`, `finally` or both
    Try {
        site: u32,
        body: Items<Stmt>,
        catch: Option<Catch<Items<Stmt>>>,
        finally: Option<Items<Stmt>>,
    },
}

/// `if`, its test and what is done where that holds, at the site of the word (section 14.6).
#[cycle(trees)]
pub struct Arm {
    pub site: u32,
    pub test: Boxed<Expr>,
    pub consequent: Boxed<Stmt>,
}

impl Drop for Stmt {
    #[cycle(drops)]
    fn drop(self) {
        match self {
            Stmt::Block { site: _, body } => drop(body),
            Stmt::Nothing { site: _ } | Stmt::Break { site: _ } | Stmt::Continue { site: _ } => {}
            Stmt::Declare {
                site: _,
                kind: _,
                declarators,
            } => drop(declarators),
            Stmt::Function {
                site: _,
                name,
                parameters,
                body,
            } => {
                drop(name);
                drop(parameters);
                drop(body);
            }
            Stmt::Express { site: _, value } => drop(value),
            Stmt::If { arms, alternate } => {
                drop(arms);
                drop(alternate);
            }
            Stmt::While {
                site: _,
                test,
                body,
            } => {
                drop(test);
                drop(body);
            }
            Stmt::Do {
                site: _,
                body,
                test_site: _,
                test,
            } => {
                drop(body);
                drop(test);
            }
            Stmt::For {
                site: _,
                head,
                test,
                update,
                body,
            } => {
                drop(head);
                drop(test);
                drop(update);
                drop(body);
            }
            Stmt::ForOf {
                site: _,
                kind: _,
                name,
                items,
                body,
            } => {
                drop(name);
                drop(items);
                drop(body);
            }
            Stmt::Return { site: _, value } => drop(value),
            Stmt::Throw { site: _, value } => drop(value),
            Stmt::Try {
                site: _,
                body,
                catch,
                finally,
            } => {
                drop(body);
                drop(catch);
                drop(finally);
            }
        }
    }
}

impl Drop for Arm {
    #[cycle(drops)]
    fn drop(self) {
        let Arm {
            site: _,
            test,
            consequent,
        } = self;
        drop(test);
        drop(consequent);
    }
}

/// A whole script (ECMA-262, section 16.1).
#[derive(Drop)]
pub struct Script {
    pub body: Items<Stmt>,
}
