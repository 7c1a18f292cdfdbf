// The statements of a script.

ghost use Rattle.std.specs.Prelude.{◌≡◌, ◌<◌, ◌^◌};
ghost use Rattle.sky_base.specs.Tree.{stm_nodes, stms_nodes, arms_nodes, else_nodes, block_nodes};
ghost use Rattle.sky_base.specs.StmtView.{stm_view, stms_view, arms_view, else_view};

use crate::text::Txt;
use crate::tree::Expr;
use std::alloc::Global;
use std::marker::Model;

/// A statement.
#[cycle(stmt)]
pub enum Stmt {
    Set {
        name: Txt,
        line: u32,
        col: u32,
        value: Expr,
    },
    Add {
        name: Txt,
        name_line: u32,
        name_col: u32,
        line: u32,
        col: u32,
        value: Expr,
    },
    Put {
        name: Txt,
        name_line: u32,
        name_col: u32,
        line: u32,
        col: u32,
        at: Expr,
        value: Expr,
    },
    Return {
        line: u32,
        col: u32,
        value: Option<Expr>,
    },
    If {
        line: u32,
        col: u32,
        arms: Arms,
        otherwise: Option<Block>,
    },
    While {
        line: u32,
        col: u32,
        test: Expr,
        body: Block,
    },
    Do {
        line: u32,
        col: u32,
        body: Block,
        test: Expr,
    },
    For {
        line: u32,
        col: u32,
        name: Txt,
        list: Expr,
        body: Block,
    },
    Just {
        line: u32,
        col: u32,
        inner: Expr,
    },
}

// Written by hand, so that a statement that is let go of is one call and not a match over all forms.
impl Drop for Stmt {
    #[cycle(stmt_drop)]
    fn drop(self) {
        match self {
            Stmt::Set {
                name: _,
                line: _,
                col: _,
                value: _,
            } => {}
            Stmt::Add {
                name: _,
                name_line: _,
                name_col: _,
                line: _,
                col: _,
                value: _,
            } => {}
            Stmt::Put {
                name: _,
                name_line: _,
                name_col: _,
                line: _,
                col: _,
                at: _,
                value: _,
            } => {}
            Stmt::Return {
                line: _,
                col: _,
                value: _,
            } => {}
            Stmt::If {
                line: _,
                col: _,
                arms: _,
                otherwise: _,
            } => {}
            Stmt::While {
                line: _,
                col: _,
                test: _,
                body: _,
            } => {}
            Stmt::Do {
                line: _,
                col: _,
                body: _,
                test: _,
            } => {}
            Stmt::For {
                line: _,
                col: _,
                name: _,
                list: _,
                body: _,
            } => {}
            Stmt::Just {
                line: _,
                col: _,
                inner: _,
            } => {}
        }
    }
}

/// A block.
#[cycle(stmt)]
#[derive(Drop)]
pub struct Block {
    stmts: Vec<Stmt>,
}

impl Model for Block {
    ghost use Rattle.sky_base.specs.Tree as logic;
    ghost use Rattle.sky_base.specs.TreeCode.{stms_code};

    ghost Value = { logic.Stms };

    ghost coded = { stms_code };

    ghost use Rattle.sky_base.specs.StmtView.{stms_view};

    ghost view = { λ a. stms_view a.stmts.items };

    ghost use Rattle.sky_base.specs.Tree.{stms_weight};

    ghost size = { stms_weight };

    ghost use Rattle.sky_base.specs.StmtFalls.{stms_fall};
    ghost use Rattle.std.proofs.Common.{arith};

    ghost size_decreases = { λ a h. omega (arith, stms_fall a.stmts.items) };
}

/// An arm of a choice.
#[cycle(stmt)]
#[derive(Drop)]
pub struct Arm {
    pub line: u32,
    pub col: u32,
    pub test: Expr,
    pub body: Block,
}

/// The arms of a choice.
#[cycle(stmt)]
#[derive(Drop)]
pub struct Arms {
    items: Vec<Arm>,
}

impl Model for Arms {
    ghost use Rattle.sky_base.specs.Tree as logic;
    ghost use Rattle.sky_base.specs.TreeCode.{arms_code};

    ghost Value = { logic.Arms };

    ghost coded = { arms_code };

    ghost use Rattle.sky_base.specs.StmtView.{arms_view};

    ghost view = { λ a. arms_view a.items.items };

    ghost use Rattle.sky_base.specs.Tree.{arms_weight};

    ghost size = { arms_weight };

    ghost use Rattle.sky_base.specs.StmtFalls.{arms_fall};
    ghost use Rattle.std.proofs.Common.{arith};

    ghost size_decreases = { λ a h. omega (arith, arms_fall a.items.items) };
}

impl Block {
    /// The statements, in order.
    pub fn of(stmts: Vec<Stmt>) -> Block
        ensures { result ≡ stms_view stmts.items }
    {
        Block { stmts }
    }

    /// The statements themselves.
    pub fn as_slice(&self) -> &[Stmt]
        ensures { stms_view result.now ≡ self.now }
    {
        self.stmts.as_slice()
    }

    /// How many nodes the block has, itself included.
    #[cycle(nodes)]
    pub fn nodes(&self) -> u64
        requires { block_nodes self.now < 2 ^ 32 }
        ensures { result ≡ block_nodes self.now }
    {
        let mut total = 1;
        for stmt in &self.stmts {
            total += stmt.nodes();
        }
        total
    }
}

impl Arms {
    /// The arms, in order.
    pub fn of(items: Vec<Arm>) -> Arms
        ensures { result ≡ arms_view items.items }
    {
        Arms { items }
    }

    /// The arms themselves.
    pub fn as_slice(&self) -> &[Arm]
        ensures { arms_view result.now ≡ self.now }
    {
        self.items.as_slice()
    }

    /// How many nodes the tests and the blocks have.
    #[cycle(nodes)]
    pub fn nodes(&self) -> u64
        requires { arms_nodes self.now < 2 ^ 32 }
        ensures { result ≡ arms_nodes self.now }
    {
        let mut total = 0;
        for arm in &self.items {
            total += arm.test.nodes() + arm.body.nodes();
        }
        total
    }
}

impl Stmt {
    /// How many nodes the statement has.
    #[cycle(nodes)]
    pub fn nodes(&self) -> u64
        requires { stm_nodes (stm_view self.now) < 2 ^ 32 }
        ensures { result ≡ stm_nodes (stm_view self.now) }
    {
        match self {
            Stmt::Set { value, .. } | Stmt::Add { value, .. } => 1 + value.nodes(),
            Stmt::Put { at, value, .. } => 1 + at.nodes() + value.nodes(),
            Stmt::Return { value: None, .. } => 1,
            Stmt::Return {
                value: Some(value),
                ..
            } => 1 + value.nodes(),
            Stmt::If {
                arms,
                otherwise: None,
                ..
            } => 1 + arms.nodes(),
            Stmt::If {
                arms,
                otherwise: Some(block),
                ..
            } => 1 + arms.nodes() + block.nodes(),
            Stmt::While { test, body, .. } => 1 + test.nodes() + body.nodes(),
            Stmt::Do { body, test, .. } => 1 + body.nodes() + test.nodes(),
            Stmt::For { list, body, .. } => 1 + list.nodes() + body.nodes(),
            Stmt::Just { inner, .. } => 1 + inner.nodes(),
        }
    }
}
