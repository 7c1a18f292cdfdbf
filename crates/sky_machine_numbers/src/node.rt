// A node of a script's tree.

use sky_base::stmt::{Block, Stmt};
use sky_base::tree::Expr;

/// A node: an expression, a statement or a block.
#[derive(Clone, Copy, Drop)]
pub enum NodeRef<'a> {
    Exp(&'a Expr),
    Stmt(&'a Stmt),
    Block(&'a Block),
}
