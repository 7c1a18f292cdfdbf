// A script as a whole: its functions, its main body and the names of its inputs. The number of its
// nodes stands beside them, so that no one counts them twice.

ghost use Rattle.std.specs.Prelude.{◌≡◌, ◌<◌, ◌^◌, IfOk, IfErr, ◌++◌, ◌∷◌, [], MatchOption, slice_get, length};
ghost use Rattle.sky_base.specs.Tree.{block_nodes, funs_nodes, script_nodes};
ghost use Rattle.sky_base.specs.ScriptView.{funs_view};

use crate::stmt::Block;
use crate::text::{Memory, Txt};
use std::alloc::Global;
use std::marker::Model;

/// Texts, in order. Contracts see them as the list of their bytes.
#[derive(Drop)]
pub struct Texts {
    items: Vec<Txt>,
}

impl Model for Texts {
    ghost use Rattle.std.specs.Prelude.{List, ℕ};

    ghost Value = { List (List ℕ) };

    ghost view = { λ t. t.items.items };
}

impl Texts {
    /// The texts, in order.
    pub fn of(items: Vec<Txt>) -> Texts
        ensures { result ≡ items.items }
    {
        Texts { items }
    }

    /// The texts themselves.
    pub fn as_slice(&self) -> &[Txt]
        ensures { result.now ≡ self.now }
    {
        self.items.as_slice()
    }
}

/// A function of a script: a named one with the place of its name, or an anonymous one, whose name is
/// `#k`, with the place of its word.
#[derive(Drop)]
pub struct FunDef {
    pub name: Txt,
    pub params: Texts,
    pub body: Block,
    pub line: u32,
    pub col: u32,
    /// The names that an anonymous function captures where they are set: those that stand in its body,
    /// bodies inside it included, without its parameters. None for a named function.
    pub uses: Texts,
}

/// Functions, in order.
#[derive(Drop)]
pub struct FunDefs {
    items: Vec<FunDef>,
}

impl Model for FunDefs {
    ghost use Rattle.std.specs.Prelude.{List};
    ghost use Rattle.sky_base.specs.Tree as logic;
    ghost use Rattle.sky_base.specs.ScriptCode.{funs_code};

    ghost Value = { List logic.FunDef };

    ghost coded = { funs_code };

    ghost use Rattle.sky_base.specs.ScriptView.{funs_view};

    ghost view = { λ a. funs_view a.items.items };
}

impl FunDefs {
    /// The functions, in order.
    pub fn of(items: Vec<FunDef>) -> FunDefs
        ensures { result ≡ funs_view items.items }
    {
        FunDefs { items }
    }

    /// The functions themselves.
    pub fn as_slice(&self) -> &[FunDef]
        ensures { funs_view result.now ≡ self.now }
    {
        self.items.as_slice()
    }

    /// How many nodes the bodies have.
    pub fn nodes(&self) -> u64
        requires { funs_nodes self.now < 2 ^ 32 }
        ensures { result ≡ funs_nodes self.now }
    {
        let mut total = 0;
        for fun in &self.items {
            total += fun.body.nodes();
        }
        total
    }
}

/// A script: its functions, the statements of its main body, the names of its inputs, and the
/// number of its nodes.
#[derive(Drop)]
pub struct Script {
    funs: FunDefs,
    main: Block,
    nodes: u32,
    keys: Texts,
}

impl Model for Script {
    ghost use Rattle.std.specs.Prelude.{◌≡◌, ◌+◌};
    ghost use Rattle.sky_base.specs.Tree as logic;
    ghost use Rattle.sky_base.specs.ScriptCode.{script_code};

    ghost Value = { logic.Script };

    ghost coded = { script_code };

    ghost view = { λ s. record { funs = s.funs; main = s.main; keys = s.keys } };

    ghost invariant = { λ s. s.nodes ≡ logic.block_nodes s.main + logic.funs_nodes s.funs };
}

impl Script {
    /// The script of these parts.
    pub fn new(funs: FunDefs, main: Block, keys: Texts) -> Script
        requires { script_nodes (record { funs = funs; main = main; keys = keys }) < 2 ^ 32 }
        ensures { result ≡ record { funs = funs; main = main; keys = keys } }
    {
        let nodes = (main.nodes() + funs.nodes()) as u32;
        Script {
            funs,
            main,
            nodes,
            keys,
        }
    }

    /// The functions, in the order of the text.
    pub fn funs(&self) -> &FunDefs
        ensures { result.now ≡ self.now.funs }
    {
        &self.funs
    }

    /// The statements outside of functions, in the order of the text.
    pub fn main(&self) -> &Block
        ensures { result.now ≡ self.now.main }
    {
        &self.main
    }

    /// The names of the inputs.
    pub fn keys(&self) -> &Texts
        ensures { result.now ≡ self.now.keys }
    {
        &self.keys
    }

    /// How many nodes the script has: its main body and the bodies of its functions, each with all
    /// that is in it.
    pub fn nodes(&self) -> u32
        ensures { result ≡ script_nodes self.now }
    {
        self.nodes
    }
}
