// A script with the numbers of its nodes.

ghost use Rattle.std.specs.Prelude.{◌≡◌, ◌<◌, ◌≤◌, ◌+◌, ℕ, [], Some, None, MatchOption, leb, length, slice_index, take, drop};
ghost use Rattle.std.specs.List.Sorted.{IsNonDecreasing};
ghost use Rattle.sky_base.specs.Tree.{nodes, stm_nodes, block_nodes};
ghost use Rattle.sky_base.specs.TreeView.{exp_view};
ghost use Rattle.sky_base.specs.StmtView.{stm_view};
ghost use Rattle.sky_base.specs.Eval.{body_of};
ghost use Rattle.sky_base.specs.ScriptView.{funs_view};
ghost use Rattle.sky_base_law.specs.Opened.{Node, block_node, HasExp, HasStm, HasStms};
ghost use Rattle.sky_base_law.specs.Nodes.{node_at};
ghost use Rattle.sky_machine_code.specs.Numbers.{Holds, ends_of, starts_of, node_size};
ghost use Rattle.sky_machine_code.specs.Parts.{Parted, begins_from};

use sky_base::stmt::{Block, Stmt};
use sky_base::text::Txt;
use sky_base::tree::Expr;
use sky_base_scope::program::Program;
use std::marker::Model;

/// A script whose functions are found by their names and whose nodes are numbered. Contracts see it as the script.
#[derive(Drop)]
pub struct Code<'a> {
    program: Program<'a>,
    // For each node the number after all that is in it.
    ends: &'a [u32],
    // The nodes of the functions' blocks.
    starts: &'a [u32],
    // For each node the place in `parts` where the numbers of the nodes directly in it begin.
    firsts: &'a [usize],
    parts: &'a [u32],
}

impl<'a> Model for Code<'a> {
    ghost use Rattle.std.specs.Prelude.{◌≡◌};
    ghost use Rattle.sky_base.specs.Tree as logic;
    ghost use Rattle.sky_base.specs.ScriptCode.{script_code};
    ghost use Rattle.sky_machine_code.specs.Numbers.{ends_of, starts_of};
    ghost use Rattle.sky_machine_code.specs.Parts.{Parted};

    ghost Value = { logic.Script };

    ghost coded = { script_code };

    ghost view = { λ c. c.program };

    ghost invariant = { λ c. (c.ends.now ≡ ends_of c.program) × (c.starts.now ≡ starts_of c.program) × Parted c.ends.now c.firsts.now c.parts.now };
}

/// What a call of a function runs: its parameters, its block and the node of the block.
#[derive(Drop)]
pub struct Body<'a> {
    pub params: &'a [Txt],
    pub block: &'a Block,
    pub node: u32,
}

impl<'a> Code<'a> {
    /// The script with these numbers, in constant time.
    pub fn of(
        program: Program<'a>,
        ends: &'a [u32],
        starts: &'a [u32],
        firsts: &'a [usize],
        parts: &'a [u32],
    ) -> Code<'a>
        requires ends { ends.now ≡ ends_of program }
        requires starts { starts.now ≡ starts_of program }
        requires parts { Parted ends.now firsts.now parts.now }
        ensures { result ≡ program.entry }
    {
        Code {
            program,
            ends,
            starts,
            firsts,
            parts,
        }
    }

    /// The script, with its functions by their names.
    pub fn program(&self) -> &Program<'a>
        ensures { result.now ≡ self.now }
    {
        &self.program
    }

    /// The number after all that is in a node.
    pub fn after(&self, node: u32) -> u32
        ensures { (t : Node) → node_at self.now node ≡ Some t → result ≡ node + node_size t }
    {
        number_at(self.ends, node as usize)
    }

    /// The number after all that is in an expression.
    pub fn after_exp(&self, node: u32, e: &Expr) -> u32
        requires { HasExp (λ i. node_at self.now i) (exp_view e.now) node }
        ensures { result ≡ node + nodes (exp_view e.now) }
    {
        self.after(node)
    }

    /// The number after all that is in a statement.
    pub fn after_stmt(&self, node: u32, s: &Stmt) -> u32
        requires { HasStm (λ i. node_at self.now i) (stm_view s.now) node }
        ensures { result ≡ node + stm_nodes (stm_view s.now) }
    {
        self.after(node)
    }

    /// The number after all that is in a block.
    pub fn after_block(&self, node: u32, block: &Block) -> u32
        requires { node_at self.now node ≡ Some (block_node block.now) }
        ensures { result ≡ node + block_nodes block.now }
    {
        self.after(node)
    }

    /// The number of the first node inside of a node. Where there is none it says nothing.
    pub fn inside(&self, node: u32) -> u32
        ensures here { (t : Node) → node_at self.now node ≡ Some t → result ≡ node + 1 }
        ensures some { (t : Node) → node_at self.now (node + 1) ≡ Some t → result ≡ node + 1 }
        ensures positive { 0 < result }
    {
        let _here = number_at(self.ends, node as usize);
        let _end = number_at(self.ends, node as usize + 1);
        node.saturating_add(1)
    }

    /// The numbers of a block's statements, in order: in constant time.
    pub fn begins(&self, node: u32, block: &Block) -> &'a [u32]
        requires here { node_at self.now node ≡ Some (block_node block.now) }
        requires has { HasStms (λ i. node_at self.now i) block.now (node + 1) }
        ensures { result.now ≡ begins_from block.now (node + 1) }
    {
        let first = place_at(self.firsts, node as usize);
        cut(self.parts, first, block.as_slice().len())
    }

    /// What a call of the function of this name runs; the empty name is that of the main body.
    pub fn body(&self, name: &Txt) -> Option<Body<'a>>
        ensures { MatchOption result (body_of name.now self.now ≡ None)
            (λ b. body_of name.now self.now ≡ Some (record { params = b.params.now; block = b.block.now; node = b.node })) }
    {
        if name.is_empty() {
            return Some(self.main_body());
        }
        let Some(place) = self.program.place(name) else {
            return None;
        };
        let Some(fun) = self.program.funs().get(place) else {
            return None;
        };
        Some(Body {
            params: fun.params.as_slice(),
            block: &fun.body,
            node: number_at(self.starts, place),
        })
    }

    /// The body in whose block the node of this number stands, if there is one. A function's is found by halves.
    pub fn holding(&self, number: u32) -> Option<Body<'a>>
        ensures { MatchOption result (node_at self.now number ≡ None) (λ b. Holds self.now b.block.now b.node number) }
    {
        if number as usize >= self.ends.len() {
            return None;
        }
        if number < self.after(0) {
            return Some(self.main_body());
        }
        let last = begun(self.starts, number) - 1;
        match self.program.funs().get(last) {
            Some(fun) => Some(Body {
                params: fun.params.as_slice(),
                block: &fun.body,
                node: number_at(self.starts, last),
            }),
            None => unreachable!(),
        }
    }

    // The main body, whose block is the first node.
    fn main_body(&self) -> Body<'a>
        ensures params { result.params.now ≡ [] }
        ensures block { result.block.now ≡ self.now.main }
        ensures node { result.node ≡ 0 }
    {
        Body {
            params: &[],
            block: self.program.main(),
            node: 0,
        }
    }
}

/// How many of these numbers, which rise, are at most this one: found by halves.
pub fn begun(starts: &[u32], number: u32) -> usize
    requires { IsNonDecreasing starts.now }
    ensures most { result ≤ length starts.now }
    ensures first { (k : ℕ) → k < result → slice_index starts.now k ≤ number }
    ensures others { (k : ℕ) → result ≤ k → k < length starts.now → number < slice_index starts.now k }
{
    starts.partition_point(
        |start: &u32| -> bool
            ensures { result ≡ leb start.now number }
        { *start <= number },
    )
}

// The number at a place, or 0 past the end.
fn number_at(numbers: &[u32], at: usize) -> u32
    ensures { result ≡ slice_index numbers.now at }
{
    numbers.get(at).copied().unwrap_or(0)
}

// The place of a node, or 0 past the end.
fn place_at(places: &[usize], at: usize) -> usize
    ensures { result ≡ slice_index places.now at }
{
    places.get(at).copied().unwrap_or(0)
}

// So many numbers from this place on.
fn cut<'a>(numbers: &'a [u32], from: usize, count: usize) -> &'a [u32]
    requires { from + count ≤ length numbers.now }
    ensures { result.now ≡ take count (drop from numbers.now) }
{
    &numbers[from..from + count]
}
