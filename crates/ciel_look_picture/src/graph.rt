//! The graph of the tasks: what each is made from, inputs left, the result right.

ghost use Rattle.std.specs.Prelude.{◌≤◌, [], ◌∷◌, ℕ, List, IfOk, length};
ghost use Rattle.ciel_look_tasks.specs.SceneView.{scene_view};
ghost use Rattle.ciel_look_sheet.specs.Drawn.{Draws};
ghost use Rattle.ciel_look_picture.specs.Nodes.{nodes};
ghost use Rattle.ciel_look_picture.specs.Titles.{titles};

use crate::edges::{Edge, Edges, edges_of};
use crate::nodes::{Node, nodes_of};
use ciel_look_sheet::nodes::say;
use ciel_look_sheet::sheet::{Area, Look, Sheet, Way};
use ciel_look_shown::plain::Plain;
use ciel_look_tasks::scene::Scene;
use sky_base::text::Memory;
use std::alloc::Global;
use std::collections::{BTreeMap, BTreeSet};

/// How wide a node is, with the way to the next one.
const COLUMN: usize = 190;

/// How wide a node is.
const WIDTH: usize = 150;

/// How high a node is, with the room to the next one.
const ROW: usize = 34;

/// How high a node is.
const HEIGHT: usize = 26;

/// Draws the graph below what is drawn: where there are few tasks a node for each input and each task.
///
/// Answers `Memory` for want of memory.
pub fn draw_graph(alloc: Global, sheet: &mut Sheet, scene: &Scene) -> Result<(), Memory>
    ensures few { IfOk result (λ _. length scene.now.roll.tasks.items ≤ 300
        → (arrows : List (List ℕ)) × Draws (nodes (scene_view scene.now)) arrows 0 sheet.old.marks sheet.new.marks) }
    ensures many { IfOk result (λ _. (boxes : List (List ℕ)) × (arrows : List (List ℕ)) × Draws boxes arrows 0 sheet.old.marks sheet.new.marks) }
{
    let nodes = nodes_of(alloc, scene)?;
    let edges = edges_of(alloc, scene, &nodes)?;
    draw_all(alloc, sheet, nodes.all.as_slice(), &edges)?;
    Ok(())
}

/// Draws these nodes, and these edges.
fn draw_all(alloc: Global, sheet: &mut Sheet, nodes: &[Node], edges: &Edges) -> Result<(), Memory>
    ensures drawn { IfOk result (λ _. (arrows : List (List ℕ)) × Draws (titles nodes.now) arrows 0 sheet.old.marks sheet.new.marks) }
{
    let top = sheet.low.saturating_add(40);
    let head = say(alloc, "what was made from what")?;
    sheet.text(8, top.saturating_sub(10), 13, "#222", &head)?;
    let levels = levels_of(alloc, nodes, edges)?;
    let areas = areas_of(alloc, levels.as_slice(), top)?;
    draw_edges(alloc, sheet, areas.as_slice(), edges)?;
    draw_nodes(alloc, sheet, nodes, areas.as_slice())?;
    Ok(())
}

/// How far each node stands from the left: behind all that it is made from and that was made before it.
fn levels_of(alloc: Global, nodes: &[Node], edges: &Edges) -> Result<Vec<usize>, Memory> {
    let Ok(mut levels) = Vec::from_elem(alloc, 0usize, nodes.len()) else {
        return Err(Memory);
    };
    let mut order = BTreeSet::new(alloc);
    for node in nodes {
        if order.insert(node.rank).is_err() {
            return Err(Memory);
        }
    }
    for rank in &order {
        let from = rank.node;
        let level = levels.get(from).copied().unwrap_or(0).saturating_add(1);
        if let Some(ends) = edges.from.get(&from) {
            raise(&mut levels, nodes, from, level, ends.as_slice());
        }
    }
    Ok(levels)
}

/// What is made from a node stands behind it, where it was made later.
fn raise(levels: &mut Vec<usize>, nodes: &[Node], from: usize, level: usize, ends: &[usize]) {
    for to in ends {
        if is_before(nodes, from, *to) {
            if let Some(held) = levels.get_mut(*to) {
                *held = level.max(*held);
            }
        }
    }
}

fn is_before(nodes: &[Node], from: usize, to: usize) -> bool {
    match (nodes.get(from), nodes.get(to)) {
        (Some(one), Some(other)) => one.rank < other.rank,
        _ => false,
    }
}

/// Where each node stands: a column for each level, in which each has a row.
fn areas_of(alloc: Global, levels: &[usize], top: usize) -> Result<Vec<Area>, Memory> {
    let mut rows: BTreeMap<usize, usize> = BTreeMap::new(alloc);
    let mut areas = Vec::new(alloc);
    for level in levels {
        let row = rows.get(level).copied().unwrap_or(0);
        if rows.insert(*level, row.saturating_add(1)).is_err() {
            return Err(Memory);
        }
        if areas.push(area_at(*level, row, top)).is_err() {
            return Err(Memory);
        }
    }
    Ok(areas)
}

/// The area of a row of a level.
fn area_at(level: usize, row: usize, top: usize) -> Area {
    Area {
        x: level.saturating_mul(COLUMN).saturating_add(20),
        y: row.saturating_mul(ROW).saturating_add(top),
        width: WIDTH,
        height: HEIGHT,
    }
}

/// An arrow for each edge.
fn draw_edges(alloc: Global, sheet: &mut Sheet, areas: &[Area], edges: &Edges) -> Result<(), Memory>
    ensures drawn { IfOk result (λ _. (arrows : List (List ℕ)) × Draws [] arrows 0 sheet.old.marks sheet.new.marks) }
{
    for edge in &edges.all {
        draw_edge(alloc, sheet, areas, *edge)?;
    }
    Ok(())
}

fn draw_edge(alloc: Global, sheet: &mut Sheet, areas: &[Area], edge: Edge) -> Result<(), Memory>
    ensures drawn { IfOk result (λ _. (arrows : List (List ℕ)) × Draws [] arrows 0 sheet.old.marks sheet.new.marks) }
{
    let (Some(from), Some(to)) = (areas.get(edge.from), areas.get(edge.to)) else {
        return Ok(());
    };
    let way = Way {
        x: from.x.saturating_add(WIDTH),
        y: from.y.saturating_add(13),
        to_x: to.x,
        to_y: to.y.saturating_add(13),
    };
    let tip = Plain::new(alloc);
    sheet.arrow(way, "#888", false, &tip)?;
    Ok(())
}

/// Each of these nodes, in its area.
fn draw_nodes(
    alloc: Global,
    sheet: &mut Sheet,
    nodes: &[Node],
    areas: &[Area],
) -> Result<(), Memory>
    ensures drawn { IfOk result (λ _. Draws (titles nodes.now) [] 0 sheet.old.marks sheet.new.marks) }
{
    for node in nodes {
        draw_node(alloc, sheet, node, area_of(areas, node))?;
    }
    Ok(())
}

/// The area of a node.
fn area_of(areas: &[Area], node: &Node) -> Area {
    match areas.get(node.rank.node) {
        Some(area) => *area,
        None => area_at(0, 0, 0),
    }
}

fn draw_node(alloc: Global, sheet: &mut Sheet, node: &Node, area: Area) -> Result<(), Memory>
    ensures drawn { IfOk result (λ _. Draws (node.now.tip ∷ []) [] 0 sheet.old.marks sheet.new.marks) }
{
    let mut text = Plain::new(alloc);
    text.put_all(&node.text)?;
    if node.count > 1 {
        text.put(" x ".as_bytes())?;
        text.put_number(node.count as u64)?;
    }
    let look = Look {
        colour: node.colour,
        red: node.again,
        dashed: false,
    };
    sheet.boxed(area, look, 11, &text, &node.tip)?;
    Ok(())
}
