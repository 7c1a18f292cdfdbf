//! What lies on a worker's shelf, and where something that an order needs lies.

use ciel_store::shelves::Place;
use sky_base::name::Name;
use sky_base::object::Object;
use sky_frozen_bytes::frozen::Frozen;

/// What lies on a worker's shelf: the object of a description, or the stack of a task at a wait.
#[derive(Drop)]
pub enum Block {
    Object(Object),
    Frozen(Frozen),
}

/// Where an object lies: at a place of a worker's shelf, or among the job's inputs, under its number from 0.
#[derive(Drop)]
pub enum Spot {
    Shelf(Place<Block>),
    Input(u32),
}

/// A name with where its object lies.
#[derive(Drop)]
pub struct Held {
    pub name: Name,
    pub at: Spot,
}
