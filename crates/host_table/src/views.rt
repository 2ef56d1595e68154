//! What is known of a worker.
use crate::told::{Service, Stop};
use std::collections::LinkedList;

/// What a worker tells: what it served, and where its clock ended. It exists in proofs alone.
pub struct Row {
    pub list: LinkedList<Service>,
    pub stop: Option<Stop>,
}
