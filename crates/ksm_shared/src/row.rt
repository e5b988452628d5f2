//! A row of counters, and what a reader has seen of the rows.
use crate::beginning::Beginning;
use ksm_base::Counters;
use std::collections::LinkedList;

/// Counters, and after how many entries of the journal they stand.
#[derive(Clone, Copy, PartialEq, Eq, Debug)]
pub struct Row {
    pub number: u64,
    pub counters: Counters,
}

/// What a place among the rows knows: how far the journal had come that it saw last, and for each look by it the row
/// that was then shown. Contracts speak of it; no value of it is made.
pub struct Sight {
    pub reached: Beginning,
    pub looks: LinkedList<Row>,
}
