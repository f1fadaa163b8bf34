// Where the sections of the records begin (specs/Records): the counts by area and the voltages by node, both from 1; then, by row, from 0, the from-side
// currents, the to-end currents and the histories; by node from 1, the peaks and their steps; by row, the latches. From END on no word is used.
use crate::limits::Room;
use num_quantity::Node;

pub const COUNTS: usize = 0;

pub const VOLTS: usize = COUNTS + Node::MAX as usize;

pub const CURRENTS: usize = VOLTS + Node::MAX as usize;

pub const TO_CURRENTS: usize = CURRENTS + Room::ROWS;

pub const HISTORIES: usize = TO_CURRENTS + Room::ROWS;

pub const PEAKS: usize = HISTORIES + Room::ROWS;

pub const PEAK_STEPS: usize = PEAKS + Node::MAX as usize;

pub const LATCHES: usize = PEAK_STEPS + Node::MAX as usize;

pub const END: usize = LATCHES + Room::ROWS;
