// The head that a step moves, at a clock. Its table and the clock are within their limits, so that sums of ticks fit. What a send, a timer and
// a hearing make of it stands in the file of each.
ghost use Rattle.steps.specs.Ready.{Sender};

use rules::Table;

#[derive(Clone, Copy)]
pub struct Mover<'a> {
    pub table: &'a Table,
    pub clock: u32,
    pub head: u8,
    ghost ready: { Sender table.now clock head },
}
