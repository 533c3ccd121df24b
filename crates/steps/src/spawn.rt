// The tasks that a step makes.
// Kept: a u32 becomes a usize by `as`, since there is no `From`.
// Kept: parameters side by side, as the step has them. It is the one caller, so a struct would be filled there and taken apart here.
ghost use Rattle.std.specs.Prelude.{◌<◌};
ghost use Rattle.steps.specs.Stepping.{SpawnedBy};

use arrays::Order;
use changes::{Change, Made, changed};
use grants::Spawner;
use plans::Spawning;
use records::{failed, holding, newborn, passed};
use semantics::Record;
use tables::Block;
use tasklist::Tables;

// So many tasks are made, or none: "A spawn that faults has no child."; request 104: "If any child would fault, in order of
// children and lines, none is made."
pub fn spawned(
    tables: &Tables,
    modes: &mut [u8; 8192],
    order: &mut Order,
    own: Record,
    task: usize,
    place: usize,
    spawning: Spawning,
    weight: u32,
) -> Change
    requires { task < 128 }
    ensures { SpawnedBy tables.now modes.old order.old modes.new order.new own task place spawning weight result }
{
    let lines = listing::footprint_lines(tables, usize::from(spawning.footprint));
    let seen = holding(own, 0, spawning.first);
    let registers = seen.registers;
    let row = arrays::row_of(modes, task);
    let spawner = Spawner {
        lines,
        registers,
        modes: row,
    };
    match spawner.granted_all(spawning.children) {
        Err(fault) => changed(failed(own, u8::from(fault)), weight),
        Ok(last) => {
            let after = changed(passed(own, 0), weight);
            let block = Block {
                first: tables::child_number(tables, task, usize::from(own.body), own.pc as usize),
                apart: listing::task_count(tables, usize::from(spawning.body)),
                children: spawning.children,
            };
            if !block.fits(order.left) {
                return after;
            }
            tables::put_children(&spawner, last, modes, order, place, block);
            Change {
                made: Some(Made {
                    block,
                    record: newborn(seen, spawning.body),
                }),
                ..after
            }
        }
    }
}
