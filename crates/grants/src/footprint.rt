// What a footprint gives a spawned task, line by line.
ghost use Rattle.std.specs.Prelude.{◌≡◌, get_or};
ghost use Rattle.semantics.specs.Access.{access_fault};
ghost use Rattle.semantics.specs.Footprint.{merged, granted};
ghost use Rattle.semantics.specs.Run.{no_modes};
ghost use Rattle.grants.specs.Grants.{named_location, named_mode, fault_of, grant_of, child_registers, child_grant, grants_from};

use arrays::{mode_in, with_mode};
use semantics::Fault;
use tasklist::Line;

// The value of register `r`, 0 where there is none.
pub fn register_at(registers: [u32; 4], r: u8) -> u32
    ensures { result ≡ get_or registers r 0 }
{
    registers.get(usize::from(r)).copied().unwrap_or(0)
}

// The location that register `r` names.
// Kept: `as`, since no `From` widens a u32 to a usize, and any value is taken.
pub fn location_at(registers: [u32; 4], r: u8) -> usize
    ensures { result ≡ get_or registers r 0 }
{
    register_at(registers, r) as usize
}

// An access by the task's own mode there, or its fault.
// Kept: modes are numbers, as the table of modes holds them, and any is taken; a narrower type would ask more of callers.
#[tactic(auto, using(crate::proofs::GrantLaws::faults))]
pub fn access_fault(own: u8, asked: u8) -> Result<(), Fault>
    ensures { fault_of result ≡ access_fault own asked }
{
    match (own, asked) {
        (1, 0..=1) | (2, 0..=3) | (3, 0 | 3) => Ok(()),
        (1, 2..=3) | (3, 1..=2) => Err(Fault::Mode),
        _ => Err(Fault::Outside),
    }
}

// The location that a line names.
// Kept: a line's kind is a number, as the tables hold it, and any is taken; a narrower type would ask more of callers.
#[tactic(auto, unfolding(crate::specs::Grants::named_location))]
fn location_of(line: Line, registers: [u32; 4]) -> usize
    ensures { result ≡ named_location registers line }
{
    match line.kind {
        0 | 1 | 4 => usize::from(line.value),
        2 | 3 | 5 => location_at(registers, line.value),
        _ => 0,
    }
}

// The mode that a line asks for.
#[tactic(auto, unfolding(crate::specs::Grants::named_mode))]
fn mode_of(line: Line) -> u8
    ensures { result ≡ named_mode line }
{
    match line.kind {
        0 | 2 => 1,
        1 | 3 => 2,
        4 | 5 => 3,
        _ => 0,
    }
}

// The mode of a location by the lines before, 0 for none, and by this one: the common mode, or write where they differ.
#[tactic(auto, using(crate::proofs::GrantLaws::merges))]
fn merged_mode(earlier: u8, asked: u8) -> u8
    ensures { result ≡ merged earlier asked }
{
    match (earlier, asked) {
        (0, mode) | (mode, 0) => mode,
        _ if earlier == asked => asked,
        _ => 2,
    }
}

// Request 104: "Child i has R0 = i." The registers of child i, by those of the foremost, child 0.
#[tactic(auto, using(crate::proofs::TestedLaws::own_numbers))]
pub fn child_registers(registers: [u32; 4], i: u32) -> [u32; 4]
    ensures { result ≡ child_registers i registers }
{
    let mut out = registers;
    if i != 0 {
        out[0] = i;
    }
    out
}

// A task that makes others: the lines of the footprint that it makes them under, its registers as the foremost sees them, its own
// modes.
#[derive(Clone, Copy)]
pub struct Spawner<'a> {
    pub lines: &'a [Line],
    pub registers: [u32; 4],
    pub modes: [u8; 64],
}

impl Spawner<'_> {
    // The modes that child `i` is given, or the fault of the spawn.
    #[tactic(auto, using(crate::proofs::GrantLaws::lines_granted), unfolding(semantics::specs::Run::no_modes))]
    pub fn granted(&self, i: u8) -> Result<[u8; 64], Fault>
        ensures { grant_of result ≡ child_grant self.now.registers self.now.modes self.now.lines.now i }
    {
        let registers = child_registers(self.registers, u32::from(i));
        let mut modes = [0u8; 64];
        for line in self.lines {
            let location = location_of(*line, registers);
            let asked = mode_of(*line);
            access_fault(mode_in(&self.modes, location), asked)?;
            let mode = merged_mode(mode_in(&modes, location), asked);
            // Kept: a name for the row, since a call's array is not assigned to a variable that is there.
            let more = with_mode(modes, location, mode);
            modes = more;
        }
        Ok(modes)
    }

    // What the children are given: "in order of children and lines" the first fault, else the modes of the last child.
    #[tactic(auto, using(crate::proofs::TestedLaws::children_granted), unfolding(semantics::specs::Run::no_modes))]
    pub fn granted_all(&self, children: u8) -> Result<[u8; 64], Fault>
        ensures { grant_of result ≡ grants_from (child_grant self.now.registers self.now.modes self.now.lines.now) 0 children (granted no_modes) }
    {
        let mut given = [0u8; 64];
        for i in 0..children {
            given = self.granted(i)?;
        }
        Ok(given)
    }
}
